//! Whole numbers in decimal digits.
ghost use Rattle.std.specs.Prelude.{◌≡◌, ◌<◌, IfSome, length};
ghost use Rattle.std.specs.Str.Parse.{AllDigits, digits_value};
ghost use Rattle.col_json.specs.Digits.{Spells};

// The greatest number behind which any digit leaves one of 64 bits.
const MOST_BEFORE: u64 = 1844674407370955160;

/// The whole number that digits, behind a minus sign or none, spell. `None` where the text is none,
/// where the number lies below -2^63 or above 2^64 - 7, and at `-0`.
#[inline(always)]
pub fn read_digits(text: &[u8]) -> Option<i128>
    ensures { IfSome result (λ n. Spells text.now n) }
{
    match text {
        [b'-', digits @ ..] => {
            let n = value_of(digits)?;
            if n == 0 || n > 1 << 63 {
                None
            } else {
                Some(-(n as i128))
            }
        }
        digits => Some(value_of(digits)? as i128),
    }
}

// The number that digits spell, where it lies within 2^64 - 7.
#[inline(always)]
fn value_of(digits: &[u8]) -> Option<u64>
    ensures { IfSome result (λ n. AllDigits 10 digits.now × (0 < length digits.now)
        × (n ≡ digits_value 10 digits.now)) }
{
    if digits.is_empty() {
        return None;
    }
    let mut n: u64 = 0;
    for digit in digits {
        if !digit.is_ascii_digit() || n > MOST_BEFORE {
            return None;
        }
        n = n * 10 + (*digit - b'0') as u64;
    }
    Some(n)
}
