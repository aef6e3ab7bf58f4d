//! Decimals: their limits, their digits, and the type that holds two; and their operations.
ghost use Rattle.std.specs.Prelude.{◌≡◌, ◌≤◌, ◌-◌, ◌+◌, ◌^◌, pos, max, min, IsTrue};
ghost use Rattle.col_types.specs.DataType.{is_fitting_decimal};
ghost use Rattle.col_decimal.specs.Decimal.{decimal_limit, digit_count};

pub(crate) mod add;
pub(crate) mod div;
pub(crate) mod mul;
pub(crate) mod sub;

/// The greatest number of so many digits: 10^p - 1.
pub fn max_value(precision: usize) -> i128
    requires { precision ≤ 38 }
    ensures { result ≡ pos (decimal_limit precision) }
{
    power_of_ten(precision) - 1
}

// 10 to the power.
pub(crate) fn power_of_ten(exponent: usize) -> i128
    requires { exponent ≤ 38 }
    ensures { result ≡ pos (10 ^ exponent) }
{
    10i128.pow(exponent as u32)
}

/// How many digits a number has, its sign apart: 0 for 0, and 39 for the least `i128`.
pub fn number_digits(num: i128) -> usize
    ensures { result ≡ digit_count num }
{
    digits_of_size(num.unsigned_abs())
}

// How many digits a number without a sign has.
pub(crate) fn digits_of_size(size: u128) -> usize
    ensures { result ≡ digit_count (pos size) }
{
    match size.checked_ilog10() {
        Some(place) => place as usize + 1,
        None => 0,
    }
}

/// The least type that holds the numbers of two decimal types: its precision, its scale, which is
/// the larger of theirs, and by how many places their scales differ. The precision may pass 38.
pub fn adjusted_precision_scale(
    lhs_p: usize,
    lhs_s: usize,
    rhs_p: usize,
    rhs_s: usize,
) -> (usize, usize, usize)
    requires left { IsTrue (is_fitting_decimal lhs_p lhs_s) }
    requires right { IsTrue (is_fitting_decimal rhs_p rhs_s) }
    ensures precision { result.0 ≡ max (lhs_p - lhs_s) (rhs_p - rhs_s) + max lhs_s rhs_s }
    ensures scale { result.1 ≡ max lhs_s rhs_s }
    ensures difference { result.2 ≡ max lhs_s rhs_s - min lhs_s rhs_s }
{
    let scale = lhs_s.max(rhs_s);
    let before_point = (lhs_p - lhs_s).max(rhs_p - rhs_s);
    (before_point + scale, scale, lhs_s.abs_diff(rhs_s))
}
