//! What the texts of a document name.
ghost use Rattle.std.specs.Prelude.{◌≡◌, ◌&&◌, ◌||◌, ◌==◌, IfSome, IsSome, length, not, option_map};
ghost use Rattle.std.specs.Prelude.{slice_index};
ghost use Rattle.col_types.specs.DataKind.{kind_of};
ghost use Rattle.col_types.specs.DataType.{whole_type_of};
ghost use Rattle.col_document.specs.Document.{count_named, position_named, step_named, type_named};

use col_eval::Op;
use col_types::DataType;

/// The position that a column's name tells: `c`, then a count.
pub fn read_position(text: &str) -> Option<u32>
    ensures { result ≡ position_named text.now }
{
    match text.strip_prefix('c') {
        Some(digits) => read_count(digits),
        None => None,
    }
}

/// The step of a name.
pub fn read_step(text: &str) -> Option<Op>
    ensures { result ≡ step_named text.now }
{
    match text {
        "add" => Some(Op::Add),
        "wrapping_add" => Some(Op::WrappingAdd),
        "checked_add" => Some(Op::CheckedAdd),
        "saturating_add" => Some(Op::SaturatingAdd),
        "sub" => Some(Op::Sub),
        "wrapping_sub" => Some(Op::WrappingSub),
        "checked_sub" => Some(Op::CheckedSub),
        "saturating_sub" => Some(Op::SaturatingSub),
        "mul" => Some(Op::Mul),
        "wrapping_mul" => Some(Op::WrappingMul),
        "checked_mul" => Some(Op::CheckedMul),
        "saturating_mul" => Some(Op::SaturatingMul),
        "div" => Some(Op::Div),
        "checked_div" => Some(Op::CheckedDiv),
        "rem" => Some(Op::Rem),
        "checked_rem" => Some(Op::CheckedRem),
        _ => None,
    }
}

/// The type of a name.
pub fn read_type_name(text: &str) -> Option<DataType>
    ensures value { option_map kind_of result ≡ type_named text.now }
    ensures made { IfSome result (λ data_type. IsSome (whole_type_of (kind_of data_type))) }
{
    match text {
        "Int8" => Some(DataType::Int8),
        "Int16" => Some(DataType::Int16),
        "Int32" => Some(DataType::Int32),
        "Int64" => Some(DataType::Int64),
        "UInt8" => Some(DataType::UInt8),
        "UInt16" => Some(DataType::UInt16),
        "UInt32" => Some(DataType::UInt32),
        "UInt64" => Some(DataType::UInt64),
        _ => None,
    }
}

/// The count that digits name: a number below 2^32 without a zero in front. `None` where the text
/// has anything but digits, a zero in front of others, or a greater number.
pub fn read_count(digits: &str) -> Option<u32>
    ensures { result ≡ count_named digits.now }
{
    if begins_shortest(digits) {
        digits.parse::<u32>().ok()
    } else {
        None
    }
}

// Whether a text begins neither with a sign nor with a zero in front of others.
fn begins_shortest(text: &str) -> bool
    ensures { result ≡ (not (slice_index text.now 0 == 43)
        && (length text.now == 1 || not (slice_index text.now 0 == 48))) }
{
    match text.as_bytes() {
        [b'+', ..] | [b'0', _, ..] => false,
        _ => true,
    }
}
