//! Steps bit by bit, row by row: a negative number has the bits of two's complement.
ghost use Rattle.std.specs.Prelude.{◌≡◌, Ok};
ghost use Rattle.col_model.specs.Cell.{whole};
ghost use Rattle.col_types.specs.Answer.{Answers, as_errors};
ghost use Rattle.col_types.specs.Column.{kernel_answer, scalar_answer, unary_answer};
ghost use Rattle.col_flat.specs.Parts.{column_of};
ghost use Rattle.col_basic.specs.Bits.{and_step, not_step, or_step, xor_step};

use crate::bits;
use col_arity::arity_assign;
use col_flat::PrimitiveArray;
use col_types::{Error, NativeWhole};
use std::alloc::Global;

/// The bits that are set in one of two slots or in both, row by row. A row where either slot is
/// null is null; the type is that of `lhs`.
///
/// Refused: `Lengths` exactly where the arrays differ in length.
pub fn or<T: NativeWhole>(
    alloc: Global,
    lhs: &PrimitiveArray<T>,
    rhs: &PrimitiveArray<T>,
) -> Result<PrimitiveArray<T>, Error>
    ensures answer { Answers column_of result
        (kernel_answer (or_step T.whole_type) (column_of lhs.now) (column_of rhs.now)) }
{
    bits::bitwise::<T, bits::Or>(alloc, lhs, rhs)
}

/// The bits that are set in one of two slots alone, row by row. A row where either slot is null is
/// null; the type is that of `lhs`.
///
/// Refused: `Lengths` exactly where the arrays differ in length.
pub fn xor<T: NativeWhole>(
    alloc: Global,
    lhs: &PrimitiveArray<T>,
    rhs: &PrimitiveArray<T>,
) -> Result<PrimitiveArray<T>, Error>
    ensures answer { Answers column_of result
        (kernel_answer (xor_step T.whole_type) (column_of lhs.now) (column_of rhs.now)) }
{
    bits::bitwise::<T, bits::Xor>(alloc, lhs, rhs)
}

/// The bits that are set in both of two slots, row by row. A row where either slot is null is null;
/// the type is that of `lhs`.
///
/// Refused: `Lengths` exactly where the arrays differ in length.
pub fn and<T: NativeWhole>(
    alloc: Global,
    lhs: &PrimitiveArray<T>,
    rhs: &PrimitiveArray<T>,
) -> Result<PrimitiveArray<T>, Error>
    ensures answer { Answers column_of result
        (kernel_answer (and_step T.whole_type) (column_of lhs.now) (column_of rhs.now)) }
{
    bits::bitwise::<T, bits::And>(alloc, lhs, rhs)
}

/// The bits that are not set in each slot. A null slot stays null; the type is that of `array`. No
/// row is refused.
pub fn not<T: NativeWhole>(
    alloc: Global,
    array: &PrimitiveArray<T>,
) -> Result<PrimitiveArray<T>, Error>
    ensures answer { Answers column_of result
        (unary_answer (not_step T.whole_type) (column_of array.now)) }
{
    let mut answer = array.try_clone(alloc)?;
    arity_assign::unary(alloc, &mut answer, other_bits)?;
    Ok(answer)
}

/// The bits that are set in each slot, in a number, or in both. A null slot stays null; the type is
/// that of `lhs`. No row is refused.
pub fn or_scalar<T: NativeWhole>(
    alloc: Global,
    lhs: &PrimitiveArray<T>,
    rhs: &T,
) -> Result<PrimitiveArray<T>, Error>
    ensures answer { Answers column_of result
        (scalar_answer (or_step T.whole_type) (column_of lhs.now) (whole (T.value rhs.now))) }
{
    bits::bitwise_scalar::<T, bits::Or>(alloc, lhs, rhs)
}

/// The bits that are set in each slot or in a number, and not in both. A null slot stays null; the
/// type is that of `lhs`. No row is refused.
pub fn xor_scalar<T: NativeWhole>(
    alloc: Global,
    lhs: &PrimitiveArray<T>,
    rhs: &T,
) -> Result<PrimitiveArray<T>, Error>
    ensures answer { Answers column_of result
        (scalar_answer (xor_step T.whole_type) (column_of lhs.now) (whole (T.value rhs.now))) }
{
    bits::bitwise_scalar::<T, bits::Xor>(alloc, lhs, rhs)
}

/// The bits that are set both in each slot and in a number. A null slot stays null; the type is
/// that of `lhs`. No row is refused.
pub fn and_scalar<T: NativeWhole>(
    alloc: Global,
    lhs: &PrimitiveArray<T>,
    rhs: &T,
) -> Result<PrimitiveArray<T>, Error>
    ensures answer { Answers column_of result
        (scalar_answer (and_step T.whole_type) (column_of lhs.now) (whole (T.value rhs.now))) }
{
    bits::bitwise_scalar::<T, bits::And>(alloc, lhs, rhs)
}

// The bits that are not set in a number.
fn other_bits<T: NativeWhole>(a: T) -> T
    ensures { Ok (whole (T.value result))
        ≡ as_errors (not_step T.whole_type (whole (T.value a))) }
{
    a.bit_not()
}
