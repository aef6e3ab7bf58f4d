//! Remainders, row by row.
ghost use Rattle.col_model.specs.Cell.{whole};
ghost use Rattle.col_model.specs.WholeStep.{remainder, checked, plain, whole_step};
ghost use Rattle.col_types.specs.Answer.{Answers};
ghost use Rattle.col_types.specs.Column.{kernel_answer, scalar_answer};
ghost use Rattle.col_flat.specs.Parts.{column_of};

use crate::kernels;
use crate::operator::Remainder;
use col_flat::PrimitiveArray;
use col_types::{Error, NativeArithmetics};
use std::alloc::Global;

/// The remainders of the first array by the second, row by row, with the sign of the dividend. A
/// row where either slot is null is null; the type is that of `lhs`.
///
/// Refused, in this order: `Lengths` exactly where the arrays differ in length; as the least row is
/// refused that has two valid slots and either a divisor of 0, with `DivideByZero`, or a quotient
/// that does not fit, with `Overflow`.
pub fn rem<T: NativeArithmetics>(
    alloc: Global,
    lhs: &PrimitiveArray<T>,
    rhs: &PrimitiveArray<T>,
) -> Result<PrimitiveArray<T>, Error>
    ensures answer { Answers column_of result
        (kernel_answer (whole_step remainder plain T.whole_type)
        (column_of lhs.now) (column_of rhs.now)) }
{
    kernels::plain_two::<T, Remainder>(alloc, lhs, rhs)
}

/// The remainders of the first array by the second, row by row, with the sign of the dividend. A
/// row is null where either slot is null, the divisor is 0, or the quotient does not fit; the type
/// is that of `lhs`.
///
/// Refused: `Lengths` exactly where the arrays differ in length.
pub fn checked_rem<T: NativeArithmetics>(
    alloc: Global,
    lhs: &PrimitiveArray<T>,
    rhs: &PrimitiveArray<T>,
) -> Result<PrimitiveArray<T>, Error>
    ensures answer { Answers column_of result
        (kernel_answer (whole_step remainder checked T.whole_type)
        (column_of lhs.now) (column_of rhs.now)) }
{
    kernels::checked_two::<T, Remainder>(alloc, lhs, rhs)
}

/// The remainder of each slot by a number, with the sign of the slot. A null slot stays null; the
/// type is that of `lhs`.
///
/// Refused: `DivideByZero` exactly where the number is 0 and some slot is valid; `Overflow` exactly
/// where the quotient of some valid slot by the number does not fit.
pub fn rem_scalar<T: NativeArithmetics>(
    alloc: Global,
    lhs: &PrimitiveArray<T>,
    rhs: &T,
) -> Result<PrimitiveArray<T>, Error>
    ensures answer { Answers column_of result
        (scalar_answer (whole_step remainder plain T.whole_type)
        (column_of lhs.now) (whole (T.value rhs.now))) }
{
    kernels::plain_one::<T, Remainder>(alloc, lhs, rhs)
}

/// The remainder of each slot by a number, with the sign of the slot. A null slot stays null, and a
/// slot is null where the number is 0 or the quotient does not fit; the type is that of `lhs`.
///
/// No row is refused.
pub fn checked_rem_scalar<T: NativeArithmetics>(
    alloc: Global,
    lhs: &PrimitiveArray<T>,
    rhs: &T,
) -> Result<PrimitiveArray<T>, Error>
    ensures answer { Answers column_of result
        (scalar_answer (whole_step remainder checked T.whole_type)
        (column_of lhs.now) (whole (T.value rhs.now))) }
{
    kernels::checked_one::<T, Remainder>(alloc, lhs, rhs)
}
