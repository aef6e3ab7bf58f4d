//! Differences, row by row.
ghost use Rattle.col_model.specs.Cell.{whole};
ghost use Rattle.col_model.specs.WholeStep.{subtraction, checked, plain, saturating};
ghost use Rattle.col_model.specs.WholeStep.{whole_step, wrapping};
ghost use Rattle.col_types.specs.Answer.{Answers};
ghost use Rattle.col_types.specs.Column.{kernel_answer, scalar_answer};
ghost use Rattle.col_flat.specs.Parts.{column_of};
ghost use Rattle.col_basic.specs.Flagged.{flagged_answer, flagged_scalar_answer};

use crate::kernels::{self, Saturating, Wrapping};
use crate::operator::Subtraction;
use col_buf::Bitmap;
use col_flat::PrimitiveArray;
use col_types::{Error, NativeArithmetics};
use std::alloc::Global;

/// Subtracts the second array from the first, row by row. A row where either slot is null is null;
/// the type is that of `lhs`.
///
/// Refused, in this order: `Lengths` exactly where the arrays differ in length; `Overflow` exactly
/// where some row has two valid slots whose difference does not fit.
pub fn sub<T: NativeArithmetics>(
    alloc: Global,
    lhs: &PrimitiveArray<T>,
    rhs: &PrimitiveArray<T>,
) -> Result<PrimitiveArray<T>, Error>
    ensures answer { Answers column_of result
        (kernel_answer (whole_step subtraction plain T.whole_type)
        (column_of lhs.now) (column_of rhs.now)) }
{
    kernels::plain_two::<T, Subtraction>(alloc, lhs, rhs)
}

/// Subtracts the second array from the first, row by row. A difference is taken modulo 2^w, w being
/// the width of the type. A row where either slot is null is null; the type is that of `lhs`.
///
/// Refused: `Lengths` exactly where the arrays differ in length.
pub fn wrapping_sub<T: NativeArithmetics>(
    alloc: Global,
    lhs: &PrimitiveArray<T>,
    rhs: &PrimitiveArray<T>,
) -> Result<PrimitiveArray<T>, Error>
    ensures answer { Answers column_of result
        (kernel_answer (whole_step subtraction wrapping T.whole_type)
        (column_of lhs.now) (column_of rhs.now)) }
{
    kernels::total_two::<T, Subtraction, Wrapping>(alloc, lhs, rhs)
}

/// Subtracts the second array from the first, row by row. A row where either slot is null, or whose
/// difference does not fit, is null; the type is that of `lhs`.
///
/// Refused: `Lengths` exactly where the arrays differ in length.
pub fn checked_sub<T: NativeArithmetics>(
    alloc: Global,
    lhs: &PrimitiveArray<T>,
    rhs: &PrimitiveArray<T>,
) -> Result<PrimitiveArray<T>, Error>
    ensures answer { Answers column_of result
        (kernel_answer (whole_step subtraction checked T.whole_type)
        (column_of lhs.now) (column_of rhs.now)) }
{
    kernels::checked_two::<T, Subtraction>(alloc, lhs, rhs)
}

/// Subtracts the second array from the first, row by row. A difference past an end of the type is
/// that end. A row where either slot is null is null; the type is that of `lhs`.
///
/// Refused: `Lengths` exactly where the arrays differ in length.
pub fn saturating_sub<T: NativeArithmetics>(
    alloc: Global,
    lhs: &PrimitiveArray<T>,
    rhs: &PrimitiveArray<T>,
) -> Result<PrimitiveArray<T>, Error>
    ensures answer { Answers column_of result
        (kernel_answer (whole_step subtraction saturating T.whole_type)
        (column_of lhs.now) (column_of rhs.now)) }
{
    kernels::total_two::<T, Subtraction, Saturating>(alloc, lhs, rhs)
}

/// Subtracts the second array from the first, row by row. A difference is taken modulo 2^w, w being
/// the width of the type, and the flag of its row tells whether it did not fit. A row where either
/// slot is null is null, with a false flag; the type is that of `lhs`.
///
/// Refused: `Lengths` exactly where the arrays differ in length.
pub fn overflowing_sub<T: NativeArithmetics>(
    alloc: Global,
    lhs: &PrimitiveArray<T>,
    rhs: &PrimitiveArray<T>,
) -> Result<(PrimitiveArray<T>, Bitmap), Error>
    ensures answer { Answers (λ made. (column_of made.0, made.1)) result
        (flagged_answer subtraction T.whole_type (column_of lhs.now) (column_of rhs.now)) }
{
    kernels::flagged_two::<T, Subtraction>(alloc, lhs, rhs)
}

/// Subtracts a number from each slot. A null slot stays null; the type is that of `lhs`.
///
/// Refused: `Overflow` exactly where the difference of some valid slot and the number does not fit.
pub fn sub_scalar<T: NativeArithmetics>(
    alloc: Global,
    lhs: &PrimitiveArray<T>,
    rhs: &T,
) -> Result<PrimitiveArray<T>, Error>
    ensures answer { Answers column_of result
        (scalar_answer (whole_step subtraction plain T.whole_type)
        (column_of lhs.now) (whole (T.value rhs.now))) }
{
    kernels::plain_one::<T, Subtraction>(alloc, lhs, rhs)
}

/// Subtracts a number from each slot. A difference is taken modulo 2^w, w being the width of the
/// type. A null slot stays null; the type is that of `lhs`.
///
/// No row is refused.
pub fn wrapping_sub_scalar<T: NativeArithmetics>(
    alloc: Global,
    lhs: &PrimitiveArray<T>,
    rhs: &T,
) -> Result<PrimitiveArray<T>, Error>
    ensures answer { Answers column_of result
        (scalar_answer (whole_step subtraction wrapping T.whole_type)
        (column_of lhs.now) (whole (T.value rhs.now))) }
{
    kernels::total_one::<T, Subtraction, Wrapping>(alloc, lhs, rhs)
}

/// Subtracts a number from each slot. A null slot stays null, and a slot whose difference does not
/// fit is null; the type is that of `lhs`.
///
/// No row is refused.
pub fn checked_sub_scalar<T: NativeArithmetics>(
    alloc: Global,
    lhs: &PrimitiveArray<T>,
    rhs: &T,
) -> Result<PrimitiveArray<T>, Error>
    ensures answer { Answers column_of result
        (scalar_answer (whole_step subtraction checked T.whole_type)
        (column_of lhs.now) (whole (T.value rhs.now))) }
{
    kernels::checked_one::<T, Subtraction>(alloc, lhs, rhs)
}

/// Subtracts a number from each slot. A difference past an end of the type is that end. A null slot
/// stays null; the type is that of `lhs`.
///
/// No row is refused.
pub fn saturating_sub_scalar<T: NativeArithmetics>(
    alloc: Global,
    lhs: &PrimitiveArray<T>,
    rhs: &T,
) -> Result<PrimitiveArray<T>, Error>
    ensures answer { Answers column_of result
        (scalar_answer (whole_step subtraction saturating T.whole_type)
        (column_of lhs.now) (whole (T.value rhs.now))) }
{
    kernels::total_one::<T, Subtraction, Saturating>(alloc, lhs, rhs)
}

/// Subtracts a number from each slot. A difference is taken modulo 2^w, w being the width of the
/// type, and the flag of its row tells whether it did not fit. A null slot stays null, with a false
/// flag; the type is that of `lhs`.
///
/// No row is refused.
pub fn overflowing_sub_scalar<T: NativeArithmetics>(
    alloc: Global,
    lhs: &PrimitiveArray<T>,
    rhs: &T,
) -> Result<(PrimitiveArray<T>, Bitmap), Error>
    ensures answer { Answers (λ made. (column_of made.0, made.1)) result
        (flagged_scalar_answer subtraction T.whole_type
        (column_of lhs.now) (whole (T.value rhs.now))) }
{
    kernels::flagged_one::<T, Subtraction>(alloc, lhs, rhs)
}
