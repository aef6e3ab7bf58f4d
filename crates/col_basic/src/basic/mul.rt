//! Products, row by row.
ghost use Rattle.col_model.specs.Cell.{whole};
ghost use Rattle.col_model.specs.WholeStep.{multiplication, checked, plain, saturating};
ghost use Rattle.col_model.specs.WholeStep.{whole_step, wrapping};
ghost use Rattle.col_types.specs.Answer.{Answers};
ghost use Rattle.col_types.specs.Column.{kernel_answer, scalar_answer};
ghost use Rattle.col_flat.specs.Parts.{column_of};
ghost use Rattle.col_basic.specs.Flagged.{flagged_answer, flagged_scalar_answer};

use crate::kernels::{self, Saturating, Wrapping};
use crate::operator::Multiplication;
use col_buf::Bitmap;
use col_flat::PrimitiveArray;
use col_types::{Error, NativeArithmetics};
use std::alloc::Global;

/// Multiplies two arrays row by row. A row where either slot is null is null; the type is that of
/// `lhs`.
///
/// Refused, in this order: `Lengths` exactly where the arrays differ in length; `Overflow` exactly
/// where some row has two valid slots whose product does not fit.
pub fn mul<T: NativeArithmetics>(
    alloc: Global,
    lhs: &PrimitiveArray<T>,
    rhs: &PrimitiveArray<T>,
) -> Result<PrimitiveArray<T>, Error>
    ensures answer { Answers column_of result
        (kernel_answer (whole_step multiplication plain T.whole_type)
        (column_of lhs.now) (column_of rhs.now)) }
{
    kernels::plain_two::<T, Multiplication>(alloc, lhs, rhs)
}

/// Multiplies two arrays row by row. A product is taken modulo 2^w, w being the width of the type.
/// A row where either slot is null is null; the type is that of `lhs`.
///
/// Refused: `Lengths` exactly where the arrays differ in length.
pub fn wrapping_mul<T: NativeArithmetics>(
    alloc: Global,
    lhs: &PrimitiveArray<T>,
    rhs: &PrimitiveArray<T>,
) -> Result<PrimitiveArray<T>, Error>
    ensures answer { Answers column_of result
        (kernel_answer (whole_step multiplication wrapping T.whole_type)
        (column_of lhs.now) (column_of rhs.now)) }
{
    kernels::total_two::<T, Multiplication, Wrapping>(alloc, lhs, rhs)
}

/// Multiplies two arrays row by row. A row where either slot is null, or whose product does not
/// fit, is null; the type is that of `lhs`.
///
/// Refused: `Lengths` exactly where the arrays differ in length.
pub fn checked_mul<T: NativeArithmetics>(
    alloc: Global,
    lhs: &PrimitiveArray<T>,
    rhs: &PrimitiveArray<T>,
) -> Result<PrimitiveArray<T>, Error>
    ensures answer { Answers column_of result
        (kernel_answer (whole_step multiplication checked T.whole_type)
        (column_of lhs.now) (column_of rhs.now)) }
{
    kernels::checked_two::<T, Multiplication>(alloc, lhs, rhs)
}

/// Multiplies two arrays row by row. A product past an end of the type is that end. A row where
/// either slot is null is null; the type is that of `lhs`.
///
/// Refused: `Lengths` exactly where the arrays differ in length.
pub fn saturating_mul<T: NativeArithmetics>(
    alloc: Global,
    lhs: &PrimitiveArray<T>,
    rhs: &PrimitiveArray<T>,
) -> Result<PrimitiveArray<T>, Error>
    ensures answer { Answers column_of result
        (kernel_answer (whole_step multiplication saturating T.whole_type)
        (column_of lhs.now) (column_of rhs.now)) }
{
    kernels::total_two::<T, Multiplication, Saturating>(alloc, lhs, rhs)
}

/// Multiplies two arrays row by row. A product is taken modulo 2^w, w being the width of the type,
/// and the flag of its row tells whether it did not fit. A row where either slot is null is null,
/// with a false flag; the type is that of `lhs`.
///
/// Refused: `Lengths` exactly where the arrays differ in length.
pub fn overflowing_mul<T: NativeArithmetics>(
    alloc: Global,
    lhs: &PrimitiveArray<T>,
    rhs: &PrimitiveArray<T>,
) -> Result<(PrimitiveArray<T>, Bitmap), Error>
    ensures answer { Answers (λ made. (column_of made.0, made.1)) result
        (flagged_answer multiplication T.whole_type (column_of lhs.now) (column_of rhs.now)) }
{
    kernels::flagged_two::<T, Multiplication>(alloc, lhs, rhs)
}

/// Multiplies each slot by a number. A null slot stays null; the type is that of `lhs`.
///
/// Refused: `Overflow` exactly where the product of some valid slot and the number does not fit.
pub fn mul_scalar<T: NativeArithmetics>(
    alloc: Global,
    lhs: &PrimitiveArray<T>,
    rhs: &T,
) -> Result<PrimitiveArray<T>, Error>
    ensures answer { Answers column_of result
        (scalar_answer (whole_step multiplication plain T.whole_type)
        (column_of lhs.now) (whole (T.value rhs.now))) }
{
    kernels::plain_one::<T, Multiplication>(alloc, lhs, rhs)
}

/// Multiplies each slot by a number. A product is taken modulo 2^w, w being the width of the type.
/// A null slot stays null; the type is that of `lhs`.
///
/// No row is refused.
pub fn wrapping_mul_scalar<T: NativeArithmetics>(
    alloc: Global,
    lhs: &PrimitiveArray<T>,
    rhs: &T,
) -> Result<PrimitiveArray<T>, Error>
    ensures answer { Answers column_of result
        (scalar_answer (whole_step multiplication wrapping T.whole_type)
        (column_of lhs.now) (whole (T.value rhs.now))) }
{
    kernels::total_one::<T, Multiplication, Wrapping>(alloc, lhs, rhs)
}

/// Multiplies each slot by a number. A null slot stays null, and a slot whose product does not fit
/// is null; the type is that of `lhs`.
///
/// No row is refused.
pub fn checked_mul_scalar<T: NativeArithmetics>(
    alloc: Global,
    lhs: &PrimitiveArray<T>,
    rhs: &T,
) -> Result<PrimitiveArray<T>, Error>
    ensures answer { Answers column_of result
        (scalar_answer (whole_step multiplication checked T.whole_type)
        (column_of lhs.now) (whole (T.value rhs.now))) }
{
    kernels::checked_one::<T, Multiplication>(alloc, lhs, rhs)
}

/// Multiplies each slot by a number. A product past an end of the type is that end. A null slot
/// stays null; the type is that of `lhs`.
///
/// No row is refused.
pub fn saturating_mul_scalar<T: NativeArithmetics>(
    alloc: Global,
    lhs: &PrimitiveArray<T>,
    rhs: &T,
) -> Result<PrimitiveArray<T>, Error>
    ensures answer { Answers column_of result
        (scalar_answer (whole_step multiplication saturating T.whole_type)
        (column_of lhs.now) (whole (T.value rhs.now))) }
{
    kernels::total_one::<T, Multiplication, Saturating>(alloc, lhs, rhs)
}

/// Multiplies each slot by a number. A product is taken modulo 2^w, w being the width of the type,
/// and the flag of its row tells whether it did not fit. A null slot stays null, with a false flag;
/// the type is that of `lhs`.
///
/// No row is refused.
pub fn overflowing_mul_scalar<T: NativeArithmetics>(
    alloc: Global,
    lhs: &PrimitiveArray<T>,
    rhs: &T,
) -> Result<(PrimitiveArray<T>, Bitmap), Error>
    ensures answer { Answers (λ made. (column_of made.0, made.1)) result
        (flagged_scalar_answer multiplication T.whole_type
        (column_of lhs.now) (whole (T.value rhs.now))) }
{
    kernels::flagged_one::<T, Multiplication>(alloc, lhs, rhs)
}
