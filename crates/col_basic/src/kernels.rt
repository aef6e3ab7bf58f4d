//! The kernels of each form, for any operation: on two arrays, and on an array and a number.
ghost use Rattle.std.specs.Prelude.{◌≡◌, Ok};
ghost use Rattle.col_model.specs.Cell.{whole};
ghost use Rattle.col_model.specs.WholeStep.{Form, checked, is_overflowing, plain};
ghost use Rattle.col_model.specs.WholeStep.{whole_step, wrapping};
ghost use Rattle.col_types.specs.Answer.{Answers, as_errors};
ghost use Rattle.col_types.specs.Column.{kernel_answer, scalar_answer};
ghost use Rattle.col_flat.specs.Parts.{column_of};
ghost use Rattle.col_arity.specs.Answered.{checked_cell, plain_cell};
ghost use Rattle.col_basic.specs.Flagged.{flagged_answer, flagged_scalar_answer};

use crate::operator::{Operator, TotalOperator};
use col_arity::{
    arity_assign, binary_checked, binary_with_bitmap, try_binary, try_unary, unary_checked,
    unary_with_bitmap,
};
use col_buf::Bitmap;
use col_flat::PrimitiveArray;
use col_types::{Error, NativeArithmetics};
use std::alloc::Global;

// The plain form on two arrays.
pub(crate) fn plain_two<T: NativeArithmetics, O: Operator<T>>(
    alloc: Global,
    lhs: &PrimitiveArray<T>,
    rhs: &PrimitiveArray<T>,
) -> Result<PrimitiveArray<T>, Error>
    ensures answer { Answers column_of result
        (kernel_answer (whole_step O.operation plain T.whole_type)
        (column_of lhs.now) (column_of rhs.now)) }
{
    let data_type = lhs.data_type().try_clone(alloc)?;
    let number = |a, b| plain_number::<T, O>(a, b);
    try_binary(alloc, lhs, rhs, data_type, number)
}

// The plain form on an array and a number.
pub(crate) fn plain_one<T: NativeArithmetics, O: Operator<T>>(
    alloc: Global,
    lhs: &PrimitiveArray<T>,
    rhs: &T,
) -> Result<PrimitiveArray<T>, Error>
    ensures answer { Answers column_of result
        (scalar_answer (whole_step O.operation plain T.whole_type)
        (column_of lhs.now) (whole (T.value rhs.now))) }
{
    let rhs = *rhs;
    let data_type = lhs.data_type().try_clone(alloc)?;
    try_unary(alloc, lhs, |a| plain_number::<T, O>(a, rhs), data_type)
}

// The checked form on two arrays.
pub(crate) fn checked_two<T: NativeArithmetics, O: Operator<T>>(
    alloc: Global,
    lhs: &PrimitiveArray<T>,
    rhs: &PrimitiveArray<T>,
) -> Result<PrimitiveArray<T>, Error>
    ensures answer { Answers column_of result
        (kernel_answer (whole_step O.operation checked T.whole_type)
        (column_of lhs.now) (column_of rhs.now)) }
{
    let data_type = lhs.data_type().try_clone(alloc)?;
    let number = |a, b| checked_number::<T, O>(a, b);
    binary_checked(alloc, lhs, rhs, data_type, number)
}

// The checked form on an array and a number.
pub(crate) fn checked_one<T: NativeArithmetics, O: Operator<T>>(
    alloc: Global,
    lhs: &PrimitiveArray<T>,
    rhs: &T,
) -> Result<PrimitiveArray<T>, Error>
    ensures answer { Answers column_of result
        (scalar_answer (whole_step O.operation checked T.whole_type)
        (column_of lhs.now) (whole (T.value rhs.now))) }
{
    let rhs = *rhs;
    let data_type = lhs.data_type().try_clone(alloc)?;
    unary_checked(alloc, lhs, |a| checked_number::<T, O>(a, rhs), data_type)
}

// A form that has an answer for any two numbers, on two arrays.
pub(crate) fn total_two<T: NativeArithmetics, O: TotalOperator<T>, F: TotalForm>(
    alloc: Global,
    lhs: &PrimitiveArray<T>,
    rhs: &PrimitiveArray<T>,
) -> Result<PrimitiveArray<T>, Error>
    ensures answer { Answers column_of result
        (kernel_answer (whole_step O.Operator.operation F.form T.whole_type)
        (column_of lhs.now) (column_of rhs.now)) }
{
    let number = |a, b| F::number::<T, O>(a, b);
    let mut answer = lhs.try_clone(alloc)?;
    arity_assign::binary(alloc, &mut answer, rhs, number)?;
    Ok(answer)
}

// Such a form on an array and a number.
pub(crate) fn total_one<T: NativeArithmetics, O: TotalOperator<T>, F: TotalForm>(
    alloc: Global,
    lhs: &PrimitiveArray<T>,
    rhs: &T,
) -> Result<PrimitiveArray<T>, Error>
    ensures answer { Answers column_of result
        (scalar_answer (whole_step O.Operator.operation F.form T.whole_type)
        (column_of lhs.now) (whole (T.value rhs.now))) }
{
    let rhs = *rhs;
    let mut answer = lhs.try_clone(alloc)?;
    arity_assign::unary(alloc, &mut answer, |a| F::number::<T, O>(a, rhs))?;
    Ok(answer)
}

// The overflowing form on two arrays: the wrapped numbers, and a flag for each row.
pub(crate) fn flagged_two<T: NativeArithmetics, O: TotalOperator<T>>(
    alloc: Global,
    lhs: &PrimitiveArray<T>,
    rhs: &PrimitiveArray<T>,
) -> Result<(PrimitiveArray<T>, Bitmap), Error>
    ensures answer { Answers (λ made. (column_of made.0, made.1)) result
        (flagged_answer O.Operator.operation T.whole_type
        (column_of lhs.now) (column_of rhs.now)) }
{
    let data_type = lhs.data_type().try_clone(alloc)?;
    let number = |a, b| overflowing_number::<T, O>(a, b);
    binary_with_bitmap(alloc, lhs, rhs, data_type, number)
}

// The overflowing form on an array and a number.
pub(crate) fn flagged_one<T: NativeArithmetics, O: TotalOperator<T>>(
    alloc: Global,
    lhs: &PrimitiveArray<T>,
    rhs: &T,
) -> Result<(PrimitiveArray<T>, Bitmap), Error>
    ensures answer { Answers (λ made. (column_of made.0, made.1)) result
        (flagged_scalar_answer O.Operator.operation T.whole_type
        (column_of lhs.now) (whole (T.value rhs.now))) }
{
    let rhs = *rhs;
    let data_type = lhs.data_type().try_clone(alloc)?;
    let number = |a| overflowing_number::<T, O>(a, rhs);
    unary_with_bitmap(alloc, lhs, number, data_type)
}

// What the plain form gives for two numbers.
fn plain_number<T: NativeArithmetics, O: Operator<T>>(a: T, b: T) -> Result<T, Error>
    ensures { plain_cell (λ x. whole (T.value x)) result ≡ as_errors
        (whole_step O.operation plain T.whole_type (whole (T.value a)) (whole (T.value b))) }
{
    match O::checked(a, b) {
        Some(number) => Ok(number),
        None => Err(O::refusal(b)),
    }
}

// What the checked form gives for two numbers.
fn checked_number<T: NativeArithmetics, O: Operator<T>>(a: T, b: T) -> Option<T>
    ensures { checked_cell (λ x. whole (T.value x)) result ≡ as_errors
        (whole_step O.operation checked T.whole_type (whole (T.value a)) (whole (T.value b))) }
{
    O::checked(a, b)
}

// A form that has an answer for any two numbers.
pub(crate) trait TotalForm {
    // Which form it is.
    ghost form: { Form };

    // What it gives for two numbers.
    fn number<T: NativeArithmetics, O: TotalOperator<T>>(a: T, b: T) -> T
        ensures { Ok (whole (T.value result)) ≡ as_errors
            (whole_step O.Operator.operation form T.whole_type
            (whole (T.value a)) (whole (T.value b))) };
}

// The form that wraps.
pub(crate) struct Wrapping;

impl TotalForm for Wrapping {
    ghost use Rattle.col_model.specs.WholeStep.{wrapping};

    ghost form = { wrapping };

    fn number<T: NativeArithmetics, O: TotalOperator<T>>(a: T, b: T) -> T {
        O::wrapped(a, b)
    }
}

// The form that saturates.
pub(crate) struct Saturating;

impl TotalForm for Saturating {
    ghost use Rattle.col_model.specs.WholeStep.{saturating};

    ghost form = { saturating };

    fn number<T: NativeArithmetics, O: TotalOperator<T>>(a: T, b: T) -> T {
        O::clamped(a, b)
    }
}

// What the overflowing form gives for two numbers: the wrapped number, and whether it is another
// than the exact one.
fn overflowing_number<T: NativeArithmetics, O: TotalOperator<T>>(a: T, b: T) -> (T, bool)
    ensures number { Ok (whole (T.value result.0)) ≡ as_errors
        (whole_step O.Operator.operation wrapping T.whole_type
        (whole (T.value a)) (whole (T.value b))) }
    ensures flag { result.1
        ≡ is_overflowing O.Operator.operation T.whole_type (T.value a) (T.value b) }
{
    let fits = O::checked(a, b).is_some();
    (Wrapping::number::<T, O>(a, b), !fits)
}
