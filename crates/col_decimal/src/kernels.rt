//! The kernels of each form, for any operation: on two arrays, and on an array and a scalar.
ghost use Rattle.std.specs.Prelude.{◌≡◌, Ok, replicate};
ghost use Rattle.col_model.specs.Cell.{null, whole};
ghost use Rattle.col_types.specs.Answer.{Answers, as_errors};
ghost use Rattle.col_types.specs.Column.{kernel_answer, row_count, scalar_answer};
ghost use Rattle.col_flat.specs.Parts.{column_of, slot_cell};
ghost use Rattle.col_arity.specs.Answered.{checked_cell, plain_cell};
ghost use Rattle.col_decimal.specs.DecimalStep.{DecimalForm, checked, decimal_answer};
ghost use Rattle.col_decimal.specs.DecimalStep.{decimal_scalar_answer, decimal_step, plain};
ghost use Rattle.col_decimal.specs.DecimalStep.{unfit_decimal};

use crate::bounds::{Bounds, bounds_of};
use crate::operator::DecimalOperator;
use col_arity::{binary_checked, try_binary, try_unary};
use col_flat::{PrimitiveArray, PrimitiveScalar};
use col_types::Error;
use std::alloc::Global;

// A form that refuses a divisor of 0: the plain or the saturating one.
pub(crate) trait RefusingForm {
    // Which form it is.
    ghost form: { DecimalForm };

    // What it gives where there is no result, or none that is a number of the type.
    fn unfit<O: DecimalOperator>(bounds: Bounds, a: i128, b: i128) -> Result<i128, Error>
        ensures { plain_cell whole result
            ≡ as_errors (unfit_decimal O.operation form bounds.precision a b) };
}

// The form that refuses a result that is no number of the type.
pub(crate) struct Plain;

impl RefusingForm for Plain {
    ghost use Rattle.col_decimal.specs.DecimalStep.{plain};

    ghost form = { plain };

    fn unfit<O: DecimalOperator>(_bounds: Bounds, _a: i128, b: i128) -> Result<i128, Error> {
        if O::divides_by_zero(b) {
            Err(Error::DivideByZero)
        } else {
            Err(Error::Overflow)
        }
    }
}

// The form that gives the limit with the result's sign.
pub(crate) struct Saturating;

impl RefusingForm for Saturating {
    ghost use Rattle.col_decimal.specs.DecimalStep.{saturating};

    ghost form = { saturating };

    fn unfit<O: DecimalOperator>(bounds: Bounds, a: i128, b: i128) -> Result<i128, Error> {
        if O::divides_by_zero(b) {
            Err(Error::DivideByZero)
        } else {
            Ok(bounds.signed(O::is_negative(a, b)))
        }
    }
}

// Such a form on two arrays.
pub(crate) fn refusing_two<O: DecimalOperator, F: RefusingForm>(
    alloc: Global,
    lhs: &PrimitiveArray<i128>,
    rhs: &PrimitiveArray<i128>,
) -> Result<PrimitiveArray<i128>, Error>
    ensures answer { Answers column_of result
        (decimal_answer O.operation F.form (column_of lhs.now) (column_of rhs.now)) }
{
    let bounds = bounds_of(lhs.data_type(), rhs.data_type())?;
    refusing_rows::<O, F>(alloc, bounds, lhs, rhs)
}

// The checked form on two arrays.
pub(crate) fn checked_two<O: DecimalOperator>(
    alloc: Global,
    lhs: &PrimitiveArray<i128>,
    rhs: &PrimitiveArray<i128>,
) -> Result<PrimitiveArray<i128>, Error>
    ensures answer { Answers column_of result
        (decimal_answer O.operation checked (column_of lhs.now) (column_of rhs.now)) }
{
    let bounds = bounds_of(lhs.data_type(), rhs.data_type())?;
    checked_rows::<O>(alloc, bounds, lhs, rhs)
}

// The plain form on an array and a scalar; beside a null scalar each slot is null.
pub(crate) fn plain_one<O: DecimalOperator>(
    alloc: Global,
    lhs: &PrimitiveArray<i128>,
    rhs: &PrimitiveScalar<i128>,
) -> Result<PrimitiveArray<i128>, Error>
    ensures answer { Answers column_of result
        (decimal_scalar_answer O.operation plain (column_of lhs.now)
        rhs.now.data_type (slot_cell rhs.now.slot)) }
{
    let bounds = bounds_of(lhs.data_type(), rhs.data_type())?;
    match rhs.value() {
        Some(number) => plain_beside::<O>(alloc, bounds, lhs, number),
        None => nulls_like(alloc, lhs),
    }
}

// The plain form at each row, beside one number.
fn plain_beside<O: DecimalOperator>(
    alloc: Global,
    bounds: Bounds,
    lhs: &PrimitiveArray<i128>,
    rhs: i128,
) -> Result<PrimitiveArray<i128>, Error>
    ensures answer { Answers column_of result
        (scalar_answer (decimal_step O.operation plain bounds.precision bounds.scale)
        (column_of lhs.now) (whole rhs)) }
{
    let data_type = lhs.data_type().try_clone(alloc)?;
    let number = |a| refusing_number::<O, Plain>(bounds, a, rhs);
    try_unary(alloc, lhs, number, data_type)
}

// An array of nulls with the type and the rows of another.
fn nulls_like(alloc: Global, array: &PrimitiveArray<i128>) -> Result<PrimitiveArray<i128>, Error>
    ensures { Answers column_of result (Ok (record {
      data_type = (column_of array.now).data_type;
      cells = replicate (row_count (column_of array.now)) null;
    })) }
{
    let data_type = array.data_type().try_clone(alloc)?;
    PrimitiveArray::new_null(alloc, data_type, array.len())
}

// A form that refuses a divisor of 0, row by row.
fn refusing_rows<O: DecimalOperator, F: RefusingForm>(
    alloc: Global,
    bounds: Bounds,
    lhs: &PrimitiveArray<i128>,
    rhs: &PrimitiveArray<i128>,
) -> Result<PrimitiveArray<i128>, Error>
    ensures answer { Answers column_of result
        (kernel_answer (decimal_step O.operation F.form bounds.precision bounds.scale)
        (column_of lhs.now) (column_of rhs.now)) }
{
    let data_type = lhs.data_type().try_clone(alloc)?;
    let number = |a, b| refusing_number::<O, F>(bounds, a, b);
    try_binary(alloc, lhs, rhs, data_type, number)
}

// The checked form, row by row.
fn checked_rows<O: DecimalOperator>(
    alloc: Global,
    bounds: Bounds,
    lhs: &PrimitiveArray<i128>,
    rhs: &PrimitiveArray<i128>,
) -> Result<PrimitiveArray<i128>, Error>
    ensures answer { Answers column_of result
        (kernel_answer (decimal_step O.operation checked bounds.precision bounds.scale)
        (column_of lhs.now) (column_of rhs.now)) }
{
    let data_type = lhs.data_type().try_clone(alloc)?;
    let number = |a, b| checked_number::<O>(bounds, a, b);
    binary_checked(alloc, lhs, rhs, data_type, number)
}

// What a form that refuses a divisor of 0 gives for two numbers.
pub(crate) fn refusing_number<O: DecimalOperator, F: RefusingForm>(
    bounds: Bounds,
    a: i128,
    b: i128,
) -> Result<i128, Error>
    ensures { plain_cell whole result ≡ as_errors
        (decimal_step O.operation F.form bounds.precision bounds.scale (whole a) (whole b)) }
{
    match O::checked(bounds, a, b) {
        Some(number) => Ok(number),
        None => F::unfit::<O>(bounds, a, b),
    }
}

// What the checked form gives for two numbers.
fn checked_number<O: DecimalOperator>(bounds: Bounds, a: i128, b: i128) -> Option<i128>
    ensures { checked_cell whole result ≡ as_errors
        (decimal_step O.operation checked bounds.precision bounds.scale (whole a) (whole b)) }
{
    O::checked(bounds, a, b)
}
