//! Products of decimals, row by row.
ghost use Rattle.col_types.specs.Answer.{Answers};
ghost use Rattle.col_flat.specs.Parts.{column_of, slot_cell};
ghost use Rattle.col_decimal.specs.Adaptive.{adaptive_answer};
ghost use Rattle.col_decimal.specs.DecimalStep.{multiplication, checked, decimal_answer};
ghost use Rattle.col_decimal.specs.DecimalStep.{decimal_scalar_answer, plain, saturating};

use crate::adaptive::adaptive_two;
use crate::kernels::{Plain, Saturating, checked_two, plain_one, refusing_two};
use crate::operator::Multiplication;
use col_flat::{PrimitiveArray, PrimitiveScalar};
use col_types::Error;
use std::alloc::Global;

/// Multiplies two arrays of decimals with the same parameters, row by row; the product of the
/// stored numbers is divided by 10^s, toward zero, s being the scale. A row where either slot is
/// null is null; the type is that of `lhs`.
///
/// Refused, in this order: `Parameters` exactly where precision or scale differ; `Lengths` exactly
/// where the arrays differ in length; `Overflow` exactly where the product of the stored numbers of
/// some two valid slots passes 128 bits or its quotient has more digits than the precision.
pub fn mul(
    alloc: Global,
    lhs: &PrimitiveArray<i128>,
    rhs: &PrimitiveArray<i128>,
) -> Result<PrimitiveArray<i128>, Error>
    ensures answer { Answers column_of result
        (decimal_answer multiplication plain (column_of lhs.now) (column_of rhs.now)) }
{
    refusing_two::<Multiplication, Plain>(alloc, lhs, rhs)
}

/// Multiplies each slot of an array of decimals by a scalar with the same parameters; the product
/// of the stored numbers is divided by 10^s, toward zero, s being the scale. A null slot stays
/// null, and where the scalar is null each slot is; the type is that of `lhs`.
///
/// Refused, in this order: `Parameters` exactly where precision or scale differ; `Overflow` exactly
/// where the product of the stored numbers of some valid slot and the scalar passes 128 bits or its
/// quotient has more digits than the precision.
pub fn mul_scalar(
    alloc: Global,
    lhs: &PrimitiveArray<i128>,
    rhs: &PrimitiveScalar<i128>,
) -> Result<PrimitiveArray<i128>, Error>
    ensures answer { Answers column_of result
        (decimal_scalar_answer multiplication plain (column_of lhs.now)
        rhs.now.data_type (slot_cell rhs.now.slot)) }
{
    plain_one::<Multiplication>(alloc, lhs, rhs)
}

/// Multiplies two arrays of decimals with the same parameters, row by row; the product of the
/// stored numbers is divided by 10^s, toward zero, s being the scale. Where the product passes 128
/// bits, or the quotient has more digits than the precision, the row is the greatest number of the
/// precision, or its negative where the two numbers differ in sign. A row where either slot is null
/// is null; the type is that of `lhs`.
///
/// Refused, in this order: `Parameters` exactly where precision or scale differ; `Lengths` exactly
/// where the arrays differ in length.
pub fn saturating_mul(
    alloc: Global,
    lhs: &PrimitiveArray<i128>,
    rhs: &PrimitiveArray<i128>,
) -> Result<PrimitiveArray<i128>, Error>
    ensures answer { Answers column_of result
        (decimal_answer multiplication saturating (column_of lhs.now) (column_of rhs.now)) }
{
    refusing_two::<Multiplication, Saturating>(alloc, lhs, rhs)
}

/// Multiplies two arrays of decimals with the same parameters, row by row; the product of the
/// stored numbers is divided by 10^s, toward zero, s being the scale. A row is null where either
/// slot is null, or where the product passes 128 bits or its quotient has more digits than the
/// precision; the type is that of `lhs`.
///
/// Refused, in this order: `Parameters` exactly where precision or scale differ; `Lengths` exactly
/// where the arrays differ in length.
pub fn checked_mul(
    alloc: Global,
    lhs: &PrimitiveArray<i128>,
    rhs: &PrimitiveArray<i128>,
) -> Result<PrimitiveArray<i128>, Error>
    ensures answer { Answers column_of result
        (decimal_answer multiplication checked (column_of lhs.now) (column_of rhs.now)) }
{
    checked_two::<Multiplication>(alloc, lhs, rhs)
}

/// Multiplies two arrays of decimals of any parameters, row by row, at the larger of their scales,
/// s: the product by 10^s, toward zero; null where either is null. The answer has that scale and
/// the precision of `adjusted_precision_scale`, or of its longest number, where that is more.
///
/// Refused, in this order: `Parameters` exactly where the precision of `adjusted_precision_scale`
/// passes 38; `Lengths` exactly where the arrays differ in length; `Overflow` exactly where some
/// two valid slots have a number at that scale or a product past 128 bits, or a result of more than
/// 38 digits.
pub fn adaptive_mul(
    alloc: Global,
    lhs: &PrimitiveArray<i128>,
    rhs: &PrimitiveArray<i128>,
) -> Result<PrimitiveArray<i128>, Error>
    ensures answer { Answers column_of result
        (adaptive_answer multiplication (column_of lhs.now) (column_of rhs.now)) }
{
    adaptive_two::<Multiplication>(alloc, lhs, rhs)
}
