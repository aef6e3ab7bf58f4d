//! Quotients of decimals, row by row.
ghost use Rattle.col_types.specs.Answer.{Answers};
ghost use Rattle.col_flat.specs.Parts.{column_of, slot_cell};
ghost use Rattle.col_decimal.specs.Adaptive.{adaptive_answer};
ghost use Rattle.col_decimal.specs.DecimalStep.{division, checked, decimal_answer};
ghost use Rattle.col_decimal.specs.DecimalStep.{decimal_scalar_answer, plain, saturating};

use crate::adaptive::adaptive_two;
use crate::kernels::{Plain, Saturating, checked_two, plain_one, refusing_two};
use crate::operator::Division;
use col_flat::{PrimitiveArray, PrimitiveScalar};
use col_types::Error;
use std::alloc::Global;

/// Divides the first array of decimals by the second, which has the same parameters, row by row;
/// the stored dividend is multiplied by 10^s before, s being the scale, and the quotient goes
/// toward zero. A row where either slot is null is null; the type is that of `lhs`.
///
/// Refused, in this order: `Parameters` exactly where precision or scale differ; `Lengths` exactly
/// where the arrays differ in length; as the least row is refused that has two valid slots and
/// either a divisor of 0, with `DivideByZero`, or a dividend times 10^s past 128 bits or a quotient
/// with more digits than the precision, with `Overflow`.
pub fn div(
    alloc: Global,
    lhs: &PrimitiveArray<i128>,
    rhs: &PrimitiveArray<i128>,
) -> Result<PrimitiveArray<i128>, Error>
    ensures answer { Answers column_of result
        (decimal_answer division plain (column_of lhs.now) (column_of rhs.now)) }
{
    refusing_two::<Division, Plain>(alloc, lhs, rhs)
}

/// Divides each slot of an array of decimals by a scalar with the same parameters; the stored
/// dividend is multiplied by 10^s before, s being the scale, and the quotient goes toward zero. A
/// null slot stays null, and where the scalar is null each slot is; the type is that of `lhs`.
///
/// Refused, in this order: `Parameters` exactly where precision or scale differ; `DivideByZero`
/// exactly where the scalar is 0 and some slot is valid; `Overflow` exactly where the scalar is
/// valid and the stored number of some valid slot times 10^s passes 128 bits or the quotient has
/// more digits than the precision.
pub fn div_scalar(
    alloc: Global,
    lhs: &PrimitiveArray<i128>,
    rhs: &PrimitiveScalar<i128>,
) -> Result<PrimitiveArray<i128>, Error>
    ensures answer { Answers column_of result
        (decimal_scalar_answer division plain (column_of lhs.now)
        rhs.now.data_type (slot_cell rhs.now.slot)) }
{
    plain_one::<Division>(alloc, lhs, rhs)
}

/// Divides two arrays of decimals with the same parameters, row by row: the stored dividend times
/// 10^s, s being the scale, by the divisor, toward zero; null where either slot is null. Where that
/// dividend passes 128 bits, or the quotient the precision, it is the limit of the precision,
/// negative where the two numbers differ in sign. The type is that of `lhs`.
///
/// Refused, in this order: `Parameters` exactly where precision or scale differ; `Lengths` exactly
/// where the arrays differ in length; `DivideByZero` exactly where some row with two valid slots
/// has the divisor 0.
pub fn saturating_div(
    alloc: Global,
    lhs: &PrimitiveArray<i128>,
    rhs: &PrimitiveArray<i128>,
) -> Result<PrimitiveArray<i128>, Error>
    ensures answer { Answers column_of result
        (decimal_answer division saturating (column_of lhs.now) (column_of rhs.now)) }
{
    refusing_two::<Division, Saturating>(alloc, lhs, rhs)
}

/// Divides the first array of decimals by the second, which has the same parameters, row by row;
/// the stored dividend is multiplied by 10^s before, s being the scale, and the quotient goes
/// toward zero. A row is null where either slot is null, or where the divisor is 0, the dividend
/// times 10^s passes 128 bits, or the quotient has more digits than the precision; the type is that
/// of `lhs`.
///
/// Refused, in this order: `Parameters` exactly where precision or scale differ; `Lengths` exactly
/// where the arrays differ in length.
pub fn checked_div(
    alloc: Global,
    lhs: &PrimitiveArray<i128>,
    rhs: &PrimitiveArray<i128>,
) -> Result<PrimitiveArray<i128>, Error>
    ensures answer { Answers column_of result
        (decimal_answer division checked (column_of lhs.now) (column_of rhs.now)) }
{
    checked_two::<Division>(alloc, lhs, rhs)
}

/// Divides two arrays of decimals of any parameters, row by row, at the larger of their scales, s:
/// the dividend times 10^s by the divisor, toward zero; null where either is null. The scale is s,
/// the precision that of `adjusted_precision_scale` or of the longest number, where that is more.
///
/// Refused, in this order: `Parameters` exactly where the precision of `adjusted_precision_scale`
/// passes 38; `Lengths` exactly where the arrays differ in length; the cause of the least valid row
/// that has one: `DivideByZero`, or `Overflow` for a number past 128 bits on the way, or for more
/// than 38 digits.
pub fn adaptive_div(
    alloc: Global,
    lhs: &PrimitiveArray<i128>,
    rhs: &PrimitiveArray<i128>,
) -> Result<PrimitiveArray<i128>, Error>
    ensures answer { Answers column_of result
        (adaptive_answer division (column_of lhs.now) (column_of rhs.now)) }
{
    adaptive_two::<Division>(alloc, lhs, rhs)
}
