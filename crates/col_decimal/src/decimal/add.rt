//! Sums of decimals, row by row.
ghost use Rattle.col_types.specs.Answer.{Answers};
ghost use Rattle.col_flat.specs.Parts.{column_of, slot_cell};
ghost use Rattle.col_decimal.specs.Adaptive.{adaptive_answer};
ghost use Rattle.col_decimal.specs.DecimalStep.{addition, checked, decimal_answer};
ghost use Rattle.col_decimal.specs.DecimalStep.{decimal_scalar_answer, plain, saturating};

use crate::adaptive::adaptive_two;
use crate::kernels::{Plain, Saturating, checked_two, plain_one, refusing_two};
use crate::operator::Addition;
use col_flat::{PrimitiveArray, PrimitiveScalar};
use col_types::Error;
use std::alloc::Global;

/// Adds two arrays of decimals with the same parameters, row by row. A row where either slot is
/// null is null; the type is that of `lhs`.
///
/// Refused, in this order: `Parameters` exactly where precision or scale differ; `Lengths` exactly
/// where the arrays differ in length; `Overflow` exactly where the sum of some two valid slots has
/// more digits than the precision.
pub fn add(
    alloc: Global,
    lhs: &PrimitiveArray<i128>,
    rhs: &PrimitiveArray<i128>,
) -> Result<PrimitiveArray<i128>, Error>
    ensures answer { Answers column_of result
        (decimal_answer addition plain (column_of lhs.now) (column_of rhs.now)) }
{
    refusing_two::<Addition, Plain>(alloc, lhs, rhs)
}

/// Adds a scalar to each slot of an array of decimals with the same parameters. A null slot stays
/// null, and where the scalar is null each slot is; the type is that of `lhs`.
///
/// Refused, in this order: `Parameters` exactly where precision or scale differ; `Overflow` exactly
/// where the sum of some valid slot and the scalar has more digits than the precision.
pub fn add_scalar(
    alloc: Global,
    lhs: &PrimitiveArray<i128>,
    rhs: &PrimitiveScalar<i128>,
) -> Result<PrimitiveArray<i128>, Error>
    ensures answer { Answers column_of result
        (decimal_scalar_answer addition plain (column_of lhs.now)
        rhs.now.data_type (slot_cell rhs.now.slot)) }
{
    plain_one::<Addition>(alloc, lhs, rhs)
}

/// Adds two arrays of decimals with the same parameters, row by row; a sum with more digits than
/// the precision gives the greatest number of the precision, or its negative, by the sum's sign. A
/// row where either slot is null is null; the type is that of `lhs`.
///
/// Refused, in this order: `Parameters` exactly where precision or scale differ; `Lengths` exactly
/// where the arrays differ in length.
pub fn saturating_add(
    alloc: Global,
    lhs: &PrimitiveArray<i128>,
    rhs: &PrimitiveArray<i128>,
) -> Result<PrimitiveArray<i128>, Error>
    ensures answer { Answers column_of result
        (decimal_answer addition saturating (column_of lhs.now) (column_of rhs.now)) }
{
    refusing_two::<Addition, Saturating>(alloc, lhs, rhs)
}

/// Adds two arrays of decimals with the same parameters, row by row. A row is null where either
/// slot is null, or where the sum has more digits than the precision; the type is that of `lhs`.
///
/// Refused, in this order: `Parameters` exactly where precision or scale differ; `Lengths` exactly
/// where the arrays differ in length.
pub fn checked_add(
    alloc: Global,
    lhs: &PrimitiveArray<i128>,
    rhs: &PrimitiveArray<i128>,
) -> Result<PrimitiveArray<i128>, Error>
    ensures answer { Answers column_of result
        (decimal_answer addition checked (column_of lhs.now) (column_of rhs.now)) }
{
    checked_two::<Addition>(alloc, lhs, rhs)
}

/// Adds two arrays of decimals of any parameters, row by row, at the larger of their scales; null
/// where either slot is null. The answer has that scale and the precision of
/// `adjusted_precision_scale`, or as many digits as the longest number in it, where these are more.
///
/// Refused, in this order: `Parameters` exactly where the precision of `adjusted_precision_scale`
/// passes 38; `Lengths` exactly where the arrays differ in length; `Overflow` exactly where some
/// two valid slots have a number at that scale or a sum past 128 bits, or a sum of more than 38
/// digits.
pub fn adaptive_add(
    alloc: Global,
    lhs: &PrimitiveArray<i128>,
    rhs: &PrimitiveArray<i128>,
) -> Result<PrimitiveArray<i128>, Error>
    ensures answer { Answers column_of result
        (adaptive_answer addition (column_of lhs.now) (column_of rhs.now)) }
{
    adaptive_two::<Addition>(alloc, lhs, rhs)
}
