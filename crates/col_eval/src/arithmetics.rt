//! Kernels on arrays of any type, and which types each takes.
ghost use Rattle.std.specs.Prelude.{◌≡◌, ◌↔◌, IsSome, IsTrue};
ghost use Rattle.col_types.specs.Answer.{Answers};
ghost use Rattle.col_types.specs.DataKind.{kind_of};
ghost use Rattle.col_flat.specs.Parts.{column_of};
ghost use Rattle.col_array.specs.Any.{any_column, scalar_cell, scalar_type};
ghost use Rattle.col_eval.specs.declared.expr.Op.TheVariants.{Add, Div, Mul, Rem, Sub};
ghost use Rattle.col_eval.specs.Entries.{entry_of};
ghost use Rattle.col_eval.specs.Negation.{has_negative, is_negatable, negative_answer};
ghost use Rattle.col_eval.specs.Steps.{scalar_step_answer, step_answer};

use crate::dispatch::{step, step_scalar};
use crate::entries::Rule;
use crate::expr::Op;
use col_array::{AnyArray, AnyScalar, with_typed};
use col_basic::negate;
use col_flat::PrimitiveArray;
use col_types::{DataType, Error, NativeNegate, PhysicalType, PrimitiveType};
use std::alloc::Global;

/// The sums, row by row; null where either slot is null. The answer has the type of `lhs`.
///
/// Refused, in this order: `NotYetImplemented` exactly where `can_add` is false of the types;
/// `Parameters` exactly where two decimals differ in precision or scale; `Lengths` exactly where
/// the arrays differ in length; `Overflow` exactly where some row has two valid slots whose
/// sum does not fit.
pub fn add(alloc: Global, lhs: &AnyArray, rhs: &AnyArray) -> Result<AnyArray, Error>
    ensures answer { Answers any_column result
        (step_answer Add (any_column lhs.now) (any_column rhs.now)) }
{
    step(alloc, Op::Add, lhs, rhs)
}

/// The differences, row by row; null where either slot is null. The answer has the type of `lhs`.
///
/// Refused, in this order: `NotYetImplemented` exactly where `can_sub` is false of the types;
/// `Parameters` exactly where two decimals differ in precision or scale; `Lengths` exactly where
/// the arrays differ in length; `Overflow` exactly where some row has two valid slots whose
/// difference does not fit.
pub fn sub(alloc: Global, lhs: &AnyArray, rhs: &AnyArray) -> Result<AnyArray, Error>
    ensures answer { Answers any_column result
        (step_answer Sub (any_column lhs.now) (any_column rhs.now)) }
{
    step(alloc, Op::Sub, lhs, rhs)
}

/// The products, row by row; null where either slot is null. The answer has the type of `lhs`.
///
/// Refused, in this order: `NotYetImplemented` exactly where `can_mul` is false of the types;
/// `Parameters` exactly where two decimals differ in precision or scale; `Lengths` exactly where
/// the arrays differ in length; `Overflow` exactly where some row has two valid slots whose product
/// does not fit, as `col_decimal::mul` has it of decimals.
pub fn mul(alloc: Global, lhs: &AnyArray, rhs: &AnyArray) -> Result<AnyArray, Error>
    ensures answer { Answers any_column result
        (step_answer Mul (any_column lhs.now) (any_column rhs.now)) }
{
    step(alloc, Op::Mul, lhs, rhs)
}

/// The quotients, toward zero, row by row; null where either slot is null. The answer has the type
/// of `lhs`.
///
/// Refused, in this order: `NotYetImplemented` exactly where `can_div` is false of the types;
/// `Parameters` exactly where two decimals differ in precision or scale; `Lengths` exactly where
/// the arrays differ in length; the cause of the least row with two valid slots that has one:
/// `DivideByZero` where the divisor is 0, `Overflow` where the quotient does not fit, as
/// `col_decimal::div` has it of decimals.
pub fn div(alloc: Global, lhs: &AnyArray, rhs: &AnyArray) -> Result<AnyArray, Error>
    ensures answer { Answers any_column result
        (step_answer Div (any_column lhs.now) (any_column rhs.now)) }
{
    step(alloc, Op::Div, lhs, rhs)
}

/// The remainders, with the dividend's sign, row by row; null where either slot is null. The answer
/// has the type of `lhs`.
///
/// Refused, in this order: `NotYetImplemented` exactly where `can_rem` is false of the types;
/// `Lengths` exactly where the arrays differ in length; the cause of the least row with two valid
/// slots that has one: `DivideByZero` where the divisor is 0, `Overflow` where the quotient does
/// not fit.
pub fn rem(alloc: Global, lhs: &AnyArray, rhs: &AnyArray) -> Result<AnyArray, Error>
    ensures answer { Answers any_column result
        (step_answer Rem (any_column lhs.now) (any_column rhs.now)) }
{
    step(alloc, Op::Rem, lhs, rhs)
}

/// The sums of each slot and the scalar; null where either is null. The answer has the type of
/// `lhs`.
///
/// Refused, in this order: `NotYetImplemented` exactly where `can_add` is false of the types;
/// `Parameters` exactly where two decimals differ in precision or scale; `Overflow` exactly where
/// the sum of some valid slot and a valid scalar does not fit.
pub fn add_scalar(alloc: Global, lhs: &AnyArray, rhs: &AnyScalar) -> Result<AnyArray, Error>
    ensures answer { Answers any_column result (scalar_step_answer Add (any_column lhs.now)
        (scalar_type rhs.now) (scalar_cell rhs.now)) }
{
    step_scalar(alloc, Op::Add, lhs, rhs)
}

/// The differences of each slot and the scalar; null where either is null. The answer has the type
/// of `lhs`.
///
/// Refused, in this order: `NotYetImplemented` exactly where `can_sub` is false of the types;
/// `Parameters` exactly where two decimals differ in precision or scale; `Overflow` exactly where
/// the difference of some valid slot and a valid scalar does not fit.
pub fn sub_scalar(alloc: Global, lhs: &AnyArray, rhs: &AnyScalar) -> Result<AnyArray, Error>
    ensures answer { Answers any_column result (scalar_step_answer Sub (any_column lhs.now)
        (scalar_type rhs.now) (scalar_cell rhs.now)) }
{
    step_scalar(alloc, Op::Sub, lhs, rhs)
}

/// The products of each slot and the scalar; null where either is null. The answer has the type of
/// `lhs`.
///
/// Refused, in this order: `NotYetImplemented` exactly where `can_mul` is false of the types;
/// `Parameters` exactly where two decimals differ in precision or scale; `Overflow` exactly where
/// the product of some valid slot and a valid scalar does not fit, as `col_decimal::mul_scalar` has
/// it of decimals.
pub fn mul_scalar(alloc: Global, lhs: &AnyArray, rhs: &AnyScalar) -> Result<AnyArray, Error>
    ensures answer { Answers any_column result (scalar_step_answer Mul (any_column lhs.now)
        (scalar_type rhs.now) (scalar_cell rhs.now)) }
{
    step_scalar(alloc, Op::Mul, lhs, rhs)
}

/// The quotients, toward zero, of each slot and the scalar; null where either is null. The answer
/// has the type of `lhs`.
///
/// Refused, in this order: `NotYetImplemented` exactly where `can_div` is false of the types;
/// `Parameters` exactly where two decimals differ in precision or scale; where some slot is valid,
/// `DivideByZero` exactly where the scalar is 0; `Overflow` exactly where the quotient of some
/// valid slot and a valid scalar does not fit, as `col_decimal::div_scalar` has it of decimals.
pub fn div_scalar(alloc: Global, lhs: &AnyArray, rhs: &AnyScalar) -> Result<AnyArray, Error>
    ensures answer { Answers any_column result (scalar_step_answer Div (any_column lhs.now)
        (scalar_type rhs.now) (scalar_cell rhs.now)) }
{
    step_scalar(alloc, Op::Div, lhs, rhs)
}

/// The negative of each slot, field by field where the values are intervals. A null slot stays
/// null; the type stays.
///
/// Refused, in this order: `NotYetImplemented` exactly where `can_neg` is false of the type;
/// `Overflow` exactly where some valid slot has a field whose negative does not fit.
pub fn neg(alloc: Global, array: &AnyArray) -> Result<AnyArray, Error>
    ensures answer { Answers any_column result (negative_answer (any_column array.now)) }
{
    if !can_neg(array.data_type()) {
        return Err(Error::NotYetImplemented);
    }
    with_typed!(
        AnyArray,
        array,
        |array| Ok(AnyArray::from(negative(alloc, array)?))
    )
}

// The negative of each slot of an array whose values have one.
fn negative<T: NativeNegate>(
    alloc: Global,
    array: &PrimitiveArray<T>,
) -> Result<PrimitiveArray<T>, Error>
    requires { IsTrue (is_negatable (column_of array.now).data_type) }
    ensures { Answers column_of result (negative_answer (column_of array.now)) }
{
    // The type tells the prover the fields of the values.
    let _data_type = array.data_type();
    negate(alloc, array)
}

/// Whether `add` takes arrays of the two types: exactly where both are one of the eight types of
/// whole numbers of 8 to 64 bits, the same one, or both are decimals, whatever their parameters.
pub fn can_add(lhs: &DataType, rhs: &DataType) -> bool
    ensures range { IsTrue result ↔ IsSome (entry_of Add (kind_of lhs.now) (kind_of rhs.now)) }
{
    Rule::of(Op::Add, lhs, rhs).is_some()
}

/// Whether `sub` takes arrays of the two types: exactly where both are one of the eight types of
/// whole numbers of 8 to 64 bits, the same one, or both are decimals, whatever their parameters.
pub fn can_sub(lhs: &DataType, rhs: &DataType) -> bool
    ensures range { IsTrue result ↔ IsSome (entry_of Sub (kind_of lhs.now) (kind_of rhs.now)) }
{
    Rule::of(Op::Sub, lhs, rhs).is_some()
}

/// Whether `mul` takes arrays of the two types: exactly where both are one of the eight types of
/// whole numbers of 8 to 64 bits, the same one, or both are decimals, whatever their parameters.
pub fn can_mul(lhs: &DataType, rhs: &DataType) -> bool
    ensures range { IsTrue result ↔ IsSome (entry_of Mul (kind_of lhs.now) (kind_of rhs.now)) }
{
    Rule::of(Op::Mul, lhs, rhs).is_some()
}

/// Whether `div` takes arrays of the two types: exactly where both are one of the eight types of
/// whole numbers of 8 to 64 bits, the same one, or both are decimals, whatever their parameters.
pub fn can_div(lhs: &DataType, rhs: &DataType) -> bool
    ensures range { IsTrue result ↔ IsSome (entry_of Div (kind_of lhs.now) (kind_of rhs.now)) }
{
    Rule::of(Op::Div, lhs, rhs).is_some()
}

/// Whether `rem` takes arrays of the two types: exactly where both are one of the eight types of
/// whole numbers of 8 to 64 bits, the same one.
pub fn can_rem(lhs: &DataType, rhs: &DataType) -> bool
    ensures range { IsTrue result ↔ IsSome (entry_of Rem (kind_of lhs.now) (kind_of rhs.now)) }
{
    Rule::of(Op::Rem, lhs, rhs).is_some()
}

/// Whether `neg` takes arrays of the type: exactly where it is carried, and its values are stored
/// as numbers with a sign, or as intervals with several fields.
pub fn can_neg(data_type: &DataType) -> bool
    ensures range { result ≡ is_negatable (kind_of data_type.now) }
{
    data_type.is_carried()
        && match data_type.to_physical_type() {
            PhysicalType::Primitive(native) => has_negatives(native),
            _ => false,
        }
}

// Whether values of a native type have a negative.
fn has_negatives(native: PrimitiveType) -> bool
    ensures { result ≡ has_negative native }
{
    match native {
        PrimitiveType::Int8
        | PrimitiveType::Int16
        | PrimitiveType::Int32
        | PrimitiveType::Int64
        | PrimitiveType::Int128
        | PrimitiveType::DaysMs
        | PrimitiveType::MonthDayNano => true,
        PrimitiveType::UInt8
        | PrimitiveType::UInt16
        | PrimitiveType::UInt32
        | PrimitiveType::UInt64 => false,
    }
}
