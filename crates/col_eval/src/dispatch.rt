//! From a step on arrays of any type to the kernel that takes it.
ghost use Rattle.std.specs.Prelude.{◌≡◌, Ok, Some, replicate};
ghost use Rattle.col_model.specs.Cell.{null, whole};
ghost use Rattle.col_model.specs.WholeStep.{whole_step};
ghost use Rattle.col_types.specs.Answer.{Answers};
ghost use Rattle.col_types.specs.Column.{kernel_answer, row_count, scalar_answer};
ghost use Rattle.col_flat.specs.Parts.{column_of, slot_cell};
ghost use Rattle.col_array.specs.Any.{any_column, scalar_cell, scalar_type};
ghost use Rattle.col_eval.specs.declared.entries.Rule.TheVariants.{WholeNumbers};
ghost use Rattle.col_eval.specs.Entries.{form_of, operation_of, rule_of};
ghost use Rattle.col_eval.specs.Steps.{scalar_step_answer, step_answer};

use crate::decimals::{decimals, decimals_scalar};
use crate::entries::Rule;
use crate::expr::Op;
use col_array::{AnyArray, AnyScalar};
use col_basic::{
    add, add_scalar, checked_add, checked_add_scalar, checked_div, checked_div_scalar, checked_mul,
    checked_mul_scalar, checked_rem, checked_rem_scalar, checked_sub, checked_sub_scalar, div,
    div_scalar, mul, mul_scalar, rem, rem_scalar, saturating_add, saturating_add_scalar,
    saturating_mul, saturating_mul_scalar, saturating_sub, saturating_sub_scalar, sub, sub_scalar,
    wrapping_add, wrapping_add_scalar, wrapping_mul, wrapping_mul_scalar, wrapping_sub,
    wrapping_sub_scalar,
};
use col_flat::{PrimitiveArray, PrimitiveScalar};
use col_types::{Error, NativeArithmetics};
use std::alloc::Global;

// Matches on two operands that are whole numbers of one type, and makes the same call for each of
// the eight types. That there is no other pair of variants is told by the operands' types.
macro_rules! with_whole {
    ($lhs:expr, $any:ident, $rhs:expr, |$left:ident, $right:ident| $call:expr) => {
        match ($lhs, $rhs) {
            (AnyArray::Int8($left), $any::Int8($right)) => $call,
            (AnyArray::Int16($left), $any::Int16($right)) => $call,
            (AnyArray::Int32($left), $any::Int32($right)) => $call,
            (AnyArray::Int64($left), $any::Int64($right)) => $call,
            (AnyArray::UInt8($left), $any::UInt8($right)) => $call,
            (AnyArray::UInt16($left), $any::UInt16($right)) => $call,
            (AnyArray::UInt32($left), $any::UInt32($right)) => $call,
            (AnyArray::UInt64($left), $any::UInt64($right)) => $call,
            (lhs, rhs) => {
                let _left_type = lhs.data_type();
                let _right_type = rhs.data_type();
                unreachable!("operands of one whole-number type have one variant")
            }
        }
    };
}

/// A step on two columns, row by row.
///
/// Refused, in this order: `NotYetImplemented` exactly where the step does not take the operands'
/// types; `Parameters` exactly where two decimals differ in theirs; `Lengths` exactly where the
/// columns differ in length; the cause of the least row that the step refuses.
pub fn step(alloc: Global, op: Op, lhs: &AnyArray, rhs: &AnyArray) -> Result<AnyArray, Error>
    ensures { Answers any_column result (step_answer op (any_column lhs.now) (any_column rhs.now)) }
{
    match Rule::of(op, lhs.data_type(), rhs.data_type()) {
        Some(Rule::WholeNumbers) => whole_numbers(alloc, op, lhs, rhs),
        Some(Rule::Decimals) => decimals(alloc, op, lhs, rhs),
        None => Err(Error::NotYetImplemented),
    }
}

/// A step on a column and one value, row by row.
///
/// Refused, in this order: `NotYetImplemented` exactly where the step does not take the operands'
/// types, or no literal; `Parameters` exactly where two decimals differ in theirs; the cause of the
/// least row that the step refuses. No row is refused beside a null.
pub fn step_scalar(
    alloc: Global,
    op: Op,
    lhs: &AnyArray,
    rhs: &AnyScalar,
) -> Result<AnyArray, Error>
    ensures { Answers any_column result (scalar_step_answer op (any_column lhs.now)
        (scalar_type rhs.now) (scalar_cell rhs.now)) }
{
    match Rule::of(op, lhs.data_type(), rhs.data_type()) {
        Some(Rule::WholeNumbers) => whole_numbers_scalar(alloc, op, lhs, rhs),
        Some(Rule::Decimals) => decimals_scalar(alloc, op, lhs, rhs),
        None => Err(Error::NotYetImplemented),
    }
}

// A step on two columns of whole numbers of one type.
fn whole_numbers(alloc: Global, op: Op, lhs: &AnyArray, rhs: &AnyArray) -> Result<AnyArray, Error>
    requires { rule_of op (any_column lhs.now).data_type (any_column rhs.now).data_type
        ≡ Some WholeNumbers }
    ensures { Answers any_column result (step_answer op (any_column lhs.now) (any_column rhs.now)) }
{
    with_whole!(
        lhs,
        AnyArray,
        rhs,
        |lhs, rhs| Ok(AnyArray::from(native_step(alloc, op, lhs, rhs)?))
    )
}

// A step on a column of whole numbers and one value of its type.
fn whole_numbers_scalar(
    alloc: Global,
    op: Op,
    lhs: &AnyArray,
    rhs: &AnyScalar,
) -> Result<AnyArray, Error>
    requires { rule_of op (any_column lhs.now).data_type (scalar_type rhs.now)
        ≡ Some WholeNumbers }
    ensures { Answers any_column result (scalar_step_answer op (any_column lhs.now)
        (scalar_type rhs.now) (scalar_cell rhs.now)) }
{
    with_whole!(
        lhs,
        AnyScalar,
        rhs,
        |lhs, rhs| Ok(AnyArray::from(native_step_scalar(alloc, op, lhs, rhs)?))
    )
}

// A step on two arrays of whole numbers of one type.
fn native_step<T: NativeArithmetics>(
    alloc: Global,
    op: Op,
    lhs: &PrimitiveArray<T>,
    rhs: &PrimitiveArray<T>,
) -> Result<PrimitiveArray<T>, Error>
    requires { rule_of op (column_of lhs.now).data_type (column_of rhs.now).data_type
        ≡ Some WholeNumbers }
    ensures { Answers column_of result (step_answer op (column_of lhs.now) (column_of rhs.now)) }
{
    // The type tells the prover the numbers of the native type.
    let _data_type = lhs.data_type();
    kernel(alloc, op, lhs, rhs)
}

// A step on an array of whole numbers and one value of its type.
fn native_step_scalar<T: NativeArithmetics>(
    alloc: Global,
    op: Op,
    lhs: &PrimitiveArray<T>,
    rhs: &PrimitiveScalar<T>,
) -> Result<PrimitiveArray<T>, Error>
    requires { rule_of op (column_of lhs.now).data_type rhs.now.data_type ≡ Some WholeNumbers }
    ensures { Answers column_of result (scalar_step_answer op (column_of lhs.now)
        rhs.now.data_type (slot_cell rhs.now.slot)) }
{
    // The type tells the prover the numbers of the native type.
    let _data_type = lhs.data_type();
    match rhs.value() {
        Some(number) => kernel_scalar(alloc, op, lhs, &number),
        None => nulls_like(alloc, lhs),
    }
}

// An array of nulls with the type and the rows of another.
fn nulls_like<T: NativeArithmetics>(
    alloc: Global,
    array: &PrimitiveArray<T>,
) -> Result<PrimitiveArray<T>, Error>
    ensures { Answers column_of result (Ok (record {
      data_type = (column_of array.now).data_type;
      cells = replicate (row_count (column_of array.now)) null;
    })) }
{
    let data_type = array.data_type().try_clone(alloc)?;
    Ok(PrimitiveArray::new_null(alloc, data_type, array.len())?)
}

// The kernel of a step on two arrays.
fn kernel<T: NativeArithmetics>(
    alloc: Global,
    op: Op,
    lhs: &PrimitiveArray<T>,
    rhs: &PrimitiveArray<T>,
) -> Result<PrimitiveArray<T>, Error>
    ensures { Answers column_of result
        (kernel_answer (whole_step (operation_of op) (form_of op) T.whole_type)
        (column_of lhs.now) (column_of rhs.now)) }
{
    match op {
        Op::Add => add(alloc, lhs, rhs),
        Op::WrappingAdd => wrapping_add(alloc, lhs, rhs),
        Op::CheckedAdd => checked_add(alloc, lhs, rhs),
        Op::SaturatingAdd => saturating_add(alloc, lhs, rhs),
        Op::Sub => sub(alloc, lhs, rhs),
        Op::WrappingSub => wrapping_sub(alloc, lhs, rhs),
        Op::CheckedSub => checked_sub(alloc, lhs, rhs),
        Op::SaturatingSub => saturating_sub(alloc, lhs, rhs),
        Op::Mul => mul(alloc, lhs, rhs),
        Op::WrappingMul => wrapping_mul(alloc, lhs, rhs),
        Op::CheckedMul => checked_mul(alloc, lhs, rhs),
        Op::SaturatingMul => saturating_mul(alloc, lhs, rhs),
        Op::Div => div(alloc, lhs, rhs),
        Op::CheckedDiv => checked_div(alloc, lhs, rhs),
        Op::Rem => rem(alloc, lhs, rhs),
        Op::CheckedRem => checked_rem(alloc, lhs, rhs),
    }
}

// The kernel of a step on an array and a number.
fn kernel_scalar<T: NativeArithmetics>(
    alloc: Global,
    op: Op,
    lhs: &PrimitiveArray<T>,
    rhs: &T,
) -> Result<PrimitiveArray<T>, Error>
    ensures { Answers column_of result
        (scalar_answer (whole_step (operation_of op) (form_of op) T.whole_type)
        (column_of lhs.now) (whole (T.value rhs.now))) }
{
    match op {
        Op::Add => add_scalar(alloc, lhs, rhs),
        Op::WrappingAdd => wrapping_add_scalar(alloc, lhs, rhs),
        Op::CheckedAdd => checked_add_scalar(alloc, lhs, rhs),
        Op::SaturatingAdd => saturating_add_scalar(alloc, lhs, rhs),
        Op::Sub => sub_scalar(alloc, lhs, rhs),
        Op::WrappingSub => wrapping_sub_scalar(alloc, lhs, rhs),
        Op::CheckedSub => checked_sub_scalar(alloc, lhs, rhs),
        Op::SaturatingSub => saturating_sub_scalar(alloc, lhs, rhs),
        Op::Mul => mul_scalar(alloc, lhs, rhs),
        Op::WrappingMul => wrapping_mul_scalar(alloc, lhs, rhs),
        Op::CheckedMul => checked_mul_scalar(alloc, lhs, rhs),
        Op::SaturatingMul => saturating_mul_scalar(alloc, lhs, rhs),
        Op::Div => div_scalar(alloc, lhs, rhs),
        Op::CheckedDiv => checked_div_scalar(alloc, lhs, rhs),
        Op::Rem => rem_scalar(alloc, lhs, rhs),
        Op::CheckedRem => checked_rem_scalar(alloc, lhs, rhs),
    }
}
