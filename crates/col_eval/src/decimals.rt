//! From a step on decimals to the kernel that takes it.
ghost use Rattle.std.specs.Prelude.{◌≡◌, Some};
ghost use Rattle.col_types.specs.Answer.{Answers};
ghost use Rattle.col_flat.specs.Parts.{column_of, slot_cell};
ghost use Rattle.col_array.specs.Any.{any_column, scalar_cell, scalar_type};
ghost use Rattle.col_eval.specs.declared.entries.Rule.TheVariants.{Decimals};
ghost use Rattle.col_eval.specs.Entries.{decimal_form, decimal_operation, form_of};
ghost use Rattle.col_eval.specs.Entries.{operation_of, rule_of};
ghost use Rattle.col_eval.specs.Steps.{decimals_answer, decimals_scalar_answer};
ghost use Rattle.col_eval.specs.Steps.{scalar_step_answer, step_answer};

use crate::expr::Op;
use col_array::{AnyArray, AnyScalar};
use col_decimal::{
    add, add_scalar, checked_add, checked_div, checked_mul, checked_sub, div, div_scalar, mul,
    mul_scalar, saturating_add, saturating_mul, saturating_sub, sub, sub_scalar,
};
use col_flat::{PrimitiveArray, PrimitiveScalar};
use col_types::Error;
use std::alloc::Global;

/// A step on two columns of decimals, row by row.
pub fn decimals(alloc: Global, op: Op, lhs: &AnyArray, rhs: &AnyArray) -> Result<AnyArray, Error>
    requires { rule_of op (any_column lhs.now).data_type (any_column rhs.now).data_type
        ≡ Some Decimals }
    ensures { Answers any_column result (step_answer op (any_column lhs.now) (any_column rhs.now)) }
{
    match (lhs, rhs) {
        (AnyArray::Int128(lhs), AnyArray::Int128(rhs)) => {
            Ok(AnyArray::from(decimal_step(alloc, op, lhs, rhs)?))
        }
        (lhs, rhs) => {
            let _left_type = lhs.data_type();
            let _right_type = rhs.data_type();
            unreachable!("decimals have one variant")
        }
    }
}

/// A step on a column of decimals and one value of its type, row by row.
pub fn decimals_scalar(
    alloc: Global,
    op: Op,
    lhs: &AnyArray,
    rhs: &AnyScalar,
) -> Result<AnyArray, Error>
    requires { rule_of op (any_column lhs.now).data_type (scalar_type rhs.now) ≡ Some Decimals }
    ensures { Answers any_column result (scalar_step_answer op (any_column lhs.now)
        (scalar_type rhs.now) (scalar_cell rhs.now)) }
{
    match (lhs, rhs) {
        (AnyArray::Int128(lhs), AnyScalar::Int128(rhs)) => {
            Ok(AnyArray::from(decimal_step_scalar(alloc, op, lhs, rhs)?))
        }
        (lhs, rhs) => {
            let _left_type = lhs.data_type();
            let _right_type = rhs.data_type();
            unreachable!("decimals have one variant")
        }
    }
}

// A step on two arrays of decimals.
fn decimal_step(
    alloc: Global,
    op: Op,
    lhs: &PrimitiveArray<i128>,
    rhs: &PrimitiveArray<i128>,
) -> Result<PrimitiveArray<i128>, Error>
    requires { rule_of op (column_of lhs.now).data_type (column_of rhs.now).data_type
        ≡ Some Decimals }
    ensures { Answers column_of result (step_answer op (column_of lhs.now) (column_of rhs.now)) }
{
    // The type tells the prover that its parameters fit.
    let _data_type = lhs.data_type();
    kernel(alloc, op, lhs, rhs)
}

// A step on an array of decimals and one value of its type.
fn decimal_step_scalar(
    alloc: Global,
    op: Op,
    lhs: &PrimitiveArray<i128>,
    rhs: &PrimitiveScalar<i128>,
) -> Result<PrimitiveArray<i128>, Error>
    requires { rule_of op (column_of lhs.now).data_type rhs.now.data_type ≡ Some Decimals }
    ensures { Answers column_of result (scalar_step_answer op (column_of lhs.now)
        rhs.now.data_type (slot_cell rhs.now.slot)) }
{
    // The type tells the prover that its parameters fit.
    let _data_type = lhs.data_type();
    kernel_scalar(alloc, op, lhs, rhs)
}

// The kernel of a step on two arrays; decimals have none that wraps, and no remainders.
fn kernel(
    alloc: Global,
    op: Op,
    lhs: &PrimitiveArray<i128>,
    rhs: &PrimitiveArray<i128>,
) -> Result<PrimitiveArray<i128>, Error>
    ensures { Answers column_of result
        (decimals_answer (decimal_operation (operation_of op)) (decimal_form (form_of op))
        (column_of lhs.now) (column_of rhs.now)) }
{
    match op {
        Op::Add => add(alloc, lhs, rhs),
        Op::CheckedAdd => checked_add(alloc, lhs, rhs),
        Op::SaturatingAdd => saturating_add(alloc, lhs, rhs),
        Op::Sub => sub(alloc, lhs, rhs),
        Op::CheckedSub => checked_sub(alloc, lhs, rhs),
        Op::SaturatingSub => saturating_sub(alloc, lhs, rhs),
        Op::Mul => mul(alloc, lhs, rhs),
        Op::CheckedMul => checked_mul(alloc, lhs, rhs),
        Op::SaturatingMul => saturating_mul(alloc, lhs, rhs),
        Op::Div => div(alloc, lhs, rhs),
        Op::CheckedDiv => checked_div(alloc, lhs, rhs),
        Op::WrappingAdd | Op::WrappingSub | Op::WrappingMul | Op::Rem | Op::CheckedRem => {
            Err(Error::NotYetImplemented)
        }
    }
}

// The kernel of a step on an array and one value; the plain steps alone have one.
fn kernel_scalar(
    alloc: Global,
    op: Op,
    lhs: &PrimitiveArray<i128>,
    rhs: &PrimitiveScalar<i128>,
) -> Result<PrimitiveArray<i128>, Error>
    ensures { Answers column_of result
        (decimals_scalar_answer (decimal_operation (operation_of op)) (decimal_form (form_of op))
        (column_of lhs.now) rhs.now.data_type (slot_cell rhs.now.slot)) }
{
    match op {
        Op::Add => add_scalar(alloc, lhs, rhs),
        Op::Sub => sub_scalar(alloc, lhs, rhs),
        Op::Mul => mul_scalar(alloc, lhs, rhs),
        Op::Div => div_scalar(alloc, lhs, rhs),
        Op::WrappingAdd
        | Op::CheckedAdd
        | Op::SaturatingAdd
        | Op::WrappingSub
        | Op::CheckedSub
        | Op::SaturatingSub
        | Op::WrappingMul
        | Op::CheckedMul
        | Op::SaturatingMul
        | Op::CheckedDiv
        | Op::Rem
        | Op::CheckedRem => Err(Error::NotYetImplemented),
    }
}
