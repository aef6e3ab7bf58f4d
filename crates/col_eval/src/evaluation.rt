//! What a tree gives for a table.
ghost use Rattle.std.specs.Prelude.{◌≡◌, IsOk};
ghost use Rattle.col_types.specs.Answer.{Answers};
ghost use Rattle.col_types.specs.Column.{types_of};
ghost use Rattle.col_array.specs.Any.{any_column};
ghost use Rattle.col_eval.specs.Operand.{operand_column, operand_outcome};
ghost use Rattle.col_eval.specs.Tree.{tree_of};
ghost use Rattle.col_eval.specs.Typing.{type_of};
ghost use Rattle.col_eval.specs.Meaning.{outcome_of};

use crate::dispatch;
use crate::expr::Expr;
use crate::table::Table;
use crate::typing::typed_of;
use col_array::AnyArray;
use col_types::Error;
use either::{Either, Left, Right};
use std::alloc::Global;

/// What a tree gives for a table: a slot for each row, which depends on that row's slots alone.
///
/// Refused, in this order: as `typed_of` refuses the tree; else where a step refuses a row, at the
/// least such step in post-order and there at the least such row: `DivideByZero` where the divisor
/// of a plain step is 0, else `Overflow` where its exact number does not fit, or for a remainder
/// the quotient, or as the kernel of `col_decimal` has it of decimals.
pub fn evaluate(alloc: Global, table: &Table, tree: &Expr) -> Result<AnyArray, Error>
    ensures answer { Answers any_column result (outcome_of (tree_of tree.now) table.now) }
{
    typed_of(alloc, table, tree)?;
    match operand(alloc, table, tree)? {
        Left(column) => column.try_clone(alloc),
        Right(array) => Ok(array),
    }
}

// What a tree that has a type gives: a column that the table lends, or a new one.
fn operand<'a>(
    alloc: Global,
    table: &'a Table,
    tree: &Expr,
) -> Result<Either<&'a AnyArray, AnyArray>, Error>
    requires { IsOk (type_of (tree_of tree.now) (types_of table.now)) }
    ensures { Answers operand_column result (operand_outcome (tree_of tree.now) table.now) }
{
    match tree {
        Expr::Column(position) => Ok(Left(table.column(*position as usize))),
        Expr::Literal(_) => Err(Error::NotYetImplemented),
        Expr::Step(op, lhs, rhs) => {
            let lhs = operand(alloc, table, lhs)?;
            match &**rhs {
                Expr::Literal(scalar) => Ok(Right(dispatch::step_scalar(
                    alloc,
                    *op,
                    lent(&lhs),
                    scalar,
                )?)),
                rhs => {
                    let rhs = operand(alloc, table, rhs)?;
                    Ok(Right(dispatch::step(alloc, *op, lent(&lhs), lent(&rhs))?))
                }
            }
        }
    }
}

// The array of an operand.
fn lent<'a>(operand: &'a Either<&AnyArray, AnyArray>) -> &'a AnyArray
    ensures { any_column result.now ≡ operand_column operand.now }
{
    match operand {
        Left(column) => column,
        Right(array) => array,
    }
}
