//! The type of a tree over a table.
ghost use Rattle.std.specs.Prelude.{◌≡◌, ◌≤◌, ◌↔◌, IsTrue};
ghost use Rattle.col_types.specs.Answer.{Answers};
ghost use Rattle.col_types.specs.Column.{types_of};
ghost use Rattle.col_types.specs.DataKind.{kind_of};
ghost use Rattle.col_eval.specs.Entries.{entry_of, entry_type};
ghost use Rattle.col_eval.specs.Tree.{level_count, tree_of};
ghost use Rattle.col_eval.specs.Typing.{type_of, typing_of};

use crate::entries::Rule;
use crate::expr::{Expr, Op};
use crate::table::Table;
use col_types::{DataType, Error, Reason};
use std::alloc::Global;

/// The most levels that a tree with a type has; a leaf has one level.
pub const MAX_LEVELS: usize = 256;

/// The type of a tree over the types of the table's columns. Rows are not looked at.
///
/// Refused, in this order: `Depth` where the tree has more than 256 levels; then, left operand
/// first, operands before their step: `Position` where the table has no such column;
/// `NotYetImplemented` where a literal is no right operand of a step, or a step does not take
/// operands of these types or no literal; `Parameters` where two decimals differ in theirs.
pub fn typed_of(alloc: Global, table: &Table, tree: &Expr) -> Result<DataType, Error>
    ensures answer { Answers kind_of result (typing_of (tree_of tree.now) (types_of table.now)) }
{
    if !is_within(tree, MAX_LEVELS) {
        return Err(Error::InvalidArgumentError(Reason::Depth));
    }
    type_within(alloc, table, tree)
}

// Whether a tree has at most so many levels.
fn is_within(tree: &Expr, levels: usize) -> bool
    ensures { IsTrue result ↔ (level_count (tree_of tree.now) ≤ levels) }
{
    if levels == 0 {
        return false;
    }
    match tree {
        Expr::Column(_) | Expr::Literal(_) => true,
        Expr::Step(_, lhs, rhs) => is_within(lhs, levels - 1) && is_within(rhs, levels - 1),
    }
}

// The type of a tree, however many levels it has.
fn type_within(alloc: Global, table: &Table, tree: &Expr) -> Result<DataType, Error>
    ensures { Answers kind_of result (type_of (tree_of tree.now) (types_of table.now)) }
{
    match tree {
        Expr::Column(position) => {
            let i = *position as usize;
            if i < table.width() {
                table.column(i).data_type().try_clone(alloc)
            } else {
                Err(Error::InvalidArgumentError(Reason::Position))
            }
        }
        Expr::Literal(_) => Err(Error::NotYetImplemented),
        Expr::Step(op, lhs, rhs) => {
            let lhs_type = type_within(alloc, table, lhs)?;
            match &**rhs {
                Expr::Literal(scalar) => step_type(alloc, *op, &lhs_type, scalar.data_type(), true),
                rhs => {
                    let rhs_type = type_within(alloc, table, rhs)?;
                    step_type(alloc, *op, &lhs_type, &rhs_type, false)
                }
            }
        }
    }
}

// The type that a step gives for the types of its operands, the right one a literal or not.
fn step_type(
    alloc: Global,
    op: Op,
    lhs: &DataType,
    rhs: &DataType,
    is_literal: bool,
) -> Result<DataType, Error>
    ensures { Answers kind_of result
        (entry_type is_literal (entry_of op (kind_of lhs.now) (kind_of rhs.now))) }
{
    match Rule::of(op, lhs, rhs) {
        Some(rule) if !is_literal || rule.takes_literal(op) => rule.answer_type(alloc, lhs, rhs),
        _ => Err(Error::NotYetImplemented),
    }
}
