//! What the definitions say together, each law as a function that does nothing, or makes the one
//! call that it speaks of.
ghost use Rattle.col_types.specs.Answer.{FailsByMemory};
ghost use Rattle.col_eval.specs.Laws.{IsUnrefused, OutcomeDependsOnCellsAlone};
ghost use Rattle.col_eval.specs.Laws.{OutcomeHoldsItsCells, OutcomeIsTheLeastRefusal};
ghost use Rattle.col_eval.specs.Laws.{OutcomesOfPartsJoin, RefusalNamesItsStep};
ghost use Rattle.col_eval.specs.Laws.{StepsOfTypedTreesHaveTypes, TableRefusalIsOfItsFirstStep};
ghost use Rattle.col_eval.specs.Tree.{tree_of};

use crate::evaluation::evaluate;
use crate::expr::Expr;
use crate::table::Table;
use col_array::AnyArray;
use col_types::Error;
use std::alloc::Global;

/// A table's outcome is the refusal of the least step, and of those of one step that of the least
/// row; without a refusal it has the cell of each row, in their order.
pub fn outcome_is_the_least_refusal()
    ensures { OutcomeIsTheLeastRefusal }
{}

/// A row's cell depends on the cells of that row alone, and on the types of the columns.
pub fn outcome_depends_on_cells_alone()
    ensures { OutcomeDependsOnCellsAlone }
{}

/// The number of a row's refusal is the place of the step that refuses it, in the order of left
/// operand, right operand, step; each earlier step gives a cell for that row.
pub fn refusal_names_its_step()
    ensures { RefusalNamesItsStep }
{}

/// Where each column of a table holds cells of its type, so does what a tree gives for it.
pub fn outcome_holds_its_cells()
    ensures { OutcomeHoldsItsCells }
{}

/// Over a table whose rows are those of an upper table and then those of a lower one, a tree gives
/// the upper table's cells followed by the lower one's; else, of the refusals of both, the one at
/// the lesser step, and at one step the upper table's. Such a table may be a part again.
pub fn outcomes_of_parts_join()
    ensures { OutcomesOfPartsJoin }
{}

/// Each step of a tree that has a type has one, as a tree of its own.
pub fn steps_of_typed_trees_have_types()
    ensures { StepsOfTypedTreesHaveTypes }
{}

/// The refusal of a table is that of the first of a tree's steps that, as a tree of its own, is
/// refused for the table; its number is that step's place, and the cause is the same.
pub fn table_refusal_is_of_its_first_step()
    ensures { TableRefusalIsOfItsFirstStep }
{}

/// `evaluate` answers a tree that has a type and refuses no row of the table, but for want of
/// memory.
pub fn unrefused_tables_have_columns(
    alloc: Global,
    table: &Table,
    tree: &Expr,
) -> Result<AnyArray, Error>
    ensures { IsUnrefused (tree_of tree.now) table.now → FailsByMemory result }
{
    evaluate(alloc, table, tree)
}
