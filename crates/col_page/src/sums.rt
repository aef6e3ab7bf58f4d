//! Sums: a line for each tree of a document, with the total of its column.
ghost use Rattle.std.specs.Prelude.{◌≡◌, ◌++◌, IfOk, codes};
ghost use Rattle.col_types.specs.Answer.{Answers, FailsByMemory};
ghost use Rattle.col_flat.specs.Parts.{slot_cell};
ghost use Rattle.col_array.specs.Any.{scalar_cell};
ghost use Rattle.col_reduce.specs.Total.{typed_cell};
ghost use Rattle.col_eval.specs.Tree.{tree_of};
ghost use Rattle.col_page.specs.Page.{IsLine, cell_text};
ghost use Rattle.col_page.specs.Sums.{has_error_sum, sum_of_tree, sums_text, total_text};
ghost use Rattle.col_document.specs.View.{document_view};

use crate::cell_texts::{Printed, push_slot};
use crate::page::{Page, push_error};
use crate::type_texts::push_type;
use col_array::{AnyScalar, with_typed};
use col_document::Document;
use col_eval::{Expr, Table, evaluate};
use col_flat::PrimitiveScalar;
use col_reduce::sum;
use col_types::Error;
use itoa::Buffer;
use std::alloc::Global;

/// The sums of a document: for each tree, in order, a line with the total of its column under the
/// column's type, `null` where no cell has a number, or with its refusal. A total is the one number
/// of the type that differs from the exact sum by a multiple of 2^w, w being the type's width.
///
/// The refusal of a tree is that of its outcome, else `InvalidArgumentError` where columns of its
/// type are not summed.
pub fn sums_of(alloc: Global, doc: &Document) -> Result<Page, Error>
    ensures page { IfOk result (λ page. page.text ≡ sums_text (document_view doc.now)) }
    ensures error { IfOk result (λ page. page.has_error ≡ has_error_sum (document_view doc.now)) }
    ensures refused { FailsByMemory result }
{
    let mut text = Vec::new(alloc);
    let mut has_error = false;
    for i in 0..doc.tree_count() {
        has_error |= push_sum(alloc, &mut text, doc.table(), doc.tree(i))?;
    }
    Ok(Page::new(text, has_error))
}

/// Adds the line of a tree's sum, and tells whether it is an error line.
pub fn push_sum(
    alloc: Global,
    text: &mut Vec<u8>,
    table: &Table,
    tree: &Expr,
) -> Result<bool, Error>
    ensures value { IfOk result (IsLine total_text (sum_of_tree (tree_of tree.now) table.now)
        text.old.items text.new.items) }
    ensures refused { FailsByMemory result }
{
    match sum_of(alloc, table, tree) {
        Ok(total) => {
            push_total(text, &total)?;
            Ok(false)
        }
        Err(Error::Memory) => Err(Error::Memory),
        Err(e) => {
            push_error(text, e)?;
            Ok(true)
        }
    }
}

// The total of what a tree gives for a table.
fn sum_of(alloc: Global, table: &Table, tree: &Expr) -> Result<AnyScalar, Error>
    ensures { Answers typed_cell result (sum_of_tree (tree_of tree.now) table.now) }
{
    let column = evaluate(alloc, table, tree)?;
    sum(alloc, &column)
}

// Adds the line of a total.
fn push_total(text: &mut Vec<u8>, total: &AnyScalar) -> Result<(), Error>
    ensures value { IfOk result (λ _. text.new.items
        ≡ text.old.items ++ (total_text (typed_cell total.now) ++ codes "\n")) }
    ensures refused { FailsByMemory result }
{
    push_type(text, total.data_type())?;
    text.push(b' ')?;
    push_any_cell(text, total)?;
    text.push(b'\n')?;
    Ok(())
}

// Adds the cell of a scalar of any type.
fn push_any_cell(text: &mut Vec<u8>, total: &AnyScalar) -> Result<(), Error>
    ensures value { IfOk result
        (λ _. text.new.items ≡ text.old.items ++ cell_text (scalar_cell total.now)) }
    ensures refused { FailsByMemory result }
{
    with_typed!(AnyScalar, total, |scalar| push_cell(text, scalar))
}

// Adds the cell of a scalar.
fn push_cell<T: Printed>(text: &mut Vec<u8>, scalar: &PrimitiveScalar<T>) -> Result<(), Error>
    ensures value { IfOk result
        (λ _. text.new.items ≡ text.old.items ++ cell_text (slot_cell scalar.now.slot)) }
    ensures refused { FailsByMemory result }
{
    push_slot(text, &mut Buffer::new(), scalar.value())
}
