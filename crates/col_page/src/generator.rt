//! What is written of a table that is made of a number of rows.
ghost use Rattle.std.specs.Prelude.{◌≡◌, ◌++◌, false, pos, IfOk, codes, map};
ghost use Rattle.std.specs.Fmt.{decimal};
ghost use Rattle.col_model.specs.Cell.{whole};
ghost use Rattle.col_types.specs.Answer.{FailsByMemory};
ghost use Rattle.col_types.specs.DataKind as kind;
ghost use Rattle.col_array.specs.Any.{any_column};
ghost use Rattle.col_eval.specs.Tree.{literal, step, tree_of};
ghost use Rattle.col_page.specs.Page.{HasLines};
ghost use Rattle.col_page.specs.Sums.{sum_of_tree, total_text};
ghost use Rattle.col_page.specs.Generator as Generator;

use crate::page::Page;
use crate::sums::push_sum;
use col_array::{AnyArray, AnyScalar};
use col_eval::{Expr, Op, Table};
use col_flat::{MutablePrimitiveArray, PrimitiveScalar};
use col_types::{DataType, Error};
use itoa::Buffer;
use std::alloc::Global;

// The most rows that are made.
const MAX_ROWS: u32 = 1000000;

/// Whether a table of so many rows is made: of 1 to 1000000.
pub fn can_make(n: u32) -> bool
    ensures { result ≡ Generator.is_row_count n }
{
    n >= 1 && n <= MAX_ROWS
}

/// What is written of a made table of so many rows: the line `rows` with their number, and the sums
/// of four trees over it. None of them is an error line.
///
/// At a row i, from 0, the table has `37 * i % 20001 - 10000` in `c0`, null where `i % 50` is 49;
/// `i % 7 + 1` in `c1`, null where `i % 64` is 63, both of them `Int64`; and 2^64 - 1 - i in `c2`,
/// of `UInt64`. The trees are `c0 c1 checked_mul 100 div`, `c2 c2 wrapping_mul`, `c2 3 div` and
/// `c0 c1 saturating_sub`.
pub fn made(alloc: Global, n: u32) -> Result<Page, Error>
    requires { Generator.IsRowCount n }
    ensures page { IfOk result (λ page. page.text ≡ Generator.summary_text n) }
    ensures error { IfOk result (λ page. page.has_error ≡ false) }
    ensures refused { FailsByMemory result }
{
    let table = table_of(alloc, n)?;
    let trees = trees_over(alloc)?;
    let mut text = Vec::new(alloc);
    push_count(&mut text, n)?;
    let has_error = push_sums(alloc, &mut text, &table, trees.as_slice())?;
    Ok(Page::new(text, has_error))
}

// Adds the lines of the sums of some trees, and tells whether one of them is an error line.
fn push_sums(
    alloc: Global,
    text: &mut Vec<u8>,
    table: &Table,
    trees: &[Expr],
) -> Result<bool, Error>
    ensures value { IfOk result (HasLines total_text sum_of_tree table.now
        (map tree_of trees.now) text.old.items text.new.items) }
    ensures refused { FailsByMemory result }
{
    let mut has_error = false;
    for i in 0..trees.len() {
        has_error |= push_sum(alloc, text, table, &trees[i])?;
    }
    Ok(has_error)
}

// Adds the line of a number of rows.
fn push_count(text: &mut Vec<u8>, n: u32) -> Result<(), Error>
    ensures value { IfOk result (λ _. text.new.items
        ≡ text.old.items ++ (codes "rows " ++ decimal n ++ codes "\n")) }
    ensures refused { FailsByMemory result }
{
    text.extend_from_slice(b"rows ")?;
    text.extend_from_slice(Buffer::new().format(n).as_bytes())?;
    text.push(b'\n')?;
    Ok(())
}

// The table of so many rows.
fn table_of(alloc: Global, n: u32) -> Result<Table, Error>
    ensures value { IfOk result (λ table. table ≡ Generator.made_table n) }
    ensures refused { FailsByMemory result }
{
    match Table::new(columns_of(alloc, n)?) {
        Ok(table) => Ok(table),
        Err(refused) => Err(refused.0),
    }
}

// Its columns.
fn columns_of(alloc: Global, n: u32) -> Result<Vec<AnyArray>, Error>
    ensures value { IfOk result
        (λ columns. map any_column columns.items ≡ Generator.made_table n) }
    ensures refused { FailsByMemory result }
{
    let mut first = MutablePrimitiveArray::with_capacity(alloc, n as usize)?;
    let mut second = MutablePrimitiveArray::with_capacity(alloc, n as usize)?;
    let mut third = MutablePrimitiveArray::with_capacity(alloc, n as usize)?;
    for row in 0..n {
        first.push(first_slot(row))?;
        second.push(second_slot(row))?;
        third.push(Some(third_number(row)))?;
    }
    let mut columns = Vec::with_capacity(alloc, 3)?;
    columns.push(AnyArray::Int64(first.into_array(alloc, DataType::Int64)?))?;
    columns.push(AnyArray::Int64(second.into_array(alloc, DataType::Int64)?))?;
    columns.push(AnyArray::UInt64(third.into_array(alloc, DataType::UInt64)?))?;
    Ok(columns)
}

// The slot of the first column at a row.
fn first_slot(row: u32) -> Option<i64>
    ensures { Generator.number_cell result ≡ Generator.first_cell row }
{
    if row % 50 == 49 {
        None
    } else {
        let place = 37 * u64::from(row) % 20001;
        Some(place as i64 - 10000)
    }
}

// The slot of the second column at a row.
fn second_slot(row: u32) -> Option<i64>
    ensures { Generator.number_cell result ≡ Generator.second_cell row }
{
    if row % 64 == 63 {
        None
    } else {
        Some(i64::from(row % 7 + 1))
    }
}

// The number of the third column at a row.
fn third_number(row: u32) -> u64
    ensures { whole (pos result) ≡ Generator.third_cell row }
{
    u64::MAX - u64::from(row)
}

// The trees over the table.
fn trees_over(alloc: Global) -> Result<Vec<Expr>, Error>
    ensures value { IfOk result (λ trees. map tree_of trees.items ≡ Generator.made_trees) }
    ensures refused { FailsByMemory result }
{
    let product = step_of(alloc, Op::CheckedMul, Expr::Column(0), Expr::Column(1))?;
    let mut trees = Vec::with_capacity(alloc, 4)?;
    trees.push(step_of(alloc, Op::Div, product, hundred()?)?)?;
    trees.push(step_of(alloc, Op::WrappingMul, Expr::Column(2), Expr::Column(2))?)?;
    trees.push(step_of(alloc, Op::Div, Expr::Column(2), three()?)?)?;
    trees.push(step_of(alloc, Op::SaturatingSub, Expr::Column(0), Expr::Column(1))?)?;
    Ok(trees)
}

// The literal 100, of the first column's type.
fn hundred() -> Result<Expr, Error>
    ensures value { IfOk result (λ tree. tree_of tree ≡ literal kind.int64 (whole (pos 100))) }
    ensures refused { FailsByMemory result }
{
    let scalar = PrimitiveScalar::new(DataType::Int64, Some(100))?;
    Ok(Expr::Literal(AnyScalar::Int64(scalar)))
}

// The literal 3, of the third column's type.
fn three() -> Result<Expr, Error>
    ensures value { IfOk result (λ tree. tree_of tree ≡ literal kind.uint64 (whole (pos 3))) }
    ensures refused { FailsByMemory result }
{
    let scalar = PrimitiveScalar::new(DataType::UInt64, Some(3))?;
    Ok(Expr::Literal(AnyScalar::UInt64(scalar)))
}

// A step on two trees.
fn step_of(alloc: Global, op: Op, left: Expr, right: Expr) -> Result<Expr, Error>
    ensures value { IfOk result (λ tree. tree_of tree ≡ step op (tree_of left) (tree_of right)) }
    ensures refused { FailsByMemory result }
{
    let left = Box::new(alloc, left)?;
    let right = Box::new(alloc, right)?;
    Ok(Expr::Step(op, left, right))
}
