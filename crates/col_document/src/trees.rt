//! Trees of a document: lists of leaves and step names in postfix order.
ghost use Rattle.std.specs.Prelude.{◌≡◌, Some, [], ◌∷◌, map, option_and_then};
ghost use Rattle.serde_json.specs.View.{items_view, view};
ghost use Rattle.col_eval.specs.Tree.{level_count, tree_of};
ghost use Rattle.col_document.specs.Document.{only_tree, piece_read, tree_read};
ghost use Rattle.col_document.specs.Document.{bounded_step, with_piece, with_pieces, with_step};
ghost use Rattle.col_document.specs.Json.{each};
ghost use Rattle.col_document.specs.Reading.{Reads, piece_view, trees_of};

use crate::document::ReadError;
use crate::pieces::{Piece, read_piece};
use col_eval::{Expr, MAX_LEVELS, Op};
use serde_json::Value;
use std::alloc::Global;
use std::marker::Model;

// A tree and its number of levels: at most 256, so that no recursion over it is deep.
#[derive(Drop)]
struct Part {
    tree: Expr,
    levels: usize,
}

impl Model for Part {
    ghost use Rattle.std.specs.Prelude.{◌≡◌, ◌≤◌};
    ghost use Rattle.std.specs.Coded.{codes};
    ghost use Rattle.col_eval.specs.contracts.expr.Expr as contract;
    ghost use Rattle.col_eval.specs.declared.expr.Expr.{Expr};
    ghost use Rattle.col_eval.specs.Tree.{level_count, tree_of};
    ghost use Rattle.col_eval.specs.Typing.{max_levels};

    ghost Value = { Expr };

    ghost coded = { Prim.hlevel (codes, contract.the_row.coded) };

    ghost view = { λ a. a.tree };

    ghost invariant = { λ a. (a.levels ≡ level_count (tree_of a.tree)) × (a.levels ≤ max_levels) };
}

/// The trees of a list, in its order.
///
/// Refused: `Malformed` where an item is no tree.
pub fn read_trees(alloc: Global, values: &[Value]) -> Result<Vec<Expr>, ReadError>
    ensures { Reads (λ v. map tree_of v.items) result (each tree_read (items_view values.now)) }
{
    let mut trees = Vec::with_capacity(alloc, values.len())?;
    for value in values {
        trees.push(read_tree(alloc, value)?)?;
    }
    Ok(trees)
}

/// A tree: the list of its items in postfix order, none left over, with no more than 256 levels.
///
/// Refused: `Malformed` where the value is none.
pub fn read_tree(alloc: Global, value: &Value) -> Result<Expr, ReadError>
    ensures { Reads tree_of result (tree_read (view value.now)) }
{
    let Some(items) = value.as_array() else {
        return Err(ReadError::Malformed);
    };
    only_part(read_parts(alloc, items.as_slice())?)
}

// The parts that the items of a list leave.
fn read_parts(alloc: Global, items: &[Value]) -> Result<Vec<Part>, ReadError>
    ensures { Reads (λ v. trees_of v.items) result
        (option_and_then (λ pieces. with_pieces pieces [])
        (each piece_read (items_view items.now))) }
{
    let mut parts = Vec::new(alloc);
    for item in items {
        let Some(piece) = read_piece(item) else {
            return Err(ReadError::Malformed);
        };
        push_piece(alloc, &mut parts, piece)?;
    }
    Ok(parts)
}

// The tree of the only part.
fn only_part(mut parts: Vec<Part>) -> Result<Expr, ReadError>
    ensures { Reads tree_of result (only_tree (trees_of parts.items)) }
{
    let Some(part) = parts.pop() else {
        return Err(ReadError::Malformed);
    };
    if !parts.is_empty() {
        return Err(ReadError::Malformed);
    }
    Ok(part.tree)
}

// Puts the next piece behind the parts. A refusal leaves fewer parts.
fn push_piece(alloc: Global, parts: &mut Vec<Part>, piece: Piece) -> Result<(), ReadError>
    ensures { Reads (λ _. trees_of parts.new.items) result
        (with_piece (piece_view piece) (trees_of parts.old.items)) }
{
    match piece {
        Piece::Column(position) => push_leaf(parts, Expr::Column(position)),
        Piece::Literal(scalar) => push_leaf(parts, Expr::Literal(scalar)),
        Piece::Step(op) => push_step(alloc, parts, op),
    }
}

// Puts a leaf behind the parts.
fn push_leaf(parts: &mut Vec<Part>, tree: Expr) -> Result<(), ReadError>
    requires { level_count (tree_of tree) ≡ 1 }
    ensures { Reads (λ _. trees_of parts.new.items) result
        (Some (tree_of tree ∷ trees_of parts.old.items)) }
{
    parts.push(Part { tree, levels: 1 })?;
    Ok(())
}

// Puts a step in place of the last two parts, the last one on its right.
fn push_step(alloc: Global, parts: &mut Vec<Part>, op: Op) -> Result<(), ReadError>
    ensures { Reads (λ _. trees_of parts.new.items) result
        (with_step op (trees_of parts.old.items)) }
{
    let Some(right) = parts.pop() else {
        return Err(ReadError::Malformed);
    };
    let Some(left) = parts.pop() else {
        return Err(ReadError::Malformed);
    };
    parts.push(join_parts(alloc, op, left, right)?)?;
    Ok(())
}

// The step on two parts, where it has at most 256 levels.
fn join_parts(alloc: Global, op: Op, left: Part, right: Part) -> Result<Part, ReadError>
    ensures { Reads tree_of result (bounded_step op (tree_of left) (tree_of right)) }
{
    let levels = left.levels.max(right.levels) + 1;
    if levels > MAX_LEVELS {
        return Err(ReadError::Malformed);
    }
    let left = Box::new(alloc, left.tree)?;
    let right = Box::new(alloc, right.tree)?;
    Ok(Part {
        tree: Expr::Step(op, left, right),
        levels,
    })
}
