//! Documents: a table, and trees over its columns.
ghost use Rattle.std.specs.Prelude.{◌≡◌, ◌<◌, IfSome, Some, length, map, option_and_then};
ghost use Rattle.std.specs.Prelude.{slice_get};
ghost use Rattle.serde_json.specs.Errors.{IsMemory};
ghost use Rattle.serde_json.specs.Read.{read};
ghost use Rattle.serde_json.specs.View.{view};
ghost use Rattle.col_array.specs.Any.{any_column};
ghost use Rattle.col_eval.specs.Tree.{tree_of};
ghost use Rattle.col_document.specs.declared.document.ReadError.TheVariants.{Malformed, Memory};
ghost use Rattle.col_document.specs.Document.{document_of, document_read};
ghost use Rattle.col_document.specs.Reading.{Reads, only_table};
ghost use Rattle.col_document.specs.View.{document_view};

use crate::cells::{list_at, read_columns, take_list};
use crate::plain::take_columns;
use crate::trees::read_trees;
use col_array::AnyArray;
use col_eval::{Expr, Table};
use col_json::{Cursor, close_object, open_object, read_value as json_value, take_key};
use serde_json::Value;
use std::alloc::{AllocError, AllocFailed, Global};
use std::marker::Model;

// A JSON text nests within 127 levels, and the members of its object within one less.
const MAX_LEVELS: usize = 126;

/// A table, and trees over its columns.
#[derive(Drop)]
pub struct Document {
    table: Table,
    trees: Vec<Expr>,
}

impl Model for Document {
    ghost use Rattle.std.specs.Coded.{codes};
    ghost use Rattle.col_model.proofs.CellCode.{cell_code};
    ghost use Rattle.col_types.proofs.KindCode.{kind_code};
    ghost use Rattle.col_eval.specs.contracts.expr.Expr as contract;
    ghost use Rattle.col_document.specs.View.{DocumentParts};

    ghost Value = { DocumentParts };

    ghost coded = { Prim.hlevel (codes, kind_code, cell_code, contract.the_row.coded) };

    ghost view = { λ d. record { table = d.table; trees = d.trees.items } };
}

/// Why no document was read.
#[derive(Clone, Copy, Debug, PartialEq, Eq)]
pub enum ReadError {
    /// Memory was not found.
    Memory,
    /// The bytes hold no document.
    Malformed,
}

/// The document that some bytes hold.
///
/// Refused: `Malformed` exactly where they hold none.
pub fn read_document(alloc: Global, bytes: &[u8]) -> Result<Document, ReadError>
    ensures { Reads document_view result (document_of bytes.now) }
{
    let Ok(text) = simdutf8::basic::from_utf8(bytes) else {
        return Err(ReadError::Malformed);
    };
    match read_plain(alloc, text) {
        Some(document) => Ok(document),
        None => read_text(alloc, text),
    }
}

impl Document {
    /// The table.
    pub fn table(&self) -> &Table
        ensures { result.now ≡ (document_view self.now).table }
    {
        &self.table
    }

    /// The number of trees.
    pub fn tree_count(&self) -> usize
        ensures { result ≡ length (document_view self.now).trees }
    {
        self.trees.len()
    }

    /// The tree at a place, from 0.
    pub fn tree(&self, i: usize) -> &Expr
        requires { i < length (document_view self.now).trees }
        ensures { slice_get (document_view self.now).trees i ≡ Some (tree_of result.now) }
    {
        &self.trees[i]
    }
}

impl From<AllocError> for ReadError {
    ghost from_gives = { λ _ e. e ≡ Memory };

    fn from(_e: AllocError) -> ReadError {
        ReadError::Memory
    }
}

impl<T: Drop> From<AllocFailed<T>> for ReadError {
    ghost from_gives = { λ _ e. e ≡ Memory };

    fn from(_e: AllocFailed<T>) -> ReadError {
        ReadError::Memory
    }
}

/// The document of a text of the plain form: it has its columns before its trees, each of them once,
/// and so have the columns their types before their values.
///
/// `None` where the text is not of that form, where it has anywhere what a call of `col_json` gives
/// up at, where it holds no document, and for want of memory. `read_document` reads those too.
pub fn read_plain(alloc: Global, text: &str) -> Option<Document>
    ensures { IfSome result
        (λ d. option_and_then document_read (read text.now) ≡ Some (document_view d)) }
{
    let mut cursor = Cursor::new(text.as_bytes());
    open_object(&mut cursor)?;
    take_key(alloc, &mut cursor, "columns", "trees", MAX_LEVELS)?;
    let columns = take_columns(alloc, &mut cursor, MAX_LEVELS)?;
    take_key(alloc, &mut cursor, "trees", "columns", MAX_LEVELS)?;
    let trees = json_value(alloc, &mut cursor, MAX_LEVELS)?;
    close_object(alloc, &mut cursor, "columns", "trees", MAX_LEVELS)?;
    if !cursor.is_done() {
        return None;
    }
    let trees = read_trees(alloc, trees.as_array()?.as_slice()).ok()?;
    let table = make_table(columns).ok()?;
    Some(Document { table, trees })
}

// The document of a text, by its JSON value.
fn read_text(alloc: Global, text: &str) -> Result<Document, ReadError>
    ensures { Reads document_view result (option_and_then document_read (read text.now)) }
{
    match Value::from_str(alloc, text) {
        Ok(value) => read_value(alloc, value),
        Err(error) => Err(refusal(&error)),
    }
}

// Why a text was not read as a JSON value.
fn refusal(error: &serde_json::Error) -> ReadError
    ensures { result ≡ Malformed → ¬ (IsMemory error.now) }
{
    if error.is_memory() {
        ReadError::Memory
    } else {
        ReadError::Malformed
    }
}

// The document that a JSON value is.
fn read_value(alloc: Global, mut value: Value) -> Result<Document, ReadError>
    ensures { Reads document_view result (document_read (view value)) }
{
    let Some(trees) = list_at(&value, "trees") else {
        return Err(ReadError::Malformed);
    };
    let trees = read_trees(alloc, trees)?;
    let Some(columns) = take_list(alloc, &mut value, "columns") else {
        return Err(ReadError::Malformed);
    };
    let columns = read_columns(alloc, columns)?;
    let table = make_table(columns)?;
    Ok(Document { table, trees })
}

// The table of fewer than 2^32 columns of one length.
fn make_table(columns: Vec<AnyArray>) -> Result<Table, ReadError>
    ensures { Reads (λ table. table) result (only_table (map any_column columns.items)) }
{
    if columns.len() >= 1 << 32 {
        return Err(ReadError::Malformed);
    }
    match Table::new(columns) {
        Ok(table) => Ok(table),
        Err(_) => Err(ReadError::Malformed),
    }
}
