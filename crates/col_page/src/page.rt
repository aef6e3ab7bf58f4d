//! Pages: a line for each tree of a document.
ghost use Rattle.std.specs.Prelude.{◌≡◌, ◌++◌, [], ◌∷◌, IfOk, codes, length, map};
ghost use Rattle.std.specs.List.{join_with_byte};
ghost use Rattle.col_types.specs.Answer.{FailsByMemory};
ghost use Rattle.col_flat.specs.Parts.{column_of, native_cell};
ghost use Rattle.col_array.specs.Any.{any_column};
ghost use Rattle.col_eval.specs.Meaning.{outcome_of};
ghost use Rattle.col_eval.specs.Tree.{tree_of};
ghost use Rattle.col_page.specs.Page.{IsLine, cell_text, cells_text, column_text, comma_unless};
ghost use Rattle.col_page.specs.Page.{error_name, has_error_line, page_text};
ghost use Rattle.col_document.specs.View.{document_view};

use crate::cell_texts::{Printed, push_slot};
use crate::type_texts::push_type;
use col_array::{AnyArray, with_typed};
use col_document::Document;
use col_eval::{Expr, Table, evaluate};
use col_flat::PrimitiveArray;
use col_types::Error;
use itoa::Buffer;
use std::alloc::Global;
use std::marker::Model;

/// The text of a document's lines.
#[derive(Drop)]
pub struct Page {
    text: Vec<u8>,
    has_error: bool,
}

impl Model for Page {
    ghost use Rattle.col_page.specs.PageView.{PageView};

    ghost Value = { PageView };

    ghost view = { λ a. record { text = a.text.items; has_error = a.has_error } };
}

impl Page {
    // The page of a text.
    pub(crate) fn new(text: Vec<u8>, has_error: bool) -> Page
        ensures { result ≡ record { text = text.items; has_error = has_error } }
    {
        Page { text, has_error }
    }

    /// The bytes of the text.
    pub fn bytes(&self) -> &[u8]
        ensures { result.now ≡ self.now.text }
    {
        self.text.as_slice()
    }

    /// Whether some line is an error line.
    pub fn has_error(&self) -> bool
        ensures { result ≡ self.now.has_error }
    {
        self.has_error
    }
}

/// The page of a document: for each tree, in order, a line with its column or its refusal. `Memory`
/// for want of memory, and for nothing else.
pub fn page_of(alloc: Global, doc: &Document) -> Result<Page, Error>
    ensures page { IfOk result (λ page. page.text ≡ page_text (document_view doc.now)) }
    ensures error { IfOk result (λ page. page.has_error ≡ has_error_line (document_view doc.now)) }
    ensures refused { FailsByMemory result }
{
    page_in(alloc, doc, Vec::new(alloc))
}

/// The page of a document, as `page_of` gives it, in the room of a vector, which is emptied first
/// and grows where it has too little. `Memory` for want of memory, and for nothing else; the vector
/// goes with it.
pub fn page_in(alloc: Global, doc: &Document, room: Vec<u8>) -> Result<Page, Error>
    ensures page { IfOk result (λ page. page.text ≡ page_text (document_view doc.now)) }
    ensures error { IfOk result (λ page. page.has_error ≡ has_error_line (document_view doc.now)) }
    ensures refused { FailsByMemory result }
{
    let mut text = room;
    text.clear();
    let mut has_error = false;
    for i in 0..doc.tree_count() {
        has_error |= push_line(alloc, &mut text, doc.table(), doc.tree(i))?;
    }
    Ok(Page::new(text, has_error))
}

// Adds the line of a tree's outcome, and tells whether it is an error line.
fn push_line(alloc: Global, text: &mut Vec<u8>, table: &Table, tree: &Expr) -> Result<bool, Error>
    ensures value { IfOk result (IsLine column_text (outcome_of (tree_of tree.now) table.now)
        text.old.items text.new.items) }
    ensures refused { FailsByMemory result }
{
    match evaluate(alloc, table, tree) {
        Ok(column) => {
            push_column(text, &column)?;
            Ok(false)
        }
        Err(Error::Memory) => Err(Error::Memory),
        Err(e) => {
            push_error(text, e)?;
            Ok(true)
        }
    }
}

/// Adds the line of a refusal.
pub fn push_error(text: &mut Vec<u8>, error: Error) -> Result<(), Error>
    ensures value { IfOk result (λ _. text.new.items
        ≡ text.old.items ++ (codes "error " ++ error_name error ++ codes "\n")) }
    ensures refused { FailsByMemory result }
{
    text.extend_from_slice(b"error ")?;
    text.extend_from_slice(variant_name(error).as_bytes())?;
    text.push(b'\n')?;
    Ok(())
}

// The name of an error's variant.
fn variant_name(error: Error) -> &'static str
    ensures { result.now ≡ error_name error }
{
    match error {
        Error::Memory => "Memory",
        Error::NotYetImplemented => "NotYetImplemented",
        Error::InvalidArgumentError(_) => "InvalidArgumentError",
        Error::Overflow => "Overflow",
        Error::DivideByZero => "DivideByZero",
        Error::OutOfRange => "OutOfRange",
        Error::OutOfSpec => "OutOfSpec",
    }
}

// Adds the line of a column.
fn push_column(text: &mut Vec<u8>, column: &AnyArray) -> Result<(), Error>
    ensures value { IfOk result (λ _. text.new.items
        ≡ text.old.items ++ (column_text (any_column column.now) ++ codes "\n")) }
    ensures refused { FailsByMemory result }
{
    push_type(text, column.data_type())?;
    text.push(b' ')?;
    push_any_cells(text, column)?;
    text.push(b'\n')?;
    Ok(())
}

// Adds the cells of an array of any type.
fn push_any_cells(text: &mut Vec<u8>, column: &AnyArray) -> Result<(), Error>
    ensures value { IfOk result
        (λ _. text.new.items ≡ text.old.items ++ cells_text (any_column column.now).cells) }
    ensures refused { FailsByMemory result }
{
    with_typed!(AnyArray, column, |array| push_cells(text, array))
}

// Adds the cells in brackets, joined by commas.
fn push_cells<T: Printed>(text: &mut Vec<u8>, array: &PrimitiveArray<T>) -> Result<(), Error>
    ensures value { IfOk result
        (λ _. text.new.items ≡ text.old.items ++ cells_text (column_of array.now).cells) }
    ensures refused { FailsByMemory result }
{
    let mut buffer = Buffer::new();
    text.push(b'[')?;
    let mut is_first = true;
    for slot in array.iter() {
        push_next_slot(text, &mut buffer, is_first, slot)?;
        is_first = false;
    }
    text.push(b']')?;
    Ok(())
}

// Adds the text of a slot, behind a comma where it is not the first.
#[inline(always)]
fn push_next_slot<T: Printed>(
    text: &mut Vec<u8>,
    buffer: &mut Buffer,
    is_first: bool,
    slot: Option<T>,
) -> Result<(), Error>
    ensures value { IfOk result (λ _. text.new.items
        ≡ text.old.items ++ (comma_unless is_first ++ cell_text (native_cell T.numbers slot))) }
    ensures refused { FailsByMemory result }
{
    if !is_first {
        text.push(b',')?;
    }
    push_slot(text, buffer, slot)
}
