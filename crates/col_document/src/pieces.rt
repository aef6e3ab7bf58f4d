//! Items of the lists that trees are written as.
ghost use Rattle.std.specs.Prelude.{◌≡◌, option_map};
ghost use Rattle.serde_json.specs.View.{view};
ghost use Rattle.col_document.specs.Document.{literal_read, piece_read, word_read};
ghost use Rattle.col_document.specs.Reading.{piece_view};

use crate::cells::{read_scalar, read_type};
use crate::texts::{read_position, read_step};
use col_array::AnyScalar;
use col_eval::Op;
use serde_json::Value;

/// An item of a tree's list.
#[derive(Drop)]
pub enum Piece {
    /// The column at a position.
    Column(u32),
    /// One value for all rows.
    Literal(AnyScalar),
    /// A step on the two trees before it.
    Step(Op),
}

/// An item of a tree's list: a text or a literal.
pub fn read_piece(value: &Value) -> Option<Piece>
    ensures { option_map piece_view result ≡ piece_read (view value.now) }
{
    match value {
        Value::String(text) => read_word(text.as_str()),
        Value::Object(_) => read_literal(value),
        _ => None,
    }
}

// A text as an item: the name of a step, else that of a column.
fn read_word(text: &str) -> Option<Piece>
    ensures { option_map piece_view result ≡ word_read text.now }
{
    match read_step(text) {
        Some(op) => Some(Piece::Step(op)),
        None => match read_position(text) {
            Some(position) => Some(Piece::Column(position)),
            None => None,
        },
    }
}

// A literal: an object with a type, and a value that is a cell of it, and without `cast`.
fn read_literal(value: &Value) -> Option<Piece>
    ensures { option_map piece_view result ≡ literal_read (view value.now) }
{
    if value.get("cast").is_some() {
        return None;
    }
    let data_type = read_type(value)?;
    Some(Piece::Literal(read_scalar(&data_type, value.get("value")?)?))
}
