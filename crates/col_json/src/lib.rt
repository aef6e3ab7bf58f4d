//! JSON read a token at a time, by the value that `serde_json` gives a text.
//!
//! A call that answers `None` says nothing of what it was lent: then the text is to be read another
//! way.
#![tactic(auto)]

mod cursor;
mod lexemes;
mod members;
mod numbers;
mod tokens;
mod values;

pub use cursor::{Cursor, Token};
pub use members::{close_object, take_key};
pub use numbers::read_digits;
pub use tokens::{open_list, open_object, take_text};
pub use values::read_value;
