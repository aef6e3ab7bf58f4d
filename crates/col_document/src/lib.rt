//! Documents: the tables and the trees that JSON texts hold.
#![tactic(auto)]

mod cells;
mod document;
pub mod laws;
mod pieces;
mod plain;
mod spelled;
mod texts;
mod trees;

pub use document::{Document, ReadError, read_document, read_plain};
pub use texts::read_count;
