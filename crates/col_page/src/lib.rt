//! Pages: what is written of the trees of a document.
#![tactic(auto)]

mod cell_texts;
mod generator;
pub mod laws;
mod page;
mod sums;
mod type_texts;

pub use generator::{can_make, made};
pub use page::{Page, page_in, page_of};
pub use sums::sums_of;
