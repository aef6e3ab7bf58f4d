//! Lists that several holders share, and truth values packed into bytes.
#![tactic(auto)]

mod bitmap;
mod buffer;

pub use bitmap::Bitmap;
pub use buffer::Buffer;
