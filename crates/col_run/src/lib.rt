//! The run of a command: from its words and the bytes of a source to a sink and a status.
#![tactic(auto)]

mod command;
pub mod laws;
mod sink;
mod source;
mod status;
mod transfer;
mod words;

pub use command::run;
pub use sink::{CountingSink, MemorySink, Sink, WriteSink};
pub use source::{Failed, MemorySource, ReadSource, Source, SteadySource};
pub use status::{Status, status_text};
