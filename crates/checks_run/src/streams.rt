//! Readers and writers that fail at one call alone, and runs over them.
use col_run::{MemorySink, Sink, Source, Status, run};
use col_types::Error;
use std::alloc::Global;
use std::io;
use std::io::{ErrorKind, Read, Write};

/// A document of 70 bytes whose page is `Int64 []` and an end of line, nine bytes.
pub(crate) const DOCUMENT: &str =
    r#"{"columns":[{"type":"Int64","values":[]}],"trees":[["c0","c0","add"]]}"#;

/// A reader of a text, so many bytes a call; the call with the number `fails`, from 0, fails.
#[derive(Drop)]
pub(crate) struct Stuttering {
    rest: &'static [u8],
    step: usize,
    fails: Option<usize>,
}

impl Stuttering {
    /// A reader of the document.
    pub(crate) fn new(step: usize, fails: Option<usize>) -> Stuttering {
        Stuttering {
            rest: DOCUMENT.as_bytes(),
            step,
            fails,
        }
    }
}

impl Read for Stuttering {
    fn read(&mut self, piece: &mut [u8]) -> io::Result<usize> {
        if self.fails == Some(0) {
            self.fails = None;
            return Err(ErrorKind::Other.into());
        }
        self.fails = less_one(self.fails);
        let count = piece.len().min(self.step).min(self.rest.len());
        piece[..count].copy_from_slice(&self.rest[..count]);
        self.rest = &self.rest[count..];
        Ok(count)
    }
}

// The number of calls until one fails, after a call.
fn less_one(calls: Option<usize>) -> Option<usize> {
    match calls {
        Some(calls) => Some(calls.wrapping_sub(1)),
        None => None,
    }
}

/// A writer that takes so many bytes a call; of its writes and of its flushes one call each may
/// fail, counted from 0.
#[derive(Drop)]
pub(crate) struct Choking {
    taken: Vec<u8>,
    step: usize,
    write_fails: Option<usize>,
    flush_fails: Option<usize>,
}

impl Choking {
    /// A writer that has taken nothing.
    pub(crate) fn new(
        alloc: Global,
        step: usize,
        write_fails: Option<usize>,
        flush_fails: Option<usize>,
    ) -> Choking {
        Choking {
            taken: Vec::new(alloc),
            step,
            write_fails,
            flush_fails,
        }
    }

    /// What was taken.
    pub(crate) fn taken(&self) -> &[u8] {
        &self.taken
    }
}

impl Write for Choking {
    fn write(&mut self, piece: &[u8]) -> io::Result<usize> {
        if self.write_fails == Some(0) {
            self.write_fails = None;
            return Err(ErrorKind::Other.into());
        }
        self.write_fails = less_one(self.write_fails);
        let count = piece.len().min(self.step);
        match self.taken.extend_from_slice(&piece[..count]) {
            Ok(()) => Ok(count),
            Err(_) => Err(ErrorKind::Other.into()),
        }
    }

    fn flush(&mut self) -> io::Result<()> {
        if self.flush_fails == Some(0) {
            self.flush_fails = None;
            return Err(ErrorKind::Other.into());
        }
        self.flush_fails = less_one(self.flush_fails);
        Ok(())
    }
}

/// The status of the command of one word over a source and a sink.
pub(crate) fn evaluated<S: Source, K: Sink>(
    alloc: Global,
    source: &mut S,
    sink: &mut K,
) -> Result<Status, Error> {
    let mut words = Vec::with_capacity(alloc, 1)?;
    words.push(String::from_str(alloc, "eval")?)?;
    Ok(run(alloc, words.as_slice(), source, sink))
}

/// A sink in memory that never fails within so many bytes.
pub(crate) fn wide_sink(alloc: Global) -> Result<MemorySink, Error> {
    MemorySink::new(alloc, 64, 64, Vec::new(alloc))
}
