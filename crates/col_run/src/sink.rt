//! Where bytes go.
ghost use Rattle.std.specs.Prelude.{◌≡◌, ℕ, ◌+◌, ◌<◌, ◌≤◌, List, length, take, Option, Some};
ghost use Rattle.std.specs.Prelude.{None, IfOk, OnErr, vec_len, vec_capacity};
ghost use Rattle.col_types.specs.Answer.{FailsByMemory};
ghost use Rattle.col_run.specs.Streams.{FaultsRose, AddsBytes, raised_count};
ghost use Rattle.col_run.specs.SinkState.{SinkState, first_state, is_failing, write_answer};
ghost use Rattle.col_run.specs.SinkState.{state_after};

use crate::source::Failed;
use col_types::Error;
use std::alloc::Global;
use std::io::Write;
use std::marker::Model;

/// What takes bytes, a piece at a time.
pub trait Sink {
    /// The bytes that were written, where they are told.
    ghost written: { Self → Option (List ℕ) };

    /// How often the sink failed.
    ghost faults: { Self → ℕ };

    /// How many bytes of the piece's front were written; at least one where the piece is not empty.
    ///
    /// Refused where the sink failed; then nothing was written.
    fn write(&mut self, piece: &[u8]) -> Result<usize, Failed>
        ensures bound { IfOk result (λ k. k ≤ length piece.now) }
        ensures some { IfOk result (λ k. 0 < length piece.now → 0 < k) }
        ensures bytes { IfOk result
            (λ k. AddsBytes (written self.old) (take k piece.now) (written self.new)) }
        ensures cause { OnErr result (FaultsRose (faults self.old) (faults self.new)
            × (written self.new ≡ written self.old)) }
        ensures counts { faults self.old ≤ faults self.new };
}

/// Keeps what is written in memory, as far as its room goes, and fails at chosen calls.
#[derive(Drop)]
pub struct MemorySink {
    bytes: Vec<u8>,
    room: usize,
    step: usize,
    fails: Vec<u64>,
    calls: u64,
    faults: u64,
}

impl Model for MemorySink {
    ghost Value = { SinkState };

    ghost view = { λ s. record {
      written = s.bytes.items;
      room = s.room;
      step = s.step;
      fails = s.fails.items;
      calls = s.calls;
      faults = s.faults;
    } };

    ghost invariant = { λ s. (vec_len s.bytes + s.room ≤ vec_capacity s.bytes) × (0 < s.step) };
}

impl MemorySink {
    /// A sink that takes `room` bytes, at most `step` in a call (0 counts as 1). The calls numbered
    /// in `fails`, from 0, fail, and so does a write of a piece that is not empty where no room is
    /// left. Memory for the room is set aside here, so that no write fails for want of it.
    pub fn new(
        alloc: Global,
        room: usize,
        step: usize,
        fails: Vec<u64>,
    ) -> Result<MemorySink, Error>
        ensures value { IfOk result (λ s. s ≡ first_state room step fails.items) }
        ensures refused { FailsByMemory result }
    {
        let bytes = Vec::with_capacity(alloc, room)?;
        Ok(MemorySink {
            bytes,
            room,
            step: step.max(1),
            fails,
            calls: 0,
            faults: 0,
        })
    }

    /// What was written.
    pub fn bytes(&self) -> &[u8]
        ensures { result.now ≡ self.now.written }
    {
        &self.bytes
    }

    // Whether the next call fails, where its piece has so many bytes.
    fn fails_at(&self, count: usize) -> bool
        ensures { result ≡ is_failing self.now count }
    {
        self.fails.contains(&self.calls) || (count > 0 && self.room == 0)
    }
}

impl Sink for MemorySink {
    ghost written = { λ s. Some s.written };

    ghost faults = { λ s. s.faults };

    /// The answer and the sink afterwards are told whole.
    fn write(&mut self, piece: &[u8]) -> Result<usize, Failed>
        ensures some { IfOk result (λ k. 0 < length piece.now → 0 < k) }
        ensures counts { self.old.faults ≤ self.new.faults }
        ensures answer { (result ≡ write_answer self.old piece.now)
            × (self.new ≡ state_after self.old piece.now) }
    {
        let is_failing = self.fails_at(piece.len());
        self.calls = self.calls.saturating_add(1);
        if is_failing {
            self.faults = self.faults.saturating_add(1);
            return Err(Failed);
        }
        let count = piece.len().min(self.step).min(self.room);
        // The room was set aside, so this succeeds.
        self.bytes.extend_from_slice(&piece[..count]).unwrap();
        self.room -= count;
        Ok(count)
    }
}

/// Counts the bytes that are written, and tells nothing of them. It never fails.
#[derive(Drop)]
pub struct CountingSink {
    count: u64,
}

impl Model for CountingSink {
    ghost Value = { ℕ };

    ghost view = { λ s. s.count };
}

impl CountingSink {
    /// A sink to which nothing was written.
    pub fn new() -> CountingSink
        ensures value { result ≡ 0 }
    {
        CountingSink { count: 0 }
    }

    /// How many bytes were written, or 18446744073709551615 where there were more.
    pub fn count(&self) -> u64
        ensures { result ≡ self.now }
    {
        self.count
    }
}

impl Sink for CountingSink {
    ghost written = { λ s. None };

    ghost faults = { λ s. 0 };

    /// The answer and the count afterwards are told whole.
    fn write(&mut self, piece: &[u8]) -> Result<usize, Failed>
        ensures answer { (result ≡ Ok (length piece.now))
            × (self.new ≡ raised_count self.old (length piece.now)) }
    {
        self.count = self.count.saturating_add(piece.len() as u64);
        Ok(piece.len())
    }
}

/// Gives what is written to a writer, and flushes it at each call; the bytes are not told. It
/// counts the writer's failures: a call that takes nothing of a piece, or does not flush, is one.
#[derive(Drop)]
pub struct WriteSink<W> {
    writer: W,
    faults: u64,
}

impl<W: Write> WriteSink<W> {
    /// A sink that gives what is written to the writer.
    pub fn new(writer: W) -> WriteSink<W>
        ensures value { ⟦<WriteSink<W> as Sink>⟧.faults result ≡ 0 }
    {
        WriteSink { writer, faults: 0 }
    }
}

// Writes some of the piece and flushes. A writer that takes nothing of a piece has failed.
fn write_and_flush<W: Write>(writer: &mut W, piece: &[u8]) -> Result<usize, Failed>
    ensures bound { IfOk result (λ k. k ≤ length piece.now) }
    ensures some { IfOk result (λ k. 0 < length piece.now → 0 < k) }
{
    let Ok(count) = writer.write(piece) else {
        return Err(Failed);
    };
    if count == 0 && !piece.is_empty() {
        return Err(Failed);
    }
    match writer.flush() {
        Ok(()) => Ok(count),
        Err(_) => Err(Failed),
    }
}

impl<W: Write> Sink for WriteSink<W> {
    ghost written = { λ s. None };

    ghost faults = { λ s. s.faults };

    fn write(&mut self, piece: &[u8]) -> Result<usize, Failed> {
        match write_and_flush(&mut self.writer, piece) {
            Ok(count) => Ok(count),
            Err(Failed) => {
                self.faults = self.faults.saturating_add(1);
                Err(Failed)
            }
        }
    }
}
