//! Where bytes come from.
ghost use Rattle.std.specs.Prelude.{◌≡◌, ℕ, ◌<◌, ◌≤◌, min, List, length, take, drop, Option};
ghost use Rattle.std.specs.Prelude.{Some, None, IfOk, OnErr, vec_len};
ghost use Rattle.col_run.specs.Streams.{FaultsRose, IsSpent, TakesFront, is_failing_call};
ghost use Rattle.col_run.specs.SourceState.{SourceState, filled, first_source, piece_after};
ghost use Rattle.col_run.specs.SourceState.{read_answer, source_after};

use std::io::Read;
use std::marker::Model;

/// A read or a write that failed.
#[derive(Clone, Copy, Debug, PartialEq, Eq)]
pub struct Failed;

/// Bytes that are read a piece at a time.
pub trait Source {
    /// The bytes to come, where they are told.
    ghost left: { Self → Option (List ℕ) };

    /// How often the source failed.
    ghost faults: { Self → ℕ };

    /// How many bytes were moved to the front of the piece. None are moved to a piece that is not
    /// empty only at the end of the bytes.
    ///
    /// Refused where the source failed; then the bytes to come stay as they were.
    fn read(&mut self, piece: &mut [u8]) -> Result<usize, Failed>
        ensures bound { IfOk result (λ k. k ≤ length piece.new) }
        ensures bytes { IfOk result
            (λ k. TakesFront (left self.old) (take k piece.new) (left self.new)) }
        ensures end { IfOk result (λ k. k ≡ 0 → 0 < length piece.new → IsSpent (left self.old)) }
        ensures cause { OnErr result
            (FaultsRose (faults self.old) (faults self.new) × (left self.new ≡ left self.old)) }
        ensures counts { faults self.old ≤ faults self.new };
}

/// Bytes in memory. It never fails.
#[derive(Drop)]
pub struct SteadySource {
    bytes: Vec<u8>,
    place: usize,
}

impl Model for SteadySource {
    ghost Value = { List ℕ };

    ghost view = { λ s. drop s.place s.bytes.items };

    ghost invariant = { λ s. s.place ≤ vec_len s.bytes };
}

impl SteadySource {
    /// A source of these bytes.
    pub fn new(bytes: Vec<u8>) -> SteadySource
        ensures value { ⟦<SteadySource as Source>⟧.left result ≡ Some bytes.items }
    {
        SteadySource { bytes, place: 0 }
    }

    // Moves bytes to the front of the piece, no more than `most`, and tells how many.
    fn fill(&mut self, piece: &mut [u8], most: usize) -> usize
        ensures count { result ≡ min (min (length piece.old) most) (length self.old) }
        ensures left { self.new ≡ drop result self.old }
        ensures piece { piece.new ≡ filled result self.old piece.old }
    {
        let left = self.bytes.len() - self.place;
        let count = piece.len().min(most).min(left);
        let end = self.place + count;
        piece[..count].copy_from_slice(&self.bytes[self.place..end]);
        self.place = end;
        count
    }
}

impl Source for SteadySource {
    ghost left = { λ s. Some s };

    ghost faults = { λ s. 0 };

    /// The answer, the source afterwards and the piece are told whole.
    fn read(&mut self, piece: &mut [u8]) -> Result<usize, Failed>
        ensures answer { let count = min (length piece.old) (length self.old) in
            (result ≡ Ok count) × (self.new ≡ drop count self.old)
            × (piece.new ≡ filled count self.old piece.old) }
    {
        let most = piece.len();
        Ok(self.fill(piece, most))
    }
}

/// Bytes in memory, of which a call moves no more than a step. It fails at chosen calls.
#[derive(Drop)]
pub struct MemorySource {
    bytes: SteadySource,
    step: usize,
    fails: Vec<u64>,
    calls: u64,
    faults: u64,
}

impl Model for MemorySource {
    ghost Value = { SourceState };

    ghost view = { λ s. record {
      left = s.bytes;
      step = s.step;
      fails = s.fails.items;
      calls = s.calls;
      faults = s.faults;
    } };

    ghost invariant = { λ s. 0 < s.step };
}

impl MemorySource {
    /// A source of these bytes, at most `step` in a call (0 counts as 1). The calls numbered in
    /// `fails`, from 0, fail.
    pub fn new(bytes: Vec<u8>, step: usize, fails: Vec<u64>) -> MemorySource
        ensures value { result ≡ first_source bytes.items step fails.items }
    {
        MemorySource {
            bytes: SteadySource::new(bytes),
            step: step.max(1),
            fails,
            calls: 0,
            faults: 0,
        }
    }

    // Whether the next call fails.
    fn is_failing(&self) -> bool
        ensures { result ≡ is_failing_call self.now.fails self.now.calls }
    {
        self.fails.contains(&self.calls)
    }
}

impl Source for MemorySource {
    ghost left = { λ s. Some s.left };

    ghost faults = { λ s. s.faults };

    /// The answer, the source afterwards and the piece are told whole.
    fn read(&mut self, piece: &mut [u8]) -> Result<usize, Failed>
        ensures end { IfOk result
            (λ k. k ≡ 0 → 0 < length piece.new → IsSpent (Some self.old.left)) }
        ensures counts { self.old.faults ≤ self.new.faults }
        ensures answer { (result ≡ read_answer self.old (length piece.old))
            × (self.new ≡ source_after self.old (length piece.old))
            × (piece.new ≡ piece_after self.old piece.old) }
    {
        let is_failing = self.is_failing();
        self.calls = self.calls.saturating_add(1);
        if is_failing {
            self.faults = self.faults.saturating_add(1);
            return Err(Failed);
        }
        Ok(self.bytes.fill(piece, self.step))
    }
}

/// The bytes of a reader; they are not told. It counts the reader's failures: an interrupted read
/// is one.
#[derive(Drop)]
pub struct ReadSource<R> {
    reader: R,
    faults: u64,
}

impl<R: Read> ReadSource<R> {
    /// A source of what the reader gives.
    pub fn new(reader: R) -> ReadSource<R>
        ensures value { ⟦<ReadSource<R> as Source>⟧.faults result ≡ 0 }
    {
        ReadSource { reader, faults: 0 }
    }
}

impl<R: Read> Source for ReadSource<R> {
    ghost left = { λ s. None };

    ghost faults = { λ s. s.faults };

    fn read(&mut self, piece: &mut [u8]) -> Result<usize, Failed> {
        match self.reader.read(piece) {
            Ok(count) => Ok(count),
            Err(_) => {
                self.faults = self.faults.saturating_add(1);
                Err(Failed)
            }
        }
    }
}
