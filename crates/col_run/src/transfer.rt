//! Reading a whole source, and writing a whole page.
ghost use Rattle.std.specs.Prelude.{◌≡◌, ◌+◌, ◌≤◌, length, IfOk, OnOk, OnErr, IsErrOf};
ghost use Rattle.col_run.specs.Streams.{FaultsRose, TakesAll, TakesCount, TakesAtMost, AddsBytes};
ghost use Rattle.col_run.specs.Streams.{AddsFront};
ghost use Rattle.col_run.specs.Run.{max_bytes};
ghost use Rattle.col_run.specs.declared.transfer.Stop.TheVariants.{Memory};

use crate::sink::Sink;
use crate::source::{Failed, Source};
use std::alloc::{AllocError, Global};

/// The most bytes that a document has.
pub(crate) const LIMIT: usize = 67108864;

// The most bytes that one read is asked for.
const PIECE: usize = 65536;

/// Why a source was not read to its end.
#[derive(Clone, Copy, Debug, PartialEq, Eq)]
pub(crate) enum Stop {
    /// The source failed.
    ReadFault,
    /// Memory was not found.
    Memory,
    /// The source has more bytes than a document may have.
    TooLong,
}

impl From<AllocError> for Stop {
    ghost from_gives = { λ _ e. e ≡ Memory };

    fn from(_e: AllocError) -> Stop {
        Stop::Memory
    }
}

/// All the bytes that the source has left.
///
/// Refused, in this order: `ReadFault`, only where the source failed; `TooLong` where one byte more
/// than `LIMIT` was read. What was read is gone from the source.
pub(crate) fn read_all<S: Source>(alloc: Global, source: &mut S) -> Result<Vec<u8>, Stop>
    ensures value { IfOk result
        (λ bytes. TakesAll (S.left source.old) bytes.items (S.left source.new)) }
    ensures bound { IfOk result (λ bytes. length bytes.items ≤ max_bytes) }
    ensures too_long { IsErrOf result Stop.TooLong →
        TakesCount (S.left source.old) (max_bytes + 1) (S.left source.new) }
    ensures read_fault { IsErrOf result Stop.ReadFault →
        FaultsRose (S.faults source.old) (S.faults source.new)
        × TakesAtMost (S.left source.old) max_bytes (S.left source.new) }
    ensures kept { OnErr result
        (TakesAtMost (S.left source.old) (max_bytes + 1) (S.left source.new)) }
    ensures counts { S.faults source.old ≤ S.faults source.new }
{
    let mut bytes = Vec::new(alloc);
    let mut buffer = Vec::new(alloc);
    buffer.resize(PIECE, 0)?;
    while bytes.len() <= LIMIT {
        let wanted = PIECE.min(LIMIT + 1 - bytes.len());
        let piece = &mut buffer[..wanted];
        let Ok(count) = source.read(piece) else {
            return Err(Stop::ReadFault);
        };
        if count == 0 {
            return Ok(bytes);
        }
        bytes.extend_from_slice(&piece[..count])?;
    }
    Err(Stop::TooLong)
}

/// Writes all the bytes.
///
/// Refused only where the sink failed; then some front of the bytes was written.
pub(crate) fn write_all<K: Sink>(sink: &mut K, bytes: &[u8]) -> Result<(), Failed>
    ensures value { OnOk result (AddsBytes (K.written sink.old) bytes.now (K.written sink.new)) }
    ensures kept { OnErr result (AddsFront (K.written sink.old) bytes.now (K.written sink.new)) }
    ensures cause { OnErr result (FaultsRose (K.faults sink.old) (K.faults sink.new)) }
    ensures counts { K.faults sink.old ≤ K.faults sink.new }
{
    let mut written = 0;
    while written < bytes.len() {
        written += sink.write(&bytes[written..])?;
    }
    Ok(())
}
