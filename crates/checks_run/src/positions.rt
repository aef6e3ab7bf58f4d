//! A failure at each call of a run: what is left of the input, and what is written.
use crate::streams::{DOCUMENT, evaluated};
use col_run::{MemorySink, MemorySource, Source, Status};
use col_types::Error;
use std::alloc::Global;

// What a source still has to give, past the calls that fail.
fn rest_of(alloc: Global, source: &mut MemorySource) -> Result<Vec<u8>, Error> {
    let mut rest = Vec::new(alloc);
    let mut piece = [0; 8];
    for _ in 0..16 {
        if let Ok(count) = source.read(&mut piece) {
            rest.extend_from_slice(&piece[..count])?;
        }
    }
    Ok(rest)
}

// The status of a run with calls that fail, how many bytes its source still has, whether they are
// the last of the document, and whether this was written.
fn run_with_faults(
    alloc: Global,
    reads: &[u64],
    writes: &[u64],
    written: &str,
) -> Result<(Status, usize, bool, bool), Error> {
    let document = Vec::from_slice(alloc, DOCUMENT.as_bytes())?;
    let mut source = MemorySource::new(document, 8, Vec::from_slice(alloc, reads)?);
    let mut sink = MemorySink::new(alloc, 64, 4, Vec::from_slice(alloc, writes)?)?;
    let status = evaluated(alloc, &mut source, &mut sink)?;
    let rest = rest_of(alloc, &mut source)?;
    let is_tail = DOCUMENT.as_bytes().ends_with(rest.as_slice());
    let is_written = sink.bytes() == written.as_bytes();
    Ok((status, rest.len(), is_tail, is_written))
}

#[test]
fn the_first_call_that_fails_ends_the_run(rt: HostRuntime) -> Result<(), Error> {
    // eight bytes a read, so that the read numbered 9 finds the end, and four a write: the reads
    // and the writes that fail, the status, how many bytes are left, and what is written
    let cases: [(&[u64], &[u64], Status, usize, &str); 41] = [
        (&[], &[], Status::Done, 0, "Int64 []\n"),
        (&[0], &[], Status::ReadFault, 70, ""),
        (&[1], &[], Status::ReadFault, 62, ""),
        (&[2], &[], Status::ReadFault, 54, ""),
        (&[3], &[], Status::ReadFault, 46, ""),
        (&[4], &[], Status::ReadFault, 38, ""),
        (&[5], &[], Status::ReadFault, 30, ""),
        (&[6], &[], Status::ReadFault, 22, ""),
        (&[7], &[], Status::ReadFault, 14, ""),
        (&[8], &[], Status::ReadFault, 6, ""),
        (&[9], &[], Status::ReadFault, 0, ""),
        (&[10], &[], Status::Done, 0, "Int64 []\n"),
        (&[], &[0], Status::WriteFault, 0, ""),
        (&[], &[1], Status::WriteFault, 0, "Int6"),
        (&[], &[2], Status::WriteFault, 0, "Int64 []"),
        (&[], &[3], Status::Done, 0, "Int64 []\n"),
        (&[0, 1], &[], Status::ReadFault, 70, ""),
        (&[1, 2], &[], Status::ReadFault, 62, ""),
        (&[2, 3], &[], Status::ReadFault, 54, ""),
        (&[3, 4], &[], Status::ReadFault, 46, ""),
        (&[4, 5], &[], Status::ReadFault, 38, ""),
        (&[5, 6], &[], Status::ReadFault, 30, ""),
        (&[6, 7], &[], Status::ReadFault, 22, ""),
        (&[7, 8], &[], Status::ReadFault, 14, ""),
        (&[8, 9], &[], Status::ReadFault, 6, ""),
        (&[9, 10], &[], Status::ReadFault, 0, ""),
        (&[0, 9], &[], Status::ReadFault, 70, ""),
        (&[9, 0], &[], Status::ReadFault, 70, ""),
        (&[], &[0, 1], Status::WriteFault, 0, ""),
        (&[], &[1, 2], Status::WriteFault, 0, "Int6"),
        (&[], &[2, 3], Status::WriteFault, 0, "Int64 []"),
        (&[], &[0, 2], Status::WriteFault, 0, ""),
        (&[], &[2, 0], Status::WriteFault, 0, ""),
        (&[0], &[0], Status::ReadFault, 70, ""),
        (&[4], &[1], Status::ReadFault, 38, ""),
        (&[9], &[2], Status::ReadFault, 0, ""),
        (&[9], &[3], Status::ReadFault, 0, ""),
        (&[10], &[0], Status::WriteFault, 0, ""),
        (&[10], &[1], Status::WriteFault, 0, "Int6"),
        (&[10], &[2], Status::WriteFault, 0, "Int64 []"),
        (&[10], &[3], Status::Done, 0, "Int64 []\n"),
    ];
    for (reads, writes, status, left, written) in cases {
        let answer = run_with_faults(rt.alloc(), reads, writes, written)?;
        assert_eq!(rt;
            answer,
            (status, left, true, true),
            "reads {reads:?}, writes {writes:?}"
        );
    }
    Ok(())
}
