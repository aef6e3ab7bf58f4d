//! Faults in mid-stream: each ends the run, also where the next call would do.
use crate::streams::{Choking, DOCUMENT, Stuttering, evaluated, wide_sink};
use col_run::{Failed, MemorySink, ReadSource, Sink, Source, Status, SteadySource, WriteSink};
use col_types::Error;
use std::alloc::Global;

// The status of a run whose source fails at one read, and how much was written.
fn read_status(alloc: Global, step: usize, fails: Option<usize>) -> Result<(Status, usize), Error> {
    let mut source = ReadSource::new(Stuttering::new(step, fails));
    let mut sink = wide_sink(alloc)?;
    let status = evaluated(alloc, &mut source, &mut sink)?;
    Ok((status, sink.bytes().len()))
}

#[test]
fn a_read_that_fails_once_ends_the_run(rt: HostRuntime) -> Result<(), Error> {
    // the document has 70 bytes: seven reads of ten and one that finds the end
    for fails in 0..8 {
        let answer = read_status(rt.alloc(), 10, Some(fails))?;
        assert_eq!(rt; answer, (Status::ReadFault, 0), "at read {fails}");
    }
    for (step, fails) in [(10, Some(8)), (10, None), (1, None), (64, Some(3))] {
        let answer = read_status(rt.alloc(), step, fails)?;
        assert_eq!(rt; answer, (Status::Done, 9), "{step} bytes a read");
    }
    Ok(())
}

// The status of a run over a writer, and whether what it took is this.
fn write_status(
    alloc: Global,
    mut writer: Choking,
    wanted: &[u8],
) -> Result<(Status, bool), Error> {
    let mut source = ReadSource::new(Stuttering::new(64, None));
    let mut sink = WriteSink::new(&mut writer);
    let status = evaluated(alloc, &mut source, &mut sink)?;
    drop(sink);
    Ok((status, writer.taken() == wanted))
}

#[test]
fn a_write_that_fails_once_ends_the_run(rt: HostRuntime) -> Result<(), Error> {
    // the call that fails, and what was taken before it, four bytes a call
    let cases = [
        (0, "", false),
        (1, "Int6", false),
        (2, "Int64 []", false),
        (3, "Int64 []\n", true),
    ];
    for (fails, taken, is_done) in cases {
        let status = if is_done {
            Status::Done
        } else {
            Status::WriteFault
        };
        let writer = Choking::new(rt.alloc(), 4, Some(fails), None);
        let answer = write_status(rt.alloc(), writer, taken.as_bytes())?;
        assert_eq!(rt; answer, (status, true), "at write {fails}");
    }
    Ok(())
}

#[test]
fn a_flush_that_fails_once_ends_the_run(rt: HostRuntime) -> Result<(), Error> {
    // the flush that fails, and what was taken then
    let cases = [
        (0, "Int6", false),
        (2, "Int64 []\n", false),
        (3, "Int64 []\n", true),
    ];
    for (fails, taken, is_done) in cases {
        let status = if is_done {
            Status::Done
        } else {
            Status::WriteFault
        };
        let writer = Choking::new(rt.alloc(), 4, None, Some(fails));
        let answer = write_status(rt.alloc(), writer, taken.as_bytes())?;
        assert_eq!(rt; answer, (status, true), "at flush {fails}");
    }
    Ok(())
}

#[test]
fn a_writer_that_takes_nothing_ends_the_run(rt: HostRuntime) -> Result<(), Error> {
    let writer = Choking::new(rt.alloc(), 0, None, None);
    let answer = write_status(rt.alloc(), writer, b"")?;
    assert_eq!(rt; answer, (Status::WriteFault, true), "no bytes a call");
    Ok(())
}

// The status of a run over a sink in memory, and whether what it has is this.
fn memory_status(
    alloc: Global,
    room: usize,
    step: usize,
    wanted: &[u8],
) -> Result<(Status, bool), Error> {
    let mut sink = MemorySink::new(alloc, room, step, Vec::new(alloc))?;
    let mut source = SteadySource::new(Vec::from_slice(alloc, DOCUMENT.as_bytes())?);
    let status = evaluated(alloc, &mut source, &mut sink)?;
    Ok((status, sink.bytes() == wanted))
}

#[test]
fn a_sink_in_memory_fails_past_its_room(rt: HostRuntime) -> Result<(), Error> {
    // the room, the bytes a call, and what is written
    let cases = [
        (64, 0, "Int64 []\n"),
        (9, 9, "Int64 []\n"),
        (8, 4, "Int64 []"),
        (0, 4, ""),
    ];
    for (room, step, written) in cases {
        let is_done = written.len() == 9;
        let status = if is_done {
            Status::Done
        } else {
            Status::WriteFault
        };
        let answer = memory_status(rt.alloc(), room, step, written.as_bytes())?;
        assert_eq!(rt; answer, (status, true), "room {room}, step {step}");
    }
    Ok(())
}

#[test]
fn an_empty_piece_needs_no_room(rt: HostRuntime) -> Result<(), Error> {
    let mut full = MemorySink::new(rt.alloc(), 0, 1, Vec::new(rt.alloc()))?;
    assert_eq!(rt; full.write(b""), Ok(0), "an empty piece");
    assert_eq!(rt; full.write(b"a"), Err(Failed), "a byte");
    Ok(())
}
