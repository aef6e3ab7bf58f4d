//! Whole runs: words, lengths, and the content that readers and writers pass on.
ghost use Rattle.std.specs.Prelude.{ℕ, List, Option, None};

use crate::streams::{Choking, DOCUMENT, Stuttering, evaluated, wide_sink};
use col_run::{
    CountingSink, Failed, MemorySource, ReadSource, Sink, Source, Status, SteadySource, WriteSink,
    run, status_text,
};
use col_types::Error;
use std::alloc::Global;

#[test]
fn each_status_has_its_number_and_text(rt: HostRuntime) {
    let cases = [
        (Status::Done, 0, ""),
        (Status::Refused, 1, ""),
        (Status::Malformed, 2, "malformed document"),
        (Status::ReadFault, 3, "read fault"),
        (Status::WriteFault, 4, "write fault"),
        (Status::Memory, 5, "out of memory"),
        (Status::TooLong, 6, "document too long"),
        (Status::Words, 64, "usage: col_tool eval, sum or make N"),
    ];
    for (status, number, text) in cases {
        assert_eq!(rt; status.number(), number, "{status:?}");
        assert_eq!(rt; status_text(status), text, "{status:?}");
    }
}

// A source of spaces, so many of them.
#[derive(Drop)]
struct Spaces {
    count: usize,
}

impl Source for Spaces {
    ghost left = { λ s. None };

    ghost faults = { λ s. 0 };

    fn read(&mut self, piece: &mut [u8]) -> Result<usize, Failed> {
        let count = piece.len().min(self.count);
        for byte in &mut piece[..count] {
            *byte = b' ';
        }
        self.count -= count;
        Ok(count)
    }
}

// The status of a run of these words over so many spaces, and how much it wrote.
fn status_of(alloc: Global, texts: &[&str], count: usize) -> Result<(Status, usize), Error> {
    let mut words = Vec::new(alloc);
    for text in texts {
        words.push(String::from_str(alloc, text)?)?;
    }
    let mut sink = wide_sink(alloc)?;
    let status = run(alloc, words.as_slice(), &mut Spaces { count }, &mut sink);
    Ok((status, sink.bytes().len()))
}

#[test]
fn words_and_length_come_before_the_document(rt: HostRuntime) -> Result<(), Error> {
    let cases: [(&[&str], usize, Status); 7] = [
        (&[], 3, Status::Words),
        (&["evl"], 3, Status::Words),
        (&["eval", "eval"], 3, Status::Words),
        (&["eval "], 67108865, Status::Words),
        (&["sum"], 67108865, Status::TooLong),
        (&["eval"], 67108865, Status::TooLong),
        (&["eval"], 67108864, Status::Malformed),
    ];
    for (texts, count, wanted) in cases {
        let answer = status_of(rt.alloc(), texts, count)?;
        assert_eq!(rt; answer, (wanted, 0), "{texts:?} over {count} spaces");
    }
    Ok(())
}

// The status of a run from a reader to a writer, and whether the writer took this.
fn passed_on(
    alloc: Global,
    reader: Stuttering,
    mut writer: Choking,
    page: &[u8],
) -> Result<(Status, bool), Error> {
    let mut sink = WriteSink::new(&mut writer);
    let status = evaluated(alloc, &mut ReadSource::new(reader), &mut sink)?;
    drop(sink);
    Ok((status, writer.taken() == page))
}

#[test]
fn short_reads_and_writes_pass_on_the_content(rt: HostRuntime) -> Result<(), Error> {
    for (read, write) in [(1, 1), (2, 3), (7, 8), (69, 9), (70, 64)] {
        let reader = Stuttering::new(read, None);
        let writer = Choking::new(rt.alloc(), write, None, None);
        let answer = passed_on(rt.alloc(), reader, writer, b"Int64 []\n")?;
        assert_eq!(rt;
            answer,
            (Status::Done, true),
            "{read} and {write} bytes a call"
        );
    }
    Ok(())
}

// The bytes of one read, after the same number of bytes was asked for.
fn first_read<S: Source>(source: &mut S) -> ([u8; 4], Result<usize, Failed>) {
    let mut piece = [b'-'; 4];
    let answer = source.read(&mut piece);
    (piece, answer)
}

#[test]
fn a_source_gives_its_bytes_in_their_order(rt: HostRuntime) -> Result<(), Error> {
    let cases = [
        ("", *b"----", 0, *b"----", 0),
        ("abc", *b"abc-", 3, *b"----", 0),
        ("abcdef", *b"abcd", 4, *b"ef--", 2),
    ];
    for (text, first, count, second, rest) in cases {
        let mut steady = SteadySource::new(Vec::from_slice(rt.alloc(), text.as_bytes())?);
        assert_eq!(rt; first_read(&mut steady), (first, Ok(count)), "{text}");
        assert_eq!(rt; first_read(&mut steady), (second, Ok(rest)), "{text}");
        let bytes = Vec::from_slice(rt.alloc(), text.as_bytes())?;
        let mut memory = MemorySource::new(bytes, 9, Vec::new(rt.alloc()));
        assert_eq!(rt; first_read(&mut memory), (first, Ok(count)), "{text}");
        assert_eq!(rt; first_read(&mut memory), (second, Ok(rest)), "{text}");
        let mut reader = ReadSource::new(text.as_bytes());
        assert_eq!(rt; first_read(&mut reader), (first, Ok(count)), "{text}");
        assert_eq!(rt; first_read(&mut reader), (second, Ok(rest)), "{text}");
    }
    Ok(())
}

#[test]
fn a_sink_that_counts_has_the_length_of_the_page(rt: HostRuntime) -> Result<(), Error> {
    let bytes = Vec::from_slice(rt.alloc(), DOCUMENT.as_bytes())?;
    let mut source = MemorySource::new(bytes, 0, Vec::new(rt.alloc()));
    let mut sink = CountingSink::new();
    let status = evaluated(rt.alloc(), &mut source, &mut sink)?;
    assert_eq!(rt; (status, sink.count()), (Status::Done, 9));
    Ok(())
}

#[test]
fn each_call_of_col_run_answers_with_ample_memory(rt: HostRuntime) -> Result<(), Error> {
    let mut source = SteadySource::new(Vec::from_slice(rt.alloc(), DOCUMENT.as_bytes())?);
    let mut sink = wide_sink(rt.alloc())?;
    let status = evaluated(rt.alloc(), &mut source, &mut sink)?;
    assert_eq!(rt; status, Status::Done);
    assert!(rt; sink.bytes() == b"Int64 []\n".as_slice(), "the page");
    assert_eq!(rt; sink.write(b"more"), Ok(4), "the sink takes more");
    Ok(())
}
