//! What the program does, from its words to its status.
ghost use Rattle.std.specs.Prelude.{◌≡◌, ◌↔◌, Some, None, IfOk, IfErr};
ghost use Rattle.col_run.specs.Streams.{FaultsRose};
ghost use Rattle.col_run.specs.Command.{IsAsked, command_of, page_of_command, reads_source};
ghost use Rattle.col_document.specs.Reading.{Reads};
ghost use Rattle.col_run.specs.Run.{HasInput, IsStopped, ReadsWhere, TakesWithin, WritesPage};
ghost use Rattle.col_run.specs.declared.status.Status.TheVariants.{Malformed, Memory, ReadFault};
ghost use Rattle.col_run.specs.declared.status.Status.TheVariants.{TooLong, WriteFault, Words};

use crate::sink::Sink;
use crate::source::Source;
use crate::status::Status;
use crate::transfer::{Stop, read_all, write_all};
use crate::words::{Command, read_command};
use col_document::{ReadError, read_document};
use col_page::{Page, made, page_in, sums_of};
use std::alloc::Global;

/// Runs the command of the words: `eval` and `sum` take a document from the source, and `make N`
/// takes nothing. The text is made whole before its first byte is written to the sink.
///
/// It ends, in this order, with `Words` where the words are no command; `ReadFault`, only where the
/// source failed; `TooLong` where it has more than 67108864 bytes; `Malformed` where they are no
/// document; `WriteFault`, only where the sink failed, and then a front of the text is in it; else
/// `Refused` where some line is an error line, and `Done` where none is. `Memory` may come before
/// the first write. All but `Done`, `Refused` and `WriteFault` leave the sink as it was.
pub fn run<S: Source, K: Sink>(
    alloc: Global,
    words: &[String],
    source: &mut S,
    sink: &mut K,
) -> Status
    ensures page { WritesPage (command_of words.now) result
        S.left source.old source.new K.written sink.old sink.new }
    ensures wrong_words { (result ≡ Words) ↔ (command_of words.now ≡ None) }
    ensures malformed { result ≡ Malformed → HasInput (command_of words.now)
        S.left source.old source.new (λ made. made ≡ None) }
    ensures too_long { TakesWithin (command_of words.now) result S.left source.old source.new }
    ensures read_fault { result ≡ ReadFault
        → FaultsRose (S.faults source.old) (S.faults source.new) }
    ensures write_fault { result ≡ WriteFault → FaultsRose (K.faults sink.old) (K.faults sink.new) }
{
    let Some(command) = read_command(words) else {
        return Status::Words;
    };
    let page = match page_for(alloc, command, source) {
        Ok(page) => page,
        Err(status) => return status,
    };
    let Ok(()) = write_all(sink, page.bytes()) else {
        return Status::WriteFault;
    };
    if page.has_error() {
        Status::Refused
    } else {
        Status::Done
    }
}

// The page of a command, of what the source has left, or the status that says why there is none.
fn page_for<S: Source>(alloc: Global, command: Command, source: &mut S) -> Result<Page, Status>
    requires { IsAsked command }
    ensures page { IfOk result (λ page. HasInput (Some command)
        S.left source.old source.new (λ made. made ≡ Some page)) }
    ensures refused { IfErr result (IsStopped (Some command) S.left source.old source.new
        (FaultsRose (S.faults source.old) (S.faults source.new))) }
{
    let bytes = input_for(alloc, command, source)?;
    match page_of_input(alloc, command, bytes) {
        Ok(page) => Ok(page),
        Err(ReadError::Malformed) => Err(Status::Malformed),
        Err(ReadError::Memory) => Err(Status::Memory),
    }
}

// What a command reads: all that the source has left, or nothing.
fn input_for<S: Source>(alloc: Global, command: Command, source: &mut S) -> Result<Vec<u8>, Status>
    ensures value { IfOk result (λ bytes. ReadsWhere (reads_source command)
        S.left source.old source.new (λ input. input ≡ bytes.items)) }
    ensures refused { IfErr result (IsStopped (Some command) S.left source.old source.new
        (FaultsRose (S.faults source.old) (S.faults source.new))) }
{
    if !command.has_input() {
        return Ok(Vec::new(alloc));
    }
    match read_all(alloc, source) {
        Ok(bytes) => Ok(bytes),
        Err(Stop::ReadFault) => Err(Status::ReadFault),
        Err(Stop::Memory) => Err(Status::Memory),
        Err(Stop::TooLong) => Err(Status::TooLong),
    }
}

// The page of a command, of these bytes. Of `eval` it takes their room; of `sum` they go as soon as
// they are read.
fn page_of_input(alloc: Global, command: Command, bytes: Vec<u8>) -> Result<Page, ReadError>
    requires { IsAsked command }
    ensures { Reads (λ page. page) result (page_of_command command bytes.items) }
{
    match command {
        Command::Eval => {
            let document = read_document(alloc, bytes.as_slice())?;
            page_in(alloc, &document, bytes).map_err(|_| ReadError::Memory)
        }
        Command::Sum => {
            let document = read_document(alloc, bytes.as_slice())?;
            drop(bytes);
            sums_of(alloc, &document).map_err(|_| ReadError::Memory)
        }
        Command::Make(n) => made(alloc, n).map_err(|_| ReadError::Memory),
    }
}
