//! What holds of each run, as facts of their own.
ghost use Rattle.col_run.specs.Streams.{FaultsRose};
ghost use Rattle.col_run.specs.Command.{command_of};
ghost use Rattle.col_run.specs.Laws.{EndsByInput, NamesItsRows};

use crate::command::run;
use crate::sink::Sink;
use crate::source::Source;
use crate::status::Status;
use std::alloc::Global;

/// Runs the command of the words, as `run` does. Where the source tells its bytes, or is not to be
/// read, and neither count of faults rose, the status is the one that the words and these bytes
/// say, or `Memory`. So a command, with bytes within the limit for which it has a page, ends with
/// `Done`, `Refused` or `Memory`, and `make N` with `Done` or `Memory`.
pub fn a_run_without_faults_ends_by_its_input<S: Source, K: Sink>(
    alloc: Global,
    words: &[String],
    source: &mut S,
    sink: &mut K,
) -> Status
    ensures { EndsByInput (command_of words.now) (S.left source.old)
        (FaultsRose (S.faults source.old) (S.faults source.new))
        (FaultsRose (K.faults sink.old) (K.faults sink.new)) result }
{
    run(alloc, words, source, sink)
}

/// A word names a number of rows exactly where it is the number's digits, and the number is one
/// from 1 to 1000000.
pub fn a_number_of_rows_is_its_digits()
    ensures { NamesItsRows }
{}
