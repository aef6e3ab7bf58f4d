//! How a run ends.
ghost use Rattle.std.specs.Prelude.{◌≡◌};
ghost use Rattle.col_run.specs.Status.{status_number, text_of_status};

/// How a run ends.
#[derive(Clone, Copy, Debug, PartialEq, Eq)]
pub enum Status {
    /// The page was written, and each tree has its answer.
    Done,
    /// The page was written, and some tree is refused.
    Refused,
    /// The input is no document.
    Malformed,
    /// The input failed.
    ReadFault,
    /// The output failed.
    WriteFault,
    /// Memory was not found.
    Memory,
    /// The input is longer than a document may be.
    TooLong,
    /// The words of the command line name no command.
    Words,
}

impl Status {
    /// The status of the process.
    pub fn number(&self) -> u8
        ensures { result ≡ status_number self.now }
    {
        match self {
            Status::Done => 0,
            Status::Refused => 1,
            Status::Malformed => 2,
            Status::ReadFault => 3,
            Status::WriteFault => 4,
            Status::Memory => 5,
            Status::TooLong => 6,
            Status::Words => 64,
        }
    }
}

/// The line that says why, without its end; empty where the page says it.
pub fn status_text(status: Status) -> &'static str
    ensures { result.now ≡ text_of_status status }
{
    match status {
        Status::Done | Status::Refused => "",
        Status::Malformed => "malformed document",
        Status::ReadFault => "read fault",
        Status::WriteFault => "write fault",
        Status::Memory => "out of memory",
        Status::TooLong => "document too long",
        Status::Words => "usage: col_tool eval, sum or make N",
    }
}
