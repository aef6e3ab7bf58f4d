//! What the words of a command line ask for.
ghost use Rattle.std.specs.Prelude.{◌≡◌, IfSome};
ghost use Rattle.col_page.specs.Generator.{IsRowCount};
ghost use Rattle.col_run.specs.Command.{IsAsked, command_of, lone_command, pair_command};
ghost use Rattle.col_run.specs.Command.{reads_source, rows_named};

use col_document::read_count;
use col_page::can_make;

/// A command of the program.
#[derive(Clone, Copy, Debug, PartialEq, Eq)]
pub(crate) enum Command {
    /// Evaluates the trees of a document.
    Eval,
    /// Sums what the trees of a document give.
    Sum,
    /// Makes a table of so many rows, and sums what trees over it give.
    Make(u32),
}

impl Command {
    /// Whether the command reads its source.
    pub(crate) fn has_input(self) -> bool
        ensures { result ≡ reads_source self }
    {
        match self {
            Command::Eval | Command::Sum => true,
            Command::Make(_) => false,
        }
    }
}

/// The command that the words name; `None` where they name none.
pub(crate) fn read_command(words: &[String]) -> Option<Command>
    ensures value { result ≡ command_of words.now }
    ensures bound { IfSome result IsAsked }
{
    match words {
        [word] => read_lone(word.as_str()),
        [word, count] => read_pair(word.as_str(), count.as_str()),
        _ => None,
    }
}

// The command that a single word names.
fn read_lone(word: &str) -> Option<Command>
    ensures value { result ≡ lone_command word.now }
    ensures bound { IfSome result IsAsked }
{
    match word {
        "eval" => Some(Command::Eval),
        "sum" => Some(Command::Sum),
        _ => None,
    }
}

// The command that two words name.
fn read_pair(word: &str, count: &str) -> Option<Command>
    ensures value { result ≡ pair_command word.now count.now }
    ensures bound { IfSome result IsAsked }
{
    if word != "make" {
        return None;
    }
    match read_rows(count) {
        Some(n) => Some(Command::Make(n)),
        None => None,
    }
}

// The number of rows that a word names.
fn read_rows(word: &str) -> Option<u32>
    ensures value { result ≡ rows_named word.now }
    ensures bound { IfSome result IsRowCount }
{
    match read_count(word) {
        Some(n) if can_make(n) => Some(n),
        _ => None,
    }
}
