//! Texts that types hold: names of fields, and time zones.
ghost use Rattle.std.specs.Prelude.{◌≡◌, ◌↔◌, IsTrue, IfOk};
ghost use Rattle.col_types.specs.Answer.{FailsByMemory};

use crate::error::Error;
use std::alloc::Global;
use std::marker::Model;

/// A text in UTF-8, which clauses see as the list of its bytes.
#[derive(Debug, Drop)]
pub struct Text {
    text: String,
}

impl Model for Text {
    ghost use Rattle.std.specs.Prelude.{List, ℕ, string_bytes};

    ghost Value = { List ℕ };

    ghost view = { λ t. string_bytes t.text };
}

impl Text {
    /// The text, with the same bytes.
    pub fn new(alloc: Global, text: &str) -> Result<Text, Error>
        ensures value { IfOk result (λ made. made ≡ text.now) }
        ensures refused { FailsByMemory result }
    {
        Ok(Text {
            text: String::from_str(alloc, text)?,
        })
    }

    /// The bytes of the text, as they were given.
    pub fn as_str(&self) -> &str
        ensures { result.now ≡ self.now }
    {
        self.text.as_str()
    }

    /// Whether the texts are equal, byte by byte.
    pub fn equal(&self, other: &Text) -> bool
        ensures { IsTrue result ↔ (self.now ≡ other.now) }
    {
        self.as_str() == other.as_str()
    }

    /// An equal text.
    pub fn try_clone(&self, alloc: Global) -> Result<Text, Error>
        ensures value { IfOk result (λ copy. copy ≡ self.now) }
        ensures refused { FailsByMemory result }
    {
        Text::new(alloc, self.as_str())
    }
}
