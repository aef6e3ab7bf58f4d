//! How many cases there were, and how many differ.
ghost use Rattle.std.specs.Prelude.{◌≡◌, ◌↔◌, ◌<◌, ◌≤◌, IfOk, IsSome, IsTrue};

use crate::case::{Case, CaseError};
use crate::comparison::Answer;
use std::alloc::{AllocError, Global};
use std::fmt;

/// The count of what a table held so far.
#[derive(Clone, Copy, Debug, Default)]
pub struct Tally {
    lines: u64,
    cases: u64,
    differ: u64,
}

impl Tally {
    /// Whether there was a case, and none differs.
    pub fn is_clean(&self) -> bool
        ensures { IsTrue result ↔ ((0 < self.now.cases) × (self.now.differ ≡ 0)) }
    {
        self.cases > 0 && self.differ == 0
    }

    /// Counts the next line, and runs it where it is a case; what is to be told of it, if anything.
    /// A line that is no case counts as one that differs.
    pub fn check_line(&mut self, alloc: Global, line: &str) -> Result<Option<String>, AllocError>
        ensures told { IfOk result (λ told. IsSome told → 0 < self.new.differ) }
        ensures counts { self.old.differ ≤ self.new.differ }
    {
        self.lines = self.lines.saturating_add(1);
        if line.is_empty() || line.starts_with('#') {
            return Ok(None);
        }
        self.cases = self.cases.saturating_add(1);
        let told = self.told_of(alloc, line)?;
        if told.is_some() {
            self.differ = self.differ.saturating_add(1);
        }
        Ok(told)
    }

    // What is to be told of a line that should be a case.
    fn told_of(&self, alloc: Global, line: &str) -> Result<Option<String>, AllocError> {
        let number = self.lines;
        let case = match Case::parse(alloc, line) {
            Ok(case) => case,
            Err(CaseError::Memory) => return Err(AllocError),
            Err(error) => return Ok(Some(format!(in alloc; "no case in line {number}: {error}")?)),
        };
        match Answer::of(alloc, &case)?.difference(alloc, &case)? {
            Some(text) => {
                let name = case.name.as_str();
                Ok(Some(format!(in alloc; "differs {name} (line {number}): {text}")?))
            }
            None => Ok(None),
        }
    }
}

impl fmt::Display for Tally {
    fn fmt<W: fmt::Write>(&self, f: &mut fmt::Formatter<W>) -> fmt::Result {
        write!(f, "{} cases, {} differ", self.cases, self.differ)
    }
}
