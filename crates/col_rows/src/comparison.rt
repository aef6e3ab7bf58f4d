//! A run beside what is wanted of it.
ghost use Rattle.std.specs.Prelude.{◌≡◌, ◌↔◌, IfOk, IsNone};

use crate::case::Case;
use col_run::{MemorySink, SteadySource, run};
use std::alloc::{AllocError, Global};

// How many bytes a page may have beyond the wanted one and still be seen to its end.
const SPARE: usize = 4096;

// How many bytes the sink takes in a call, so that a page is written in several.
const STEP: usize = 64;

// How many bytes are shown of a page that differs.
const SHOWN: usize = 60;

/// What a run answered.
#[derive(Drop)]
pub struct Answer {
    status: u8,
    page: Vec<u8>,
}

impl Answer {
    /// The answer of the run of a case, over a source and a sink in memory.
    pub fn of(alloc: Global, case: &Case) -> Result<Answer, AllocError> {
        let room = case.page.len().saturating_add(SPARE);
        let Ok(mut sink) = MemorySink::new(alloc, room, STEP, Vec::new(alloc)) else {
            return Err(AllocError);
        };
        let mut source = SteadySource::new(Vec::from_slice(alloc, case.document.as_slice())?);
        let status = run(alloc, case.words.as_slice(), &mut source, &mut sink).number();
        let page = Vec::from_slice(alloc, sink.bytes())?;
        Ok(Answer { status, page })
    }

    /// How the answer differs from what the case wants, in words; `None` exactly where it has the
    /// wanted status and the wanted page.
    pub fn difference(&self, alloc: Global, case: &Case) -> Result<Option<String>, AllocError>
        ensures { IfOk result (λ told. IsNone told
            ↔ ((self.now.status ≡ case.now.status)
            × (self.now.page.items ≡ case.now.page.items))) }
    {
        let is_page_wanted = self.page.as_slice() == case.page.as_slice();
        if self.status == case.status && is_page_wanted {
            return Ok(None);
        }
        let mut text = format!(in alloc; "status {}", self.status)?;
        if self.status != case.status {
            write!(text, ", wanted {}", case.status)?;
        }
        if !is_page_wanted {
            push_pages(&mut text, &self.page, &case.page)?;
        }
        Ok(Some(text))
    }
}

// Adds where two pages part, and some of both from there on.
fn push_pages(text: &mut String, page: &[u8], wanted: &[u8]) -> Result<(), AllocError> {
    let place = common_length(page, wanted);
    write!(text, "; the page from byte {place} on is ")?;
    push_shown(text, page, place)?;
    text.push_str(", wanted ")?;
    push_shown(text, wanted, place)
}

// How many bytes two texts have in common from their front on.
fn common_length(left: &[u8], right: &[u8]) -> usize {
    left.iter()
        .zip(right.iter())
        .take_while(|pair| pair.0 == pair.1)
        .count()
}

// Adds some of the bytes from a place on, as a table spells them, or `the end` where none are left.
fn push_shown(text: &mut String, bytes: &[u8], place: usize) -> Result<(), AllocError> {
    if place >= bytes.len() {
        return text.push_str("the end");
    }
    for byte in bytes.iter().skip(place).take(SHOWN) {
        match *byte {
            b'"' => text.push('"')?,
            b'\'' => text.push('\'')?,
            byte => write!(text, "{}", byte.escape_ascii())?,
        }
    }
    Ok(())
}
