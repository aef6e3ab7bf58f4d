//! Cases: the lines of a table.
use crate::escapes::unescaped;
use std::alloc::{AllocError, AllocFailed, Global};
use thiserror::Error;

/// What a run is given, and what it must answer.
#[derive(Drop)]
pub struct Case {
    pub name: String,
    pub words: Vec<String>,
    pub document: Vec<u8>,
    pub status: u8,
    pub page: Vec<u8>,
}

/// Why a line is no case.
#[derive(Clone, Copy, Debug, Drop, PartialEq, Eq, Error)]
pub enum CaseError {
    /// Memory was not found.
    #[error("out of memory")]
    Memory,
    /// It has more or fewer than five fields, or a field that has no text.
    #[error("not five fields with a tab between them, each with a text")]
    Fields,
    /// A backslash begins no escape.
    #[error("a backslash that begins no escape")]
    Escape,
    /// The status is no number below 256.
    #[error("a status that is no number below 256")]
    Status,
    /// The words are not UTF-8.
    #[error("a word that is not UTF-8")]
    Word,
}

impl From<AllocError> for CaseError {
    fn from(_e: AllocError) -> CaseError {
        CaseError::Memory
    }
}

impl<T: Drop> From<AllocFailed<T>> for CaseError {
    fn from(_e: AllocFailed<T>) -> CaseError {
        CaseError::Memory
    }
}

impl Case {
    /// The case of a line: name, words, document, status and page, with a tab between them.
    ///
    /// Refused where it has not five fields, or one of them has another form.
    pub fn parse(alloc: Global, line: &str) -> Result<Case, CaseError> {
        let mut fields = line.split('\t');
        let (Some(name), Some(words), Some(document), Some(status), Some(page), None) = (
            fields.next(),
            fields.next(),
            fields.next(),
            fields.next(),
            fields.next(),
            fields.next(),
        ) else {
            return Err(CaseError::Fields);
        };
        if name.is_empty() {
            return Err(CaseError::Fields);
        }
        let Ok(status) = status.parse::<u8>() else {
            return Err(CaseError::Status);
        };
        Ok(Case {
            name: String::from_str(alloc, name)?,
            words: read_words(alloc, words)?,
            document: read_bytes(alloc, document)?,
            status,
            page: read_bytes(alloc, page)?,
        })
    }
}

// The bytes of a field: none for `-`.
fn read_bytes(alloc: Global, field: &str) -> Result<Vec<u8>, CaseError> {
    match field {
        "" => Err(CaseError::Fields),
        "-" => Ok(Vec::new(alloc)),
        _ => unescaped(alloc, field),
    }
}

// The words of a field, with a space between them: none for `-`.
fn read_words(alloc: Global, field: &str) -> Result<Vec<String>, CaseError> {
    let mut words = Vec::new(alloc);
    if field == "-" {
        return Ok(words);
    }
    for word in field.split(' ') {
        words.push(read_word(alloc, word)?)?;
    }
    Ok(words)
}

// A word of a field.
fn read_word(alloc: Global, word: &str) -> Result<String, CaseError> {
    match String::from_utf8(read_bytes(alloc, word)?) {
        Ok(word) => Ok(word),
        Err(_) => Err(CaseError::Word),
    }
}
