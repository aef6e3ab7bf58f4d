//! Bytes as the fields of a table spell them.
ghost use Rattle.std.specs.Prelude.{◌<◌, IfSome};

use crate::case::CaseError;
use std::alloc::Global;

/// The bytes that a field spells: its text, but for the escapes `\n`, `\r`, `\t`, `\\`, `\x` with
/// two hexadecimal digits, and `\<12|text>`, a text twelve times.
///
/// Refused: `Escape` where a backslash begins none of these.
pub fn unescaped(alloc: Global, field: &str) -> Result<Vec<u8>, CaseError> {
    let mut bytes = Vec::new(alloc);
    let mut is_escape = false;
    for piece in field.split('\\') {
        if !is_escape {
            bytes.extend_from_slice(piece.as_bytes())?;
        } else if piece.is_empty() {
            bytes.push(b'\\')?;
        } else {
            push_escape(&mut bytes, piece)?;
        }
        // what follows an escaped backslash is plain
        is_escape = !is_escape || !piece.is_empty();
    }
    if is_escape {
        Ok(bytes)
    } else {
        Err(CaseError::Escape)
    }
}

// Adds what the text behind a backslash means.
fn push_escape(bytes: &mut Vec<u8>, text: &str) -> Result<(), CaseError> {
    let mut chars = text.chars();
    match chars.next() {
        Some('n') => bytes.push(b'\n')?,
        Some('r') => bytes.push(b'\r')?,
        Some('t') => bytes.push(b'\t')?,
        Some('x') => return push_byte(bytes, chars.as_str()),
        Some('<') => return push_repeated(bytes, chars.as_str()),
        _ => return Err(CaseError::Escape),
    }
    bytes.extend_from_slice(chars.as_str().as_bytes())?;
    Ok(())
}

// Adds the byte of the two digits at the front, and the text behind them.
fn push_byte(bytes: &mut Vec<u8>, text: &str) -> Result<(), CaseError> {
    let mut chars = text.chars();
    let (Some(high), Some(low)) = (read_digit(chars.next()), read_digit(chars.next())) else {
        return Err(CaseError::Escape);
    };
    bytes.push(16 * high + low)?;
    bytes.extend_from_slice(chars.as_str().as_bytes())?;
    Ok(())
}

// The value of a hexadecimal digit.
fn read_digit(digit: Option<char>) -> Option<u8>
    ensures { IfSome result (λ value. value < 16) }
{
    let value = digit?.to_digit(16)?;
    u8::try_from(value).ok()
}

// Adds the repetition at the front, as `12|text>`, and the text behind it.
fn push_repeated(bytes: &mut Vec<u8>, text: &str) -> Result<(), CaseError> {
    let Some((body, rest)) = text.split_once('>') else {
        return Err(CaseError::Escape);
    };
    let Some((count, unit)) = body.split_once('|') else {
        return Err(CaseError::Escape);
    };
    let Ok(count) = count.parse::<u32>() else {
        return Err(CaseError::Escape);
    };
    for _ in 0..count {
        bytes.extend_from_slice(unit.as_bytes())?;
    }
    bytes.extend_from_slice(rest.as_bytes())?;
    Ok(())
}
