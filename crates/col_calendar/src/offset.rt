//! Offsets from UTC, and date-times that have one.
ghost use Rattle.std.specs.Prelude.{◌≡◌, IfSome, Some, pos};
ghost use Rattle.jiff_core.specs.Calendar.{IsBetween};
ghost use Rattle.col_calendar.specs.Offset.{are_below, checked_offset, clock_text_seconds};
ghost use Rattle.col_calendar.specs.Offset.{is_utc_text, offset_of, signed_text_seconds};
ghost use Rattle.col_calendar.specs.Offset.{two_digits, zone_answer};

use col_types::{Error, Reason};
use jiff::civil::DateTime;
use std::marker::Model;

/// A fixed offset from UTC: seconds east, less than a day either way.
#[derive(Clone, Copy)]
pub struct FixedOffset {
    seconds: i32,
}

impl Model for FixedOffset {
    ghost use Rattle.std.specs.Prelude.{ℤ, ◌≡◌, Some};
    ghost use Rattle.col_calendar.specs.Offset.{checked_offset};

    ghost Value = { ℤ };

    ghost view = { λ offset. offset.seconds };

    ghost inverse = { λ seconds. record { seconds = seconds } };

    ghost invariant = { λ offset. checked_offset offset.seconds ≡ Some offset.seconds };
}

impl FixedOffset {
    // The offset of UTC itself.
    pub(crate) fn utc() -> FixedOffset
        ensures { result ≡ pos 0 }
    {
        FixedOffset { seconds: 0 }
    }

    /// The offset of so many seconds east of UTC; `None` where that is a day or more either way.
    pub fn east_opt(seconds: i32) -> Option<FixedOffset>
        ensures { result ≡ checked_offset seconds }
    {
        if seconds.unsigned_abs() < 86_400 {
            Some(FixedOffset { seconds })
        } else {
            None
        }
    }

    /// The seconds east of UTC.
    pub fn local_minus_utc(&self) -> i32
        ensures value { result ≡ self.now }
        ensures within { checked_offset result ≡ Some result }
    {
        self.seconds
    }
}

/// An instant as a clock of a fixed offset shows it.
#[derive(Clone, Copy)]
pub struct OffsetDateTime {
    utc: DateTime,
    local: DateTime,
    offset: FixedOffset,
}

impl Model for OffsetDateTime {
    ghost use Rattle.col_calendar.specs.Conversion.{OffsetParts};

    ghost Value = { OffsetParts };

    ghost view = { λ a. record { utc = a.utc; local = a.local; offset = a.offset } };

    ghost inverse = { λ p. record { utc = p.utc; local = p.local; offset = p.offset } };
}

impl OffsetDateTime {
    // An instant by its date-times in UTC and by the clock of the offset.
    pub(crate) fn new(utc: DateTime, local: DateTime, offset: &FixedOffset) -> OffsetDateTime
        ensures utc { result.utc ≡ utc }
        ensures local { result.local ≡ local }
        ensures offset { result.offset ≡ offset.now }
    {
        OffsetDateTime {
            utc,
            local,
            offset: *offset,
        }
    }

    /// The date-time in UTC.
    pub fn naive_utc(&self) -> DateTime
        ensures { result ≡ self.now.utc }
    {
        self.utc
    }

    /// The date-time that the clock shows.
    pub fn naive_local(&self) -> DateTime
        ensures { result ≡ self.now.local }
    {
        self.local
    }

    /// The clock's offset from UTC.
    pub fn offset(&self) -> FixedOffset
        ensures { result ≡ self.now.offset }
    {
        self.offset
    }
}

/// The offset that a text tells: `UTC`, or hours 00 to 23 and minutes 00 to 59, as `01:30`, with an
/// optional sign in front, `+` or `-`, which holds for both.
///
/// Refused: `Zone` where the text is none of these.
pub fn parse_offset(offset: &str) -> Result<FixedOffset, Error>
    ensures { result ≡ zone_answer (offset_of offset.now) }
{
    match text_seconds(offset.as_bytes()) {
        Some(seconds) => {
            FixedOffset::east_opt(seconds).ok_or(Error::InvalidArgumentError(Reason::Zone))
        }
        None => Err(Error::InvalidArgumentError(Reason::Zone)),
    }
}

// The seconds of an offset text.
fn text_seconds(text: &[u8]) -> Option<i32>
    ensures value { result ≡ offset_of text.now }
    ensures within { IfSome result (λ seconds. checked_offset seconds ≡ Some seconds) }
{
    if is_utc(text) {
        Some(0)
    } else {
        signed_seconds(text)
    }
}

// Whether a text is `UTC`.
fn is_utc(text: &[u8]) -> bool
    ensures { result ≡ is_utc_text text.now }
{
    matches!(text, [b'U', b'T', b'C'])
}

// The seconds of a clock's text behind an optional sign.
fn signed_seconds(text: &[u8]) -> Option<i32>
    ensures value { result ≡ signed_text_seconds text.now }
    ensures within { IfSome result (λ seconds. checked_offset seconds ≡ Some seconds) }
{
    match text {
        [b'+', rest @ ..] => clock_seconds(rest),
        [b'-', rest @ ..] => {
            let seconds = clock_seconds(rest)?;
            Some(-seconds)
        }
        _ => clock_seconds(text),
    }
}

// The seconds of a clock's text, as `01:30`.
fn clock_seconds(text: &[u8]) -> Option<i32>
    ensures value { result ≡ clock_text_seconds text.now }
    ensures within { IfSome result (λ seconds. IsBetween (pos 0) (pos 86_340) seconds) }
{
    let [a, b, b':', c, d] = text else {
        return None;
    };
    if is_below(24, *a, *b) && is_below(60, *c, *d) {
        Some(number(*a, *b) as i32 * 3_600 + number(*c, *d) as i32 * 60)
    } else {
        None
    }
}

// Whether two bytes are digits whose number is below a limit.
fn is_below(limit: u32, tens: u8, ones: u8) -> bool
    ensures { result ≡ are_below limit tens ones }
{
    tens.is_ascii_digit() && ones.is_ascii_digit() && number(tens, ones) < limit
}

// The number of two digits.
fn number(tens: u8, ones: u8) -> u32
    ensures { result ≡ two_digits tens ones }
{
    tens.saturating_sub(b'0') as u32 * 10 + ones.saturating_sub(b'0') as u32
}
