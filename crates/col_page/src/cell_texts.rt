//! The texts of cells, as pages write them.
ghost use Rattle.std.specs.Prelude.{◌≡◌, ◌++◌, IfOk, codes};
ghost use Rattle.col_types.specs.Answer.{FailsByMemory};
ghost use Rattle.col_flat.specs.Parts.{native_cell, value_cell};
ghost use Rattle.col_page.specs.Page.{cell_text};

use col_types::{Error, NativeType, days_ms, months_days_ns};
use itoa::{Buffer, Integer};

/// A native type whose values are written on pages.
pub trait Printed: NativeType {
    /// Adds the text of a value.
    fn push_value(self, text: &mut Vec<u8>, buffer: &mut Buffer) -> Result<(), Error>
        ensures value { IfOk result
            (λ _. text.new.items ≡ text.old.items ++ cell_text (value_cell (Self.numbers self))) }
        ensures refused { FailsByMemory result };
}

/// Adds the text of a slot.
#[inline(always)]
pub fn push_slot<T: Printed>(
    text: &mut Vec<u8>,
    buffer: &mut Buffer,
    slot: Option<T>,
) -> Result<(), Error>
    ensures value { IfOk result
        (λ _. text.new.items ≡ text.old.items ++ cell_text (native_cell T.numbers slot)) }
    ensures refused { FailsByMemory result }
{
    match slot {
        Some(value) => value.push_value(text, buffer),
        None => Ok(text.extend_from_slice(b"null")?),
    }
}

// Adds a number.
#[inline(always)]
fn push_number<I: Integer>(text: &mut Vec<u8>, buffer: &mut Buffer, n: I) -> Result<(), Error>
    ensures value { IfOk result (λ _. text.new.items ≡ text.old.items ++ I.text n) }
    ensures refused { FailsByMemory result }
{
    text.extend_from_slice(buffer.format(n).as_bytes())?;
    Ok(())
}

// Adds a number behind a comma.
fn push_next_number<I: Integer>(text: &mut Vec<u8>, buffer: &mut Buffer, n: I) -> Result<(), Error>
    ensures value { IfOk result (λ _. text.new.items ≡ text.old.items ++ (codes "," ++ I.text n)) }
    ensures refused { FailsByMemory result }
{
    text.push(b',')?;
    push_number(text, buffer, n)
}

impl Printed for i8 {
    #[inline(always)]
    fn push_value(self, text: &mut Vec<u8>, buffer: &mut Buffer) -> Result<(), Error> {
        push_number::<i8>(text, buffer, self)
    }
}

impl Printed for i16 {
    #[inline(always)]
    fn push_value(self, text: &mut Vec<u8>, buffer: &mut Buffer) -> Result<(), Error> {
        push_number::<i16>(text, buffer, self)
    }
}

impl Printed for i32 {
    #[inline(always)]
    fn push_value(self, text: &mut Vec<u8>, buffer: &mut Buffer) -> Result<(), Error> {
        push_number::<i32>(text, buffer, self)
    }
}

impl Printed for i64 {
    #[inline(always)]
    fn push_value(self, text: &mut Vec<u8>, buffer: &mut Buffer) -> Result<(), Error> {
        push_number::<i64>(text, buffer, self)
    }
}

impl Printed for i128 {
    #[inline(always)]
    fn push_value(self, text: &mut Vec<u8>, buffer: &mut Buffer) -> Result<(), Error> {
        push_number::<i128>(text, buffer, self)
    }
}

impl Printed for u8 {
    #[inline(always)]
    fn push_value(self, text: &mut Vec<u8>, buffer: &mut Buffer) -> Result<(), Error> {
        push_number::<u8>(text, buffer, self)
    }
}

impl Printed for u16 {
    #[inline(always)]
    fn push_value(self, text: &mut Vec<u8>, buffer: &mut Buffer) -> Result<(), Error> {
        push_number::<u16>(text, buffer, self)
    }
}

impl Printed for u32 {
    #[inline(always)]
    fn push_value(self, text: &mut Vec<u8>, buffer: &mut Buffer) -> Result<(), Error> {
        push_number::<u32>(text, buffer, self)
    }
}

impl Printed for u64 {
    #[inline(always)]
    fn push_value(self, text: &mut Vec<u8>, buffer: &mut Buffer) -> Result<(), Error> {
        push_number::<u64>(text, buffer, self)
    }
}

impl Printed for days_ms {
    fn push_value(self, text: &mut Vec<u8>, buffer: &mut Buffer) -> Result<(), Error> {
        text.push(b'[')?;
        push_number(text, buffer, self.days())?;
        push_next_number(text, buffer, self.milliseconds())?;
        text.push(b']')?;
        Ok(())
    }
}

impl Printed for months_days_ns {
    fn push_value(self, text: &mut Vec<u8>, buffer: &mut Buffer) -> Result<(), Error> {
        text.push(b'[')?;
        push_number(text, buffer, self.months())?;
        push_next_number(text, buffer, self.days())?;
        push_next_number(text, buffer, self.ns())?;
        text.push(b']')?;
        Ok(())
    }
}
