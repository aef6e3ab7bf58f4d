//! Columns of the plain form, a token at a time: each has its type before its values, each of them
//! once.
//!
//! Each call answers `None` where the tokens are not of that form, where they hold no column, and
//! for want of memory: then the document is read from its JSON value.
ghost use Rattle.std.specs.Prelude.{◌≡◌, ◌≤◌, ◌∷◌, ℕ, ℤ, Some, IfSome, IsSome, List, map};
ghost use Rattle.std.specs.Prelude.{option_and_then};
ghost use Rattle.json.specs.Token.{Token as SpecToken, begin_object};
ghost use Rattle.serde_json.specs.Find.{as_array};
ghost use Rattle.col_json.specs.Cursor.{token_of};
ghost use Rattle.col_json.specs.Digits.{Spells};
ghost use Rattle.col_model.specs.Whole.{checked_number};
ghost use Rattle.col_types.specs.DataKind.{kind_of};
ghost use Rattle.col_types.specs.DataType.{IsMadeOf, whole_type_of};
ghost use Rattle.col_array.specs.Any.{any_column};
ghost use Rattle.col_flat.specs.Parts.{column_of, native_cell, slot_cell};
ghost use Rattle.col_document.specs.Document.{cell_read, column_read, whole_read};
ghost use Rattle.col_document.specs.Json.{each};
ghost use Rattle.col_document.specs.Reading.{AreReadAs, IsReadAs, column_with};

use crate::texts::read_type_name;
use col_array::AnyArray;
use col_flat::{MutablePrimitiveArray, PrimitiveArray};
use col_json::{Cursor, Token, close_object, open_list, read_digits, take_key, take_text};
use col_types::{DataType, NativeArithmetics};
use std::alloc::Global;

/// The columns of a list, in its order, within some levels of lists and objects.
pub fn take_columns(alloc: Global, cursor: &mut Cursor<'_>, levels: usize) -> Option<Vec<AnyArray>>
    requires { 3 ≤ levels }
    ensures { IfSome result
        (λ v. IsReadAs levels (λ d. option_and_then (each column_read) (as_array d))
        cursor.old (map any_column v.items) cursor.new) }
{
    open_list(cursor)?;
    take_items(alloc, cursor, levels - 1)
}

// The columns up to the bracket that closes a list, and the bracket.
fn take_items(alloc: Global, cursor: &mut Cursor<'_>, levels: usize) -> Option<Vec<AnyArray>>
    requires { 2 ≤ levels }
    ensures { IfSome result (λ v. AreReadAs levels (each column_read) cursor.old
        (map any_column v.items) cursor.new) }
{
    let mut columns = Vec::new(alloc);
    'items: loop {
        match cursor.next()? {
            Token::EndArray => return Some(columns),
            Token::BeginObject => {}
            _ => return None,
        }
        let column = take_column(alloc, cursor, levels)?;
        let Ok(()) = columns.push(column) else {
            return None;
        };
    }
}

// A column, behind the brace that opens it: a type, and a list of cells of that type.
fn take_column(alloc: Global, cursor: &mut Cursor<'_>, levels: usize) -> Option<AnyArray>
    requires { 2 ≤ levels }
    ensures { IfSome result
        (λ column. IsReadAs levels column_read (begin_object ∷ cursor.old) (any_column column)
        cursor.new) }
{
    take_key(alloc, cursor, "type", "values", levels - 1)?;
    let data_type = read_type_name(take_text(cursor)?)?;
    take_key(alloc, cursor, "values", "type", levels - 1)?;
    open_list(cursor)?;
    let column = take_cells(alloc, &data_type, cursor)?;
    close_object(alloc, cursor, "type", "values", levels - 1)?;
    Some(column)
}

// The array of the cells of a type up to the bracket that closes their list, and the bracket.
fn take_cells(alloc: Global, data_type: &DataType, cursor: &mut Cursor<'_>) -> Option<AnyArray>
    requires { IsSome (whole_type_of (kind_of data_type.now)) }
    ensures { IfSome result (λ column. (levels : ℕ) → AreReadAs levels
        (λ ds. column_with (kind_of data_type.now) (each (cell_read (kind_of data_type.now)) ds))
        cursor.old (any_column column) cursor.new) }
{
    match data_type {
        DataType::Int8 => Some(AnyArray::Int8(take_array(alloc, DataType::Int8, cursor)?)),
        DataType::Int16 => Some(AnyArray::Int16(take_array(alloc, DataType::Int16, cursor)?)),
        DataType::Int32 => Some(AnyArray::Int32(take_array(alloc, DataType::Int32, cursor)?)),
        DataType::Int64 => Some(AnyArray::Int64(take_array(alloc, DataType::Int64, cursor)?)),
        DataType::UInt8 => Some(AnyArray::UInt8(take_array(alloc, DataType::UInt8, cursor)?)),
        DataType::UInt16 => Some(AnyArray::UInt16(take_array(alloc, DataType::UInt16, cursor)?)),
        DataType::UInt32 => Some(AnyArray::UInt32(take_array(alloc, DataType::UInt32, cursor)?)),
        DataType::UInt64 => Some(AnyArray::UInt64(take_array(alloc, DataType::UInt64, cursor)?)),
        _ => None,
    }
}

// The same for a whole-number type, under a type of that native type.
fn take_array<T: NativeArithmetics>(
    alloc: Global,
    data_type: DataType,
    cursor: &mut Cursor<'_>,
) -> Option<PrimitiveArray<T>>
    requires { IsMadeOf (kind_of data_type) T.PRIMITIVE }
    ensures { IfSome result (λ column. (levels : ℕ) → AreReadAs levels
        (λ ds. column_with (kind_of data_type) (each (whole_read T.whole_type) ds))
        cursor.old (column_of column) cursor.new) }
{
    let slots = take_slots(alloc, cursor)?;
    match slots.into_array(alloc, data_type) {
        Ok(column) => Some(column),
        Err(_) => None,
    }
}

// The cells up to the bracket that closes their list, as slots, and the bracket.
fn take_slots<T: NativeArithmetics>(
    alloc: Global,
    cursor: &mut Cursor<'_>,
) -> Option<MutablePrimitiveArray<T>>
    ensures { IfSome result (λ slots. (levels : ℕ) → AreReadAs levels
        (each (whole_read T.whole_type)) cursor.old (map slot_cell slots) cursor.new) }
{
    let mut slots = MutablePrimitiveArray::with_capacity(alloc, 0).ok()?;
    'items: loop {
        let token = cursor.next()?;
        if let Token::EndArray = token {
            return Some(slots);
        }
        let slot = token_slot::<T>(token)?;
        let Ok(()) = slots.push(slot) else {
            return None;
        };
    }
}

// A cell of a whole-number type, as a slot: null, a whole number that fits, or a text that spells
// one.
#[inline(always)]
fn token_slot<T: NativeArithmetics>(token: Token<'_>) -> Option<Option<T>>
    ensures { IfSome result (λ slot. (levels : ℕ) → (rest : List SpecToken)
        → IsReadAs levels (whole_read T.whole_type) (token_of token.entry ∷ rest)
        (native_cell T.numbers slot) rest) }
{
    match token {
        Token::Null => Some(None),
        Token::Number(text) => Some(Some(spelled_number(text)?)),
        Token::Text(text) => Some(Some(spelled_number(text)?)),
        _ => None,
    }
}

// The number that a text spells, where the type has it.
#[inline(always)]
fn spelled_number<T: NativeArithmetics>(text: &[u8]) -> Option<T>
    ensures { IfSome result (λ x. (n : ℤ) × Spells text.now n
        × (checked_number T.whole_type n ≡ Some (T.value x))) }
{
    T::from_i128(read_digits(text)?)
}
