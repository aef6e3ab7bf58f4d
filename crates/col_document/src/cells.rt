//! Cells and columns of a document.
ghost use Rattle.std.specs.Prelude.{◌≡◌, IfSome, IsSome, map, option_and_then, option_map};
ghost use Rattle.serde_json.specs.Find.{as_array, get};
ghost use Rattle.serde_json.specs.View.{items_view, view};
ghost use Rattle.col_types.specs.DataKind.{kind_of};
ghost use Rattle.col_types.specs.DataType.{IsMadeOf, whole_type_of};
ghost use Rattle.col_array.specs.Any.{any_column};
ghost use Rattle.col_flat.specs.Parts.{column_of, native_cell, slot_cell};
ghost use Rattle.col_eval.specs.Tree.{literal};
ghost use Rattle.col_document.specs.Document.{cell_read, column_read, type_read, whole_read};
ghost use Rattle.col_document.specs.Json.{each};
ghost use Rattle.col_document.specs.Reading.{Reads, column_with, scalar_leaf};

use crate::document::ReadError;
use crate::spelled::Spelled;
use crate::texts::read_type_name;
use col_array::{AnyArray, AnyScalar};
use col_flat::{MutablePrimitiveArray, PrimitiveArray, PrimitiveScalar};
use col_types::DataType;
use serde_json::Value;
use std::alloc::Global;
use std::mem;

/// The items of the list that a member holds.
pub fn list_at<'v>(value: &'v Value, name: &str) -> Option<&'v [Value]>
    ensures { option_map (λ v. items_view v.now) result
        ≡ option_and_then as_array (get name.now (view value.now)) }
{
    match value.get(name) {
        Some(member) => match member.as_array() {
            Some(list) => Some(list.as_slice()),
            None => None,
        },
        None => None,
    }
}

/// The items of the list that a member holds, taken out of it.
pub fn take_list(alloc: Global, value: &mut Value, name: &str) -> Option<Vec<Value>>
    ensures { option_map (λ v. items_view v.items) result
        ≡ option_and_then as_array (get name.now (view value.old)) }
{
    match value.get_mut(name) {
        Some(Value::Array(list)) => Some(mem::replace(list, Vec::new(alloc))),
        _ => None,
    }
}

/// The type that the member `type` names.
pub fn read_type(value: &Value) -> Option<DataType>
    ensures value { option_map kind_of result ≡ type_read (view value.now) }
    ensures made { IfSome result (λ data_type. IsSome (whole_type_of (kind_of data_type))) }
{
    read_type_name(value.get("type")?.as_str()?)
}

/// A cell of a type, as a scalar of it; `None` where the value is no such cell.
pub fn read_scalar(data_type: &DataType, value: &Value) -> Option<AnyScalar>
    ensures { option_map scalar_leaf result
        ≡ option_map (literal (kind_of data_type.now))
        (cell_read (kind_of data_type.now) (view value.now)) }
{
    match data_type {
        DataType::Int8 => Some(AnyScalar::Int8(read_whole(DataType::Int8, value)?)),
        DataType::Int16 => Some(AnyScalar::Int16(read_whole(DataType::Int16, value)?)),
        DataType::Int32 => Some(AnyScalar::Int32(read_whole(DataType::Int32, value)?)),
        DataType::Int64 => Some(AnyScalar::Int64(read_whole(DataType::Int64, value)?)),
        DataType::UInt8 => Some(AnyScalar::UInt8(read_whole(DataType::UInt8, value)?)),
        DataType::UInt16 => Some(AnyScalar::UInt16(read_whole(DataType::UInt16, value)?)),
        DataType::UInt32 => Some(AnyScalar::UInt32(read_whole(DataType::UInt32, value)?)),
        DataType::UInt64 => Some(AnyScalar::UInt64(read_whole(DataType::UInt64, value)?)),
        _ => None,
    }
}

/// A column: an object with a type, and a list of cells of that type.
///
/// Refused: `Malformed` where the value is none.
pub fn read_column(alloc: Global, mut value: Value) -> Result<AnyArray, ReadError>
    ensures { Reads any_column result (column_read (view value)) }
{
    let Some(data_type) = read_type(&value) else {
        return Err(ReadError::Malformed);
    };
    let Some(values) = take_list(alloc, &mut value, "values") else {
        return Err(ReadError::Malformed);
    };
    read_cells(alloc, &data_type, values)
}

/// The columns of a list, in its order.
///
/// Refused: `Malformed` where an item is no column.
pub fn read_columns(alloc: Global, values: Vec<Value>) -> Result<Vec<AnyArray>, ReadError>
    ensures { Reads (λ v. map any_column v.items) result
        (each column_read (items_view values.items)) }
{
    let mut columns = Vec::with_capacity(alloc, values.len())?;
    for value in values {
        columns.push(read_column(alloc, value)?)?;
    }
    Ok(columns)
}

// The array of a list of cells of a type.
fn read_cells(
    alloc: Global,
    data_type: &DataType,
    values: Vec<Value>,
) -> Result<AnyArray, ReadError>
    requires { IsSome (whole_type_of (kind_of data_type.now)) }
    ensures { Reads any_column result (column_with (kind_of data_type.now)
        (each (cell_read (kind_of data_type.now)) (items_view values.items))) }
{
    match data_type {
        DataType::Int8 => Ok(AnyArray::Int8(read_array(alloc, DataType::Int8, values)?)),
        DataType::Int16 => Ok(AnyArray::Int16(read_array(alloc, DataType::Int16, values)?)),
        DataType::Int32 => Ok(AnyArray::Int32(read_array(alloc, DataType::Int32, values)?)),
        DataType::Int64 => Ok(AnyArray::Int64(read_array(alloc, DataType::Int64, values)?)),
        DataType::UInt8 => Ok(AnyArray::UInt8(read_array(alloc, DataType::UInt8, values)?)),
        DataType::UInt16 => Ok(AnyArray::UInt16(read_array(alloc, DataType::UInt16, values)?)),
        DataType::UInt32 => Ok(AnyArray::UInt32(read_array(alloc, DataType::UInt32, values)?)),
        DataType::UInt64 => Ok(AnyArray::UInt64(read_array(alloc, DataType::UInt64, values)?)),
        _ => Err(ReadError::Malformed),
    }
}

// The array of a list of cells of a whole-number type, under a type of that native type.
fn read_array<T: Spelled>(
    alloc: Global,
    data_type: DataType,
    values: Vec<Value>,
) -> Result<PrimitiveArray<T>, ReadError>
    requires { IsMadeOf (kind_of data_type) T.PRIMITIVE }
    ensures { Reads column_of result (column_with (kind_of data_type)
        (each (whole_read T.whole_type) (items_view values.items))) }
{
    let slots = read_slots(alloc, values)?;
    match slots.into_array(alloc, data_type) {
        Ok(array) => Ok(array),
        Err(_) => Err(ReadError::Memory),
    }
}

// The cells of a list, in its order, as slots.
fn read_slots<T: Spelled>(
    alloc: Global,
    values: Vec<Value>,
) -> Result<MutablePrimitiveArray<T>, ReadError>
    ensures { Reads (map slot_cell) result
        (each (whole_read T.whole_type) (items_view values.items)) }
{
    let Ok(mut slots) = MutablePrimitiveArray::with_capacity(alloc, values.len()) else {
        return Err(ReadError::Memory);
    };
    for value in values {
        let Some(slot) = read_slot::<T>(&value) else {
            return Err(ReadError::Malformed);
        };
        let Ok(()) = slots.push(slot) else {
            return Err(ReadError::Memory);
        };
    }
    Ok(slots)
}

// A cell of a whole-number type, as a scalar under a type of that native type.
fn read_whole<T: Spelled>(data_type: DataType, value: &Value) -> Option<PrimitiveScalar<T>>
    requires { IsMadeOf (kind_of data_type) T.PRIMITIVE }
    ensures { option_map (λ s. literal s.data_type (slot_cell s.slot)) result
        ≡ option_map (literal (kind_of data_type)) (whole_read T.whole_type (view value.now)) }
{
    PrimitiveScalar::new(data_type, read_slot::<T>(value)?).ok()
}

// A cell of a whole-number type, as a slot: null, a whole number that fits, or a text that spells
// one.
#[inline(always)]
fn read_slot<T: Spelled>(value: &Value) -> Option<Option<T>>
    ensures { option_map (native_cell T.numbers) result
        ≡ whole_read T.whole_type (view value.now) }
{
    match value {
        Value::Null => Some(None),
        Value::Number(number) => Some(Some(T::from_i128(number.as_i128()?)?)),
        Value::String(text) => Some(Some(T::from_text(text.as_str())?)),
        _ => None,
    }
}
