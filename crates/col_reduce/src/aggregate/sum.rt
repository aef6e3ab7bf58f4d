//! Sums of the values of arrays.
ghost use Rattle.std.specs.Prelude.{[], ◌≡◌, ◌↔◌, Err, IsSome, IsTrue, None, map};
ghost use Rattle.col_model.specs.Whole.{wrapped_number};
ghost use Rattle.col_types.specs.Answer.{Answers};
ghost use Rattle.col_types.specs.DataKind.{kind_of};
ghost use Rattle.col_types.specs.NativeFields.{fields_of};
ghost use Rattle.col_flat.specs.Parts.{column_of, masked_slots, native_cell, slot_cell};
ghost use Rattle.col_array.specs.Any.{any_column};
ghost use Rattle.col_reduce.specs.Total.{checked_total, exact_sum, fitting_sum};
ghost use Rattle.col_reduce.specs.Exact.{exact_number};
ghost use Rattle.col_reduce.specs.Total.{only_field, sum_answer, summed_type, told_number};
ghost use Rattle.col_reduce.specs.Total.{total_of, typed_cell, typed_slot};

use super::exact::ExactSum;
use super::masked::sum_masked;
use crate::native::Summable;
use col_array::{AnyArray, AnyScalar};
use col_flat::{PrimitiveArray, PrimitiveScalar};
use col_types::{DataType, Error, NativeType, NativeWhole, PhysicalType, PrimitiveType, Reason};
use std::alloc::Global;

/// What a checked sum tells.
#[derive(Clone, Copy, Debug, PartialEq, Eq, Drop)]
pub enum Checked<T> {
    /// No slot has a value.
    NoValue,
    /// The exact sum.
    Sum(T),
    /// The exact sum does not fit the type.
    Overflow,
}

/// The sum of the values modulo 2^w, w being the type's width; 0 of none.
pub fn sum_slice<T: Summable>(values: &[T]) -> T
    ensures answer { T.value result
        ≡ wrapped_number T.whole_type (exact_sum (map T.value values.now)) }
{
    let mut total = T::zero();
    for value in values {
        total = total.add_modulo(*value);
    }
    total
}

/// The sum of the valid slots modulo 2^w, w being the type's width; `None` where none is valid.
pub fn sum_primitive<T: Summable>(array: &PrimitiveArray<T>) -> Option<T>
    ensures answer { native_cell T.numbers result
        ≡ total_of T.whole_type (column_of array.now).cells }
{
    let values = array.values().as_slice();
    match array.validity() {
        Some(mask) => sum_masked(values, mask),
        None => sum_valid(values),
    }
}

// The sum modulo 2^w of values that are all valid; `None` of none.
fn sum_valid<T: Summable>(values: &[T]) -> Option<T>
    ensures { native_cell T.numbers result ≡ total_of T.whole_type
        (map slot_cell (masked_slots (map T.numbers values.now) [])) }
{
    if values.is_empty() {
        None
    } else {
        Some(sum_slice(values))
    }
}

/// The exact sum of the valid slots, or that it does not fit the type, or that none is valid. What
/// some of the slots come to may pass the type, and 128 bits.
pub fn sum_checked<T: NativeWhole>(array: &PrimitiveArray<T>) -> Checked<T>
    ensures answer { told_number T.value result
        ≡ checked_total T.whole_type (column_of array.now).cells }
{
    let mut total = ExactSum::zero();
    let mut found = false;
    // So many slots, and no more, may carry.
    let _count = array.len();
    for slot in array.iter() {
        if let Some(value) = slot {
            total = total.plus(value.to_i128());
            found = true;
        }
    }
    if found { told(total) } else { Checked::NoValue }
}

// A sum, or that it does not fit the type.
fn told<T: NativeWhole>(total: ExactSum) -> Checked<T>
    ensures { told_number T.value result
        ≡ fitting_sum T.whole_type (exact_number total) }
{
    match total.value() {
        Some(n) => Checked::Sum(n),
        None => Checked::Overflow,
    }
}

/// Whether columns of the type are summed: exactly where they are stored as whole numbers of 8 to
/// 128 bits, as dates, times, durations, decimals and spans of months are.
pub fn can_sum(data_type: &DataType) -> bool
    ensures range { IsTrue result ↔ IsSome (summed_type (kind_of data_type.now)) }
{
    match data_type.to_physical_type() {
        PhysicalType::Primitive(native) => is_number(native),
        _ => false,
    }
}

// Whether the values of a native type are single numbers.
fn is_number(native: PrimitiveType) -> bool
    ensures { IsTrue result ↔ IsSome (only_field (fields_of native)) }
{
    !matches!(native, PrimitiveType::DaysMs | PrimitiveType::MonthDayNano)
}

/// The sum of the valid slots modulo 2^w, w being the width of the values, under the array's type;
/// null where no slot is valid.
///
/// Refused: `SumType` exactly where `can_sum` is false of the type.
pub fn sum(alloc: Global, array: &AnyArray) -> Result<AnyScalar, Error>
    ensures answer { Answers typed_cell result (sum_answer (any_column array.now)) }
{
    match array {
        AnyArray::Int8(array) => Ok(AnyScalar::Int8(sum_typed(alloc, array)?)),
        AnyArray::Int16(array) => Ok(AnyScalar::Int16(sum_typed(alloc, array)?)),
        AnyArray::Int32(array) => Ok(AnyScalar::Int32(sum_typed(alloc, array)?)),
        AnyArray::Int64(array) => Ok(AnyScalar::Int64(sum_typed(alloc, array)?)),
        AnyArray::Int128(array) => Ok(AnyScalar::Int128(sum_typed(alloc, array)?)),
        AnyArray::UInt8(array) => Ok(AnyScalar::UInt8(sum_typed(alloc, array)?)),
        AnyArray::UInt16(array) => Ok(AnyScalar::UInt16(sum_typed(alloc, array)?)),
        AnyArray::UInt32(array) => Ok(AnyScalar::UInt32(sum_typed(alloc, array)?)),
        AnyArray::UInt64(array) => Ok(AnyScalar::UInt64(sum_typed(alloc, array)?)),
        AnyArray::DaysMs(array) => Err(refused(array)),
        AnyArray::MonthDayNano(array) => Err(refused(array)),
    }
}

// The sum of an array of one native type, under the array's type.
fn sum_typed<T: Summable>(
    alloc: Global,
    array: &PrimitiveArray<T>,
) -> Result<PrimitiveScalar<T>, Error>
    ensures { Answers typed_slot result (sum_answer (column_of array.now)) }
{
    let data_type = array.data_type().try_clone(alloc)?;
    PrimitiveScalar::new(data_type, sum_primitive(array))
}

// The refusal of an array whose values are several numbers each.
fn refused<T: NativeType>(array: &PrimitiveArray<T>) -> Error
    requires { only_field T.field_types ≡ None }
    ensures { sum_answer (column_of array.now) ≡ Err result }
{
    // The type tells the prover the fields of the values.
    let _data_type = array.data_type();
    Error::InvalidArgumentError(Reason::SumType)
}
