//! Kernels that call a closure on the values of one array or of two.
ghost use Rattle.std.specs.Prelude.{◌≡◌, ◌≢◌, ◌↔◌, IsOk, ◌⊎◌, IfErr, IfOk, Ok, Err, Some};
ghost use Rattle.std.specs.Prelude.{None, is_some, map, option_map};
ghost use Rattle.std.specs.Option.{option_copied};
ghost use Rattle.col_types.specs.Answer.{ButForMemory, FailsByMemory, RefusedWhere, UnlessMemory};
ghost use Rattle.col_types.specs.declared.error.Reason.TheVariants.{Lengths};
ghost use Rattle.col_types.specs.Column.{row_count};
ghost use Rattle.col_types.specs.DataKind.{kind_of};
ghost use Rattle.col_types.specs.DataType.{IsMadeOf};
ghost use Rattle.col_flat.specs.Parts.{HasFlags, column_of, pair_numbers, slot_pairs, slots_of};
ghost use Rattle.col_arity.specs.Rows.{AnswersWith, IsCallableAtValid, IsFirstRefusal, IsLengths};
ghost use Rattle.col_arity.specs.Rows.{IsMapped, IsMappedWithFlags, MapsSlots, zero_numbers};

mod checked;
mod fallible;
mod flagged;
mod mapped;

use crate::masks::{beneath, mask_of_both, mask_of_one};
use crate::stored::{copied, try_put_pairs};
use col_buf::Bitmap;
use col_flat::{PrimitiveArray, pairs};
use col_types::{DataType, Error, NativeType, Reason};
use std::alloc::Global;

/// An array of the type with the closure's answer for each value, and null at each null. The
/// closure is called for valid slots alone.
pub fn unary<I: NativeType, O: NativeType, F: Fn(I) -> O>(
    alloc: Global,
    array: &PrimitiveArray<I>,
    op: F,
    data_type: DataType,
) -> Result<PrimitiveArray<O>, Error>
    requires made { IsMadeOf (kind_of data_type) O.PRIMITIVE }
    requires callable { IsCallableAtValid I.numbers (λ x. F.pre op x) (slots_of array.now) }
    ensures answer { IfOk result (IsMapped (kind_of data_type)
        (AnswersWith I.numbers (λ x r. F.post op x r) (λ r. Some (O.numbers r)))
        (slots_of array.now)) }
    ensures refused { FailsByMemory result }
{
    let validity = mask_of_one(array)?;
    let values = mapped::rows(alloc, array.len(), array.iter(), op)?;
    beneath(alloc, data_type, values, validity)
}

/// An array of the type with the closure's answer for each value, null where that is `None`, and
/// null at each null. The closure is called for valid slots alone.
pub fn unary_checked<I: NativeType, O: NativeType, F: Fn(I) -> Option<O>>(
    alloc: Global,
    array: &PrimitiveArray<I>,
    op: F,
    data_type: DataType,
) -> Result<PrimitiveArray<O>, Error>
    requires made { IsMadeOf (kind_of data_type) O.PRIMITIVE }
    requires callable { IsCallableAtValid I.numbers (λ x. F.pre op x) (slots_of array.now) }
    ensures answer { IfOk result (IsMapped (kind_of data_type)
        (AnswersWith I.numbers (λ x r. F.post op x r) (λ r. option_map O.numbers r))
        (slots_of array.now)) }
    ensures refused { FailsByMemory result }
{
    let slots = checked::rows(alloc, array.len(), array.iter(), op)?;
    slots.into_array(alloc, data_type)
}

/// An array of the type with the first part of the closure's answer for each value, and a bitmap
/// with the second part; a null slot's flag is false. The closure is called for valid slots alone.
pub fn unary_with_bitmap<I: NativeType, O: NativeType, F: Fn(I) -> (O, bool)>(
    alloc: Global,
    array: &PrimitiveArray<I>,
    op: F,
    data_type: DataType,
) -> Result<(PrimitiveArray<O>, Bitmap), Error>
    requires made { IsMadeOf (kind_of data_type) O.PRIMITIVE }
    requires callable { IsCallableAtValid I.numbers (λ x. F.pre op x) (slots_of array.now) }
    ensures answer { IfOk result (λ made. IsMappedWithFlags (kind_of data_type)
        (AnswersWith I.numbers (λ x r. F.post op x r) (λ r. (Some (O.numbers r.0), r.1)))
        (slots_of array.now) made.0 made.1) }
    ensures refused { FailsByMemory result }
{
    let validity = mask_of_one(array)?;
    let made = flagged::rows(alloc, array.len(), array.iter(), op)?;
    let array = beneath(alloc, data_type, made.0, validity)?;
    let flags = Bitmap::from_bools(alloc, made.1.as_slice())?;
    Ok((array, flags))
}

/// An array of the type with the closure's answer for each value, and null at each null. The
/// closure is called for valid slots alone, and not past its first refusal.
///
/// Refused: as the closure refuses the value of the least valid row that it refuses.
pub fn try_unary<I: NativeType, O: NativeType, F: Fn(I) -> Result<O, Error>>(
    alloc: Global,
    array: &PrimitiveArray<I>,
    op: F,
    data_type: DataType,
) -> Result<PrimitiveArray<O>, Error>
    requires made { IsMadeOf (kind_of data_type) O.PRIMITIVE }
    requires callable { IsCallableAtValid I.numbers (λ x. F.pre op x) (slots_of array.now) }
    ensures answer { IfOk result (IsMapped (kind_of data_type)
        (AnswersWith I.numbers (λ x r. F.post op x (Ok r)) (λ r. Some (O.numbers r)))
        (slots_of array.now)) }
    ensures refused { IfErr result (λ e. UnlessMemory e (IsFirstRefusal I.numbers
        (λ x r. F.post op x r) (slots_of array.now) e)) }
{
    let validity = mask_of_one(array)?;
    let values = fallible::rows(alloc, array.len(), array.iter(), op)?;
    beneath(alloc, data_type, values, validity)
}

/// An array of the type with the closure's answer for each pair of values, and null where one of
/// the two slots is null or both are. The closure is called for two valid slots alone.
///
/// Refused: `Lengths` where the arrays differ in length.
pub fn binary<T: NativeType, D: NativeType, F: Fn(T, D) -> T>(
    alloc: Global,
    lhs: &PrimitiveArray<T>,
    rhs: &PrimitiveArray<D>,
    data_type: DataType,
    op: F,
) -> Result<PrimitiveArray<T>, Error>
    requires made { IsMadeOf (kind_of data_type) T.PRIMITIVE }
    requires callable { IsCallableAtValid (pair_numbers T.numbers D.numbers) (λ p. F.pre op p.0 p.1)
        (slot_pairs lhs.now rhs.now) }
    ensures answer { IfOk result (IsMapped (kind_of data_type)
        (AnswersWith (pair_numbers T.numbers D.numbers) (λ p r. F.post op p.0 p.1 r)
        (λ r. Some (T.numbers r)))
        (slot_pairs lhs.now rhs.now)) }
    ensures lengths { RefusedWhere result (Error.InvalidArgumentError Lengths)
        (row_count (column_of lhs.now) ≢ row_count (column_of rhs.now)) }
    ensures refused { IfErr result (λ e. UnlessMemory e (e ≡ Error.InvalidArgumentError Lengths)) }
{
    check_lengths(lhs, rhs)?;
    let validity = mask_of_both(alloc, lhs, rhs)?;
    let rows = pairs(lhs, rhs, validity.as_ref());
    let each = |pair: (T, D)| -> T
        requires { F.pre op pair.0 pair.1 }
        ensures { F.post op pair.0 pair.1 result }
    { op(pair.0, pair.1) };
    let values = mapped::rows(alloc, lhs.len(), rows, each)?;
    beneath(alloc, data_type, values, validity)
}

/// An array of the type with the closure's answer for each pair of values, null where that is
/// `None`, and null where one of the two slots is null or both are. The closure is called for two
/// valid slots alone.
///
/// Refused: `Lengths` where the arrays differ in length.
pub fn binary_checked<T: NativeType, D: NativeType, F: Fn(T, D) -> Option<T>>(
    alloc: Global,
    lhs: &PrimitiveArray<T>,
    rhs: &PrimitiveArray<D>,
    data_type: DataType,
    op: F,
) -> Result<PrimitiveArray<T>, Error>
    requires made { IsMadeOf (kind_of data_type) T.PRIMITIVE }
    requires callable { IsCallableAtValid (pair_numbers T.numbers D.numbers) (λ p. F.pre op p.0 p.1)
        (slot_pairs lhs.now rhs.now) }
    ensures answer { IfOk result (IsMapped (kind_of data_type)
        (AnswersWith (pair_numbers T.numbers D.numbers) (λ p r. F.post op p.0 p.1 r)
        (λ r. option_map T.numbers r))
        (slot_pairs lhs.now rhs.now)) }
    ensures lengths { RefusedWhere result (Error.InvalidArgumentError Lengths)
        (row_count (column_of lhs.now) ≢ row_count (column_of rhs.now)) }
    ensures refused { IfErr result (λ e. UnlessMemory e (e ≡ Error.InvalidArgumentError Lengths)) }
{
    check_lengths(lhs, rhs)?;
    let validity = mask_of_both(alloc, lhs, rhs)?;
    let rows = pairs(lhs, rhs, validity.as_ref());
    let each = |pair: (T, D)| -> Option<T>
        requires { F.pre op pair.0 pair.1 }
        ensures { F.post op pair.0 pair.1 result }
    { op(pair.0, pair.1) };
    let slots = checked::rows(alloc, lhs.len(), rows, each)?;
    slots.into_array(alloc, data_type)
}

/// An array of the type with the first part of the closure's answer for each pair of values, and a
/// bitmap with the second part. Where one of the two slots is null or both are, the slot is null
/// and the flag false. The closure is called for two valid slots alone.
///
/// Refused: `Lengths` where the arrays differ in length.
pub fn binary_with_bitmap<T: NativeType, D: NativeType, F: Fn(T, D) -> (T, bool)>(
    alloc: Global,
    lhs: &PrimitiveArray<T>,
    rhs: &PrimitiveArray<D>,
    data_type: DataType,
    op: F,
) -> Result<(PrimitiveArray<T>, Bitmap), Error>
    requires made { IsMadeOf (kind_of data_type) T.PRIMITIVE }
    requires callable { IsCallableAtValid (pair_numbers T.numbers D.numbers) (λ p. F.pre op p.0 p.1)
        (slot_pairs lhs.now rhs.now) }
    ensures answer { IfOk result (λ made. IsMappedWithFlags (kind_of data_type)
        (AnswersWith (pair_numbers T.numbers D.numbers) (λ p r. F.post op p.0 p.1 r)
        (λ r. (Some (T.numbers r.0), r.1)))
        (slot_pairs lhs.now rhs.now) made.0 made.1) }
    ensures lengths { RefusedWhere result (Error.InvalidArgumentError Lengths)
        (row_count (column_of lhs.now) ≢ row_count (column_of rhs.now)) }
    ensures refused { IfErr result (λ e. UnlessMemory e (e ≡ Error.InvalidArgumentError Lengths)) }
{
    check_lengths(lhs, rhs)?;
    let validity = mask_of_both(alloc, lhs, rhs)?;
    let rows = pairs(lhs, rhs, validity.as_ref());
    let each = |pair: (T, D)| -> (T, bool)
        requires { F.pre op pair.0 pair.1 }
        ensures { F.post op pair.0 pair.1 result }
    { op(pair.0, pair.1) };
    let made = flagged::rows(alloc, lhs.len(), rows, each)?;
    let array = beneath(alloc, data_type, made.0, validity)?;
    let flags = Bitmap::from_bools(alloc, made.1.as_slice())?;
    Ok((array, flags))
}

/// An array of the type with the closure's answer for each pair of values, and null where one of
/// the two slots is null or both are. The closure is called for two valid slots alone, and not past
/// its first refusal.
///
/// Refused, in this order: `Lengths` where the arrays differ in length; as the closure refuses the
/// values of the least row with two valid slots that it refuses.
pub fn try_binary<T: NativeType, D: NativeType, F: Fn(T, D) -> Result<T, Error>>(
    alloc: Global,
    lhs: &PrimitiveArray<T>,
    rhs: &PrimitiveArray<D>,
    data_type: DataType,
    op: F,
) -> Result<PrimitiveArray<T>, Error>
    requires made { IsMadeOf (kind_of data_type) T.PRIMITIVE }
    requires callable { IsCallableAtValid (pair_numbers T.numbers D.numbers) (λ p. F.pre op p.0 p.1)
        (slot_pairs lhs.now rhs.now) }
    ensures answer { IfOk result (IsMapped (kind_of data_type)
        (AnswersWith (pair_numbers T.numbers D.numbers) (λ p r. F.post op p.0 p.1 (Ok r))
        (λ r. Some (T.numbers r)))
        (slot_pairs lhs.now rhs.now)) }
    ensures lengths { row_count (column_of lhs.now) ≢ row_count (column_of rhs.now)
        → ButForMemory result (result ≡ Err (Error.InvalidArgumentError Lengths)) }
    ensures refused { IfErr result (λ e. UnlessMemory e (IsLengths lhs.now rhs.now e
        ⊎ IsFirstRefusal (pair_numbers T.numbers D.numbers)
        (λ p r. F.post op p.0 p.1 r) (slot_pairs lhs.now rhs.now) e)) }
{
    check_lengths(lhs, rhs)?;
    let validity = mask_of_both(alloc, lhs, rhs)?;
    let values = pair_answers(alloc, lhs, rhs, validity.as_ref(), op)?;
    beneath(alloc, data_type, values, validity)
}

// The closure's answer for each two values, and zero where one of the two slots is null or both
// are; or its first refusal. The mask tells which rows are valid in both.
fn pair_answers<T: NativeType, D: NativeType, F: Fn(T, D) -> Result<T, Error>>(
    alloc: Global,
    lhs: &PrimitiveArray<T>,
    rhs: &PrimitiveArray<D>,
    mask: Option<&Bitmap>,
    op: F,
) -> Result<Vec<T>, Error>
    requires one_length { row_count (column_of lhs.now) ≡ row_count (column_of rhs.now) }
    requires combined { HasFlags (option_copied mask)
        (map is_some (slot_pairs lhs.now rhs.now)) }
    requires callable { IsCallableAtValid (pair_numbers T.numbers D.numbers) (λ p. F.pre op p.0 p.1)
        (slot_pairs lhs.now rhs.now) }
    ensures answer { IfOk result (λ values. MapsSlots
        (AnswersWith (pair_numbers T.numbers D.numbers) (λ p r. F.post op p.0 p.1 (Ok r))
        (λ r. T.numbers r)) (zero_numbers T.field_types) (slot_pairs lhs.now rhs.now)
        (map T.numbers values.items)) }
    ensures refused { IfErr result (λ e. UnlessMemory e (IsFirstRefusal
        (pair_numbers T.numbers D.numbers) (λ p r. F.post op p.0 p.1 r)
        (slot_pairs lhs.now rhs.now) e)) }
{
    if mask.is_none() {
        return stored_answers(alloc, lhs, rhs, op);
    }
    let rows = pairs(lhs, rhs, mask);
    let each = |pair: (T, D)| -> Result<T, Error>
        requires { F.pre op pair.0 pair.1 }
        ensures { F.post op pair.0 pair.1 result }
    { op(pair.0, pair.1) };
    fallible::rows(alloc, lhs.len(), rows, each)
}

// The closure's answer for each two values of arrays without nulls, or its first refusal.
fn stored_answers<T: NativeType, D: NativeType, F: Fn(T, D) -> Result<T, Error>>(
    alloc: Global,
    lhs: &PrimitiveArray<T>,
    rhs: &PrimitiveArray<D>,
    op: F,
) -> Result<Vec<T>, Error>
    requires one_length { row_count (column_of lhs.now) ≡ row_count (column_of rhs.now) }
    requires all_valid { HasFlags None (map is_some (slot_pairs lhs.now rhs.now)) }
    requires callable { IsCallableAtValid (pair_numbers T.numbers D.numbers) (λ p. F.pre op p.0 p.1)
        (slot_pairs lhs.now rhs.now) }
    ensures answer { IfOk result (λ values. MapsSlots
        (AnswersWith (pair_numbers T.numbers D.numbers) (λ p r. F.post op p.0 p.1 (Ok r))
        (λ r. T.numbers r)) (zero_numbers T.field_types) (slot_pairs lhs.now rhs.now)
        (map T.numbers values.items)) }
    ensures refused { IfErr result (λ e. UnlessMemory e (IsFirstRefusal
        (pair_numbers T.numbers D.numbers) (λ p r. F.post op p.0 p.1 r)
        (slot_pairs lhs.now rhs.now) e)) }
{
    let mut values = copied(alloc, lhs)?;
    try_put_pairs(values.as_mut_slice(), rhs.values().as_slice(), op)?;
    Ok(values)
}

// Refuses two arrays that differ in length.
pub(crate) fn check_lengths<T: NativeType, D: NativeType>(
    lhs: &PrimitiveArray<T>,
    rhs: &PrimitiveArray<D>,
) -> Result<(), Error>
    ensures range { IsOk result
        ↔ (row_count (column_of lhs.now) ≡ row_count (column_of rhs.now)) }
    ensures refused { IfErr result (λ e. e ≡ Error.InvalidArgumentError Lengths) }
{
    if lhs.len() != rhs.len() {
        return Err(Error::InvalidArgumentError(Reason::Lengths));
    }
    Ok(())
}
