//! Arrays of values of one native type.
ghost use Rattle.std.specs.Prelude.{◌≡◌, ◌≢◌, ◌+◌, ◌<◌, ◌≤◌, ◌↔◌, IsTrue, IsOk, IfErr, IfOk, Some};
ghost use Rattle.std.specs.Prelude.{is_some, length, map, option_map, replicate, slice_get};
ghost use Rattle.std.specs.Prelude.{unwrap_or, vec_len};
ghost use Rattle.std.specs.Option.{ForSome, option_copied};
ghost use Rattle.col_buf.specs.Cut.{IsWithin, cut};
ghost use Rattle.col_model.specs.Cell.{null};
ghost use Rattle.col_types.specs.DataKind.{kind_of};
ghost use Rattle.col_types.specs.DataType.{IsMadeOf, type_error};
ghost use Rattle.col_types.specs.Answer.{ButForMemory, FailsByMemory, UnlessMemory};
ghost use Rattle.col_types.specs.Column.{row_count};
ghost use Rattle.col_flat.specs.Parts.{HasFlags, IsMaskOf, column_of, cut_parts, masked_slots};
ghost use Rattle.col_flat.specs.Parts.{native_cell, null_count_of, slot_cell, slots_of};

mod iterator;

use crate::mutable::MutablePrimitiveArray;
use col_buf::{Bitmap, Buffer};
use col_types::{DataType, Error, NativeType, Reason};
pub use iterator::{SlotIter, SlotPairs, pairs};
use std::alloc::Global;
use std::marker::Model;

/// A column of values of a native type: a slot for each row, null or a value. Several holders may
/// share what is stored.
///
/// Source: the Arrow columnar format, "Fixed-size primitive layout".
#[derive(Drop)]
pub struct PrimitiveArray<T: NativeType> {
    data_type: DataType,
    values: Buffer<T>,
    validity: Option<Bitmap>,
}

impl<T: NativeType> Model for PrimitiveArray<T> {
    ghost use Rattle.std.specs.Prelude.{length, map};
    ghost use Rattle.std.specs.Coded.{codes};
    ghost use Rattle.col_types.specs.DataKind.{kind_of};
    ghost use Rattle.col_types.specs.DataType.{IsMadeOf};
    ghost use Rattle.col_types.proofs.KindCode.{kind_code};
    ghost use Rattle.col_flat.specs.Parts.{IsMaskOf, PrimitiveParts};

    ghost Value = { PrimitiveParts };

    ghost coded = { Prim.hlevel (codes, kind_code) };

    ghost view = { λ a. record {
      data_type = kind_of a.data_type;
      values = map T.numbers a.values;
      validity = a.validity;
    } };

    ghost invariant = { λ a. IsMadeOf (kind_of a.data_type) T.PRIMITIVE
        × IsMaskOf a.validity (length a.values) };
}

impl<T: NativeType> PrimitiveArray<T> {
    /// An array of its parts: the values, and a mask that tells for each whether its slot is valid;
    /// without a mask all slots are.
    ///
    /// Refused, in this order: `Parameters` where the type's parameters do not fit; `OutOfSpec`
    /// where the type is not carried or not stored as the native type, or where the mask has not
    /// the length of the values.
    pub fn try_new(
        data_type: DataType,
        values: Buffer<T>,
        validity: Option<Bitmap>,
    ) -> Result<PrimitiveArray<T>, Error>
        ensures value { IfOk result (λ array. array ≡ record {
          data_type = kind_of data_type;
          values = map T.numbers values;
          validity = validity;
        }) }
        ensures range { IsOk result
            ↔ (IsMadeOf (kind_of data_type) T.PRIMITIVE × IsMaskOf validity (length values)) }
        ensures refused { IfErr result (λ e. e ≡ type_error (kind_of data_type)) }
    {
        check_type::<T>(&data_type)?;
        if !is_mask_of(&validity, values.len()) {
            return Err(Error::OutOfSpec);
        }
        Ok(PrimitiveArray {
            data_type,
            values,
            validity,
        })
    }

    /// An array of the slots, in their order.
    ///
    /// Refused, in this order: `Parameters` where the type's parameters do not fit; `OutOfSpec`
    /// where the type is not carried or not stored as the native type.
    pub fn from_options(
        alloc: Global,
        data_type: DataType,
        slots: &[Option<T>],
    ) -> Result<PrimitiveArray<T>, Error>
        ensures value { IfOk result (λ array. column_of array
            ≡ record {
              data_type = kind_of data_type;
              cells = map (native_cell T.numbers) slots.now;
            }) }
        ensures range { ButForMemory result
            (IsOk result ↔ IsMadeOf (kind_of data_type) T.PRIMITIVE) }
        ensures refused { IfErr result (λ e. UnlessMemory e (e ≡ type_error (kind_of data_type))) }
    {
        let made = MutablePrimitiveArray::from_slots(alloc, slots)?;
        made.into_array(alloc, data_type)
    }

    /// An array of the values, each of which is valid where its flag is true. Where all flags are
    /// true no mask is made.
    ///
    /// Refused, in this order: `Parameters` where the type's parameters do not fit; `OutOfSpec`
    /// where the type is not carried or not stored as the native type, or where there are not as
    /// many flags as values.
    pub fn from_flags(
        alloc: Global,
        data_type: DataType,
        values: Vec<T>,
        flags: &[bool],
    ) -> Result<PrimitiveArray<T>, Error>
        ensures value { IfOk result (λ array. column_of array ≡ record {
          data_type = kind_of data_type;
          cells = map slot_cell (masked_slots (map T.numbers values.items) flags.now);
        }) }
        ensures slots { IfOk result
            (λ array. slots_of array ≡ masked_slots (map T.numbers values.items) flags.now) }
        ensures range { ButForMemory result (IsOk result
            ↔ (IsMadeOf (kind_of data_type) T.PRIMITIVE × (length flags.now ≡ vec_len values))) }
        ensures refused { IfErr result (λ e. UnlessMemory e (e ≡ type_error (kind_of data_type))) }
    {
        check_type::<T>(&data_type)?;
        if values.len() != flags.len() {
            return Err(Error::OutOfSpec);
        }
        let validity = mask_of(alloc, flags)?;
        let values = buffer_of(alloc, values)?;
        Ok(PrimitiveArray {
            data_type,
            values,
            validity,
        })
    }

    /// An array of null slots.
    ///
    /// Refused, in this order: `Parameters` where the type's parameters do not fit; `OutOfSpec`
    /// where the type is not carried or not stored as the native type.
    pub fn new_null(
        alloc: Global,
        data_type: DataType,
        length: usize,
    ) -> Result<PrimitiveArray<T>, Error>
        ensures value { IfOk result (λ array. column_of array
            ≡ record { data_type = kind_of data_type; cells = replicate length null }) }
        ensures range { ButForMemory result
            (IsOk result ↔ IsMadeOf (kind_of data_type) T.PRIMITIVE) }
        ensures refused { IfErr result (λ e. UnlessMemory e (e ≡ type_error (kind_of data_type))) }
    {
        let values = vec![in alloc; T::zero(); length]?;
        let flags = vec![in alloc; false; length]?;
        PrimitiveArray::from_flags(alloc, data_type, values, flags.as_slice())
    }

    /// The number of slots.
    pub fn len(&self) -> usize
        ensures { result ≡ row_count (column_of self.now) }
    {
        self.values.len()
    }

    /// The slot at a row: its value, or `None` where it is null.
    pub fn get(&self, i: usize) -> Option<T>
        requires { i < row_count (column_of self.now) }
        ensures slot { slice_get (slots_of self.now) i ≡ Some (option_map T.numbers result) }
        ensures value { slice_get (column_of self.now).cells i
            ≡ Some (native_cell T.numbers result) }
    {
        if !self.is_valid(i) {
            return None;
        }
        Some(self.values.as_slice()[i])
    }

    /// The slots, in their order.
    pub fn iter(&self) -> SlotIter<'_, T>
        ensures { result ≡ slots_of self.now }
    {
        SlotIter::new(self.values.as_slice(), self.validity.as_ref())
    }

    /// Whether the slot at a row is not null.
    pub fn is_valid(&self, i: usize) -> bool
        requires { i < row_count (column_of self.now) }
        ensures { IsTrue result ↔ (slice_get (column_of self.now).cells i ≢ Some null) }
    {
        match &self.validity {
            Some(mask) => mask.get_bit(i),
            None => true,
        }
    }

    /// How many slots are null.
    pub fn null_count(&self) -> usize
        ensures { result ≡ null_count_of (column_of self.now).cells }
    {
        match &self.validity {
            Some(mask) => mask.unset_bits(),
            None => 0,
        }
    }

    /// The array's type.
    pub fn data_type(&self) -> &DataType
        ensures value { kind_of result.now ≡ (column_of self.now).data_type }
        ensures made { IsMadeOf (kind_of result.now) T.PRIMITIVE }
    {
        &self.data_type
    }

    /// The stored values, one for each slot, also beneath nulls.
    pub fn values(&self) -> &Buffer<T>
        ensures { map T.numbers result.now ≡ self.now.values }
    {
        &self.values
    }

    /// The mask, as it is stored: for each slot whether it is valid. Without one all are.
    pub fn validity(&self) -> Option<&Bitmap>
        ensures value { option_copied result ≡ self.now.validity }
        ensures one_length { IsMaskOf self.now.validity (row_count (column_of self.now)) }
    {
        self.validity.as_ref()
    }

    /// The `length` slots from the row `offset` on, of the same buffers.
    pub fn sliced(self, offset: usize, length: usize) -> Self
        requires { offset + length ≤ row_count (column_of self) }
        ensures parts { result ≡ cut_parts self offset length }
        ensures value { column_of result ≡ record {
          data_type = (column_of self).data_type;
          cells = cut (column_of self).cells offset length;
        } }
    {
        PrimitiveArray {
            data_type: self.data_type,
            values: self.values.sliced(offset, length),
            validity: cut_mask(self.validity, offset, length),
        }
    }

    /// An array of another type with the same slots.
    ///
    /// Refused as by `try_new`, for the new type; the array is dropped then.
    pub fn to(mut self, data_type: DataType) -> Result<Self, Error>
        ensures value { IfOk result
            (λ array. array ≡ record self { data_type = kind_of data_type }) }
        ensures range { IsOk result ↔ IsMadeOf (kind_of data_type) T.PRIMITIVE }
        ensures refused { IfErr result (λ e. e ≡ type_error (kind_of data_type)) }
    {
        check_type::<T>(&data_type)?;
        self.data_type = data_type;
        Ok(self)
    }

    /// An array with the same type, values and mask. What is stored is shared.
    pub fn try_clone(&self, alloc: Global) -> Result<PrimitiveArray<T>, Error>
        ensures value { IfOk result (λ copy. copy ≡ self.now) }
        ensures refused { FailsByMemory result }
    {
        let data_type = self.data_type.try_clone(alloc)?;
        let values = self.values.share()?;
        let validity = match &self.validity {
            Some(mask) => Some(mask.share()?),
            None => None,
        };
        Ok(PrimitiveArray {
            data_type,
            values,
            validity,
        })
    }

    /// Whether types and slots are equal; what is stored beneath nulls is not looked at.
    pub fn equal(&self, other: &PrimitiveArray<T>) -> bool
        ensures { IsTrue result ↔ (column_of self.now ≡ column_of other.now) }
    {
        self.data_type.equal(&other.data_type)
            && self.len() == other.len()
            && self.has_slots_of(other)
    }

    // Whether the slots are equal, row by row, of two arrays of one length.
    fn has_slots_of(&self, other: &PrimitiveArray<T>) -> bool
        requires { row_count (column_of self.now) ≡ row_count (column_of other.now) }
        ensures { IsTrue result ↔ ((column_of self.now).cells ≡ (column_of other.now).cells) }
    {
        let mut slots = self.iter();
        let mut others = other.iter();
        while let (Some(slot), Some(other)) = (slots.next(), others.next()) {
            if !is_same(slot, other) {
                return false;
            }
        }
        true
    }
}

// Refuses a type whose columns are not made of values of the native type.
pub(crate) fn check_type<T: NativeType>(data_type: &DataType) -> Result<(), Error>
    ensures range { IsOk result ↔ IsMadeOf (kind_of data_type.now) T.PRIMITIVE }
    ensures refused { IfErr result (λ e. e ≡ type_error (kind_of data_type.now)) }
{
    if !data_type.parameters_fit() {
        return Err(Error::InvalidArgumentError(Reason::Parameters));
    }
    if !data_type.is_carried() || !T::is_of(data_type) {
        return Err(Error::OutOfSpec);
    }
    Ok(())
}

// Whether a mask has so many flags; no mask does for any number of slots.
fn is_mask_of(validity: &Option<Bitmap>, count: usize) -> bool
    ensures { IsTrue result ↔ IsMaskOf validity.now count }
{
    match validity {
        Some(mask) => mask.len() == count,
        None => true,
    }
}

// The flags of a mask from a place on, so many.
fn cut_mask(validity: Option<Bitmap>, offset: usize, count: usize) -> Option<Bitmap>
    requires { ForSome validity (λ mask. IsWithin mask offset count) }
    ensures { result ≡ option_map (λ mask. cut mask offset count) validity }
{
    match validity {
        Some(mask) => Some(mask.sliced(offset, count)),
        None => None,
    }
}

// A mask of the flags, and none where all are true.
fn mask_of(alloc: Global, flags: &[bool]) -> Result<Option<Bitmap>, Error>
    ensures value { IfOk result (λ validity. HasFlags validity flags.now) }
    ensures refused { FailsByMemory result }
{
    if flags.iter().all(|flag| *flag) {
        return Ok(None);
    }
    Ok(Some(Bitmap::from_bools(alloc, flags)?))
}

// A buffer of the values, which are let go at want of memory.
fn buffer_of<T: NativeType>(alloc: Global, values: Vec<T>) -> Result<Buffer<T>, Error>
    ensures value { IfOk result (λ buffer. buffer ≡ values.items) }
    ensures refused { FailsByMemory result }
{
    match Buffer::from_vec(alloc, values) {
        Ok(buffer) => Ok(buffer),
        Err(refused) => Err(refused.0),
    }
}

// Whether two slots are equal.
pub(crate) fn is_same<T: NativeType>(lhs: Option<T>, rhs: Option<T>) -> bool
    ensures { IsTrue result ↔ (native_cell T.numbers lhs ≡ native_cell T.numbers rhs) }
{
    match (lhs, rhs) {
        (Some(a), Some(b)) => a == b,
        (None, None) => true,
        _ => false,
    }
}
