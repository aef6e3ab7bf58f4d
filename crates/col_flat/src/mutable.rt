//! Arrays that are made slot by slot.
ghost use Rattle.std.specs.Prelude.{[], ◌≡◌, ◌∷◌, ◌++◌, ◌↔◌, IfErr, IfOk, IsOk, OnErr, map};
ghost use Rattle.std.specs.Prelude.{option_map};
ghost use Rattle.col_types.specs.Answer.{ButForMemory, FailsByMemory, UnlessMemory};
ghost use Rattle.col_types.specs.DataKind.{kind_of};
ghost use Rattle.col_types.specs.DataType.{IsMadeOf, type_error};
ghost use Rattle.col_flat.specs.Parts.{column_of, slot_cell, slots_of};

use crate::primitive::PrimitiveArray;
use col_types::{DataType, Error, NativeType};
use std::alloc::Global;
use std::marker::Model;

/// The slots of an array to be, in their order: null or a value each.
#[derive(Drop)]
pub struct MutablePrimitiveArray<T: NativeType> {
    values: Vec<T>,
    flags: Vec<bool>,
}

impl<T: NativeType> Model for MutablePrimitiveArray<T> {
    ghost use Rattle.std.specs.Prelude.{◌≡◌, ℤ, List, Option, length, map};
    ghost use Rattle.col_flat.specs.Parts.{masked_slots};

    ghost Value = { List (Option (List ℤ)) };

    ghost view = { λ g. masked_slots (map T.numbers g.values.items) g.flags.items };

    ghost invariant = { λ g. length g.flags.items ≡ length g.values.items };
}

impl<T: NativeType> MutablePrimitiveArray<T> {
    /// No slots, with room for so many.
    pub fn with_capacity(alloc: Global, count: usize) -> Result<MutablePrimitiveArray<T>, Error>
        ensures value { IfOk result (λ made. made ≡ []) }
        ensures refused { FailsByMemory result }
    {
        let values = Vec::with_capacity(alloc, count)?;
        let flags = Vec::with_capacity(alloc, count)?;
        Ok(MutablePrimitiveArray { values, flags })
    }

    // The slots of a list.
    pub(crate) fn from_slots(
        alloc: Global,
        slots: &[Option<T>],
    ) -> Result<MutablePrimitiveArray<T>, Error>
        ensures value { IfOk result (λ made. made ≡ map (option_map T.numbers) slots.now) }
        ensures refused { FailsByMemory result }
    {
        let mut made = MutablePrimitiveArray::with_capacity(alloc, slots.len())?;
        for slot in slots {
            made.push(*slot)?;
        }
        Ok(made)
    }

    /// Adds a slot behind the others. A refusal leaves them as they were.
    #[inline]
    pub fn push(&mut self, slot: Option<T>) -> Result<(), Error>
        ensures value { IfOk result (λ _. self.new ≡ self.old ++ option_map T.numbers slot ∷ []) }
        ensures refused { FailsByMemory result }
        ensures kept { OnErr result (self.new ≡ self.old) }
    {
        self.values.push(slot.unwrap_or(T::zero()))?;
        let Ok(()) = self.flags.push(slot.is_some()) else {
            self.values.pop();
            return Err(Error::Memory);
        };
        Ok(())
    }

    /// An array of the type with these slots. Where none is null it has no mask.
    ///
    /// Refused, in this order: `Parameters` where the type's parameters do not fit; `OutOfSpec`
    /// where the type is not carried or not stored as the native type.
    pub fn into_array(self, alloc: Global, data_type: DataType) -> Result<PrimitiveArray<T>, Error>
        ensures value { IfOk result (λ array. column_of array
            ≡ record { data_type = kind_of data_type; cells = map slot_cell self }) }
        ensures slots { IfOk result (λ array. slots_of array ≡ self) }
        ensures range { ButForMemory result
            (IsOk result ↔ IsMadeOf (kind_of data_type) T.PRIMITIVE) }
        ensures refused { IfErr result (λ e. UnlessMemory e (e ≡ type_error (kind_of data_type))) }
    {
        PrimitiveArray::from_flags(alloc, data_type, self.values, self.flags.as_slice())
    }
}
