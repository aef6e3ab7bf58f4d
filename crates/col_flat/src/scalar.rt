//! Single values of one native type.
ghost use Rattle.std.specs.Prelude.{◌≡◌, ◌≢◌, ◌↔◌, IsTrue, IsOk, IfErr, IfOk, option_map};
ghost use Rattle.col_model.specs.Cell.{null};
ghost use Rattle.col_types.specs.DataKind.{kind_of};
ghost use Rattle.col_types.specs.DataType.{IsMadeOf, type_error};
ghost use Rattle.col_types.specs.Answer.{FailsByMemory};
ghost use Rattle.col_flat.specs.Parts.{slot_cell};

use crate::primitive::{check_type, is_same};
use col_types::{DataType, Error, NativeType};
use std::alloc::Global;
use std::marker::Model;

/// A single slot with a type: null, or a value of the native type.
#[derive(Drop)]
pub struct PrimitiveScalar<T: NativeType> {
    data_type: DataType,
    value: Option<T>,
}

impl<T: NativeType> Model for PrimitiveScalar<T> {
    ghost use Rattle.std.specs.Prelude.{option_map};
    ghost use Rattle.std.specs.Coded.{codes};
    ghost use Rattle.col_types.specs.DataKind.{kind_of};
    ghost use Rattle.col_types.specs.DataType.{IsMadeOf};
    ghost use Rattle.col_types.proofs.KindCode.{kind_code};
    ghost use Rattle.col_flat.specs.Parts.{ScalarParts};

    ghost Value = { ScalarParts };

    ghost coded = { Prim.hlevel (codes, kind_code) };

    ghost view = { λ a. record {
      data_type = kind_of a.data_type;
      slot = option_map T.numbers a.value;
    } };

    ghost invariant = { λ a. IsMadeOf (kind_of a.data_type) T.PRIMITIVE };
}

impl<T: NativeType> PrimitiveScalar<T> {
    /// A scalar of the type.
    ///
    /// Refused, in this order: `Parameters` where the type's parameters do not fit; `OutOfSpec`
    /// where the type is not carried or not stored as the native type.
    pub fn new(data_type: DataType, value: Option<T>) -> Result<PrimitiveScalar<T>, Error>
        ensures value { IfOk result (λ scalar. scalar
            ≡ record { data_type = kind_of data_type; slot = option_map T.numbers value }) }
        ensures range { IsOk result ↔ IsMadeOf (kind_of data_type) T.PRIMITIVE }
        ensures refused { IfErr result (λ e. e ≡ type_error (kind_of data_type)) }
    {
        check_type::<T>(&data_type)?;
        Ok(PrimitiveScalar { data_type, value })
    }

    /// The value, or `None` where the scalar is null.
    pub fn value(&self) -> Option<T>
        ensures { option_map T.numbers result ≡ self.now.slot }
    {
        self.value
    }

    /// Whether the scalar is not null.
    pub fn is_valid(&self) -> bool
        ensures { IsTrue result ↔ (slot_cell self.now.slot ≢ null) }
    {
        self.value.is_some()
    }

    /// The scalar's type.
    pub fn data_type(&self) -> &DataType
        ensures value { kind_of result.now ≡ self.now.data_type }
        ensures made { IsMadeOf (kind_of result.now) T.PRIMITIVE }
    {
        &self.data_type
    }

    /// A scalar with equal type and value.
    pub fn try_clone(&self, alloc: Global) -> Result<PrimitiveScalar<T>, Error>
        ensures value { IfOk result (λ copy. copy ≡ self.now) }
        ensures refused { FailsByMemory result }
    {
        let data_type = self.data_type.try_clone(alloc)?;
        Ok(PrimitiveScalar {
            data_type,
            value: self.value,
        })
    }

    /// Whether types and values are equal.
    pub fn equal(&self, other: &PrimitiveScalar<T>) -> bool
        ensures { IsTrue result ↔ ((self.now.data_type ≡ other.now.data_type)
            × (slot_cell self.now.slot ≡ slot_cell other.now.slot)) }
    {
        self.data_type.equal(&other.data_type) && is_same(self.value, other.value)
    }
}
