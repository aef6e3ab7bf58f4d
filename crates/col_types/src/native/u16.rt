//! The native type `u16`.
ghost use Rattle.std.specs.Prelude.{◌-◌, ◌^◌, [], ◌∷◌, pos, refl};
ghost use Rattle.std.specs.Int.{w16};
ghost use Rattle.std.proofs.Common.{rules};
ghost use Rattle.col_model.specs.Whole.{unsigned};
ghost use Rattle.col_types.specs.declared.datatypes.IntegerType.TheVariants as key;
ghost use Rattle.col_types.specs.declared.datatypes.physical_type.PrimitiveType.TheVariants as name;

use crate::datatypes::{IntegerType, PrimitiveType};
use crate::native::{DictionaryKey, NativeArithmetics, NativeNegate, NativeType, NativeWhole};

impl NativeType for u16 {
    ghost numbers = { λ n. pos n ∷ [] };

    ghost field_types = { unsigned w16 ∷ [] };

    const PRIMITIVE: PrimitiveType = PrimitiveType::UInt16;

    ghost PRIMITIVE = { name.UInt16 };

    fn zero() -> u16 {
        0
    }

    ghost fields_law = { refl };

    ghost numbers_law = { λ x. refl };

    ghost one_value_law = { Prim.search rules };

    ghost same_law = { Prim.search rules };
}

#[tactic(auto, using(crate::proofs::WholeLemmas::unsigned_answers))]
impl NativeWhole for u16 {
    ghost value = { pos };

    ghost whole_type = { unsigned w16 };

    fn to_i128(self) -> i128 {
        self as i128
    }

    fn from_i128(n: i128) -> Option<u16> {
        u16::try_from(n).ok()
    }

    fn bit_or(self, rhs: u16) -> u16 {
        self | rhs
    }

    fn bit_xor(self, rhs: u16) -> u16 {
        self ^ rhs
    }

    fn bit_and(self, rhs: u16) -> u16 {
        self & rhs
    }

    fn bit_not(self) -> u16 {
        !self
    }

    ghost value_law = { λ x. refl };

    ghost whole_type_law = { refl };
}

impl NativeArithmetics for u16 {
    const WIDTH: u32 = 16;

    ghost WIDTH = { 16 };

    const MIN_VALUE: u16 = u16::MIN;

    ghost MIN_VALUE = { 0 };

    const MAX_VALUE: u16 = u16::MAX;

    ghost MAX_VALUE = { 2 ^ 16 - 1 };

    fn add_checked(self, rhs: u16) -> Option<u16> {
        self.checked_add(rhs)
    }

    fn sub_checked(self, rhs: u16) -> Option<u16> {
        self.checked_sub(rhs)
    }

    fn mul_checked(self, rhs: u16) -> Option<u16> {
        self.checked_mul(rhs)
    }

    fn div_checked(self, rhs: u16) -> Option<u16> {
        self.checked_div(rhs)
    }

    fn rem_checked(self, rhs: u16) -> Option<u16> {
        self.checked_rem(rhs)
    }

    fn add_wrapped(self, rhs: u16) -> u16 {
        self.wrapping_add(rhs)
    }

    fn sub_wrapped(self, rhs: u16) -> u16 {
        self.wrapping_sub(rhs)
    }

    fn mul_wrapped(self, rhs: u16) -> u16 {
        self.wrapping_mul(rhs)
    }

    fn add_clamped(self, rhs: u16) -> u16 {
        self.saturating_add(rhs)
    }

    fn sub_clamped(self, rhs: u16) -> u16 {
        self.saturating_sub(rhs)
    }

    fn mul_clamped(self, rhs: u16) -> u16 {
        self.saturating_mul(rhs)
    }

    ghost width_law = { refl };

    ghost least_law = { refl };

    ghost greatest_law = { refl };
}

impl NativeNegate for u16 {
    fn neg_checked(self) -> Option<u16> {
        self.checked_neg()
    }

    fn neg_wrapped(self) -> u16 {
        self.wrapping_neg()
    }
}

impl DictionaryKey for u16 {
    const KEY_TYPE: IntegerType = IntegerType::UInt16;

    ghost KEY_TYPE = { key.UInt16 };

    ghost key_type_law = { refl };
}
