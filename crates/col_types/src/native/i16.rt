//! The native type `i16`.
ghost use Rattle.std.specs.Prelude.{◌-◌, ◌^◌, [], ◌∷◌, pos, negsuc, refl};
ghost use Rattle.std.specs.Int.{w16};
ghost use Rattle.std.proofs.Common.{rules};
ghost use Rattle.col_model.specs.Whole.{signed};
ghost use Rattle.col_types.specs.declared.datatypes.IntegerType.TheVariants as key;
ghost use Rattle.col_types.specs.declared.datatypes.physical_type.PrimitiveType.TheVariants as name;

use crate::datatypes::{IntegerType, PrimitiveType};
use crate::native::{DictionaryKey, NativeArithmetics, NativeNegate, NativeType, NativeWhole};

impl NativeType for i16 {
    ghost numbers = { λ n. n ∷ [] };

    ghost field_types = { signed w16 ∷ [] };

    const PRIMITIVE: PrimitiveType = PrimitiveType::Int16;

    ghost PRIMITIVE = { name.Int16 };

    fn zero() -> i16 {
        0
    }

    ghost fields_law = { refl };

    ghost numbers_law = { λ x. refl };

    ghost one_value_law = { Prim.search rules };

    ghost same_law = { Prim.search rules };
}

#[tactic(auto, using(crate::proofs::WholeLemmas::signed_answers))]
impl NativeWhole for i16 {
    ghost value = { λ n. n };

    ghost whole_type = { signed w16 };

    fn to_i128(self) -> i128 {
        self as i128
    }

    fn from_i128(n: i128) -> Option<i16> {
        i16::try_from(n).ok()
    }

    fn bit_or(self, rhs: i16) -> i16 {
        self | rhs
    }

    fn bit_xor(self, rhs: i16) -> i16 {
        self ^ rhs
    }

    fn bit_and(self, rhs: i16) -> i16 {
        self & rhs
    }

    fn bit_not(self) -> i16 {
        !self
    }

    ghost value_law = { λ x. refl };

    ghost whole_type_law = { refl };
}

#[tactic(auto, using(crate::proofs::WholeLemmas::signed_answers))]
impl NativeArithmetics for i16 {
    const WIDTH: u32 = 16;

    ghost WIDTH = { 16 };

    const MIN_VALUE: i16 = i16::MIN;

    ghost MIN_VALUE = { negsuc (2 ^ 15 - 1) };

    const MAX_VALUE: i16 = i16::MAX;

    ghost MAX_VALUE = { pos (2 ^ 15 - 1) };

    fn add_checked(self, rhs: i16) -> Option<i16> {
        self.checked_add(rhs)
    }

    fn sub_checked(self, rhs: i16) -> Option<i16> {
        self.checked_sub(rhs)
    }

    fn mul_checked(self, rhs: i16) -> Option<i16> {
        self.checked_mul(rhs)
    }

    fn div_checked(self, rhs: i16) -> Option<i16> {
        self.checked_div(rhs)
    }

    fn rem_checked(self, rhs: i16) -> Option<i16> {
        self.checked_rem(rhs)
    }

    fn add_wrapped(self, rhs: i16) -> i16 {
        self.wrapping_add(rhs)
    }

    fn sub_wrapped(self, rhs: i16) -> i16 {
        self.wrapping_sub(rhs)
    }

    fn mul_wrapped(self, rhs: i16) -> i16 {
        self.wrapping_mul(rhs)
    }

    fn add_clamped(self, rhs: i16) -> i16 {
        self.saturating_add(rhs)
    }

    fn sub_clamped(self, rhs: i16) -> i16 {
        self.saturating_sub(rhs)
    }

    fn mul_clamped(self, rhs: i16) -> i16 {
        self.saturating_mul(rhs)
    }

    ghost width_law = { refl };

    ghost least_law = { refl };

    ghost greatest_law = { refl };
}

impl NativeNegate for i16 {
    fn neg_checked(self) -> Option<i16> {
        self.checked_neg()
    }

    fn neg_wrapped(self) -> i16 {
        self.wrapping_neg()
    }
}

impl DictionaryKey for i16 {
    const KEY_TYPE: IntegerType = IntegerType::Int16;

    ghost KEY_TYPE = { key.Int16 };

    ghost key_type_law = { refl };
}
