//! The native type `i32`.
ghost use Rattle.std.specs.Prelude.{◌-◌, ◌^◌, [], ◌∷◌, pos, negsuc, false, refl};
ghost use Rattle.std.specs.Int.{w32};
ghost use Rattle.std.proofs.Common.{rules};
ghost use Rattle.col_model.specs.Whole.{signed};
ghost use Rattle.col_types.specs.declared.datatypes.IntegerType.TheVariants as key;
ghost use Rattle.col_types.specs.declared.datatypes.physical_type.PrimitiveType.TheVariants as name;

use crate::datatypes::{IntegerType, PrimitiveType};
use crate::native::{
    DictionaryKey, NativeArithmetics, NativeNegate, NativeType, NativeWhole, Offset,
};

impl NativeType for i32 {
    ghost numbers = { λ n. n ∷ [] };

    ghost field_types = { signed w32 ∷ [] };

    const PRIMITIVE: PrimitiveType = PrimitiveType::Int32;

    ghost PRIMITIVE = { name.Int32 };

    fn zero() -> i32 {
        0
    }

    ghost fields_law = { refl };

    ghost numbers_law = { λ x. refl };

    ghost one_value_law = { Prim.search rules };

    ghost same_law = { Prim.search rules };
}

#[tactic(auto, using(crate::proofs::WholeLemmas::signed_answers))]
impl NativeWhole for i32 {
    ghost value = { λ n. n };

    ghost whole_type = { signed w32 };

    fn to_i128(self) -> i128 {
        self as i128
    }

    fn from_i128(n: i128) -> Option<i32> {
        i32::try_from(n).ok()
    }

    fn bit_or(self, rhs: i32) -> i32 {
        self | rhs
    }

    fn bit_xor(self, rhs: i32) -> i32 {
        self ^ rhs
    }

    fn bit_and(self, rhs: i32) -> i32 {
        self & rhs
    }

    fn bit_not(self) -> i32 {
        !self
    }

    ghost value_law = { λ x. refl };

    ghost whole_type_law = { refl };
}

#[tactic(auto, using(crate::proofs::WholeLemmas::signed_answers))]
impl NativeArithmetics for i32 {
    const WIDTH: u32 = 32;

    ghost WIDTH = { 32 };

    const MIN_VALUE: i32 = i32::MIN;

    ghost MIN_VALUE = { negsuc (2 ^ 31 - 1) };

    const MAX_VALUE: i32 = i32::MAX;

    ghost MAX_VALUE = { pos (2 ^ 31 - 1) };

    fn add_checked(self, rhs: i32) -> Option<i32> {
        self.checked_add(rhs)
    }

    fn sub_checked(self, rhs: i32) -> Option<i32> {
        self.checked_sub(rhs)
    }

    fn mul_checked(self, rhs: i32) -> Option<i32> {
        self.checked_mul(rhs)
    }

    fn div_checked(self, rhs: i32) -> Option<i32> {
        self.checked_div(rhs)
    }

    fn rem_checked(self, rhs: i32) -> Option<i32> {
        self.checked_rem(rhs)
    }

    fn add_wrapped(self, rhs: i32) -> i32 {
        self.wrapping_add(rhs)
    }

    fn sub_wrapped(self, rhs: i32) -> i32 {
        self.wrapping_sub(rhs)
    }

    fn mul_wrapped(self, rhs: i32) -> i32 {
        self.wrapping_mul(rhs)
    }

    fn add_clamped(self, rhs: i32) -> i32 {
        self.saturating_add(rhs)
    }

    fn sub_clamped(self, rhs: i32) -> i32 {
        self.saturating_sub(rhs)
    }

    fn mul_clamped(self, rhs: i32) -> i32 {
        self.saturating_mul(rhs)
    }

    ghost width_law = { refl };

    ghost least_law = { refl };

    ghost greatest_law = { refl };
}

impl NativeNegate for i32 {
    fn neg_checked(self) -> Option<i32> {
        self.checked_neg()
    }

    fn neg_wrapped(self) -> i32 {
        self.wrapping_neg()
    }
}

impl Offset for i32 {
    const IS_LARGE: bool = false;

    ghost IS_LARGE = { false };

    ghost is_large_law = { Prim.search rules };
}

impl DictionaryKey for i32 {
    const KEY_TYPE: IntegerType = IntegerType::Int32;

    ghost KEY_TYPE = { key.Int32 };

    ghost key_type_law = { refl };
}
