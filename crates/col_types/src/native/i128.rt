//! The native type `i128`.
ghost use Rattle.std.specs.Prelude.{[], ◌∷◌, refl};
ghost use Rattle.std.specs.Int.{w128};
ghost use Rattle.std.proofs.Common.{rules};
ghost use Rattle.col_model.specs.Whole.{signed};
ghost use Rattle.col_types.specs.declared.datatypes.physical_type.PrimitiveType.TheVariants as name;

use crate::datatypes::PrimitiveType;
use crate::native::{NativeNegate, NativeType, NativeWhole};

impl NativeType for i128 {
    ghost numbers = { λ n. n ∷ [] };

    ghost field_types = { signed w128 ∷ [] };

    const PRIMITIVE: PrimitiveType = PrimitiveType::Int128;

    ghost PRIMITIVE = { name.Int128 };

    fn zero() -> i128 {
        0
    }

    ghost fields_law = { refl };

    ghost numbers_law = { λ x. refl };

    ghost one_value_law = { Prim.search rules };

    ghost same_law = { Prim.search rules };
}

#[tactic(auto, using(crate::proofs::WholeLemmas::signed_answers))]
impl NativeWhole for i128 {
    ghost value = { λ n. n };

    ghost whole_type = { signed w128 };

    fn to_i128(self) -> i128 {
        self
    }

    fn from_i128(n: i128) -> Option<i128> {
        Some(n)
    }

    fn bit_or(self, rhs: i128) -> i128 {
        self | rhs
    }

    fn bit_xor(self, rhs: i128) -> i128 {
        self ^ rhs
    }

    fn bit_and(self, rhs: i128) -> i128 {
        self & rhs
    }

    fn bit_not(self) -> i128 {
        !self
    }

    ghost value_law = { λ x. refl };

    ghost whole_type_law = { refl };
}

impl NativeNegate for i128 {
    fn neg_checked(self) -> Option<i128> {
        self.checked_neg()
    }

    fn neg_wrapped(self) -> i128 {
        self.wrapping_neg()
    }
}
