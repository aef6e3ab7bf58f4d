//! The native types that arrays of numbers are made of.
ghost use Rattle.std.specs.Prelude.{◌≡◌, ◌↔◌, ◌+ℤ◌, ◌-ℤ◌, ◌*ℤ◌, IsTrue, ℕ, ℤ, Bool, List, [], ◌∷◌};
ghost use Rattle.std.specs.Prelude.{length, map, option_map, neg_ℤ, pos};
ghost use Rattle.std.specs.Int.{w64};
ghost use Rattle.col_model.specs.Bitwise.{bitwise_and, bitwise_not, bitwise_or, bitwise_xor};
ghost use Rattle.col_model.specs.Whole.{WholeType, bit_count, checked_number, checked_numbers};
ghost use Rattle.col_model.specs.Whole.{greatest_number, is_fitting, least_number, nearest_number};
ghost use Rattle.col_model.specs.Whole.{signed, unsigned, wrapped_number, wrapped_numbers};
ghost use Rattle.col_model.specs.WholeStep.{checked_result, addition, subtraction, multiplication};
ghost use Rattle.col_model.specs.WholeStep.{division, remainder};
ghost use Rattle.col_types.specs.declared.datatypes.IntegerType.{IntegerType};
ghost use Rattle.col_types.specs.declared.datatypes.physical_type.PrimitiveType.{PrimitiveType};
ghost use Rattle.col_types.specs.DataKind.{kind_of};
ghost use Rattle.col_types.specs.DataType.{IsStoredAs};
ghost use Rattle.col_types.specs.NativeFields.{fields_of, whole_type_of_key};

mod days_ms;
mod i128;
mod i16;
mod i32;
mod i64;
mod i8;
mod months_days_ns;
mod u16;
mod u32;
mod u64;
mod u8;

use crate::datatypes::{DataType, IntegerType, PhysicalType, PrimitiveType};
use std::hash::Hash;

/// A value as arrays store it.
pub trait NativeType: Copy + Eq + Hash {
    /// The whole numbers that a value stands for, one for each field.
    ghost numbers: { Self → List ℤ };

    /// The types of the fields.
    ghost field_types: { List WholeType };

    /// The native type's name.
    const PRIMITIVE: PrimitiveType;

    ghost PRIMITIVE: { PrimitiveType };

    /// The value whose fields are all 0.
    fn zero() -> Self
        ensures { numbers result ≡ map (λ t. pos 0) field_types };

    /// Whether columns of the type are stored as values of this native type.
    fn is_of(t: &DataType) -> bool
        ensures { IsTrue result ↔ IsStoredAs (kind_of t.now) PRIMITIVE }
    {
        t.to_physical_type() == PhysicalType::Primitive(Self::PRIMITIVE)
    }

    // The name tells the fields.
    ghost fields_law: { field_types ≡ fields_of PRIMITIVE };

    // A value has a number for each field.
    ghost numbers_law: { (x : Self) → length (numbers x) ≡ length field_types };

    // Values with the same numbers are the same value.
    ghost one_value_law: { (x y : Self) → numbers x ≡ numbers y → x ≡ y };

    // `==` tells whether two values are the same.
    ghost same_law: { (x y : Self) → IsTrue (Self.eq x y) ↔ (x ≡ y) };
}

/// A whole number as arrays store it.
pub trait NativeWhole: NativeType {
    /// The whole number that a value stands for.
    ghost value: { Self → ℤ };

    /// The numbers that the type has.
    ghost whole_type: { WholeType };

    /// The number.
    fn to_i128(self) -> i128
        ensures value { result ≡ value self }
        ensures fits { IsTrue (is_fitting whole_type (value self)) };

    /// The value that stands for the number; `None` where the number does not fit.
    fn from_i128(n: i128) -> Option<Self>
        ensures { option_map value result ≡ checked_number whole_type n };

    /// The bits that are set in one number or in the other.
    fn bit_or(self, rhs: Self) -> Self
        ensures { value result ≡ bitwise_or whole_type (value self) (value rhs) };

    /// The bits that are set in just one of the two numbers.
    fn bit_xor(self, rhs: Self) -> Self
        ensures { value result ≡ bitwise_xor whole_type (value self) (value rhs) };

    /// The bits that are set in both numbers.
    fn bit_and(self, rhs: Self) -> Self
        ensures { value result ≡ bitwise_and whole_type (value self) (value rhs) };

    /// The bits that are not set in the number.
    fn bit_not(self) -> Self
        ensures { value result ≡ bitwise_not whole_type (value self) };

    // The number is the one field.
    ghost value_law: { (x : Self) → Self.numbers x ≡ value x ∷ [] };

    // Its type is the type of that field.
    ghost whole_type_law: { Self.field_types ≡ whole_type ∷ [] };
}

/// A whole number with arithmetic in all forms.
///
/// A quotient goes toward zero, and a remainder has the dividend's sign.
pub trait NativeArithmetics: NativeWhole {
    /// The type's width in bits.
    const WIDTH: u32;

    ghost WIDTH: { ℕ };

    /// The type's least number.
    const MIN_VALUE: Self;

    ghost MIN_VALUE: { Self };

    /// The type's greatest number.
    const MAX_VALUE: Self;

    ghost MAX_VALUE: { Self };

    /// The sum; `None` where it does not fit.
    fn add_checked(self, rhs: Self) -> Option<Self>
        ensures { option_map Self.value result
            ≡ checked_result addition Self.whole_type (Self.value self) (Self.value rhs) };

    /// The difference; `None` where it does not fit.
    fn sub_checked(self, rhs: Self) -> Option<Self>
        ensures { option_map Self.value result
            ≡ checked_result subtraction Self.whole_type (Self.value self) (Self.value rhs) };

    /// The product; `None` where it does not fit.
    fn mul_checked(self, rhs: Self) -> Option<Self>
        ensures { option_map Self.value result
            ≡ checked_result multiplication Self.whole_type (Self.value self) (Self.value rhs) };

    /// The quotient; `None` where the divisor is 0 or the quotient does not fit.
    fn div_checked(self, rhs: Self) -> Option<Self>
        ensures { option_map Self.value result
            ≡ checked_result division Self.whole_type (Self.value self) (Self.value rhs) };

    /// The remainder; `None` where the divisor is 0 or the quotient does not fit.
    fn rem_checked(self, rhs: Self) -> Option<Self>
        ensures { option_map Self.value result
            ≡ checked_result remainder Self.whole_type (Self.value self) (Self.value rhs) };

    /// The one number of the type that is equal to the sum modulo 2^w, w being the type's width.
    fn add_wrapped(self, rhs: Self) -> Self
        ensures { Self.value result
            ≡ wrapped_number Self.whole_type (Self.value self +ℤ Self.value rhs) };

    /// The one number of the type that is equal to the difference modulo 2^w.
    fn sub_wrapped(self, rhs: Self) -> Self
        ensures { Self.value result
            ≡ wrapped_number Self.whole_type (Self.value self -ℤ Self.value rhs) };

    /// The one number of the type that is equal to the product modulo 2^w.
    fn mul_wrapped(self, rhs: Self) -> Self
        ensures { Self.value result
            ≡ wrapped_number Self.whole_type (Self.value self *ℤ Self.value rhs) };

    /// The sum, or the end of the type that it is past.
    fn add_clamped(self, rhs: Self) -> Self
        ensures { Self.value result
            ≡ nearest_number Self.whole_type (Self.value self +ℤ Self.value rhs) };

    /// The difference, or the end of the type that it is past.
    fn sub_clamped(self, rhs: Self) -> Self
        ensures { Self.value result
            ≡ nearest_number Self.whole_type (Self.value self -ℤ Self.value rhs) };

    /// The product, or the end of the type that it is past.
    fn mul_clamped(self, rhs: Self) -> Self
        ensures { Self.value result
            ≡ nearest_number Self.whole_type (Self.value self *ℤ Self.value rhs) };

    // The constants are those of the type.
    ghost width_law: { WIDTH ≡ bit_count Self.whole_type };

    ghost least_law: { Self.value MIN_VALUE ≡ least_number Self.whole_type };

    ghost greatest_law: { Self.value MAX_VALUE ≡ greatest_number Self.whole_type };
}

/// A value whose fields have a negative.
pub trait NativeNegate: NativeType {
    /// Each field's negative; `None` where one of them does not fit its field.
    fn neg_checked(self) -> Option<Self>
        ensures { option_map Self.numbers result
            ≡ checked_numbers Self.field_types (map neg_ℤ (Self.numbers self)) };

    /// The one number of each field that is equal to the field's negative modulo 2^w, w being the
    /// field's width.
    fn neg_wrapped(self) -> Self
        ensures { Self.numbers result
            ≡ wrapped_numbers Self.field_types (map neg_ℤ (Self.numbers self)) };
}

/// A number that tells where a slot's bytes or elements begin.
pub trait Offset: NativeArithmetics {
    /// Whether the type is the larger of the two.
    const IS_LARGE: bool;

    ghost IS_LARGE: { Bool };

    /// The number as a place; `None` where it is negative.
    fn to_usize(self) -> Option<usize>
        ensures { option_map pos result ≡ checked_number (unsigned w64) (Self.value self) }
    {
        usize::try_from(self.to_i128()).ok()
    }

    /// The value that stands for the place; `None` where the place does not fit.
    fn from_usize(n: usize) -> Option<Self>
        ensures { option_map Self.value result ≡ checked_number Self.whole_type (pos n) }
    {
        Self::from_i128(n as i128)
    }

    // The larger type has 64 bits.
    ghost is_large_law: { IsTrue IS_LARGE ↔ (Self.whole_type ≡ signed w64) };
}

/// A number that names a value of a dictionary.
pub trait DictionaryKey: NativeArithmetics {
    /// The key type's name.
    const KEY_TYPE: IntegerType;

    ghost KEY_TYPE: { IntegerType };

    /// The number as a place; `None` where it is negative.
    fn to_place(self) -> Option<usize>
        ensures { option_map pos result ≡ checked_number (unsigned w64) (Self.value self) }
    {
        usize::try_from(self.to_i128()).ok()
    }

    /// The value that stands for the place; `None` where the place does not fit.
    fn from_place(n: usize) -> Option<Self>
        ensures { option_map Self.value result ≡ checked_number Self.whole_type (pos n) }
    {
        Self::from_i128(n as i128)
    }

    // The name tells the numbers.
    ghost key_type_law: { Self.whole_type ≡ whole_type_of_key KEY_TYPE };
}
