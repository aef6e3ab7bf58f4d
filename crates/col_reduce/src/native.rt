//! The native types whose values are summed.
ghost use Rattle.std.specs.Prelude.{◌≡◌, ◌+ℤ◌};
ghost use Rattle.col_model.specs.Whole.{wrapped_number};

use col_types::NativeWhole;

/// A whole number that can be summed modulo 2^w, w being the type's width.
pub trait Summable: NativeWhole {
    /// The one number of the type that is equal to the sum modulo 2^w.
    fn add_modulo(self, rhs: Self) -> Self
        ensures { Self.value result
            ≡ wrapped_number Self.whole_type (Self.value self +ℤ Self.value rhs) };
}

impl Summable for i8 {
    fn add_modulo(self, rhs: i8) -> i8 {
        self.wrapping_add(rhs)
    }
}

impl Summable for i16 {
    fn add_modulo(self, rhs: i16) -> i16 {
        self.wrapping_add(rhs)
    }
}

impl Summable for i32 {
    fn add_modulo(self, rhs: i32) -> i32 {
        self.wrapping_add(rhs)
    }
}

impl Summable for i64 {
    fn add_modulo(self, rhs: i64) -> i64 {
        self.wrapping_add(rhs)
    }
}

impl Summable for i128 {
    fn add_modulo(self, rhs: i128) -> i128 {
        self.wrapping_add(rhs)
    }
}

impl Summable for u8 {
    fn add_modulo(self, rhs: u8) -> u8 {
        self.wrapping_add(rhs)
    }
}

impl Summable for u16 {
    fn add_modulo(self, rhs: u16) -> u16 {
        self.wrapping_add(rhs)
    }
}

impl Summable for u32 {
    fn add_modulo(self, rhs: u32) -> u32 {
        self.wrapping_add(rhs)
    }
}

impl Summable for u64 {
    fn add_modulo(self, rhs: u64) -> u64 {
        self.wrapping_add(rhs)
    }
}
