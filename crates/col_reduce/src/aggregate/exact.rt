//! Sums of numbers of 128 bits that may pass 128 bits.
ghost use Rattle.std.specs.Prelude.{◌≡◌, ◌+◌, ◌<◌, ◌≤◌, ◌^◌, ◌+ℤ◌, pos, option_map, unsigned_abs};
ghost use Rattle.std.specs.Int.{w128};
ghost use Rattle.col_model.specs.Whole.{checked_number};
ghost use Rattle.col_reduce.specs.Exact.{exact_number};

use col_types::NativeWhole;

// A whole number: so many times 2^128, and the rest.
#[derive(Clone, Copy)]
pub(super) struct ExactSum {
    pub(super) carries: i128,
    pub(super) rest: i128,
}

impl ExactSum {
    // 0.
    pub(super) fn zero() -> ExactSum
        ensures { result ≡ record { carries = pos 0; rest = pos 0 } }
    {
        ExactSum {
            carries: 0,
            rest: 0,
        }
    }

    // The sum with a number.
    pub(super) fn plus(self, n: i128) -> ExactSum
        requires { unsigned_abs self.carries < 2 ^ 64 }
        ensures value { exact_number result ≡ exact_number self +ℤ n }
        ensures carries { unsigned_abs result.carries ≤ unsigned_abs self.carries + 1 }
    {
        match self.rest.checked_add(n) {
            Some(rest) => ExactSum {
                carries: self.carries,
                rest,
            },
            None => ExactSum {
                carries: if n < 0 {
                    self.carries - 1
                } else {
                    self.carries + 1
                },
                rest: self.rest.wrapping_add(n),
            },
        }
    }

    // The value that stands for the number; `None` where it does not fit.
    pub(super) fn value<T: NativeWhole>(self) -> Option<T>
        ensures { option_map T.value result ≡ checked_number T.whole_type (exact_number self) }
    {
        if self.carries == 0 {
            T::from_i128(self.rest)
        } else {
            None
        }
    }
}
