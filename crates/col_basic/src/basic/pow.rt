//! Powers, row by row.
ghost use Rattle.std.specs.Prelude.{◌≡◌};
ghost use Rattle.col_model.specs.Cell.{whole};
ghost use Rattle.col_types.specs.Answer.{Answers, as_errors};
ghost use Rattle.col_types.specs.Column.{unary_answer};
ghost use Rattle.col_flat.specs.Parts.{column_of};
ghost use Rattle.col_arity.specs.Answered.{checked_cell};
ghost use Rattle.col_basic.specs.Power.{checked_power};

use col_arity::unary_checked;
use col_flat::PrimitiveArray;
use col_types::{Error, NativeArithmetics};
use num_traits::checked_pow;
use std::alloc::Global;

/// Each slot to the power of an exponent; to the power of 0 it is 1. A null slot stays null, and a
/// slot whose power does not fit is null; the type is that of `array`. No row is refused.
pub fn checked_powf_scalar<T: NativeArithmetics>(
    alloc: Global,
    array: &PrimitiveArray<T>,
    exponent: usize,
) -> Result<PrimitiveArray<T>, Error>
    ensures answer { Answers column_of result
        (unary_answer (checked_power T.whole_type exponent) (column_of array.now)) }
{
    let data_type = array.data_type().try_clone(alloc)?;
    unary_checked(alloc, array, |a| power(a, exponent), data_type)
}

// The power, none where it does not fit. It is worked out in 128 bits with a sign, and no native
// type has a number past those.
fn power<T: NativeArithmetics>(a: T, exponent: usize) -> Option<T>
    ensures { checked_cell (λ x. whole (T.value x)) result
        ≡ as_errors (checked_power T.whole_type exponent (whole (T.value a))) }
{
    T::from_i128(checked_pow(a.to_i128(), exponent)?)
}
