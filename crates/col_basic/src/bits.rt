//! The three operations on bits, each as its function of two numbers, and their kernels.
ghost use Rattle.std.specs.Prelude.{◌≡◌, ℤ, Ok};
ghost use Rattle.col_model.specs.Cell.{whole};
ghost use Rattle.col_model.specs.Whole.{WholeType};
ghost use Rattle.col_types.specs.Answer.{Answers, as_errors};
ghost use Rattle.col_types.specs.Column.{kernel_answer, scalar_answer};
ghost use Rattle.col_flat.specs.Parts.{column_of};
ghost use Rattle.col_basic.specs.Bits.{on_numbers};

use col_arity::arity_assign;
use col_flat::PrimitiveArray;
use col_types::{Error, NativeWhole};
use std::alloc::Global;

// An operation on the bits of two numbers.
pub(crate) trait BitOperator<T: NativeWhole> {
    // The number with the bits that it gives.
    ghost combined: { WholeType → ℤ → ℤ → ℤ };

    fn combine(a: T, b: T) -> T
        ensures { T.value result ≡ combined T.whole_type (T.value a) (T.value b) };
}

// The bits that are set in one of two numbers or in both.
pub(crate) struct Or;

impl<T: NativeWhole> BitOperator<T> for Or {
    ghost use Rattle.col_model.specs.Bitwise.{bitwise_or};

    ghost combined = { bitwise_or };

    fn combine(a: T, b: T) -> T {
        a.bit_or(b)
    }
}

// The bits that are set in one of two numbers alone.
pub(crate) struct Xor;

impl<T: NativeWhole> BitOperator<T> for Xor {
    ghost use Rattle.col_model.specs.Bitwise.{bitwise_xor};

    ghost combined = { bitwise_xor };

    fn combine(a: T, b: T) -> T {
        a.bit_xor(b)
    }
}

// The bits that are set in both of two numbers.
pub(crate) struct And;

impl<T: NativeWhole> BitOperator<T> for And {
    ghost use Rattle.col_model.specs.Bitwise.{bitwise_and};

    ghost combined = { bitwise_and };

    fn combine(a: T, b: T) -> T {
        a.bit_and(b)
    }
}

// The operation on two arrays.
pub(crate) fn bitwise<T: NativeWhole, O: BitOperator<T>>(
    alloc: Global,
    lhs: &PrimitiveArray<T>,
    rhs: &PrimitiveArray<T>,
) -> Result<PrimitiveArray<T>, Error>
    ensures answer { Answers column_of result
        (kernel_answer (on_numbers (O.combined T.whole_type))
        (column_of lhs.now) (column_of rhs.now)) }
{
    let number = |a, b| combined_number::<T, O>(a, b);
    let mut answer = lhs.try_clone(alloc)?;
    arity_assign::binary(alloc, &mut answer, rhs, number)?;
    Ok(answer)
}

// The operation on an array and a number.
pub(crate) fn bitwise_scalar<T: NativeWhole, O: BitOperator<T>>(
    alloc: Global,
    lhs: &PrimitiveArray<T>,
    rhs: &T,
) -> Result<PrimitiveArray<T>, Error>
    ensures answer { Answers column_of result
        (scalar_answer (on_numbers (O.combined T.whole_type))
        (column_of lhs.now) (whole (T.value rhs.now))) }
{
    let rhs = *rhs;
    let mut answer = lhs.try_clone(alloc)?;
    arity_assign::unary(alloc, &mut answer, |a| combined_number::<T, O>(a, rhs))?;
    Ok(answer)
}

// What the operation gives for two numbers.
fn combined_number<T: NativeWhole, O: BitOperator<T>>(a: T, b: T) -> T
    ensures { Ok (whole (T.value result)) ≡ as_errors
        (on_numbers (O.combined T.whole_type) (whole (T.value a)) (whole (T.value b))) }
{
    O::combine(a, b)
}
