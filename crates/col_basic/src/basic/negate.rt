//! Negatives, row by row, of numbers and of intervals.
ghost use Rattle.std.specs.Prelude.{◌≡◌, Ok};
ghost use Rattle.col_types.specs.Answer.{Answers, as_errors};
ghost use Rattle.col_types.specs.Column.{unary_answer};
ghost use Rattle.col_flat.specs.Parts.{column_of, value_cell};
ghost use Rattle.col_arity.specs.Answered.{checked_cell, plain_cell};
ghost use Rattle.col_basic.specs.Negative.{checked_negative, plain_negative, wrapping_negative};

use col_arity::{arity_assign, try_unary, unary_checked};
use col_flat::PrimitiveArray;
use col_types::{Error, NativeNegate};
use std::alloc::Global;

/// The negative of each slot, field by field where the values are intervals. A null slot stays
/// null; the type is that of `array`.
///
/// Refused: `Overflow` exactly where some valid slot has a field whose negative does not fit.
pub fn negate<T: NativeNegate>(
    alloc: Global,
    array: &PrimitiveArray<T>,
) -> Result<PrimitiveArray<T>, Error>
    ensures answer { Answers column_of result
        (unary_answer (plain_negative T.field_types) (column_of array.now)) }
{
    let data_type = array.data_type().try_clone(alloc)?;
    try_unary(alloc, array, plain_number, data_type)
}

/// The negative of each slot, field by field where the values are intervals. A null slot stays
/// null, and a slot with a field whose negative does not fit is null; the type is that of `array`.
/// No row is refused.
pub fn checked_negate<T: NativeNegate>(
    alloc: Global,
    array: &PrimitiveArray<T>,
) -> Result<PrimitiveArray<T>, Error>
    ensures answer { Answers column_of result
        (unary_answer (checked_negative T.field_types) (column_of array.now)) }
{
    let data_type = array.data_type().try_clone(alloc)?;
    unary_checked(alloc, array, checked_number, data_type)
}

/// The negative of each slot modulo 2^w, w being the width of the type, and field by field where
/// the values are intervals. A null slot stays null; the type is that of `array`. No row is
/// refused.
pub fn wrapping_negate<T: NativeNegate>(
    alloc: Global,
    array: &PrimitiveArray<T>,
) -> Result<PrimitiveArray<T>, Error>
    ensures answer { Answers column_of result
        (unary_answer (wrapping_negative T.field_types) (column_of array.now)) }
{
    let mut answer = array.try_clone(alloc)?;
    arity_assign::unary(alloc, &mut answer, wrapped_number)?;
    Ok(answer)
}

// The negative, refused where a field of it does not fit.
fn plain_number<T: NativeNegate>(a: T) -> Result<T, Error>
    ensures { plain_cell (λ x. value_cell (T.numbers x)) result
        ≡ as_errors (plain_negative T.field_types (value_cell (T.numbers a))) }
{
    a.neg_checked().ok_or(Error::Overflow)
}

// The negative, none where a field of it does not fit.
fn checked_number<T: NativeNegate>(a: T) -> Option<T>
    ensures { checked_cell (λ x. value_cell (T.numbers x)) result
        ≡ as_errors (checked_negative T.field_types (value_cell (T.numbers a))) }
{
    a.neg_checked()
}

// The negative, each field wrapped into its type.
fn wrapped_number<T: NativeNegate>(a: T) -> T
    ensures { Ok (value_cell (T.numbers result))
        ≡ as_errors (wrapping_negative T.field_types (value_cell (T.numbers a))) }
{
    a.neg_wrapped()
}
