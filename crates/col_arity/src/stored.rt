//! Loops over all stored values, which are answered where they stand.
ghost use Rattle.std.specs.Prelude.{◌≡◌, IfErr, IfOk, Ok, Some, length, map, zip};
ghost use Rattle.col_types.specs.Answer.{FailsByMemory, UnlessMemory};
ghost use Rattle.col_flat.specs.Parts.{pair_numbers};
ghost use Rattle.col_arity.specs.Rows.{AnswersWith, IsCallableAtStored, IsFirstRefusal, MapsSlots};
ghost use Rattle.col_arity.specs.Rows.{zero_numbers};

use col_flat::PrimitiveArray;
use col_types::{Error, NativeType};
use std::alloc::Global;

// A copy of the values that an array stores.
pub(crate) fn copied<T: NativeType>(
    alloc: Global,
    array: &PrimitiveArray<T>,
) -> Result<Vec<T>, Error>
    ensures value { IfOk result (λ values. map T.numbers values.items ≡ array.now.values) }
    ensures refused { FailsByMemory result }
{
    let values = Vec::from_slice(alloc, array.values().as_slice())?;
    Ok(values)
}

// Puts the closure's answer in the place of each value.
pub(crate) fn put_each<T: NativeType, F: Fn(T) -> T>(values: &mut [T], op: F)
    requires { IsCallableAtStored T.numbers (λ x. F.pre op x) (map T.numbers values.old) }
    ensures { MapsSlots (AnswersWith T.numbers (λ x r. F.post op x r) (λ r. T.numbers r))
        (zero_numbers T.field_types) (map Some (map T.numbers values.old))
        (map T.numbers values.new) }
{
    for i in 0..values.len() {
        values[i] = op(values[i]);
    }
}

// Puts the closure's answer for both values in the place of each value.
pub(crate) fn put_pairs<T: NativeType, D: NativeType, F: Fn(T, D) -> T>(
    values: &mut [T],
    others: &[D],
    op: F,
)
    requires one_length { length others.now ≡ length values.old }
    requires callable { IsCallableAtStored (pair_numbers T.numbers D.numbers)
        (λ p. F.pre op p.0 p.1) (zip (map T.numbers values.old) (map D.numbers others.now)) }
    ensures { MapsSlots (AnswersWith (pair_numbers T.numbers D.numbers)
        (λ p r. F.post op p.0 p.1 r) (λ r. T.numbers r)) (zero_numbers T.field_types)
        (map Some (zip (map T.numbers values.old) (map D.numbers others.now)))
        (map T.numbers values.new) }
{
    for i in 0..values.len() {
        values[i] = op(values[i], others[i]);
    }
}

// Puts the closure's answer for both values in the place of each value, up to its first refusal.
pub(crate) fn try_put_pairs<T: NativeType, D: NativeType, F: Fn(T, D) -> Result<T, Error>>(
    values: &mut [T],
    others: &[D],
    op: F,
) -> Result<(), Error>
    requires one_length { length others.now ≡ length values.old }
    requires callable { IsCallableAtStored (pair_numbers T.numbers D.numbers)
        (λ p. F.pre op p.0 p.1) (zip (map T.numbers values.old) (map D.numbers others.now)) }
    ensures answer { IfOk result (λ _. MapsSlots (AnswersWith (pair_numbers T.numbers D.numbers)
        (λ p r. F.post op p.0 p.1 (Ok r)) (λ r. T.numbers r)) (zero_numbers T.field_types)
        (map Some (zip (map T.numbers values.old) (map D.numbers others.now)))
        (map T.numbers values.new)) }
    ensures refused { IfErr result (λ e. UnlessMemory e (IsFirstRefusal
        (pair_numbers T.numbers D.numbers) (λ p r. F.post op p.0 p.1 r)
        (map Some (zip (map T.numbers values.old) (map D.numbers others.now))) e)) }
{
    for i in 0..values.len() {
        values[i] = op(values[i], others[i])?;
    }
    Ok(())
}
