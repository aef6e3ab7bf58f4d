//! Kernels that put the closure's answers in an array's place.
ghost use Rattle.std.specs.Prelude.{◌≡◌, ◌≢◌, IfErr, IfOk, OnErr, Some, zip};
ghost use Rattle.col_types.specs.Answer.{ButForMemory, FailsByMemory, RefusedWhere, UnlessMemory};
ghost use Rattle.col_types.specs.declared.error.Reason.TheVariants.{Lengths};
ghost use Rattle.col_types.specs.Column.{row_count};
ghost use Rattle.col_flat.specs.Parts.{column_of, pair_numbers, slot_pairs, slots_of};
ghost use Rattle.col_arity.specs.Rows.{AnswersWith, IsCallableAtStored, IsMapped};

use crate::arity::check_lengths;
use crate::masks::{beneath, mask_of_both, mask_of_one};
use crate::stored::{copied, put_each, put_pairs};
use col_flat::PrimitiveArray;
use col_types::{Error, NativeType};
use std::alloc::Global;

/// Puts the closure's answer in the place of each value. Nulls and the type stay. The closure may
/// be called for each value that is stored, also for one beneath a null.
///
/// A refusal leaves the array as it was.
pub fn unary<I: NativeType, F: Fn(I) -> I>(
    alloc: Global,
    array: &mut PrimitiveArray<I>,
    op: F,
) -> Result<(), Error>
    requires { IsCallableAtStored I.numbers (λ x. F.pre op x) array.old.values }
    ensures answer { IfOk result (λ _. IsMapped array.old.data_type
        (AnswersWith I.numbers (λ x r. F.post op x r) (λ r. Some (I.numbers r)))
        (slots_of array.old) array.new) }
    ensures refused { FailsByMemory result }
    ensures kept { OnErr result (array.new ≡ array.old) }
{
    let validity = mask_of_one(array)?;
    let data_type = array.data_type().try_clone(alloc)?;
    let mut values = copied(alloc, array)?;
    put_each(values.as_mut_slice(), op);
    *array = beneath(alloc, data_type, values, validity)?;
    Ok(())
}

/// Puts the closure's answer for both values in the place of each value of the left array, and null
/// where one of the two slots is null or both are. The left array's type stays. The closure may be
/// called for each two values that are stored at one row, also for those beneath nulls.
///
/// Refused: `Lengths` where the arrays differ in length. A refusal leaves the left array as it was.
pub fn binary<T: NativeType, D: NativeType, F: Fn(T, D) -> T>(
    alloc: Global,
    lhs: &mut PrimitiveArray<T>,
    rhs: &PrimitiveArray<D>,
    op: F,
) -> Result<(), Error>
    requires { IsCallableAtStored (pair_numbers T.numbers D.numbers) (λ p. F.pre op p.0 p.1)
        (zip lhs.old.values rhs.now.values) }
    ensures answer { IfOk result (λ _. IsMapped lhs.old.data_type
        (AnswersWith (pair_numbers T.numbers D.numbers) (λ p r. F.post op p.0 p.1 r)
        (λ r. Some (T.numbers r)))
        (slot_pairs lhs.old rhs.now) lhs.new) }
    ensures lengths { RefusedWhere result (Error.InvalidArgumentError Lengths)
        (row_count (column_of lhs.old) ≢ row_count (column_of rhs.now)) }
    ensures refused { IfErr result (λ e. UnlessMemory e (e ≡ Error.InvalidArgumentError Lengths)) }
    ensures kept { OnErr result (lhs.new ≡ lhs.old) }
{
    check_lengths(lhs, rhs)?;
    let validity = mask_of_both(alloc, lhs, rhs)?;
    let data_type = lhs.data_type().try_clone(alloc)?;
    let mut values = copied(alloc, lhs)?;
    put_pairs(values.as_mut_slice(), rhs.values().as_slice(), op);
    *lhs = beneath(alloc, data_type, values, validity)?;
    Ok(())
}
