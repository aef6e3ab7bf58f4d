//! The slots of what `unary_checked` and `binary_checked` answer.
ghost use Rattle.std.specs.Prelude.{IfOk, None, option_map};
ghost use Rattle.col_types.specs.Answer.{FailsByMemory};
ghost use Rattle.col_arity.specs.Rows.{AnswersWith, IsCallableAtValid, MapsSlots};

use crate::rows::Rows;
use col_flat::MutablePrimitiveArray;
use col_types::{Error, NativeType};
use std::alloc::Global;

// The closure's answer for each row, and null at each null; there is room for `count` of them at
// once.
pub(super) fn rows<X, O: NativeType, S: Rows<X>, F: Fn(X) -> Option<O>>(
    alloc: Global,
    count: usize,
    slots: S,
    op: F,
) -> Result<MutablePrimitiveArray<O>, Error>
    requires callable { IsCallableAtValid S.seen (λ x. F.pre op x) (S.left slots) }
    ensures answer { IfOk result (MapsSlots
        (AnswersWith S.seen (λ x r. F.post op x r) (λ r. option_map O.numbers r))
        None (S.left slots)) }
    ensures refused { FailsByMemory result }
{
    let mut made = MutablePrimitiveArray::with_capacity(alloc, count)?;
    for slot in slots {
        match slot {
            Some(value) => {
                let answer = op(value);
                made.push(answer)?;
            }
            None => made.push(None)?,
        }
    }
    Ok(made)
}
