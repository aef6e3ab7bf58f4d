//! The values of what `unary` and `binary` answer.
ghost use Rattle.std.specs.Prelude.{IfOk, map};
ghost use Rattle.col_types.specs.Answer.{FailsByMemory};
ghost use Rattle.col_arity.specs.Rows.{AnswersWith, IsCallableAtValid, MapsSlots, zero_numbers};

use crate::rows::Rows;
use col_types::{Error, NativeType};
use std::alloc::Global;

// The closure's answer for each row, and zero at each null; there is room for `count` of them at
// once.
pub(super) fn rows<X, O: NativeType, S: Rows<X>, F: Fn(X) -> O>(
    alloc: Global,
    count: usize,
    slots: S,
    op: F,
) -> Result<Vec<O>, Error>
    requires callable { IsCallableAtValid S.seen (λ x. F.pre op x) (S.left slots) }
    ensures answer { IfOk result (λ values. MapsSlots
        (AnswersWith S.seen (λ x r. F.post op x r) (λ r. O.numbers r))
        (zero_numbers O.field_types) (S.left slots) (map O.numbers values.items)) }
    ensures refused { FailsByMemory result }
{
    let mut values = Vec::with_capacity(alloc, count)?;
    for slot in slots {
        match slot {
            Some(value) => {
                let answer = op(value);
                values.push(answer)?;
            }
            None => values.push(O::zero())?,
        }
    }
    Ok(values)
}
