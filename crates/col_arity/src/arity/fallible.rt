//! The values of what `try_unary` and `try_binary` answer.
ghost use Rattle.std.specs.Prelude.{IfErr, IfOk, Ok, map};
ghost use Rattle.col_types.specs.Answer.{UnlessMemory};
ghost use Rattle.col_arity.specs.Rows.{AnswersWith, IsCallableAtValid, IsFirstRefusal, MapsSlots};
ghost use Rattle.col_arity.specs.Rows.{zero_numbers};

use crate::rows::Rows;
use col_types::{Error, NativeType};
use std::alloc::Global;

// The closure's answer for each row, and zero at each null; or its first refusal. There is room for
// `count` answers at once.
pub(super) fn rows<X, O: NativeType, S: Rows<X>, F: Fn(X) -> Result<O, Error>>(
    alloc: Global,
    count: usize,
    slots: S,
    op: F,
) -> Result<Vec<O>, Error>
    requires callable { IsCallableAtValid S.seen (λ x. F.pre op x) (S.left slots) }
    ensures answer { IfOk result (λ values. MapsSlots
        (AnswersWith S.seen (λ x r. F.post op x (Ok r)) (λ r. O.numbers r))
        (zero_numbers O.field_types) (S.left slots) (map O.numbers values.items)) }
    ensures refused { IfErr result (λ e. UnlessMemory e (IsFirstRefusal S.seen
        (λ x r. F.post op x r) (S.left slots) e)) }
{
    let mut values = Vec::with_capacity(alloc, count)?;
    for slot in slots {
        match slot {
            Some(value) => {
                let answer = op(value)?;
                values.push(answer)?;
            }
            None => values.push(O::zero())?,
        }
    }
    Ok(values)
}
