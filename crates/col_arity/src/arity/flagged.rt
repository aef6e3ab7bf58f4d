//! The values and the flags of what `unary_with_bitmap` and `binary_with_bitmap` answer.
ghost use Rattle.std.specs.Prelude.{◌≡◌, IfOk, false, length, map, zip};
ghost use Rattle.col_types.specs.Answer.{FailsByMemory};
ghost use Rattle.col_arity.specs.Rows.{AnswersWith, IsCallableAtValid, MapsSlots, zero_numbers};

use crate::rows::Rows;
use col_types::{Error, NativeType};
use std::alloc::Global;

// Both parts of the closure's answer for each row, and zero with a false flag at each null; there
// is room for `count` of them at once.
pub(super) fn rows<X, O: NativeType, S: Rows<X>, F: Fn(X) -> (O, bool)>(
    alloc: Global,
    count: usize,
    slots: S,
    op: F,
) -> Result<(Vec<O>, Vec<bool>), Error>
    requires callable { IsCallableAtValid S.seen (λ x. F.pre op x) (S.left slots) }
    ensures answer { IfOk result (λ made. MapsSlots
        (AnswersWith S.seen (λ x r. F.post op x r) (λ r. (O.numbers r.0, r.1)))
        (zero_numbers O.field_types, false) (S.left slots)
        (zip (map O.numbers made.0.items) made.1.items)) }
    ensures one_length { IfOk result (λ made. length made.1.items ≡ length made.0.items) }
    ensures refused { FailsByMemory result }
{
    let mut values = Vec::with_capacity(alloc, count)?;
    let mut flags = Vec::with_capacity(alloc, count)?;
    for slot in slots {
        match slot {
            Some(value) => {
                let answer = op(value);
                values.push(answer.0)?;
                flags.push(answer.1)?;
            }
            None => {
                values.push(O::zero())?;
                flags.push(false)?;
            }
        }
    }
    Ok((values, flags))
}
