//! Masks that are made of masks.
ghost use Rattle.std.specs.Prelude.{◌≡◌, IfOk};
ghost use Rattle.std.specs.Option.{option_copied};
ghost use Rattle.col_types.specs.Answer.{FailsByMemory};
ghost use Rattle.col_flat.specs.Parts.{HaveOneLength, flags_of_both};

use col_buf::Bitmap;
use col_types::Error;
use std::alloc::Global;

/// A mask of the flags that are true in both masks; without a mask all flags are. Where there is
/// one mask alone it is shared.
pub fn combine_validities(
    alloc: Global,
    lhs: Option<&Bitmap>,
    rhs: Option<&Bitmap>,
) -> Result<Option<Bitmap>, Error>
    requires { HaveOneLength (option_copied lhs) (option_copied rhs) }
    ensures value { IfOk result
        (λ mask. mask ≡ flags_of_both (option_copied lhs.entry) (option_copied rhs.entry)) }
    ensures refused { FailsByMemory result }
{
    match (lhs, rhs) {
        (Some(lhs), Some(rhs)) => Ok(Some(lhs.and(alloc, rhs)?)),
        (Some(mask), None) | (None, Some(mask)) => Ok(Some(mask.share()?)),
        (None, None) => Ok(None),
    }
}
