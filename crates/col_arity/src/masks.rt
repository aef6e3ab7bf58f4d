//! The masks that rows are read beneath, and that answers with their operands' nulls have.
ghost use Rattle.std.specs.Prelude.{◌≡◌, IfOk, is_some, length, map};
ghost use Rattle.std.specs.Option.{option_copied};
ghost use Rattle.col_types.specs.Answer.{FailsByMemory};
ghost use Rattle.col_types.specs.Column.{row_count};
ghost use Rattle.col_types.specs.DataKind.{kind_of};
ghost use Rattle.col_types.specs.DataType.{IsMadeOf};
ghost use Rattle.col_flat.specs.Parts.{HasFlags, IsMaskOf, column_of, slot_pairs, slots_of};

use col_buf::{Bitmap, Buffer};
use col_flat::{PrimitiveArray, combine_validities};
use col_types::{DataType, Error, NativeType};
use std::alloc::Global;

// The mask of an array; none where no slot is null.
fn needed_mask<I: NativeType>(array: &PrimitiveArray<I>) -> Option<&Bitmap>
    ensures { HasFlags (option_copied result) (map is_some (slots_of array.now)) }
{
    if array.null_count() == 0 {
        None
    } else {
        array.validity()
    }
}

// A mask that tells which slots of an array are valid: the array's own, which is shared, and none
// where no slot is null.
pub(crate) fn mask_of_one<I: NativeType>(array: &PrimitiveArray<I>) -> Result<Option<Bitmap>, Error>
    ensures value { IfOk result (λ mask. HasFlags mask (map is_some (slots_of array.now))) }
    ensures refused { FailsByMemory result }
{
    match needed_mask(array) {
        Some(mask) => Ok(Some(mask.share()?)),
        None => Ok(None),
    }
}

// A mask that tells which rows of two arrays are valid in both; none where no slot is null.
pub(crate) fn mask_of_both<T: NativeType, D: NativeType>(
    alloc: Global,
    lhs: &PrimitiveArray<T>,
    rhs: &PrimitiveArray<D>,
) -> Result<Option<Bitmap>, Error>
    requires { row_count (column_of lhs.now) ≡ row_count (column_of rhs.now) }
    ensures value { IfOk result (λ mask. HasFlags mask
        (map is_some (slot_pairs lhs.now rhs.now))) }
    ensures refused { FailsByMemory result }
{
    combine_validities(alloc, needed_mask(lhs), needed_mask(rhs))
}

// An array of the type with the values beneath the mask.
pub(crate) fn beneath<T: NativeType>(
    alloc: Global,
    data_type: DataType,
    values: Vec<T>,
    validity: Option<Bitmap>,
) -> Result<PrimitiveArray<T>, Error>
    requires made { IsMadeOf (kind_of data_type) T.PRIMITIVE }
    requires one_length { IsMaskOf validity (length values.items) }
    ensures value { IfOk result (λ array. array ≡ record {
      data_type = kind_of data_type;
      values = map T.numbers values.items;
      validity = validity;
    }) }
    ensures refused { FailsByMemory result }
{
    match Buffer::from_vec(alloc, values) {
        Ok(values) => PrimitiveArray::try_new(data_type, values, validity),
        Err(refused) => Err(refused.0),
    }
}
