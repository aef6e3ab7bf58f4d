//! Remainders of arrays of whole numbers.
ghost use Rattle.col_model.specs.WholeStep.{checked, plain, remainder};
ghost use Rattle.col_flat.specs.Parts.{column_of};
ghost use Rattle.col_ops.specs.Operators.{beside_array, beside_number};

use crate::traits::{ArrayCheckedRem, ArrayRem};
use crate::whole::ArrayNative;
use col_basic::{checked_rem, checked_rem_scalar, rem, rem_scalar};
use col_flat::PrimitiveArray;
use col_types::Error;
use std::alloc::Global;

impl<T: ArrayNative> ArrayRem<PrimitiveArray<T>> for PrimitiveArray<T> {
    ghost column = { column_of };

    ghost remainder_answer = { beside_array remainder plain T.whole_type };

    fn rem(&self, alloc: Global, rhs: &PrimitiveArray<T>) -> Result<PrimitiveArray<T>, Error> {
        rem(alloc, self, rhs)
    }
}

impl<T: ArrayNative> ArrayRem<T> for PrimitiveArray<T> {
    ghost column = { column_of };

    ghost remainder_answer = { beside_number remainder plain T.whole_type T.value };

    fn rem(&self, alloc: Global, rhs: &T) -> Result<PrimitiveArray<T>, Error> {
        rem_scalar(alloc, self, rhs)
    }
}

impl<T: ArrayNative> ArrayCheckedRem<PrimitiveArray<T>> for PrimitiveArray<T> {
    ghost column = { column_of };

    ghost checked_remainder = { beside_array remainder checked T.whole_type };

    fn checked_rem(
        &self,
        alloc: Global,
        rhs: &PrimitiveArray<T>,
    ) -> Result<PrimitiveArray<T>, Error> {
        checked_rem(alloc, self, rhs)
    }
}

impl<T: ArrayNative> ArrayCheckedRem<T> for PrimitiveArray<T> {
    ghost column = { column_of };

    ghost checked_remainder = { beside_number remainder checked T.whole_type T.value };

    fn checked_rem(&self, alloc: Global, rhs: &T) -> Result<PrimitiveArray<T>, Error> {
        checked_rem_scalar(alloc, self, rhs)
    }
}
