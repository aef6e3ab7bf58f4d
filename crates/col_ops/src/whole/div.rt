//! Quotients of arrays of whole numbers.
ghost use Rattle.col_model.specs.WholeStep.{checked, division, plain};
ghost use Rattle.col_flat.specs.Parts.{column_of};
ghost use Rattle.col_ops.specs.Operators.{beside_array, beside_number};

use crate::traits::{ArrayCheckedDiv, ArrayDiv};
use crate::whole::ArrayNative;
use col_basic::{checked_div, checked_div_scalar, div, div_scalar};
use col_flat::PrimitiveArray;
use col_types::Error;
use std::alloc::Global;

impl<T: ArrayNative> ArrayDiv<PrimitiveArray<T>> for PrimitiveArray<T> {
    ghost column = { column_of };

    ghost quotient_answer = { beside_array division plain T.whole_type };

    fn div(&self, alloc: Global, rhs: &PrimitiveArray<T>) -> Result<PrimitiveArray<T>, Error> {
        div(alloc, self, rhs)
    }
}

impl<T: ArrayNative> ArrayDiv<T> for PrimitiveArray<T> {
    ghost column = { column_of };

    ghost quotient_answer = { beside_number division plain T.whole_type T.value };

    fn div(&self, alloc: Global, rhs: &T) -> Result<PrimitiveArray<T>, Error> {
        div_scalar(alloc, self, rhs)
    }
}

impl<T: ArrayNative> ArrayCheckedDiv<PrimitiveArray<T>> for PrimitiveArray<T> {
    ghost column = { column_of };

    ghost checked_quotient = { beside_array division checked T.whole_type };

    fn checked_div(
        &self,
        alloc: Global,
        rhs: &PrimitiveArray<T>,
    ) -> Result<PrimitiveArray<T>, Error> {
        checked_div(alloc, self, rhs)
    }
}

impl<T: ArrayNative> ArrayCheckedDiv<T> for PrimitiveArray<T> {
    ghost column = { column_of };

    ghost checked_quotient = { beside_number division checked T.whole_type T.value };

    fn checked_div(&self, alloc: Global, rhs: &T) -> Result<PrimitiveArray<T>, Error> {
        checked_div_scalar(alloc, self, rhs)
    }
}
