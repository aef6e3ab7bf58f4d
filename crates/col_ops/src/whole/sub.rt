//! Differences of arrays of whole numbers.
ghost use Rattle.col_model.specs.WholeStep.{checked, plain, saturating, subtraction, wrapping};
ghost use Rattle.col_flat.specs.Parts.{column_of};
ghost use Rattle.col_ops.specs.Operators.{beside_array, beside_number};
ghost use Rattle.col_ops.specs.Operators.{flagged_beside_array, flagged_beside_number};

use crate::traits::{
    ArrayCheckedSub, ArrayOverflowingSub, ArraySaturatingSub, ArraySub, ArrayWrappingSub,
};
use crate::whole::ArrayNative;
use col_basic::{
    checked_sub, checked_sub_scalar, overflowing_sub, overflowing_sub_scalar, saturating_sub,
    saturating_sub_scalar, sub, sub_scalar, wrapping_sub,
};
use col_buf::Bitmap;
use col_flat::PrimitiveArray;
use col_types::Error;
use std::alloc::Global;

impl<T: ArrayNative> ArraySub<PrimitiveArray<T>> for PrimitiveArray<T> {
    ghost column = { column_of };

    ghost difference_answer = { beside_array subtraction plain T.whole_type };

    fn sub(&self, alloc: Global, rhs: &PrimitiveArray<T>) -> Result<PrimitiveArray<T>, Error> {
        sub(alloc, self, rhs)
    }
}

impl<T: ArrayNative> ArraySub<T> for PrimitiveArray<T> {
    ghost column = { column_of };

    ghost difference_answer = { beside_number subtraction plain T.whole_type T.value };

    fn sub(&self, alloc: Global, rhs: &T) -> Result<PrimitiveArray<T>, Error> {
        sub_scalar(alloc, self, rhs)
    }
}

impl<T: ArrayNative> ArrayWrappingSub<PrimitiveArray<T>> for PrimitiveArray<T> {
    ghost column = { column_of };

    ghost wrapped_difference = { beside_array subtraction wrapping T.whole_type };

    fn wrapping_sub(
        &self,
        alloc: Global,
        rhs: &PrimitiveArray<T>,
    ) -> Result<PrimitiveArray<T>, Error> {
        wrapping_sub(alloc, self, rhs)
    }
}

impl<T: ArrayNative> ArrayCheckedSub<PrimitiveArray<T>> for PrimitiveArray<T> {
    ghost column = { column_of };

    ghost checked_difference = { beside_array subtraction checked T.whole_type };

    fn checked_sub(
        &self,
        alloc: Global,
        rhs: &PrimitiveArray<T>,
    ) -> Result<PrimitiveArray<T>, Error> {
        checked_sub(alloc, self, rhs)
    }
}

impl<T: ArrayNative> ArrayCheckedSub<T> for PrimitiveArray<T> {
    ghost column = { column_of };

    ghost checked_difference = { beside_number subtraction checked T.whole_type T.value };

    fn checked_sub(&self, alloc: Global, rhs: &T) -> Result<PrimitiveArray<T>, Error> {
        checked_sub_scalar(alloc, self, rhs)
    }
}

impl<T: ArrayNative> ArraySaturatingSub<PrimitiveArray<T>> for PrimitiveArray<T> {
    ghost column = { column_of };

    ghost saturated_difference = { beside_array subtraction saturating T.whole_type };

    fn saturating_sub(
        &self,
        alloc: Global,
        rhs: &PrimitiveArray<T>,
    ) -> Result<PrimitiveArray<T>, Error> {
        saturating_sub(alloc, self, rhs)
    }
}

impl<T: ArrayNative> ArraySaturatingSub<T> for PrimitiveArray<T> {
    ghost column = { column_of };

    ghost saturated_difference = { beside_number subtraction saturating T.whole_type T.value };

    fn saturating_sub(&self, alloc: Global, rhs: &T) -> Result<PrimitiveArray<T>, Error> {
        saturating_sub_scalar(alloc, self, rhs)
    }
}

impl<T: ArrayNative> ArrayOverflowingSub<PrimitiveArray<T>> for PrimitiveArray<T> {
    ghost column = { column_of };

    ghost flagged_difference = { flagged_beside_array subtraction T.whole_type };

    fn overflowing_sub(
        &self,
        alloc: Global,
        rhs: &PrimitiveArray<T>,
    ) -> Result<(PrimitiveArray<T>, Bitmap), Error> {
        overflowing_sub(alloc, self, rhs)
    }
}

impl<T: ArrayNative> ArrayOverflowingSub<T> for PrimitiveArray<T> {
    ghost column = { column_of };

    ghost flagged_difference = { flagged_beside_number subtraction T.whole_type T.value };

    fn overflowing_sub(
        &self,
        alloc: Global,
        rhs: &T,
    ) -> Result<(PrimitiveArray<T>, Bitmap), Error> {
        overflowing_sub_scalar(alloc, self, rhs)
    }
}
