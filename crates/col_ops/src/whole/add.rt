//! Sums of arrays of whole numbers.
ghost use Rattle.col_model.specs.WholeStep.{addition, checked, plain, saturating, wrapping};
ghost use Rattle.col_flat.specs.Parts.{column_of};
ghost use Rattle.col_ops.specs.Operators.{beside_array, beside_number};
ghost use Rattle.col_ops.specs.Operators.{flagged_beside_array, flagged_beside_number};

use crate::traits::{
    ArrayAdd, ArrayCheckedAdd, ArrayOverflowingAdd, ArraySaturatingAdd, ArrayWrappingAdd,
};
use crate::whole::ArrayNative;
use col_basic::{
    add, add_scalar, checked_add, checked_add_scalar, overflowing_add, overflowing_add_scalar,
    saturating_add, saturating_add_scalar, wrapping_add,
};
use col_buf::Bitmap;
use col_flat::PrimitiveArray;
use col_types::Error;
use std::alloc::Global;

impl<T: ArrayNative> ArrayAdd<PrimitiveArray<T>> for PrimitiveArray<T> {
    ghost column = { column_of };

    ghost sum_answer = { beside_array addition plain T.whole_type };

    fn add(&self, alloc: Global, rhs: &PrimitiveArray<T>) -> Result<PrimitiveArray<T>, Error> {
        add(alloc, self, rhs)
    }
}

impl<T: ArrayNative> ArrayAdd<T> for PrimitiveArray<T> {
    ghost column = { column_of };

    ghost sum_answer = { beside_number addition plain T.whole_type T.value };

    fn add(&self, alloc: Global, rhs: &T) -> Result<PrimitiveArray<T>, Error> {
        add_scalar(alloc, self, rhs)
    }
}

impl<T: ArrayNative> ArrayWrappingAdd<PrimitiveArray<T>> for PrimitiveArray<T> {
    ghost column = { column_of };

    ghost wrapped_sum = { beside_array addition wrapping T.whole_type };

    fn wrapping_add(
        &self,
        alloc: Global,
        rhs: &PrimitiveArray<T>,
    ) -> Result<PrimitiveArray<T>, Error> {
        wrapping_add(alloc, self, rhs)
    }
}

impl<T: ArrayNative> ArrayCheckedAdd<PrimitiveArray<T>> for PrimitiveArray<T> {
    ghost column = { column_of };

    ghost checked_sum = { beside_array addition checked T.whole_type };

    fn checked_add(
        &self,
        alloc: Global,
        rhs: &PrimitiveArray<T>,
    ) -> Result<PrimitiveArray<T>, Error> {
        checked_add(alloc, self, rhs)
    }
}

impl<T: ArrayNative> ArrayCheckedAdd<T> for PrimitiveArray<T> {
    ghost column = { column_of };

    ghost checked_sum = { beside_number addition checked T.whole_type T.value };

    fn checked_add(&self, alloc: Global, rhs: &T) -> Result<PrimitiveArray<T>, Error> {
        checked_add_scalar(alloc, self, rhs)
    }
}

impl<T: ArrayNative> ArraySaturatingAdd<PrimitiveArray<T>> for PrimitiveArray<T> {
    ghost column = { column_of };

    ghost saturated_sum = { beside_array addition saturating T.whole_type };

    fn saturating_add(
        &self,
        alloc: Global,
        rhs: &PrimitiveArray<T>,
    ) -> Result<PrimitiveArray<T>, Error> {
        saturating_add(alloc, self, rhs)
    }
}

impl<T: ArrayNative> ArraySaturatingAdd<T> for PrimitiveArray<T> {
    ghost column = { column_of };

    ghost saturated_sum = { beside_number addition saturating T.whole_type T.value };

    fn saturating_add(&self, alloc: Global, rhs: &T) -> Result<PrimitiveArray<T>, Error> {
        saturating_add_scalar(alloc, self, rhs)
    }
}

impl<T: ArrayNative> ArrayOverflowingAdd<PrimitiveArray<T>> for PrimitiveArray<T> {
    ghost column = { column_of };

    ghost flagged_sum = { flagged_beside_array addition T.whole_type };

    fn overflowing_add(
        &self,
        alloc: Global,
        rhs: &PrimitiveArray<T>,
    ) -> Result<(PrimitiveArray<T>, Bitmap), Error> {
        overflowing_add(alloc, self, rhs)
    }
}

impl<T: ArrayNative> ArrayOverflowingAdd<T> for PrimitiveArray<T> {
    ghost column = { column_of };

    ghost flagged_sum = { flagged_beside_number addition T.whole_type T.value };

    fn overflowing_add(
        &self,
        alloc: Global,
        rhs: &T,
    ) -> Result<(PrimitiveArray<T>, Bitmap), Error> {
        overflowing_add_scalar(alloc, self, rhs)
    }
}
