//! Products of arrays of whole numbers.
ghost use Rattle.col_model.specs.WholeStep.{checked, multiplication, plain, saturating, wrapping};
ghost use Rattle.col_flat.specs.Parts.{column_of};
ghost use Rattle.col_ops.specs.Operators.{beside_array, beside_number};
ghost use Rattle.col_ops.specs.Operators.{flagged_beside_array, flagged_beside_number};

use crate::traits::{
    ArrayCheckedMul, ArrayMul, ArrayOverflowingMul, ArraySaturatingMul, ArrayWrappingMul,
};
use crate::whole::ArrayNative;
use col_basic::{
    checked_mul, checked_mul_scalar, mul, mul_scalar, overflowing_mul, overflowing_mul_scalar,
    saturating_mul, saturating_mul_scalar, wrapping_mul,
};
use col_buf::Bitmap;
use col_flat::PrimitiveArray;
use col_types::Error;
use std::alloc::Global;

impl<T: ArrayNative> ArrayMul<PrimitiveArray<T>> for PrimitiveArray<T> {
    ghost column = { column_of };

    ghost product_answer = { beside_array multiplication plain T.whole_type };

    fn mul(&self, alloc: Global, rhs: &PrimitiveArray<T>) -> Result<PrimitiveArray<T>, Error> {
        mul(alloc, self, rhs)
    }
}

impl<T: ArrayNative> ArrayMul<T> for PrimitiveArray<T> {
    ghost column = { column_of };

    ghost product_answer = { beside_number multiplication plain T.whole_type T.value };

    fn mul(&self, alloc: Global, rhs: &T) -> Result<PrimitiveArray<T>, Error> {
        mul_scalar(alloc, self, rhs)
    }
}

impl<T: ArrayNative> ArrayWrappingMul<PrimitiveArray<T>> for PrimitiveArray<T> {
    ghost column = { column_of };

    ghost wrapped_product = { beside_array multiplication wrapping T.whole_type };

    fn wrapping_mul(
        &self,
        alloc: Global,
        rhs: &PrimitiveArray<T>,
    ) -> Result<PrimitiveArray<T>, Error> {
        wrapping_mul(alloc, self, rhs)
    }
}

impl<T: ArrayNative> ArrayCheckedMul<PrimitiveArray<T>> for PrimitiveArray<T> {
    ghost column = { column_of };

    ghost checked_product = { beside_array multiplication checked T.whole_type };

    fn checked_mul(
        &self,
        alloc: Global,
        rhs: &PrimitiveArray<T>,
    ) -> Result<PrimitiveArray<T>, Error> {
        checked_mul(alloc, self, rhs)
    }
}

impl<T: ArrayNative> ArrayCheckedMul<T> for PrimitiveArray<T> {
    ghost column = { column_of };

    ghost checked_product = { beside_number multiplication checked T.whole_type T.value };

    fn checked_mul(&self, alloc: Global, rhs: &T) -> Result<PrimitiveArray<T>, Error> {
        checked_mul_scalar(alloc, self, rhs)
    }
}

impl<T: ArrayNative> ArraySaturatingMul<PrimitiveArray<T>> for PrimitiveArray<T> {
    ghost column = { column_of };

    ghost saturated_product = { beside_array multiplication saturating T.whole_type };

    fn saturating_mul(
        &self,
        alloc: Global,
        rhs: &PrimitiveArray<T>,
    ) -> Result<PrimitiveArray<T>, Error> {
        saturating_mul(alloc, self, rhs)
    }
}

impl<T: ArrayNative> ArraySaturatingMul<T> for PrimitiveArray<T> {
    ghost column = { column_of };

    ghost saturated_product = { beside_number multiplication saturating T.whole_type T.value };

    fn saturating_mul(&self, alloc: Global, rhs: &T) -> Result<PrimitiveArray<T>, Error> {
        saturating_mul_scalar(alloc, self, rhs)
    }
}

impl<T: ArrayNative> ArrayOverflowingMul<PrimitiveArray<T>> for PrimitiveArray<T> {
    ghost column = { column_of };

    ghost flagged_product = { flagged_beside_array multiplication T.whole_type };

    fn overflowing_mul(
        &self,
        alloc: Global,
        rhs: &PrimitiveArray<T>,
    ) -> Result<(PrimitiveArray<T>, Bitmap), Error> {
        overflowing_mul(alloc, self, rhs)
    }
}

impl<T: ArrayNative> ArrayOverflowingMul<T> for PrimitiveArray<T> {
    ghost column = { column_of };

    ghost flagged_product = { flagged_beside_number multiplication T.whole_type T.value };

    fn overflowing_mul(
        &self,
        alloc: Global,
        rhs: &T,
    ) -> Result<(PrimitiveArray<T>, Bitmap), Error> {
        overflowing_mul_scalar(alloc, self, rhs)
    }
}
