//! The operators of arrays of decimals.
ghost use Rattle.col_decimal.specs.DecimalStep.{addition, checked, division, multiplication, plain};
ghost use Rattle.col_decimal.specs.DecimalStep.{saturating, subtraction};
ghost use Rattle.col_flat.specs.Parts.{column_of};
ghost use Rattle.col_ops.specs.Operators.{beside_decimals};

use crate::traits::{
    ArrayAdd, ArrayCheckedAdd, ArrayCheckedDiv, ArrayCheckedMul, ArrayCheckedSub, ArrayDiv,
    ArrayMul, ArraySaturatingAdd, ArraySaturatingMul, ArraySaturatingSub, ArraySub,
};
use col_decimal::{
    add, checked_add, checked_div, checked_mul, checked_sub, div, mul, saturating_add,
    saturating_mul, saturating_sub, sub,
};
use col_flat::PrimitiveArray;
use col_types::Error;
use std::alloc::Global;

type Decimals = PrimitiveArray<i128>;

impl ArrayAdd<Decimals> for Decimals {
    ghost column = { column_of };

    ghost sum_answer = { beside_decimals addition plain };

    fn add(&self, alloc: Global, rhs: &Decimals) -> Result<Decimals, Error> {
        add(alloc, self, rhs)
    }
}

impl ArrayCheckedAdd<Decimals> for Decimals {
    ghost column = { column_of };

    ghost checked_sum = { beside_decimals addition checked };

    fn checked_add(&self, alloc: Global, rhs: &Decimals) -> Result<Decimals, Error> {
        checked_add(alloc, self, rhs)
    }
}

impl ArraySaturatingAdd<Decimals> for Decimals {
    ghost column = { column_of };

    ghost saturated_sum = { beside_decimals addition saturating };

    fn saturating_add(&self, alloc: Global, rhs: &Decimals) -> Result<Decimals, Error> {
        saturating_add(alloc, self, rhs)
    }
}

impl ArraySub<Decimals> for Decimals {
    ghost column = { column_of };

    ghost difference_answer = { beside_decimals subtraction plain };

    fn sub(&self, alloc: Global, rhs: &Decimals) -> Result<Decimals, Error> {
        sub(alloc, self, rhs)
    }
}

impl ArrayCheckedSub<Decimals> for Decimals {
    ghost column = { column_of };

    ghost checked_difference = { beside_decimals subtraction checked };

    fn checked_sub(&self, alloc: Global, rhs: &Decimals) -> Result<Decimals, Error> {
        checked_sub(alloc, self, rhs)
    }
}

impl ArraySaturatingSub<Decimals> for Decimals {
    ghost column = { column_of };

    ghost saturated_difference = { beside_decimals subtraction saturating };

    fn saturating_sub(&self, alloc: Global, rhs: &Decimals) -> Result<Decimals, Error> {
        saturating_sub(alloc, self, rhs)
    }
}

impl ArrayMul<Decimals> for Decimals {
    ghost column = { column_of };

    ghost product_answer = { beside_decimals multiplication plain };

    fn mul(&self, alloc: Global, rhs: &Decimals) -> Result<Decimals, Error> {
        mul(alloc, self, rhs)
    }
}

impl ArrayCheckedMul<Decimals> for Decimals {
    ghost column = { column_of };

    ghost checked_product = { beside_decimals multiplication checked };

    fn checked_mul(&self, alloc: Global, rhs: &Decimals) -> Result<Decimals, Error> {
        checked_mul(alloc, self, rhs)
    }
}

impl ArraySaturatingMul<Decimals> for Decimals {
    ghost column = { column_of };

    ghost saturated_product = { beside_decimals multiplication saturating };

    fn saturating_mul(&self, alloc: Global, rhs: &Decimals) -> Result<Decimals, Error> {
        saturating_mul(alloc, self, rhs)
    }
}

impl ArrayDiv<Decimals> for Decimals {
    ghost column = { column_of };

    ghost quotient_answer = { beside_decimals division plain };

    fn div(&self, alloc: Global, rhs: &Decimals) -> Result<Decimals, Error> {
        div(alloc, self, rhs)
    }
}

impl ArrayCheckedDiv<Decimals> for Decimals {
    ghost column = { column_of };

    ghost checked_quotient = { beside_decimals division checked };

    fn checked_div(&self, alloc: Global, rhs: &Decimals) -> Result<Decimals, Error> {
        checked_div(alloc, self, rhs)
    }
}
