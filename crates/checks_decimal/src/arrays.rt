//! Arrays of decimals, and the calls by which they are checked.
use col_decimal::{
    adaptive_add, adaptive_div, adaptive_mul, adaptive_sub, add, add_scalar, checked_add,
    checked_div, checked_mul, checked_sub, div, div_scalar, mul, mul_scalar, saturating_add,
    saturating_div, saturating_mul, saturating_sub, sub, sub_scalar,
};
use col_flat::{PrimitiveArray, PrimitiveScalar};
use col_types::{DataType, Error};
use std::alloc::Global;

pub(crate) type Decimals = PrimitiveArray<i128>;

pub(crate) type Slots<'a> = &'a [Option<i128>];

// The parameters of an answer and its one slot, or its refusal.
pub(crate) type Answer = Result<(usize, usize, Option<i128>), Error>;

pub(crate) fn decimals(
    alloc: Global,
    precision: usize,
    scale: usize,
    slots: Slots,
) -> Result<Decimals, Error> {
    PrimitiveArray::from_options(alloc, DataType::Decimal(precision, scale), slots)
}

// The parameters of an answer and its slot, which is its only one.
pub(crate) fn told(answer: Result<Decimals, Error>) -> Answer {
    let answer = answer?;
    if answer.len() != 1 {
        return Err(Error::OutOfSpec);
    }
    match answer.data_type() {
        DataType::Decimal(precision, scale) => Ok((*precision, *scale, answer.get(0))),
        _ => Err(Error::OutOfSpec),
    }
}

// What is worked out.
#[derive(Clone, Copy, Debug, PartialEq)]
pub(crate) enum Step {
    Add,
    Sub,
    Mul,
    Div,
}

impl Step {
    pub(crate) fn plain(
        self,
        alloc: Global,
        lhs: &Decimals,
        rhs: &Decimals,
    ) -> Result<Decimals, Error> {
        match self {
            Step::Add => add(alloc, lhs, rhs),
            Step::Sub => sub(alloc, lhs, rhs),
            Step::Mul => mul(alloc, lhs, rhs),
            Step::Div => div(alloc, lhs, rhs),
        }
    }

    pub(crate) fn scalar(
        self,
        alloc: Global,
        lhs: &Decimals,
        rhs: &PrimitiveScalar<i128>,
    ) -> Result<Decimals, Error> {
        match self {
            Step::Add => add_scalar(alloc, lhs, rhs),
            Step::Sub => sub_scalar(alloc, lhs, rhs),
            Step::Mul => mul_scalar(alloc, lhs, rhs),
            Step::Div => div_scalar(alloc, lhs, rhs),
        }
    }

    pub(crate) fn checked(
        self,
        alloc: Global,
        lhs: &Decimals,
        rhs: &Decimals,
    ) -> Result<Decimals, Error> {
        match self {
            Step::Add => checked_add(alloc, lhs, rhs),
            Step::Sub => checked_sub(alloc, lhs, rhs),
            Step::Mul => checked_mul(alloc, lhs, rhs),
            Step::Div => checked_div(alloc, lhs, rhs),
        }
    }

    pub(crate) fn saturating(
        self,
        alloc: Global,
        lhs: &Decimals,
        rhs: &Decimals,
    ) -> Result<Decimals, Error> {
        match self {
            Step::Add => saturating_add(alloc, lhs, rhs),
            Step::Sub => saturating_sub(alloc, lhs, rhs),
            Step::Mul => saturating_mul(alloc, lhs, rhs),
            Step::Div => saturating_div(alloc, lhs, rhs),
        }
    }

    pub(crate) fn adaptive(
        self,
        alloc: Global,
        lhs: &Decimals,
        rhs: &Decimals,
    ) -> Result<Decimals, Error> {
        match self {
            Step::Add => adaptive_add(alloc, lhs, rhs),
            Step::Sub => adaptive_sub(alloc, lhs, rhs),
            Step::Mul => adaptive_mul(alloc, lhs, rhs),
            Step::Div => adaptive_div(alloc, lhs, rhs),
        }
    }
}
