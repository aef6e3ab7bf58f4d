//! Checks of the adaptive form, row by row. The tables are worked out by Python's integers;
//! arrow2's own vectors are among them.
use crate::arrays::{Decimals, Slots, Step, decimals, told};
use col_buf::{Bitmap, Buffer};
use col_flat::PrimitiveArray;
use col_types::{DataType, Error, Reason};
use std::alloc::Global;

// The greatest number of 38 digits.
const MOST: i128 = 99999999999999999999999999999999999999;

// Precision, scale and stored number.
type Decimal = (usize, usize, i128);

// A step on two decimals, and its answer.
const ANSWERS: [(Step, Decimal, Decimal, Decimal); 23] = [
    (Step::Add, (5, 0, 99999), (5, 0, 1), (6, 0, 100000)),
    (
        Step::Add,
        (6, 4, 111111),
        (7, 2, 1111111),
        (9, 4, 111222211),
    ),
    (Step::Add, (5, 4, 1111), (6, 1, 111110), (9, 4, 111111111)),
    (
        Step::Add,
        (7, 2, 1111111),
        (8, 3, 11111111),
        (8, 3, 22222221),
    ),
    (Step::Add, (6, 4, 999999), (6, 4, 1), (7, 4, 1000000)),
    (
        Step::Sub,
        (6, 4, 111111),
        (7, 2, 1111111),
        (9, 4, -110999989),
    ),
    (Step::Sub, (6, 1, 111110), (5, 4, 1111), (9, 4, 111108889)),
    (Step::Sub, (7, 2, 1111111), (8, 3, 11111111), (8, 3, -1)),
    (Step::Sub, (6, 4, 999999), (6, 4, -1), (7, 4, 1000000)),
    (Step::Mul, (7, 2, 100000), (6, 4, 100000), (9, 4, 100000000)),
    (Step::Mul, (6, 1, 111110), (5, 3, 10002), (9, 3, 111132222)),
    (Step::Mul, (6, 1, 10), (5, 3, 2000), (8, 3, 2000)),
    (Step::Div, (7, 2, 100000), (6, 4, 100000), (9, 4, 1000000)),
    (Step::Div, (6, 4, -100000), (7, 2, 300), (9, 4, -33333)),
    (Step::Add, (38, 0, MOST), (38, 0, 0), (38, 0, MOST)),
    (Step::Mul, (5, 2, -9), (5, 2, 9), (5, 2, 0)),
    (Step::Sub, (6, 4, -999999), (6, 4, 1), (7, 4, -1000000)),
    (Step::Mul, (5, 3, 2000), (6, 1, 10), (8, 3, 2000)),
    (Step::Add, (38, 0, -MOST), (38, 0, 0), (38, 0, -MOST)),
    (Step::Sub, (38, 0, MOST), (38, 0, 0), (38, 0, MOST)),
    (Step::Mul, (38, 0, MOST), (38, 0, 1), (38, 0, MOST)),
    (Step::Div, (38, 0, MOST), (38, 0, 1), (38, 0, MOST)),
    (Step::Mul, (38, 0, -MOST), (38, 0, 1), (38, 0, -MOST)),
];

// Steps that are refused, and why.
const REFUSALS: [(Step, Decimal, Decimal, Error); 22] = [
    (Step::Add, (38, 38, 1), (38, 0, 1), PARAMETERS),
    (Step::Add, (20, 19, 0), (37, 0, 0), PARAMETERS),
    (Step::Div, (5, 2, i128::MAX), (5, 3, 0), Error::DivideByZero),
    (Step::Add, (38, 0, MOST), (38, 0, 1), Error::Overflow),
    (Step::Add, (38, 0, i128::MAX), (38, 0, 1), Error::Overflow),
    (Step::Sub, (5, 2, i128::MAX), (5, 3, 0), Error::Overflow),
    (Step::Sub, (5, 2, 0), (5, 3, i128::MIN), Error::Overflow),
    (Step::Mul, (38, 0, -MOST), (38, 0, MOST), Error::Overflow),
    (Step::Div, (5, 2, i128::MAX), (5, 3, 1), Error::Overflow),
    (Step::Div, (5, 3, 1), (5, 2, i128::MAX), Error::Overflow),
    (
        Step::Div,
        (19, 0, 1000000000000000000),
        (19, 19, 10000000000000000000),
        Error::Overflow,
    ),
    (Step::Div, (38, 0, i128::MIN), (1, 0, -1), Error::Overflow),
    (Step::Add, (38, 0, 0), (2, 1, 0), PARAMETERS),
    (Step::Add, (38, 0, 0), (38, 38, 0), PARAMETERS),
    (Step::Sub, (38, 0, MOST), (38, 0, -1), Error::Overflow),
    (
        Step::Mul,
        (38, 0, 10000000000000000000),
        (38, 0, 10000000000000000000),
        Error::Overflow,
    ),
    (
        Step::Add,
        (38, 0, i128::MAX),
        (38, 0, i128::MAX),
        Error::Overflow,
    ),
    (
        Step::Sub,
        (38, 0, i128::MAX),
        (38, 0, i128::MIN),
        Error::Overflow,
    ),
    (
        Step::Mul,
        (38, 19, 20000000000000000000),
        (38, 19, 20000000000000000000),
        Error::Overflow,
    ),
    (Step::Mul, (38, 0, i128::MIN), (38, 0, -1), Error::Overflow),
    (
        Step::Mul,
        (38, 0, i128::MAX),
        (38, 0, i128::MAX),
        Error::Overflow,
    ),
    (
        Step::Sub,
        (5, 2, i128::MAX),
        (5, 3, i128::MAX),
        Error::Overflow,
    ),
];

const PARAMETERS: Error = Error::InvalidArgumentError(Reason::Parameters);

// What a step answers for two decimals.
fn answer(
    alloc: Global,
    step: Step,
    left: Decimal,
    right: Decimal,
) -> Result<(usize, usize, Option<i128>), Error> {
    let lhs = decimals(alloc, left.0, left.1, &[Some(left.2)])?;
    let rhs = decimals(alloc, right.0, right.1, &[Some(right.2)])?;
    told(step.adaptive(alloc, &lhs, &rhs))
}

#[test]
fn each_adaptive_call_answers_with_ample_memory(rt: HostRuntime) {
    for (step, left, right, wanted) in ANSWERS {
        let told = answer(rt.alloc(), step, left, right);
        let wanted = (wanted.0, wanted.1, Some(wanted.2));
        assert_eq!(rt; told, Ok(wanted), "{step:?} of {left:?} and {right:?}");
    }
}

#[test]
fn what_passes_128_bits_or_38_digits_is_refused(rt: HostRuntime) {
    for (step, left, right, wanted) in REFUSALS {
        let told = answer(rt.alloc(), step, left, right);
        assert_eq!(rt; told, Err(wanted), "{step:?} of {left:?} and {right:?}");
    }
}

// Two decimals of five digits, of which the first is null, whatever is stored there.
fn beneath_a_null(alloc: Global, values: &[i128]) -> Result<Decimals, Error> {
    let mask = Bitmap::from_bools(alloc, &[false, true])?;
    match Buffer::from_vec(alloc, Vec::from_slice(alloc, values)?) {
        Ok(values) => PrimitiveArray::try_new(DataType::Decimal(5, 0), values, Some(mask)),
        Err(refused) => Err(refused.0),
    }
}

// Whether two decimals, the first of them null, plus 1 give null and this number, of a precision.
fn is_sum(alloc: Global, values: &[i128], precision: usize, sum: i128) -> Result<bool, Error> {
    let lhs = beneath_a_null(alloc, values)?;
    let ones = decimals(alloc, 5, 0, &[Some(1), Some(1)])?;
    let wanted = decimals(alloc, precision, 0, &[None, Some(sum)])?;
    let answer = Step::Add.adaptive(alloc, &lhs, &ones)?;
    Ok(answer.equal(&wanted))
}

#[test]
fn what_lies_beneath_a_null_tells_no_precision(rt: HostRuntime) {
    let told = is_sum(rt.alloc(), &[99999, 1], 5, 2);
    assert_eq!(rt; told, Ok(true), "99999 beneath a null");
    let told = is_sum(rt.alloc(), &[i128::MAX, 99999], 6, 100000);
    assert_eq!(rt; told, Ok(true), "the greatest number beneath a null");
}

// The precision of the sum of two columns of five digits.
fn sum_precision(alloc: Global, lhs: Slots, rhs: Slots) -> Result<usize, Error> {
    let lhs = decimals(alloc, 5, 0, lhs)?;
    let rhs = decimals(alloc, 5, 0, rhs)?;
    let answer = Step::Add.adaptive(alloc, &lhs, &rhs)?;
    match answer.data_type() {
        DataType::Decimal(precision, _) => Ok(*precision),
        _ => Err(Error::OutOfSpec),
    }
}

#[test]
fn the_longest_sum_tells_the_precision_in_any_row(rt: HostRuntime) {
    let ones = [Some(1), Some(1)];
    let first = sum_precision(rt.alloc(), &[Some(99999), Some(1)], &ones);
    assert_eq!(rt; first, Ok(6), "in the first row");
    let last = sum_precision(rt.alloc(), &[Some(1), Some(99999)], &ones);
    assert_eq!(rt; last, Ok(6), "in the last row");
    let none = sum_precision(rt.alloc(), &[None, None], &ones);
    assert_eq!(rt; none, Ok(5), "in no row");
    let refusal = sum_precision(rt.alloc(), &[None], &ones);
    let lengths = Error::InvalidArgumentError(Reason::Lengths);
    assert_eq!(rt; refusal, Err(lengths), "one row and two");
}

#[test]
fn rows_of_two_types_get_one(rt: HostRuntime) -> Result<(), Error> {
    let alloc = rt.alloc();
    let lhs = decimals(alloc, 6, 1, &[Some(111110), Some(10)])?;
    let rhs = decimals(alloc, 5, 3, &[Some(10002), Some(2000)])?;
    let wanted = decimals(alloc, 9, 3, &[Some(111132222), Some(2000)])?;
    let products = Step::Mul.adaptive(alloc, &lhs, &rhs)?;
    assert!(rt;
        products.equal(&wanted),
        "11111.0 by 10.002, and 1.0 by 2.000"
    );
    Ok(())
}
