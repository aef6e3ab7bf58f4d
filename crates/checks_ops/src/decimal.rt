//! Checks of the operators of decimals, each at arrays of `Decimal(5, 2)` and by its trait. Numbers
//! are worked out by hand.
use col_flat::PrimitiveArray;
use col_ops::{
    ArrayAdd, ArrayCheckedAdd, ArrayCheckedDiv, ArrayCheckedMul, ArrayCheckedSub, ArrayDiv,
    ArrayMul, ArraySaturatingAdd, ArraySaturatingMul, ArraySaturatingSub, ArraySub,
};
use col_types::{DataType, Error};
use std::alloc::Global;

type Decimals = PrimitiveArray<i128>;

type Slots = [Option<i128>; 3];

#[derive(Clone, Copy, Debug)]
enum Operator {
    Add,
    CheckedAdd,
    SaturatingAdd,
    Sub,
    CheckedSub,
    SaturatingSub,
    Mul,
    CheckedMul,
    SaturatingMul,
    Div,
    CheckedDiv,
}

fn of_two(
    alloc: Global,
    operator: Operator,
    lhs: &Decimals,
    rhs: &Decimals,
) -> Result<Decimals, Error> {
    match operator {
        Operator::Add => lhs.add(alloc, rhs),
        Operator::CheckedAdd => lhs.checked_add(alloc, rhs),
        Operator::SaturatingAdd => lhs.saturating_add(alloc, rhs),
        Operator::Sub => lhs.sub(alloc, rhs),
        Operator::CheckedSub => lhs.checked_sub(alloc, rhs),
        Operator::SaturatingSub => lhs.saturating_sub(alloc, rhs),
        Operator::Mul => lhs.mul(alloc, rhs),
        Operator::CheckedMul => lhs.checked_mul(alloc, rhs),
        Operator::SaturatingMul => lhs.saturating_mul(alloc, rhs),
        Operator::Div => lhs.div(alloc, rhs),
        Operator::CheckedDiv => lhs.checked_div(alloc, rhs),
    }
}

fn decimals(alloc: Global, slots: Slots) -> Result<Decimals, Error> {
    PrimitiveArray::from_options(alloc, DataType::Decimal(5, 2), &slots)
}

// Whether the call answered these slots.
fn answers(alloc: Global, answer: Result<Decimals, Error>, wanted: Slots) -> bool {
    match (answer, decimals(alloc, wanted)) {
        (Ok(array), Ok(wanted)) => array.equal(&wanted),
        _ => false,
    }
}

// Whether an operator of two arrays of these slots answers as wanted.
fn two_answer(alloc: Global, operator: Operator, lhs: Slots, rhs: Slots, wanted: Slots) -> bool {
    match (decimals(alloc, lhs), decimals(alloc, rhs)) {
        (Ok(lhs), Ok(rhs)) => answers(alloc, of_two(alloc, operator, &lhs, &rhs), wanted),
        _ => false,
    }
}

#[test]
fn plain_operators_of_decimals_answer(rt: HostRuntime) {
    let lhs = [Some(150), None, Some(-9999)];
    let rhs = [Some(25), Some(0), Some(100)];
    let cases = [
        (Operator::Add, [Some(175), None, Some(-9899)]),
        (Operator::Sub, [Some(125), None, Some(-10099)]),
        (Operator::Mul, [Some(37), None, Some(-9999)]),
        (Operator::Div, [Some(600), None, Some(-9999)]),
    ];
    for (operator, wanted) in cases {
        assert!(rt;
            two_answer(rt.alloc(), operator, lhs, rhs, wanted),
            "{operator:?}"
        );
    }
}

#[test]
fn checked_operators_of_decimals_answer(rt: HostRuntime) {
    let lhs = [Some(99999), None, Some(-99999)];
    let rhs = [Some(101), Some(1), Some(-50)];
    let cases = [
        (Operator::CheckedAdd, [None, None, None]),
        (Operator::CheckedSub, [Some(99898), None, Some(-99949)]),
        (Operator::CheckedMul, [None, None, Some(49999)]),
        (Operator::CheckedDiv, [Some(99008), None, None]),
    ];
    for (operator, wanted) in cases {
        assert!(rt;
            two_answer(rt.alloc(), operator, lhs, rhs, wanted),
            "{operator:?}"
        );
    }
}

#[test]
fn saturating_operators_of_decimals_answer(rt: HostRuntime) {
    let lhs = [Some(99999), None, Some(-99999)];
    let rhs = [Some(101), Some(1), Some(500)];
    let cases = [
        (Operator::SaturatingAdd, [Some(99999), None, Some(-99499)]),
        (Operator::SaturatingSub, [Some(99898), None, Some(-99999)]),
        (Operator::SaturatingMul, [Some(99999), None, Some(-99999)]),
    ];
    for (operator, wanted) in cases {
        assert!(rt;
            two_answer(rt.alloc(), operator, lhs, rhs, wanted),
            "{operator:?}"
        );
    }
}
