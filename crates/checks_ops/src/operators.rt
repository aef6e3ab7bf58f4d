//! Checks of the operators, each at arrays of 8 bits and by its trait. Numbers are worked out by
//! hand.
use col_buf::Bitmap;
use col_flat::PrimitiveArray;
use col_ops::{
    ArrayAdd, ArrayCheckedAdd, ArrayCheckedDiv, ArrayCheckedMul, ArrayCheckedRem, ArrayCheckedSub,
    ArrayDiv, ArrayMul, ArrayOverflowingAdd, ArrayOverflowingMul, ArrayOverflowingSub, ArrayRem,
    ArraySaturatingAdd, ArraySaturatingMul, ArraySaturatingSub, ArraySub, ArrayWrappingAdd,
    ArrayWrappingMul, ArrayWrappingSub,
};
use col_types::{DataType, Error};
use std::alloc::Global;

type Bytes = PrimitiveArray<i8>;

type Slots = [Option<i8>; 3];

// The operators of two arrays that are those of an array and a number too.
#[derive(Clone, Copy, Debug)]
enum Operator {
    Add,
    CheckedAdd,
    SaturatingAdd,
    Sub,
    CheckedSub,
    SaturatingSub,
    Mul,
    CheckedMul,
    SaturatingMul,
    Div,
    CheckedDiv,
    Rem,
    CheckedRem,
}

fn of_two(alloc: Global, operator: Operator, lhs: &Bytes, rhs: &Bytes) -> Result<Bytes, Error> {
    match operator {
        Operator::Add => lhs.add(alloc, rhs),
        Operator::CheckedAdd => lhs.checked_add(alloc, rhs),
        Operator::SaturatingAdd => lhs.saturating_add(alloc, rhs),
        Operator::Sub => lhs.sub(alloc, rhs),
        Operator::CheckedSub => lhs.checked_sub(alloc, rhs),
        Operator::SaturatingSub => lhs.saturating_sub(alloc, rhs),
        Operator::Mul => lhs.mul(alloc, rhs),
        Operator::CheckedMul => lhs.checked_mul(alloc, rhs),
        Operator::SaturatingMul => lhs.saturating_mul(alloc, rhs),
        Operator::Div => lhs.div(alloc, rhs),
        Operator::CheckedDiv => lhs.checked_div(alloc, rhs),
        Operator::Rem => lhs.rem(alloc, rhs),
        Operator::CheckedRem => lhs.checked_rem(alloc, rhs),
    }
}

fn of_number(alloc: Global, operator: Operator, lhs: &Bytes, rhs: i8) -> Result<Bytes, Error> {
    match operator {
        Operator::Add => lhs.add(alloc, &rhs),
        Operator::CheckedAdd => lhs.checked_add(alloc, &rhs),
        Operator::SaturatingAdd => lhs.saturating_add(alloc, &rhs),
        Operator::Sub => lhs.sub(alloc, &rhs),
        Operator::CheckedSub => lhs.checked_sub(alloc, &rhs),
        Operator::SaturatingSub => lhs.saturating_sub(alloc, &rhs),
        Operator::Mul => lhs.mul(alloc, &rhs),
        Operator::CheckedMul => lhs.checked_mul(alloc, &rhs),
        Operator::SaturatingMul => lhs.saturating_mul(alloc, &rhs),
        Operator::Div => lhs.div(alloc, &rhs),
        Operator::CheckedDiv => lhs.checked_div(alloc, &rhs),
        Operator::Rem => lhs.rem(alloc, &rhs),
        Operator::CheckedRem => lhs.checked_rem(alloc, &rhs),
    }
}

fn bytes_of(alloc: Global, slots: Slots) -> Result<Bytes, Error> {
    PrimitiveArray::from_options(alloc, DataType::Int8, &slots)
}

// Whether the call answered these slots.
fn answers(alloc: Global, answer: Result<Bytes, Error>, wanted: Slots) -> bool {
    match (answer, bytes_of(alloc, wanted)) {
        (Ok(array), Ok(wanted)) => array.equal(&wanted),
        _ => false,
    }
}

// Whether an operator of two arrays of these slots answers as wanted.
fn two_answer(alloc: Global, operator: Operator, lhs: Slots, rhs: Slots, wanted: Slots) -> bool {
    match (bytes_of(alloc, lhs), bytes_of(alloc, rhs)) {
        (Ok(lhs), Ok(rhs)) => answers(alloc, of_two(alloc, operator, &lhs, &rhs), wanted),
        _ => false,
    }
}

// The same of an array of these slots and a number.
fn number_answers(alloc: Global, operator: Operator, lhs: Slots, rhs: i8, wanted: Slots) -> bool {
    match bytes_of(alloc, lhs) {
        Ok(lhs) => answers(alloc, of_number(alloc, operator, &lhs, rhs), wanted),
        Err(_) => false,
    }
}

#[test]
fn plain_operators_answer_with_ample_memory(rt: HostRuntime) {
    let lhs = [Some(7), None, Some(-30)];
    let rhs = [Some(2), Some(1), Some(4)];
    // the answer for two arrays, and for the left one and 4
    let cases = [
        (
            Operator::Add,
            [Some(9), None, Some(-26)],
            [Some(11), None, Some(-26)],
        ),
        (
            Operator::Sub,
            [Some(5), None, Some(-34)],
            [Some(3), None, Some(-34)],
        ),
        (
            Operator::Mul,
            [Some(14), None, Some(-120)],
            [Some(28), None, Some(-120)],
        ),
        (
            Operator::Div,
            [Some(3), None, Some(-7)],
            [Some(1), None, Some(-7)],
        ),
        (
            Operator::Rem,
            [Some(1), None, Some(-2)],
            [Some(3), None, Some(-2)],
        ),
    ];
    for (operator, two, number) in cases {
        assert!(rt;
            two_answer(rt.alloc(), operator, lhs, rhs, two),
            "{operator:?}"
        );
        assert!(rt;
            number_answers(rt.alloc(), operator, lhs, 4, number),
            "{operator:?} of 4"
        );
    }
}

#[test]
fn other_operators_of_two_arrays_answer_with_ample_memory(rt: HostRuntime) {
    // of 100 and -100: 0, 200 and -10000
    let lhs = [Some(100), None, Some(7)];
    let rhs = [Some(-100), Some(1), Some(0)];
    let cases = [
        (Operator::CheckedAdd, [Some(0), None, Some(7)]),
        (Operator::CheckedSub, [None, None, Some(7)]),
        (Operator::CheckedMul, [None, None, Some(0)]),
        (Operator::CheckedDiv, [Some(-1), None, None]),
        (Operator::CheckedRem, [Some(0), None, None]),
        (Operator::SaturatingAdd, [Some(0), None, Some(7)]),
        (Operator::SaturatingSub, [Some(127), None, Some(7)]),
        (Operator::SaturatingMul, [Some(-128), None, Some(0)]),
    ];
    for (operator, wanted) in cases {
        assert!(rt;
            two_answer(rt.alloc(), operator, lhs, rhs, wanted),
            "{operator:?}"
        );
    }
}

#[test]
fn other_operators_of_an_array_and_a_number_answer_with_ample_memory(rt: HostRuntime) {
    // of -128 and -1: -129, -127 and 128, and the quotient 128
    let lhs = [Some(-128), None, Some(7)];
    let cases = [
        (Operator::CheckedAdd, [None, None, Some(6)]),
        (Operator::CheckedSub, [Some(-127), None, Some(8)]),
        (Operator::CheckedMul, [None, None, Some(-7)]),
        (Operator::CheckedDiv, [None, None, Some(-7)]),
        (Operator::CheckedRem, [None, None, Some(0)]),
        (Operator::SaturatingAdd, [Some(-128), None, Some(6)]),
        (Operator::SaturatingSub, [Some(-127), None, Some(8)]),
        (Operator::SaturatingMul, [Some(127), None, Some(-7)]),
    ];
    for (operator, wanted) in cases {
        assert!(rt;
            number_answers(rt.alloc(), operator, lhs, -1, wanted),
            "{operator:?}"
        );
    }
}

// The operators of two arrays alone that wrap, and those that tell flags.
#[derive(Clone, Copy, Debug)]
enum Step {
    Add,
    Sub,
    Mul,
}

fn wrapped(alloc: Global, step: Step, lhs: &Bytes, rhs: &Bytes) -> Result<Bytes, Error> {
    match step {
        Step::Add => lhs.wrapping_add(alloc, rhs),
        Step::Sub => lhs.wrapping_sub(alloc, rhs),
        Step::Mul => lhs.wrapping_mul(alloc, rhs),
    }
}

fn flagged(alloc: Global, step: Step, lhs: &Bytes, rhs: &Bytes) -> Result<(Bytes, Bitmap), Error> {
    match step {
        Step::Add => lhs.overflowing_add(alloc, rhs),
        Step::Sub => lhs.overflowing_sub(alloc, rhs),
        Step::Mul => lhs.overflowing_mul(alloc, rhs),
    }
}

fn flagged_with(alloc: Global, step: Step, lhs: &Bytes, rhs: i8) -> Result<(Bytes, Bitmap), Error> {
    match step {
        Step::Add => lhs.overflowing_add(alloc, &rhs),
        Step::Sub => lhs.overflowing_sub(alloc, &rhs),
        Step::Mul => lhs.overflowing_mul(alloc, &rhs),
    }
}

// Whether the call answered these slots, and a true flag for the first row alone.
fn is_flagged(alloc: Global, answer: Result<(Bytes, Bitmap), Error>, wanted: Slots) -> bool {
    match answer {
        Ok((array, flags)) => {
            let has_flags = flags.len() == 3 && flags.get_bit(0) && flags.unset_bits() == 2;
            has_flags && answers(alloc, Ok(array), wanted)
        }
        Err(_) => false,
    }
}

// Whether both operators of two arrays answer these slots, and the flags of the first row alone.
fn both_answer(alloc: Global, step: Step, lhs: Slots, rhs: Slots, wanted: Slots) -> [bool; 2] {
    match (bytes_of(alloc, lhs), bytes_of(alloc, rhs)) {
        (Ok(lhs), Ok(rhs)) => [
            answers(alloc, wrapped(alloc, step, &lhs, &rhs), wanted),
            is_flagged(alloc, flagged(alloc, step, &lhs, &rhs), wanted),
        ],
        _ => [false; 2],
    }
}

// Whether the operator of an array and a number answers them.
fn number_is_flagged(alloc: Global, step: Step, lhs: Slots, rhs: i8, wanted: Slots) -> bool {
    match bytes_of(alloc, lhs) {
        Ok(lhs) => is_flagged(alloc, flagged_with(alloc, step, &lhs, rhs), wanted),
        Err(_) => false,
    }
}

#[test]
fn wrapping_and_overflowing_operators_answer_with_ample_memory(rt: HostRuntime) {
    // 200, 200 and 10000
    let lhs = [Some(100), None, Some(1)];
    let cases = [
        (
            Step::Add,
            [Some(100), Some(1), Some(1)],
            [Some(-56), None, Some(2)],
        ),
        (
            Step::Sub,
            [Some(-100), Some(1), Some(1)],
            [Some(-56), None, Some(0)],
        ),
        (
            Step::Mul,
            [Some(100), Some(1), Some(1)],
            [Some(16), None, Some(1)],
        ),
    ];
    for (step, rhs, wanted) in cases {
        assert_eq!(rt;
            both_answer(rt.alloc(), step, lhs, rhs, wanted),
            [true; 2],
            "{step:?}"
        );
    }
}

#[test]
fn overflowing_operators_with_a_number_answer_with_ample_memory(rt: HostRuntime) {
    let lhs = [Some(100), None, Some(1)];
    let cases = [
        (Step::Add, 100, [Some(-56), None, Some(101)]),
        (Step::Sub, -100, [Some(-56), None, Some(101)]),
        (Step::Mul, 100, [Some(16), None, Some(100)]),
    ];
    for (step, rhs, wanted) in cases {
        assert!(rt;
            number_is_flagged(rt.alloc(), step, lhs, rhs, wanted),
            "{step:?} of {rhs}"
        );
    }
}

// The slot of an array of one slot.
fn lone(answer: Result<PrimitiveArray<u64>, Error>) -> Result<Option<u64>, Error> {
    match answer {
        Ok(array) if array.len() == 1 => Ok(array.get(0)),
        Ok(_) => Err(Error::OutOfSpec),
        Err(error) => Err(error),
    }
}

// The clamped sum of a number and itself.
fn clamped_double(alloc: Global, number: u64) -> Result<Option<u64>, Error> {
    match PrimitiveArray::from_options(alloc, DataType::UInt64, &[Some(number)]) {
        Ok(array) => lone(array.saturating_add(alloc, &array)),
        Err(error) => Err(error),
    }
}

#[test]
fn operators_take_unsigned_numbers(rt: HostRuntime) {
    let sum = clamped_double(rt.alloc(), u64::MAX);
    assert_eq!(rt; sum, Ok(Some(u64::MAX)), "past 64 bits");
}
