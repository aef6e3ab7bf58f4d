//! The calls with two operands, by which most checks of kernels go, and what they answer.
use col_basic::bitwise::{and, and_scalar, or, or_scalar, xor, xor_scalar};
use col_basic::{
    add, add_scalar, checked_add, checked_add_scalar, checked_div, checked_div_scalar, checked_mul,
    checked_mul_scalar, checked_rem, checked_rem_scalar, checked_sub, checked_sub_scalar, div,
    div_scalar, mul, mul_scalar, rem, rem_scalar, saturating_add, saturating_add_scalar,
    saturating_mul, saturating_mul_scalar, saturating_sub, saturating_sub_scalar, sub, sub_scalar,
    wrapping_add, wrapping_add_scalar, wrapping_mul, wrapping_mul_scalar, wrapping_sub,
    wrapping_sub_scalar,
};
use col_flat::PrimitiveArray;
use col_types::{DataType, Error, NativeArithmetics};
use std::alloc::Global;

pub(crate) type Bytes = PrimitiveArray<i8>;

pub(crate) type Slots<'a> = &'a [Option<i8>];

// A call on two arrays, and its twin on an array and a number.
#[derive(Clone, Copy, Debug)]
pub(crate) enum Call {
    Add,
    WrappingAdd,
    CheckedAdd,
    SaturatingAdd,
    Sub,
    WrappingSub,
    CheckedSub,
    SaturatingSub,
    Mul,
    WrappingMul,
    CheckedMul,
    SaturatingMul,
    Div,
    CheckedDiv,
    Rem,
    CheckedRem,
    Or,
    Xor,
    And,
}

pub(crate) fn bytes_of(alloc: Global, slots: Slots) -> Result<Bytes, Error> {
    PrimitiveArray::from_options(alloc, DataType::Int8, slots)
}

// What a call answers for two arrays.
pub(crate) fn of_two<T: NativeArithmetics>(
    alloc: Global,
    call: Call,
    lhs: &PrimitiveArray<T>,
    rhs: &PrimitiveArray<T>,
) -> Result<PrimitiveArray<T>, Error> {
    match call {
        Call::Add => add(alloc, lhs, rhs),
        Call::WrappingAdd => wrapping_add(alloc, lhs, rhs),
        Call::CheckedAdd => checked_add(alloc, lhs, rhs),
        Call::SaturatingAdd => saturating_add(alloc, lhs, rhs),
        Call::Sub => sub(alloc, lhs, rhs),
        Call::WrappingSub => wrapping_sub(alloc, lhs, rhs),
        Call::CheckedSub => checked_sub(alloc, lhs, rhs),
        Call::SaturatingSub => saturating_sub(alloc, lhs, rhs),
        Call::Mul => mul(alloc, lhs, rhs),
        Call::WrappingMul => wrapping_mul(alloc, lhs, rhs),
        Call::CheckedMul => checked_mul(alloc, lhs, rhs),
        Call::SaturatingMul => saturating_mul(alloc, lhs, rhs),
        Call::Div => div(alloc, lhs, rhs),
        Call::CheckedDiv => checked_div(alloc, lhs, rhs),
        Call::Rem => rem(alloc, lhs, rhs),
        Call::CheckedRem => checked_rem(alloc, lhs, rhs),
        Call::Or => or(alloc, lhs, rhs),
        Call::Xor => xor(alloc, lhs, rhs),
        Call::And => and(alloc, lhs, rhs),
    }
}

// What its twin answers for an array and a number.
fn of_number(alloc: Global, call: Call, lhs: &Bytes, rhs: i8) -> Result<Bytes, Error> {
    match call {
        Call::Add => add_scalar(alloc, lhs, &rhs),
        Call::WrappingAdd => wrapping_add_scalar(alloc, lhs, &rhs),
        Call::CheckedAdd => checked_add_scalar(alloc, lhs, &rhs),
        Call::SaturatingAdd => saturating_add_scalar(alloc, lhs, &rhs),
        Call::Sub => sub_scalar(alloc, lhs, &rhs),
        Call::WrappingSub => wrapping_sub_scalar(alloc, lhs, &rhs),
        Call::CheckedSub => checked_sub_scalar(alloc, lhs, &rhs),
        Call::SaturatingSub => saturating_sub_scalar(alloc, lhs, &rhs),
        Call::Mul => mul_scalar(alloc, lhs, &rhs),
        Call::WrappingMul => wrapping_mul_scalar(alloc, lhs, &rhs),
        Call::CheckedMul => checked_mul_scalar(alloc, lhs, &rhs),
        Call::SaturatingMul => saturating_mul_scalar(alloc, lhs, &rhs),
        Call::Div => div_scalar(alloc, lhs, &rhs),
        Call::CheckedDiv => checked_div_scalar(alloc, lhs, &rhs),
        Call::Rem => rem_scalar(alloc, lhs, &rhs),
        Call::CheckedRem => checked_rem_scalar(alloc, lhs, &rhs),
        Call::Or => or_scalar(alloc, lhs, &rhs),
        Call::Xor => xor_scalar(alloc, lhs, &rhs),
        Call::And => and_scalar(alloc, lhs, &rhs),
    }
}

// What a call answers for two arrays that were made.
pub(crate) fn of_made(
    alloc: Global,
    call: Call,
    lhs: Result<Bytes, Error>,
    rhs: Result<Bytes, Error>,
) -> Result<Bytes, Error> {
    match (lhs, rhs) {
        (Ok(lhs), Ok(rhs)) => of_two(alloc, call, &lhs, &rhs),
        _ => Err(Error::Memory),
    }
}

// What its twin answers for an array that was made, and a number.
pub(crate) fn of_made_and(
    alloc: Global,
    call: Call,
    lhs: Result<Bytes, Error>,
    rhs: i8,
) -> Result<Bytes, Error> {
    match lhs {
        Ok(lhs) => of_number(alloc, call, &lhs, rhs),
        Err(error) => Err(error),
    }
}

// Whether an array has these slots.
pub(crate) fn has_slots(alloc: Global, array: &Bytes, slots: Slots) -> bool {
    match bytes_of(alloc, slots) {
        Ok(wanted) => array.equal(&wanted),
        Err(_) => false,
    }
}

// Whether an answer is the wanted one: these slots, or this refusal.
pub(crate) fn is_wanted(
    alloc: Global,
    answer: Result<Bytes, Error>,
    wanted: Result<Slots, Error>,
) -> bool {
    match (answer, wanted) {
        (Ok(array), Ok(slots)) => has_slots(alloc, &array, slots),
        (Err(error), Err(refusal)) => error == refusal,
        _ => false,
    }
}

// Whether a call on two arrays of these slots answers as wanted.
pub(crate) fn two_answer(
    alloc: Global,
    call: Call,
    lhs: Slots,
    rhs: Slots,
    wanted: Result<Slots, Error>,
) -> bool {
    let lhs = bytes_of(alloc, lhs);
    let rhs = bytes_of(alloc, rhs);
    is_wanted(alloc, of_made(alloc, call, lhs, rhs), wanted)
}

// Whether its twin on an array of these slots and a number does.
pub(crate) fn number_answers(
    alloc: Global,
    call: Call,
    lhs: Slots,
    rhs: i8,
    wanted: Result<Slots, Error>,
) -> bool {
    let lhs = bytes_of(alloc, lhs);
    is_wanted(alloc, of_made_and(alloc, call, lhs, rhs), wanted)
}

// The refusal of its twin, where it refuses.
pub(crate) fn number_refusal(alloc: Global, call: Call, lhs: Slots, rhs: i8) -> Option<Error> {
    of_made_and(alloc, call, bytes_of(alloc, lhs), rhs).err()
}
