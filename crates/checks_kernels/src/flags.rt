//! Checks of the overflowing forms: each call once.
use crate::calls::{Bytes, Slots, bytes_of, has_slots};
use col_basic::{
    overflowing_add, overflowing_add_scalar, overflowing_mul, overflowing_mul_scalar,
    overflowing_sub, overflowing_sub_scalar,
};
use col_buf::Bitmap;
use col_types::{Error, Reason};
use std::alloc::Global;

// A call on two arrays, and its twin on an array and a number.
#[derive(Clone, Copy, Debug)]
enum Flagged {
    Add,
    Sub,
    Mul,
}

fn of_two(
    alloc: Global,
    call: Flagged,
    lhs: &Bytes,
    rhs: &Bytes,
) -> Result<(Bytes, Bitmap), Error> {
    match call {
        Flagged::Add => overflowing_add(alloc, lhs, rhs),
        Flagged::Sub => overflowing_sub(alloc, lhs, rhs),
        Flagged::Mul => overflowing_mul(alloc, lhs, rhs),
    }
}

fn of_number(alloc: Global, call: Flagged, lhs: &Bytes, rhs: i8) -> Result<(Bytes, Bitmap), Error> {
    match call {
        Flagged::Add => overflowing_add_scalar(alloc, lhs, &rhs),
        Flagged::Sub => overflowing_sub_scalar(alloc, lhs, &rhs),
        Flagged::Mul => overflowing_mul_scalar(alloc, lhs, &rhs),
    }
}

// How a call answers.
#[derive(Clone, Copy, Debug, PartialEq)]
enum Answer {
    Flags([bool; 2]),
    OtherSlots,
    Refused(Error),
}

fn flags_of(bits: &Bitmap) -> Option<[bool; 2]> {
    if bits.len() == 2 {
        Some([bits.get_bit(0), bits.get_bit(1)])
    } else {
        None
    }
}

// The flags of an answer whose slots are these.
fn told(alloc: Global, answer: Result<(Bytes, Bitmap), Error>, slots: Slots) -> Answer {
    match answer {
        Ok((array, bits)) => match flags_of(&bits) {
            Some(flags) if has_slots(alloc, &array, slots) => Answer::Flags(flags),
            _ => Answer::OtherSlots,
        },
        Err(error) => Answer::Refused(error),
    }
}

fn two_tell(alloc: Global, call: Flagged, lhs: Slots, rhs: Slots, slots: Slots) -> Answer {
    match (bytes_of(alloc, lhs), bytes_of(alloc, rhs)) {
        (Ok(lhs), Ok(rhs)) => told(alloc, of_two(alloc, call, &lhs, &rhs), slots),
        _ => Answer::Refused(Error::Memory),
    }
}

fn number_tells(alloc: Global, call: Flagged, lhs: Slots, rhs: i8, slots: Slots) -> Answer {
    match bytes_of(alloc, lhs) {
        Ok(lhs) => told(alloc, of_number(alloc, call, &lhs, rhs), slots),
        Err(error) => Answer::Refused(error),
    }
}

#[test]
fn the_overflowing_forms_answer_with_ample_memory(rt: HostRuntime) {
    let rhs = [Some(1), Some(100)];
    let cases = [
        (Flagged::Add, [Some(1), Some(100)], [Some(2), Some(-56)]),
        (Flagged::Sub, [Some(1), Some(-100)], [Some(0), Some(56)]),
        (Flagged::Mul, [Some(1), Some(-100)], [Some(1), Some(-16)]),
    ];
    for (call, lhs, slots) in cases {
        let told = two_tell(rt.alloc(), call, &lhs, &rhs, &slots);
        assert_eq!(rt; told, Answer::Flags([false, true]), "{call:?}");
    }
}

#[test]
fn a_flag_beside_a_number_is_false_at_a_null(rt: HostRuntime) {
    let lhs = [None, Some(100)];
    let slots = [None, Some(-56)];
    for (call, rhs) in [(Flagged::Add, 100), (Flagged::Sub, -100), (Flagged::Mul, 2)] {
        let told = number_tells(rt.alloc(), call, &lhs, rhs, &slots);
        assert_eq!(rt; told, Answer::Flags([false, true]), "{call:?} of {rhs}");
    }
}

#[test]
fn lengths_are_looked_at_before_flags(rt: HostRuntime) {
    let lengths = Answer::Refused(Error::InvalidArgumentError(Reason::Lengths));
    let most = [Some(i8::MAX); 2];
    for (lhs, rhs) in [(0, 1), (2, 1)] {
        let told = two_tell(rt.alloc(), Flagged::Add, &most[..lhs], &most[..rhs], &[]);
        assert_eq!(rt; told, lengths, "{lhs} and {rhs}");
    }
}
