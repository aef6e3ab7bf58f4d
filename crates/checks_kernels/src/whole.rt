//! Checks of sums, differences, products and bits: each call once, with arrow2's own vectors among
//! them.
use crate::calls::{
    Bytes, Call, bytes_of, is_wanted, number_answers, of_made, of_made_and, of_two, two_answer,
};
use col_flat::PrimitiveArray;
use col_types::{DataType, Error, NativeArithmetics, Reason};
use std::alloc::Global;

#[test]
fn each_form_of_two_arrays_answers_with_ample_memory(rt: HostRuntime) {
    let lhs = [Some(100), Some(-100), None, Some(7), Some(100), Some(100)];
    let rhs = [Some(100), Some(100), Some(5), Some(-3), Some(0), Some(1)];
    let cases = [
        // 200, 0, 4, 100 and 101
        (
            Call::CheckedAdd,
            [None, Some(0), None, Some(4), Some(100), Some(101)],
        ),
        (
            Call::WrappingAdd,
            [Some(-56), Some(0), None, Some(4), Some(100), Some(101)],
        ),
        (
            Call::SaturatingAdd,
            [Some(127), Some(0), None, Some(4), Some(100), Some(101)],
        ),
        // 0, -200, 10, 100 and 99
        (
            Call::CheckedSub,
            [Some(0), None, None, Some(10), Some(100), Some(99)],
        ),
        (
            Call::WrappingSub,
            [Some(0), Some(56), None, Some(10), Some(100), Some(99)],
        ),
        (
            Call::SaturatingSub,
            [Some(0), Some(-128), None, Some(10), Some(100), Some(99)],
        ),
        // 10000, -10000, -21, 0 and 100
        (
            Call::CheckedMul,
            [None, None, None, Some(-21), Some(0), Some(100)],
        ),
        (
            Call::WrappingMul,
            [Some(16), Some(-16), None, Some(-21), Some(0), Some(100)],
        ),
        (
            Call::SaturatingMul,
            [Some(127), Some(-128), None, Some(-21), Some(0), Some(100)],
        ),
    ];
    for (call, wanted) in cases {
        assert!(rt;
            two_answer(rt.alloc(), call, &lhs, &rhs, Ok(&wanted)),
            "{call:?}"
        );
    }
}

#[test]
fn each_form_with_a_number_answers_with_ample_memory(rt: HostRuntime) {
    let lhs = [Some(100), Some(-100), None, Some(7)];
    let cases = [
        // 200, 0 and 107
        (Call::CheckedAdd, [None, Some(0), None, Some(107)]),
        (Call::WrappingAdd, [Some(-56), Some(0), None, Some(107)]),
        (Call::SaturatingAdd, [Some(127), Some(0), None, Some(107)]),
        // 0, -200 and -93
        (Call::CheckedSub, [Some(0), None, None, Some(-93)]),
        (Call::WrappingSub, [Some(0), Some(56), None, Some(-93)]),
        (Call::SaturatingSub, [Some(0), Some(-128), None, Some(-93)]),
        // 10000, -10000 and 700
        (Call::CheckedMul, [None, None, None, None]),
        (Call::WrappingMul, [Some(16), Some(-16), None, Some(-68)]),
        (
            Call::SaturatingMul,
            [Some(127), Some(-128), None, Some(127)],
        ),
    ];
    for (call, wanted) in cases {
        assert!(rt;
            number_answers(rt.alloc(), call, &lhs, 100, Ok(&wanted)),
            "{call:?}"
        );
    }
}

#[test]
fn the_plain_forms_of_two_arrays_answer_with_ample_memory(rt: HostRuntime) {
    let lhs = [Some(-7), None, Some(7)];
    let rhs = [Some(2), Some(0), None];
    let cases = [
        (Call::Add, [Some(-5), None, None]),
        (Call::Sub, [Some(-9), None, None]),
        (Call::Mul, [Some(-14), None, None]),
        (Call::Div, [Some(-3), None, None]),
        (Call::Rem, [Some(-1), None, None]),
    ];
    for (call, wanted) in cases {
        assert!(rt;
            two_answer(rt.alloc(), call, &lhs, &rhs, Ok(&wanted)),
            "{call:?}"
        );
    }
}

#[test]
fn the_plain_forms_with_a_number_answer_with_ample_memory(rt: HostRuntime) {
    let lhs = [Some(-7), None, Some(7)];
    let cases = [
        (Call::Add, [Some(-9), None, Some(5)]),
        (Call::Sub, [Some(-5), None, Some(9)]),
        (Call::Mul, [Some(14), None, Some(-14)]),
        (Call::Div, [Some(3), None, Some(-3)]),
        (Call::Rem, [Some(-1), None, Some(1)]),
    ];
    for (call, wanted) in cases {
        assert!(rt;
            number_answers(rt.alloc(), call, &lhs, -2, Ok(&wanted)),
            "{call:?}"
        );
    }
}

#[test]
fn each_call_on_bits_answers_with_ample_memory(rt: HostRuntime) {
    let lhs = [Some(2), Some(4), Some(6), Some(7), Some(-1)];
    let rhs = [None, Some(6), Some(9), Some(7), Some(7)];
    let cases = [
        (Call::Or, [None, Some(6), Some(15), Some(7), Some(-1)]),
        (Call::Xor, [None, Some(2), Some(15), Some(0), Some(-8)]),
        (Call::And, [None, Some(4), Some(0), Some(7), Some(7)]),
    ];
    for (call, wanted) in cases {
        assert!(rt;
            two_answer(rt.alloc(), call, &lhs, &rhs, Ok(&wanted)),
            "{call:?}"
        );
    }
    let cases = [
        (Call::Or, [Some(3), Some(7), Some(7), Some(7), Some(-1)]),
        (Call::Xor, [Some(1), Some(7), Some(5), Some(4), Some(-4)]),
        (Call::And, [Some(2), Some(0), Some(2), Some(3), Some(3)]),
    ];
    for (call, wanted) in cases {
        assert!(rt;
            number_answers(rt.alloc(), call, &lhs, 3, Ok(&wanted)),
            "{call:?} of 3"
        );
    }
}

#[test]
fn the_greatest_numbers_are_squared_exactly(rt: HostRuntime) {
    let cases = [
        (Call::CheckedMul, None, None, None),
        (Call::WrappingMul, Some(1), Some(1), Some(1)),
        (
            Call::SaturatingMul,
            Some(u64::MAX),
            Some(i64::MAX),
            Some(u8::MAX),
        ),
    ];
    for (call, unsigned, signed, short) in cases {
        let alloc = rt.alloc();
        let squared = square(alloc, call, DataType::UInt64, &[Some(u64::MAX)]);
        assert_eq!(rt; squared, Ok(unsigned), "{call:?} of 64 bits");
        let squared = square(alloc, call, DataType::Int64, &[Some(i64::MAX)]);
        assert_eq!(rt; squared, Ok(signed), "{call:?} of 64 bits with a sign");
        let squared = square(alloc, call, DataType::UInt8, &[Some(u8::MAX)]);
        assert_eq!(rt; squared, Ok(short), "{call:?} of 8 bits");
    }
}

// The slot of one number times itself.
fn square<T: NativeArithmetics>(
    alloc: Global,
    call: Call,
    data_type: DataType,
    slots: &[Option<T>],
) -> Result<Option<T>, Error> {
    match PrimitiveArray::from_options(alloc, data_type, slots) {
        Ok(array) => lone(of_two(alloc, call, &array, &array)),
        Err(error) => Err(error),
    }
}

// The slot of an array of one slot.
fn lone<T: NativeArithmetics>(
    answer: Result<PrimitiveArray<T>, Error>,
) -> Result<Option<T>, Error> {
    match answer {
        Ok(array) if array.len() == 1 => Ok(array.get(0)),
        Ok(_) => Err(Error::OutOfSpec),
        Err(error) => Err(error),
    }
}

// A null with the greatest number beneath it, and a 2.
fn hidden(alloc: Global) -> Result<Bytes, Error> {
    let numbers = vec![in alloc; i8::MAX, 2]?;
    PrimitiveArray::from_flags(alloc, DataType::Int8, numbers, &[false, true])
}

#[test]
fn a_number_stored_beneath_a_null_is_not_read(rt: HostRuntime) {
    let alloc = rt.alloc();
    let ones = [Some(1), Some(1)];
    let sums = [None, Some(3)];
    let left = of_made(alloc, Call::Add, hidden(alloc), bytes_of(alloc, &ones));
    assert!(rt; is_wanted(alloc, left, Ok(&sums)), "on the left");
    let right = of_made(alloc, Call::Add, bytes_of(alloc, &ones), hidden(alloc));
    assert!(rt; is_wanted(alloc, right, Ok(&sums)), "on the right");
    let beside = of_made_and(alloc, Call::Add, hidden(alloc), 1);
    assert!(rt; is_wanted(alloc, beside, Ok(&sums)), "beside a number");
}

#[test]
fn lengths_are_looked_at_before_rows(rt: HostRuntime) {
    let lengths = Err(Error::InvalidArgumentError(Reason::Lengths));
    let most = [Some(i8::MAX); 2];
    for (lhs, rhs) in [(0, 1), (1, 0), (1, 2), (2, 1)] {
        for call in [Call::Add, Call::WrappingAdd, Call::CheckedAdd, Call::Div] {
            assert!(rt;
                two_answer(rt.alloc(), call, &most[..lhs], &most[..rhs], lengths),
                "{call:?} of {lhs} and {rhs}"
            );
        }
    }
}
