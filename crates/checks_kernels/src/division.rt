//! Checks of quotients and remainders, each call once, and of which refusal comes.
use crate::calls::{Call, number_answers, number_refusal, two_answer};
use col_types::{Error, Reason};

#[test]
fn the_checked_divisions_answer_with_ample_memory(rt: HostRuntime) {
    let lhs = [Some(7), Some(-128), Some(5), None];
    let rhs = [Some(-2), Some(-1), Some(0), Some(3)];
    let cases = [
        (Call::CheckedDiv, [Some(-3), None, None, None]),
        (Call::CheckedRem, [Some(1), None, None, None]),
    ];
    for (call, wanted) in cases {
        assert!(rt;
            two_answer(rt.alloc(), call, &lhs, &rhs, Ok(&wanted)),
            "{call:?}"
        );
    }
    let cases = [
        (Call::CheckedDiv, -1, [Some(-7), None, Some(-5), None]),
        (Call::CheckedRem, -1, [Some(0), None, Some(0), None]),
        (Call::CheckedDiv, 0, [None; 4]),
        (Call::CheckedRem, 0, [None; 4]),
    ];
    for (call, rhs, wanted) in cases {
        assert!(rt;
            number_answers(rt.alloc(), call, &lhs, rhs, Ok(&wanted)),
            "{call:?} of {rhs}"
        );
    }
}

#[test]
fn the_least_row_that_refuses_a_division_gives_the_error(rt: HostRuntime) {
    let cases = [
        ([Some(-128), Some(5)], [Some(-1), Some(0)], Error::Overflow),
        (
            [Some(5), Some(-128)],
            [Some(0), Some(-1)],
            Error::DivideByZero,
        ),
        ([None, Some(-128)], [Some(0), Some(-1)], Error::Overflow),
    ];
    for (lhs, rhs, refusal) in cases {
        for call in [Call::Div, Call::Rem] {
            assert!(rt;
                two_answer(rt.alloc(), call, &lhs, &rhs, Err(refusal)),
                "{call:?} of {lhs:?} and {rhs:?}"
            );
        }
    }
}

#[test]
fn no_division_is_refused_beside_a_null(rt: HostRuntime) {
    let nulls = [None, None];
    let lengths = Error::InvalidArgumentError(Reason::Lengths);
    for call in [Call::Div, Call::Rem] {
        let zeros = [Some(0), Some(0)];
        assert!(rt;
            two_answer(rt.alloc(), call, &nulls, &zeros, Ok(&nulls)),
            "{call:?}"
        );
        let zeros = [Some(0)];
        assert!(rt;
            two_answer(rt.alloc(), call, &nulls, &zeros, Err(lengths)),
            "{call:?} of two rows and one"
        );
    }
}

#[test]
fn plain_forms_beside_a_number_refuse_what_does_not_fit(rt: HostRuntime) {
    let over = Some(Error::Overflow);
    let zero = Some(Error::DivideByZero);
    let calls = [Call::Add, Call::Sub, Call::Mul, Call::Div, Call::Rem];
    // the slots, the number, and the refusal of each call, where there is one
    let cases = [
        ([Some(100), None], 100, [over, None, over, None, None]),
        ([None, Some(-100)], 100, [None, over, over, None, None]),
        ([None, Some(-128)], -1, [over, None, over, over, over]),
        ([Some(5), None], 0, [None, None, None, zero, zero]),
        ([None, None], 0, [None; 5]),
    ];
    for (slots, number, refusals) in cases {
        for (call, refusal) in calls.into_iter().zip(refusals) {
            assert_eq!(rt;
                number_refusal(rt.alloc(), call, &slots, number),
                refusal,
                "{call:?} of {slots:?} and {number}"
            );
        }
    }
}
