//! Checks of trees over decimals. The numbers are worked out by Python's integers.
use crate::answers::{Answer, Call, Column, Kind, Shape, Slot, call_answer};
use crate::decimals::{ABSENT, LONGER_MONEY, MONEY, TYPES, money};
use col_eval::Op;
use std::alloc::Global;

// A step on two numbers of `Decimal(5, 2)`, and what it answers.
const STEPS: [(Op, i128, i128, Answer); 32] = [
    (Op::Add, 150, 25, Answer::Is(175)),
    (Op::Add, 99999, 1, Answer::Overflow),
    (Op::CheckedAdd, 99998, 1, Answer::Is(99999)),
    (Op::CheckedAdd, 99999, 1, Answer::Null),
    (Op::SaturatingAdd, 150, 25, Answer::Is(175)),
    (Op::SaturatingAdd, 99999, 1, Answer::Is(99999)),
    (Op::SaturatingAdd, -99999, -1, Answer::Is(-99999)),
    (Op::WrappingAdd, 1, 1, ABSENT),
    (Op::Sub, 150, 25, Answer::Is(125)),
    (Op::Sub, -99999, 1, Answer::Overflow),
    (Op::CheckedSub, -99998, 1, Answer::Is(-99999)),
    (Op::CheckedSub, -99999, 1, Answer::Null),
    (Op::SaturatingSub, 150, 25, Answer::Is(125)),
    (Op::SaturatingSub, -99999, 1, Answer::Is(-99999)),
    (Op::SaturatingSub, 99999, -1, Answer::Is(99999)),
    (Op::WrappingSub, 1, 1, ABSENT),
    (Op::Mul, 150, 25, Answer::Is(37)),
    (Op::Mul, 99999, 101, Answer::Overflow),
    (Op::CheckedMul, -150, 25, Answer::Is(-37)),
    (Op::CheckedMul, 99999, 101, Answer::Null),
    (Op::SaturatingMul, 155, 155, Answer::Is(240)),
    (Op::SaturatingMul, 99999, -101, Answer::Is(-99999)),
    (Op::WrappingMul, 1, 1, ABSENT),
    (Op::Div, 150, 25, Answer::Is(600)),
    (Op::Div, -200, 300, Answer::Is(-66)),
    (Op::Div, 100, 0, Answer::DivideByZero),
    (Op::Div, 99999, 99, Answer::Overflow),
    (Op::CheckedDiv, 100, 300, Answer::Is(33)),
    (Op::CheckedDiv, 100, 0, Answer::Null),
    (Op::CheckedDiv, 99999, 99, Answer::Null),
    (Op::Rem, 1, 1, ABSENT),
    (Op::CheckedRem, 1, 1, ABSENT),
];

// What `typed_of` answers where `evaluate` answers so.
fn typing(answer: Answer) -> Answer {
    match answer {
        Answer::NotYetImplemented | Answer::Parameters => answer,
        _ => Answer::Typed,
    }
}

// The first call that answers two columns and a tree otherwise.
fn first_wrong_call(
    alloc: Global,
    lhs: Column,
    rhs: Column,
    shape: Shape,
    wanted: Answer,
) -> Option<Call> {
    let calls = [
        (Call::TypedOf, typing(wanted)),
        (Call::Evaluate, wanted),
        (Call::Law, wanted),
    ];
    for (call, wanted) in calls {
        if call_answer(alloc, call, lhs, rhs, shape) != wanted {
            return Some(call);
        }
    }
    None
}

#[test]
fn steps_of_trees_answer_in_each_form(rt: HostRuntime) {
    for (op, left, right, wanted) in STEPS {
        let lhs = [Some(left)];
        let rhs = [Some(right)];
        let shape = Shape::Columns(op);
        assert_eq!(rt;
            first_wrong_call(rt.alloc(), money(&lhs), money(&rhs), shape, wanted),
            None,
            "{op:?} of {left} and {right}"
        );
    }
}

#[test]
fn steps_of_trees_give_null_beside_a_null(rt: HostRuntime) {
    let left = money(&[None, Some(99999)]);
    let right = money(&[Some(0), None]);
    for (op, _left, _right, answer) in STEPS {
        let wanted = if answer == ABSENT {
            ABSENT
        } else {
            Answer::Two(None, None)
        };
        assert_eq!(rt;
            first_wrong_call(rt.alloc(), left, right, Shape::Columns(op), wanted),
            None,
            "{op:?}"
        );
    }
}

// The greatest number of 38 digits.
const MOST: i128 = 99999999999999999999999999999999999999;

// Two numbers of 20 digits.
const LONG: i128 = 10000000000000000000;

const LONGER: i128 = 20000000000000000000;

// A step on two numbers of a scale and 38 digits, and what it answers.
const LONG_STEPS: [(usize, Op, i128, i128, Answer); 14] = [
    (0, Op::Mul, -MOST, MOST, Answer::Overflow),
    (0, Op::CheckedMul, -MOST, MOST, Answer::Null),
    (0, Op::SaturatingMul, -MOST, MOST, Answer::Is(-MOST)),
    (0, Op::SaturatingMul, -MOST, -MOST, Answer::Is(MOST)),
    (0, Op::Mul, MOST, -1, Answer::Is(-MOST)),
    // the products pass 128 bits, though their quotients by 10^19 would fit
    (19, Op::Mul, LONGER, LONGER, Answer::Overflow),
    (19, Op::CheckedMul, LONGER, LONGER, Answer::Null),
    (19, Op::SaturatingMul, LONGER, -LONGER, Answer::Is(-MOST)),
    (19, Op::Mul, LONG, LONG, Answer::Is(LONG)),
    // the dividends with two zeros behind them pass 128 bits, though the quotients would fit
    (2, Op::Div, -MOST, 100, Answer::Overflow),
    (2, Op::CheckedDiv, MOST, 100, Answer::Null),
    (0, Op::Div, -MOST, -1, Answer::Is(MOST)),
    (0, Op::Add, MOST, 1, Answer::Overflow),
    (0, Op::CheckedSub, -MOST, -MOST, Answer::Is(0)),
];

#[test]
fn steps_of_38_digits_answer(rt: HostRuntime) {
    for (scale, op, left, right, wanted) in LONG_STEPS {
        let kind = Kind::Decimal(38, scale);
        let lhs = [Some(left)];
        let rhs = [Some(right)];
        let lhs = Column { kind, slots: &lhs };
        let rhs = Column { kind, slots: &rhs };
        let shape = Shape::Columns(op);
        assert_eq!(rt;
            first_wrong_call(rt.alloc(), lhs, rhs, shape, wanted),
            None,
            "{op:?} of {left} and {right}"
        );
    }
}

#[test]
fn types_of_columns_are_compared_in_trees(rt: HostRuntime) {
    for (left, right, wanted) in TYPES {
        for slots in [[].as_slice(), [Some(1)].as_slice()] {
            let lhs = Column { kind: left, slots };
            let rhs = Column { kind: right, slots };
            let cases = [
                (Op::Div, wanted),
                (Op::CheckedAdd, wanted),
                (Op::SaturatingMul, wanted),
                (Op::WrappingSub, ABSENT),
            ];
            for (op, wanted) in cases {
                assert_eq!(rt;
                    first_wrong_call(rt.alloc(), lhs, rhs, Shape::Columns(op), wanted),
                    None,
                    "{op:?} of {lhs:?} and {rhs:?}"
                );
            }
        }
    }
}

// A step on a column 1.50 and null of `Decimal(5, 2)` and a literal, and what it answers.
const BESIDE_LITERALS: [(Op, Kind, Slot, Answer); 28] = [
    (Op::Add, MONEY, Some(25), Answer::Two(Some(175), None)),
    (Op::Sub, MONEY, Some(25), Answer::Two(Some(125), None)),
    (Op::Mul, MONEY, Some(25), Answer::Two(Some(37), None)),
    (Op::Div, MONEY, Some(25), Answer::Two(Some(600), None)),
    (Op::Add, MONEY, Some(99999), Answer::Overflow),
    (Op::Sub, MONEY, Some(-99999), Answer::Overflow),
    (Op::Mul, MONEY, Some(99999), Answer::Overflow),
    (Op::Div, MONEY, Some(0), Answer::DivideByZero),
    (Op::Div, MONEY, None, Answer::Two(None, None)),
    (Op::Add, LONGER_MONEY, Some(25), Answer::Parameters),
    (Op::Sub, Kind::Decimal(5, 1), Some(25), Answer::Parameters),
    (Op::Mul, LONGER_MONEY, None, Answer::Parameters),
    (Op::Div, Kind::Decimal(5, 3), Some(0), Answer::Parameters),
    (Op::Add, Kind::Int64, None, ABSENT),
    (Op::Div, Kind::Date32, None, ABSENT),
    (Op::CheckedAdd, MONEY, Some(25), ABSENT),
    (Op::CheckedAdd, LONGER_MONEY, Some(25), ABSENT),
    (Op::CheckedSub, MONEY, Some(25), ABSENT),
    (Op::CheckedMul, MONEY, None, ABSENT),
    (Op::CheckedDiv, MONEY, Some(25), ABSENT),
    (Op::SaturatingAdd, MONEY, Some(25), ABSENT),
    (Op::SaturatingSub, MONEY, Some(25), ABSENT),
    (Op::SaturatingMul, MONEY, Some(25), ABSENT),
    (Op::WrappingAdd, MONEY, Some(25), ABSENT),
    (Op::WrappingSub, MONEY, Some(25), ABSENT),
    (Op::WrappingMul, MONEY, Some(25), ABSENT),
    (Op::Rem, MONEY, Some(25), ABSENT),
    (Op::CheckedRem, MONEY, Some(25), ABSENT),
];

#[test]
fn plain_steps_alone_take_a_literal(rt: HostRuntime) {
    for (op, kind, slot, wanted) in BESIDE_LITERALS {
        let column = money(&[Some(150), None]);
        let shape = Shape::Beside(op, kind, slot);
        assert_eq!(rt;
            first_wrong_call(rt.alloc(), column, column, shape, wanted),
            None,
            "{shape:?}"
        );
    }
}

// Without rows the same steps are refused, by their types alone.
#[test]
fn literals_are_refused_without_rows_too(rt: HostRuntime) {
    for (op, kind, slot, answer) in BESIDE_LITERALS {
        let wanted = match typing(answer) {
            Answer::Typed => Answer::NoRow,
            refusal => refusal,
        };
        let shape = Shape::Beside(op, kind, slot);
        assert_eq!(rt;
            first_wrong_call(rt.alloc(), money(&[]), money(&[]), shape, wanted),
            None,
            "{shape:?}"
        );
    }
}

// Two columns of `Decimal(5, 2)`, and what their sum divided by the right one answers.
const QUOTIENTS: [([Slot; 2], [Slot; 2], Answer); 5] = [
    // the quotient refuses the first row, the sum the second
    ([Some(1), Some(99999)], [Some(0), Some(1)], Answer::Overflow),
    // the quotient refuses both rows: a divisor of 0, and a number of too many digits
    (
        [Some(1), Some(99998)],
        [Some(0), Some(1)],
        Answer::DivideByZero,
    ),
    ([Some(99998), Some(1)], [Some(1), Some(0)], Answer::Overflow),
    // the sum refuses the second row alone
    (
        [Some(1), Some(-99999)],
        [Some(1), Some(-1)],
        Answer::Overflow,
    ),
    // beside a null no step refuses
    (
        [None, Some(1)],
        [Some(0), Some(100)],
        Answer::Two(None, Some(101)),
    ),
];

#[test]
fn the_least_step_refuses_and_there_the_least_row(rt: HostRuntime) {
    let shape = Shape::Twice(Op::Add, Op::Div);
    for (lhs, rhs, wanted) in QUOTIENTS {
        assert_eq!(rt;
            first_wrong_call(rt.alloc(), money(&lhs), money(&rhs), shape, wanted),
            None,
            "{lhs:?} and {rhs:?}"
        );
    }
}
