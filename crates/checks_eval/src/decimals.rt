//! Checks of the kernels on arrays of any type, and of their tests, on decimals. The numbers are
//! worked out by Python's integers.
use crate::answers::{
    Answer, Column, KERNELS, Kernel, Kind, Slot, data_type, kernel_answer, remainders,
    scalar_answer,
};
use col_eval::{can_add, can_div, can_mul, can_rem, can_sub};
use std::alloc::Global;

// The type of most columns, and one of more digits.
pub(crate) const MONEY: Kind = Kind::Decimal(5, 2);

pub(crate) const LONGER_MONEY: Kind = Kind::Decimal(6, 2);

// What is answered for a step that decimals do not have.
pub(crate) const ABSENT: Answer = Answer::NotYetImplemented;

pub(crate) fn money(slots: &[Slot]) -> Column<'_> {
    Column { kind: MONEY, slots }
}

// Two columns of `Decimal(5, 2)`, and what `add`, `sub`, `mul` and `div` answer.
const PAIRS: [([Slot; 2], [Slot; 2], [Answer; 4]); 8] = [
    (
        [Some(150), None],
        [Some(25), Some(0)],
        [
            Answer::Two(Some(175), None),
            Answer::Two(Some(125), None),
            Answer::Two(Some(37), None),
            Answer::Two(Some(600), None),
        ],
    ),
    (
        [Some(-9999), Some(1)],
        [Some(100), None],
        [
            Answer::Two(Some(-9899), None),
            Answer::Two(Some(-10099), None),
            Answer::Two(Some(-9999), None),
            Answer::Two(Some(-9999), None),
        ],
    ),
    (
        [None, None],
        [Some(0), Some(1)],
        [Answer::Two(None, None); 4],
    ),
    (
        [Some(99999), Some(-1)],
        [Some(1), Some(100)],
        [
            Answer::Overflow,
            Answer::Two(Some(99998), Some(-101)),
            Answer::Two(Some(999), Some(-1)),
            Answer::Overflow,
        ],
    ),
    (
        [Some(-99999), Some(150)],
        [Some(1), Some(-25)],
        [
            Answer::Two(Some(-99998), Some(125)),
            Answer::Overflow,
            Answer::Two(Some(-999), Some(-37)),
            Answer::Overflow,
        ],
    ),
    (
        [Some(-99999), Some(99999)],
        [Some(-99999), Some(99999)],
        [
            Answer::Overflow,
            Answer::Two(Some(0), Some(0)),
            Answer::Overflow,
            Answer::Two(Some(100), Some(100)),
        ],
    ),
    // the quotient refuses both rows, for two causes
    (
        [Some(1), Some(99999)],
        [Some(0), Some(1)],
        [
            Answer::Overflow,
            Answer::Two(Some(1), Some(99998)),
            Answer::Two(Some(0), Some(999)),
            Answer::DivideByZero,
        ],
    ),
    (
        [Some(99999), Some(1)],
        [Some(1), Some(0)],
        [
            Answer::Overflow,
            Answer::Two(Some(99998), Some(1)),
            Answer::Two(Some(999), Some(0)),
            Answer::Overflow,
        ],
    ),
];

// The first kernel that answers two columns otherwise.
fn first_wrong(alloc: Global, lhs: Column, rhs: Column, wanted: [Answer; 4]) -> Option<Kernel> {
    for (kernel, wanted) in KERNELS.into_iter().zip(wanted) {
        if kernel_answer(alloc, kernel, lhs, rhs) != wanted {
            return Some(kernel);
        }
    }
    None
}

#[test]
fn kernels_answer_on_two_columns(rt: HostRuntime) {
    for (lhs, rhs, wanted) in PAIRS {
        assert_eq!(rt;
            first_wrong(rt.alloc(), money(&lhs), money(&rhs), wanted),
            None,
            "{lhs:?} and {rhs:?}"
        );
    }
}

// A column of `Decimal(5, 2)`, a scalar of that type, and what `add_scalar`, `sub_scalar`,
// `mul_scalar` and `div_scalar` answer.
const BESIDE_SCALARS: [([Slot; 2], Slot, [Answer; 4]); 7] = [
    (
        [Some(150), None],
        Some(25),
        [
            Answer::Two(Some(175), None),
            Answer::Two(Some(125), None),
            Answer::Two(Some(37), None),
            Answer::Two(Some(600), None),
        ],
    ),
    (
        [Some(-9999), Some(0)],
        Some(25),
        [
            Answer::Two(Some(-9974), Some(25)),
            Answer::Two(Some(-10024), Some(-25)),
            Answer::Two(Some(-2499), Some(0)),
            Answer::Two(Some(-39996), Some(0)),
        ],
    ),
    (
        [Some(155), Some(-155)],
        Some(-33),
        [
            Answer::Two(Some(122), Some(-188)),
            Answer::Two(Some(188), Some(-122)),
            Answer::Two(Some(-51), Some(51)),
            Answer::Two(Some(-469), Some(469)),
        ],
    ),
    ([Some(1), None], None, [Answer::Two(None, None); 4]),
    ([None, None], Some(0), [Answer::Two(None, None); 4]),
    (
        [Some(99999), Some(1)],
        Some(1),
        [
            Answer::Overflow,
            Answer::Two(Some(99998), Some(0)),
            Answer::Two(Some(999), Some(0)),
            Answer::Overflow,
        ],
    ),
    (
        [Some(1), Some(2)],
        Some(0),
        [
            Answer::Two(Some(1), Some(2)),
            Answer::Two(Some(1), Some(2)),
            Answer::Two(Some(0), Some(0)),
            Answer::DivideByZero,
        ],
    ),
];

// The first kernel that answers a column and a scalar otherwise.
fn first_wrong_with(
    alloc: Global,
    lhs: Column,
    kind: Kind,
    slot: Slot,
    wanted: [Answer; 4],
) -> Option<Kernel> {
    for (kernel, wanted) in KERNELS.into_iter().zip(wanted) {
        if scalar_answer(alloc, kernel, lhs, kind, slot) != wanted {
            return Some(kernel);
        }
    }
    None
}

#[test]
fn kernels_answer_on_a_column_and_a_scalar(rt: HostRuntime) {
    for (lhs, rhs, wanted) in BESIDE_SCALARS {
        assert_eq!(rt;
            first_wrong_with(rt.alloc(), money(&lhs), MONEY, rhs, wanted),
            None,
            "{lhs:?} and {rhs:?}"
        );
    }
}

// Types of a left and of a right column, and how a step that decimals have is refused where each
// has one row, or none.
pub(crate) const TYPES: [(Kind, Kind, Answer); 9] = [
    (MONEY, LONGER_MONEY, Answer::Parameters),
    (LONGER_MONEY, MONEY, Answer::Parameters),
    (MONEY, Kind::Decimal(5, 1), Answer::Parameters),
    (MONEY, Kind::Decimal(38, 38), Answer::Parameters),
    (MONEY, Kind::Int64, ABSENT),
    (Kind::Int64, MONEY, ABSENT),
    (MONEY, Kind::UInt8, ABSENT),
    (MONEY, Kind::Date32, ABSENT),
    (Kind::Date32, MONEY, ABSENT),
];

// Slots of a left and of a right column.
const LENGTHS: [(&[Slot], &[Slot]); 4] = [
    (&[Some(1)], &[Some(1)]),
    (&[None], &[None, None]),
    (&[], &[]),
    (&[], &[Some(0)]),
];

#[test]
fn types_are_refused_before_lengths(rt: HostRuntime) {
    for (left, right, wanted) in TYPES {
        for (slots, others) in LENGTHS {
            let lhs = Column { kind: left, slots };
            let rhs = Column {
                kind: right,
                slots: others,
            };
            assert_eq!(rt;
                first_wrong(rt.alloc(), lhs, rhs, [wanted; 4]),
                None,
                "{lhs:?} and {rhs:?}"
            );
            assert_eq!(rt;
                remainders(rt.alloc(), lhs, rhs),
                ABSENT,
                "{lhs:?} and {rhs:?}"
            );
        }
    }
}

#[test]
fn lengths_of_decimals_of_one_type_are_compared(rt: HostRuntime) {
    let cases = [
        (LENGTHS[1], Answer::Lengths),
        (LENGTHS[3], Answer::Lengths),
        (LENGTHS[2], Answer::NoRow),
    ];
    for ((lhs, rhs), wanted) in cases {
        let lhs = money(lhs);
        let rhs = money(rhs);
        assert_eq!(rt;
            first_wrong(rt.alloc(), lhs, rhs, [wanted; 4]),
            None,
            "{lhs:?} and {rhs:?}"
        );
        assert_eq!(rt;
            remainders(rt.alloc(), lhs, rhs),
            ABSENT,
            "{lhs:?} and {rhs:?}"
        );
    }
}

#[test]
fn the_type_of_a_scalar_is_compared(rt: HostRuntime) {
    for (left, right, wanted) in TYPES {
        for (slots, _others) in LENGTHS {
            let lhs = Column { kind: left, slots };
            for slot in [None, Some(0)] {
                assert_eq!(rt;
                    first_wrong_with(rt.alloc(), lhs, right, slot, [wanted; 4]),
                    None,
                    "{lhs:?} and {slot:?} of {right:?}"
                );
            }
        }
    }
}

// What the five tests tell of two types.
fn told_of(left: Kind, right: Kind) -> [bool; 5] {
    let lhs = data_type(left);
    let rhs = data_type(right);
    [
        can_add(&lhs, &rhs),
        can_sub(&lhs, &rhs),
        can_mul(&lhs, &rhs),
        can_div(&lhs, &rhs),
        can_rem(&lhs, &rhs),
    ]
}

#[test]
fn the_tests_tell_which_kernels_take_decimals(rt: HostRuntime) {
    let decimals = [true, true, true, true, false];
    assert_eq!(rt; told_of(MONEY, MONEY), decimals, "one type");
    for (left, right, refusal) in TYPES {
        let wanted = if refusal == Answer::Parameters {
            decimals
        } else {
            [false; 5]
        };
        assert_eq!(rt; told_of(left, right), wanted, "{left:?} and {right:?}");
    }
}
