//! Checks of `col_arity`: answers of named functions, row by row.
use col_arity::{
    arity_assign, binary, binary_checked, binary_with_bitmap, try_binary, try_unary, unary,
    unary_checked, unary_with_bitmap,
};
use col_buf::{Bitmap, Buffer};
use col_flat::PrimitiveArray;
use col_types::{DataType, Error, Reason};
use std::alloc::Global;

type Numbers = PrimitiveArray<i64>;

type Slots<'a> = &'a [Option<i64>];

// The kernels whose answer is one array.
#[derive(Clone, Copy, Debug)]
enum Call {
    Plain,
    Checked,
    Fallible,
}

// The number twice.
fn doubled(a: i64) -> i64 {
    a.wrapping_mul(2)
}

// The number twice, where it is positive.
fn doubled_positive(a: i64) -> Option<i64> {
    if a > 0 { Some(doubled(a)) } else { None }
}

// The number twice, but refused where it is 1 or 2.
fn doubled_or_refused(a: i64) -> Result<i64, Error> {
    match a {
        1 => Err(Error::Overflow),
        2 => Err(Error::DivideByZero),
        _ => Ok(doubled(a)),
    }
}

// The sum.
fn sum(a: i64, b: i64) -> i64 {
    a.wrapping_add(b)
}

// The sum, where it is positive.
fn positive_sum(a: i64, b: i64) -> Option<i64> {
    if sum(a, b) > 0 { Some(sum(a, b)) } else { None }
}

// The sum, but refused where the second number is 1 or 2.
fn sum_or_refused(a: i64, b: i64) -> Result<i64, Error> {
    doubled_or_refused(b)?;
    Ok(sum(a, b))
}

// The doubled slots.
fn of_one(alloc: Global, call: Call, array: &Numbers) -> Result<Numbers, Error> {
    match call {
        Call::Plain => unary(alloc, array, doubled, DataType::Int64),
        Call::Checked => unary_checked(alloc, array, doubled_positive, DataType::Int64),
        Call::Fallible => try_unary(alloc, array, doubled_or_refused, DataType::Int64),
    }
}

// The summed slots.
fn of_two(alloc: Global, call: Call, lhs: &Numbers, rhs: &Numbers) -> Result<Numbers, Error> {
    match call {
        Call::Plain => binary(alloc, lhs, rhs, DataType::Int64, sum),
        Call::Checked => binary_checked(alloc, lhs, rhs, DataType::Int64, positive_sum),
        Call::Fallible => try_binary(alloc, lhs, rhs, DataType::Int64, sum_or_refused),
    }
}

fn array_of(alloc: Global, slots: Slots) -> Result<Numbers, Error> {
    PrimitiveArray::from_options(alloc, DataType::Int64, slots)
}

// The values beneath a mask whose flags are all true.
fn all_valid(alloc: Global, values: &[i64]) -> Result<Numbers, Error> {
    let flags = vec![in alloc; true; values.len()]?;
    let mask = Bitmap::from_bools(alloc, flags.as_slice())?;
    let values = Vec::from_slice(alloc, values)?;
    let buffer = Buffer::from_vec(alloc, values).map_err(|refused| refused.0)?;
    PrimitiveArray::try_new(DataType::Int64, buffer, Some(mask))
}

fn has_slots(alloc: Global, array: &Numbers, slots: Slots) -> bool {
    match array_of(alloc, slots) {
        Ok(wanted) => array.equal(&wanted),
        Err(_) => false,
    }
}

// Whether a call answered these slots, with a mask where a slot is null alone.
fn answers(alloc: Global, answer: Result<Numbers, Error>, slots: Slots) -> bool {
    match answer {
        Ok(array) => {
            let is_masked = array.validity().is_some();
            is_masked == (array.null_count() > 0) && has_slots(alloc, &array, slots)
        }
        Err(_) => false,
    }
}

// Whether a call on an array that was made, and the same on it and itself, answer these slots.
fn both_answer(alloc: Global, call: Call, made: Result<Numbers, Error>, slots: Slots) -> [bool; 2] {
    match made {
        Ok(array) => {
            let one = answers(alloc, of_one(alloc, call, &array), slots);
            [
                one,
                answers(alloc, of_two(alloc, call, &array, &array), slots),
            ]
        }
        Err(_) => [false; 2],
    }
}

#[test]
fn each_call_of_col_arity_answers_with_ample_memory(rt: HostRuntime) {
    let cases = [
        (Call::Plain, [Some(6), None, Some(-6)]),
        (Call::Checked, [Some(6), None, None]),
        (Call::Fallible, [Some(6), None, Some(-6)]),
    ];
    for (call, wanted) in cases {
        let made = array_of(rt.alloc(), &[Some(3), None, Some(-3)]);
        assert_eq!(rt;
            both_answer(rt.alloc(), call, made, &wanted),
            [true; 2],
            "{call:?}"
        );
    }
}

#[test]
fn where_no_slot_is_null_there_is_no_mask(rt: HostRuntime) {
    let doubles = [Some(6), Some(8)];
    for call in [Call::Plain, Call::Checked, Call::Fallible] {
        let made = all_valid(rt.alloc(), &[3, 4]);
        assert_eq!(rt;
            both_answer(rt.alloc(), call, made, &doubles),
            [true; 2],
            "{call:?}"
        );
    }
}

// The refusals of the fallible calls on an array, and on it and itself.
fn refusals_of(alloc: Global, slots: Slots) -> [Option<Error>; 2] {
    match array_of(alloc, slots) {
        Ok(array) => {
            let one = of_one(alloc, Call::Fallible, &array).err();
            [one, of_two(alloc, Call::Fallible, &array, &array).err()]
        }
        Err(error) => [Some(error); 2],
    }
}

#[test]
fn the_least_valid_row_that_refuses_gives_the_error(rt: HostRuntime) {
    let cases = [
        ([Some(0), Some(1), Some(2)], Some(Error::Overflow)),
        ([Some(2), Some(1), None], Some(Error::DivideByZero)),
        ([Some(0), None, Some(2)], Some(Error::DivideByZero)),
        ([Some(0), None, None], None),
    ];
    for (slots, wanted) in cases {
        assert_eq!(rt; refusals_of(rt.alloc(), &slots), [wanted; 2], "{slots:?}");
    }
}

// The number, and whether it is above -2.
fn flagged(a: i64) -> (i64, bool) {
    (a, a > -2)
}

// The first number, and whether it is above -2.
fn first_flagged(a: i64, _b: i64) -> (i64, bool) {
    flagged(a)
}

// The two flags of an answer that keeps the slots of an array.
fn flags_of(array: &Numbers, answer: Result<(Numbers, Bitmap), Error>) -> Option<[bool; 2]> {
    match answer {
        Ok((kept, flags)) if flags.len() == 2 && kept.equal(array) => {
            Some([flags.get_bit(0), flags.get_bit(1)])
        }
        _ => None,
    }
}

// The flags of the call on an array, and of the call on it and itself.
fn both_flags(alloc: Global, slots: Slots) -> [Option<[bool; 2]>; 2] {
    match array_of(alloc, slots) {
        Ok(array) => {
            let one = unary_with_bitmap(alloc, &array, flagged, DataType::Int64);
            let one = flags_of(&array, one);
            let two = binary_with_bitmap(alloc, &array, &array, DataType::Int64, first_flagged);
            [one, flags_of(&array, two)]
        }
        Err(_) => [None; 2],
    }
}

#[test]
fn a_null_has_a_false_flag(rt: HostRuntime) {
    let cases = [
        ([Some(1), None], [true, false]),
        ([Some(-2), Some(1)], [false, true]),
        ([None, None], [false, false]),
    ];
    for (slots, flags) in cases {
        assert_eq!(rt;
            both_flags(rt.alloc(), &slots),
            [Some(flags); 2],
            "{slots:?}"
        );
    }
}

// Whether an array that is doubled in place has these slots, and another holder its own still.
fn doubled_in_place(alloc: Global, slots: Slots, wanted: Slots) -> Result<[bool; 2], Error> {
    let mut array = array_of(alloc, slots)?;
    let holder = array.try_clone(alloc)?;
    arity_assign::unary(alloc, &mut array, doubled)?;
    Ok([
        has_slots(alloc, &array, wanted),
        has_slots(alloc, &holder, slots),
    ])
}

// The refusal of a sum in place, and whether the array has these slots then.
fn summed_in_place(
    alloc: Global,
    slots: Slots,
    rhs: Slots,
    after: Slots,
) -> Result<(Option<Error>, bool), Error> {
    let mut lhs = array_of(alloc, slots)?;
    let rhs = array_of(alloc, rhs)?;
    let refusal = arity_assign::binary(alloc, &mut lhs, &rhs, sum).err();
    Ok((refusal, has_slots(alloc, &lhs, after)))
}

#[test]
fn slots_are_changed_in_place_or_stay(rt: HostRuntime) {
    let alloc = rt.alloc();
    let slots = [Some(5), Some(6), None, Some(10)];
    let doubles = [Some(10), Some(12), None, Some(20)];
    assert_eq!(rt;
        doubled_in_place(alloc, &slots, &doubles),
        Ok([true; 2]),
        "doubled"
    );
    let rhs = [Some(1), Some(2), Some(1), None];
    let sums = [Some(6), Some(8), None, None];
    assert_eq!(rt;
        summed_in_place(alloc, &slots, &rhs, &sums),
        Ok((None, true)),
        "summed"
    );
    let lengths = Some(Error::InvalidArgumentError(Reason::Lengths));
    let refused = summed_in_place(alloc, &slots[1..], &rhs, &slots[1..]);
    assert_eq!(rt; refused, Ok((lengths, true)), "three and four slots");
}
