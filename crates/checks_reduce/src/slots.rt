//! Checks of sums of a few slots of 8 bits, and of the members of `Summable`.
use col_flat::PrimitiveArray;
use col_reduce::{Checked, Summable, sum_checked, sum_primitive, sum_slice};
use col_types::{DataType, Error};
use std::alloc::Global;

type Slots = [Option<i8>; 4];

// Slots, their total and their checked sum.
const TOTALS: [(Slots, Option<i8>, Checked<i8>); 12] = [
    (
        [Some(100), Some(100), None, None],
        Some(-56),
        Checked::Overflow,
    ),
    ([None, None, None, None], None, Checked::NoValue),
    (
        [Some(100), Some(27), None, None],
        Some(127),
        Checked::Sum(127),
    ),
    // past the first null
    ([None, Some(5), None, Some(7)], Some(12), Checked::Sum(12)),
    ([Some(1), None, None, Some(2)], Some(3), Checked::Sum(3)),
    // a part of the sum passes the type, and the whole does not
    (
        [Some(127), Some(1), Some(-1), None],
        Some(127),
        Checked::Sum(127),
    ),
    (
        [Some(-128), Some(-128), Some(127), Some(1)],
        Some(-128),
        Checked::Sum(-128),
    ),
    (
        [Some(127), Some(127), Some(127), Some(127)],
        Some(-4),
        Checked::Overflow,
    ),
    (
        [Some(-128), Some(-128), None, None],
        Some(0),
        Checked::Overflow,
    ),
    ([Some(0), None, Some(0), None], Some(0), Checked::Sum(0)),
    // arrow2's own vectors
    (
        [None, Some(2), Some(3), Some(5)],
        Some(10),
        Checked::Sum(10),
    ),
    (
        [Some(2), Some(3), None, Some(5)],
        Some(10),
        Checked::Sum(10),
    ),
];

// The total and the checked sum of slots.
fn totals(alloc: Global, slots: &[Option<i8>]) -> Result<(Option<i8>, Checked<i8>), Error> {
    let array = PrimitiveArray::from_options(alloc, DataType::Int8, slots)?;
    Ok((sum_primitive(&array), sum_checked(&array)))
}

#[test]
fn totals_are_of_valid_slots(rt: HostRuntime) -> Result<(), Error> {
    for (slots, total, checked) in TOTALS {
        assert_eq!(rt; totals(rt.alloc(), &slots)?, (total, checked), "{slots:?}");
    }
    Ok(())
}

#[test]
fn no_slots_have_no_total(rt: HostRuntime) -> Result<(), Error> {
    assert_eq!(rt; totals(rt.alloc(), &[])?, (None, Checked::NoValue));
    Ok(())
}

// The sum of `Int32` without a slot.
fn total_of_no_numbers(alloc: Global) -> Result<Option<i32>, Error> {
    let array = PrimitiveArray::from_options(alloc, DataType::Int32, &[])?;
    Ok(sum_primitive(&array))
}

#[test]
fn no_numbers_have_no_total(rt: HostRuntime) -> Result<(), Error> {
    assert_eq!(rt; total_of_no_numbers(rt.alloc())?, None);
    Ok(())
}

#[test]
fn sums_of_slices_wrap(rt: HostRuntime) {
    assert_eq!(rt; sum_slice::<i64>(&[]), 0);
    assert_eq!(rt; sum_slice(&[i64::MAX, 2, -1]), i64::MIN);
    assert_eq!(rt; sum_slice(&[u16::MAX, u16::MAX]), 65534);
    assert_eq!(rt; sum_slice(&[i128::MIN, i128::MIN, 7]), 7);
}

// The greatest number and one more.
fn past_greatest<T: Summable>(greatest: T, one: T) -> T {
    greatest.add_modulo(one)
}

#[test]
fn each_type_wraps_at_its_end(rt: HostRuntime) {
    assert_eq!(rt; past_greatest(i8::MAX, 1), i8::MIN);
    assert_eq!(rt; past_greatest(i16::MAX, 1), i16::MIN);
    assert_eq!(rt; past_greatest(i32::MAX, 1), i32::MIN);
    assert_eq!(rt; past_greatest(i64::MAX, 1), i64::MIN);
    assert_eq!(rt; past_greatest(i128::MAX, 1), i128::MIN);
    assert_eq!(rt; past_greatest(u8::MAX, 1), 0);
    assert_eq!(rt; past_greatest(u16::MAX, 1), 0);
    assert_eq!(rt; past_greatest(u32::MAX, 1), 0);
    assert_eq!(rt; past_greatest(u64::MAX, 1), 0);
}
