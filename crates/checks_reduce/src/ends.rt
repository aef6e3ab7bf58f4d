//! Checks of checked sums that come to an end of the type, and to one past it.
use col_flat::PrimitiveArray;
use col_reduce::{Checked, sum_checked};
use col_types::{DataType, Error, NativeWhole};
use std::alloc::Global;

// The checked sum of values.
fn checked<T: NativeWhole>(
    alloc: Global,
    data_type: &DataType,
    slots: &[Option<T>],
) -> Result<Checked<T>, Error> {
    let data_type = data_type.try_clone(alloc)?;
    let array = PrimitiveArray::from_options(alloc, data_type, slots)?;
    Ok(sum_checked(&array))
}

// The place of the first case whose slots have another sum.
fn first_wrong<T: NativeWhole>(
    alloc: Global,
    data_type: &DataType,
    cases: &[(&[Option<T>], Checked<T>)],
) -> Option<usize> {
    for (i, (slots, wanted)) in cases.iter().enumerate() {
        if checked(alloc, data_type, slots) != Ok(*wanted) {
            return Some(i);
        }
    }
    None
}

#[test]
fn ends_of_8_bits_with_a_sign_are_told(rt: HostRuntime) {
    let cases = [
        (
            [Some(i8::MAX - 1), None, Some(1)].as_slice(),
            Checked::Sum(i8::MAX),
        ),
        ([Some(i8::MAX), None, Some(1)].as_slice(), Checked::Overflow),
        (
            [Some(i8::MIN + 1), None, Some(-1)].as_slice(),
            Checked::Sum(i8::MIN),
        ),
        (
            [Some(i8::MIN), None, Some(-1)].as_slice(),
            Checked::Overflow,
        ),
        (
            [Some(i8::MIN), None, Some(i8::MAX)].as_slice(),
            Checked::Sum(-1),
        ),
    ];
    assert_eq!(rt; first_wrong(rt.alloc(), &DataType::Int8, &cases), None);
}

#[test]
fn ends_of_16_bits_with_a_sign_are_told(rt: HostRuntime) {
    let cases = [
        (
            [Some(i16::MAX - 1), None, Some(1)].as_slice(),
            Checked::Sum(i16::MAX),
        ),
        (
            [Some(i16::MAX), None, Some(1)].as_slice(),
            Checked::Overflow,
        ),
        (
            [Some(i16::MIN + 1), None, Some(-1)].as_slice(),
            Checked::Sum(i16::MIN),
        ),
        (
            [Some(i16::MIN), None, Some(-1)].as_slice(),
            Checked::Overflow,
        ),
        (
            [Some(i16::MIN), None, Some(i16::MAX)].as_slice(),
            Checked::Sum(-1),
        ),
    ];
    assert_eq!(rt; first_wrong(rt.alloc(), &DataType::Int16, &cases), None);
}

#[test]
fn ends_of_32_bits_with_a_sign_are_told(rt: HostRuntime) {
    let cases = [
        (
            [Some(i32::MAX - 1), None, Some(1)].as_slice(),
            Checked::Sum(i32::MAX),
        ),
        (
            [Some(i32::MAX), None, Some(1)].as_slice(),
            Checked::Overflow,
        ),
        (
            [Some(i32::MIN + 1), None, Some(-1)].as_slice(),
            Checked::Sum(i32::MIN),
        ),
        (
            [Some(i32::MIN), None, Some(-1)].as_slice(),
            Checked::Overflow,
        ),
        (
            [Some(i32::MIN), None, Some(i32::MAX)].as_slice(),
            Checked::Sum(-1),
        ),
    ];
    assert_eq!(rt; first_wrong(rt.alloc(), &DataType::Int32, &cases), None);
}

#[test]
fn ends_of_64_bits_with_a_sign_are_told(rt: HostRuntime) {
    let cases = [
        (
            [Some(i64::MAX - 1), None, Some(1)].as_slice(),
            Checked::Sum(i64::MAX),
        ),
        (
            [Some(i64::MAX), None, Some(1)].as_slice(),
            Checked::Overflow,
        ),
        (
            [Some(i64::MIN + 1), None, Some(-1)].as_slice(),
            Checked::Sum(i64::MIN),
        ),
        (
            [Some(i64::MIN), None, Some(-1)].as_slice(),
            Checked::Overflow,
        ),
        (
            [Some(i64::MIN), None, Some(i64::MAX)].as_slice(),
            Checked::Sum(-1),
        ),
    ];
    assert_eq!(rt; first_wrong(rt.alloc(), &DataType::Int64, &cases), None);
}

#[test]
fn ends_of_128_bits_with_a_sign_are_told(rt: HostRuntime) {
    let cases = [
        (
            [Some(i128::MAX - 1), None, Some(1)].as_slice(),
            Checked::Sum(i128::MAX),
        ),
        (
            [Some(i128::MAX), None, Some(1)].as_slice(),
            Checked::Overflow,
        ),
        (
            [Some(i128::MIN + 1), None, Some(-1)].as_slice(),
            Checked::Sum(i128::MIN),
        ),
        (
            [Some(i128::MIN), None, Some(-1)].as_slice(),
            Checked::Overflow,
        ),
        (
            [Some(i128::MIN), None, Some(i128::MAX)].as_slice(),
            Checked::Sum(-1),
        ),
    ];
    assert_eq!(rt;
        first_wrong(rt.alloc(), &DataType::Decimal(38, 0), &cases),
        None
    );
}

#[test]
fn ends_of_8_bits_without_a_sign_are_told(rt: HostRuntime) {
    let cases = [
        (
            [Some(u8::MAX - 1), None, Some(1)].as_slice(),
            Checked::Sum(u8::MAX),
        ),
        ([Some(u8::MAX), None, Some(1)].as_slice(), Checked::Overflow),
        (
            [Some(u8::MAX), None, Some(u8::MAX)].as_slice(),
            Checked::Overflow,
        ),
        ([Some(0), None, Some(0)].as_slice(), Checked::Sum(0)),
    ];
    assert_eq!(rt; first_wrong(rt.alloc(), &DataType::UInt8, &cases), None);
}

#[test]
fn ends_of_16_bits_without_a_sign_are_told(rt: HostRuntime) {
    let cases = [
        (
            [Some(u16::MAX - 1), None, Some(1)].as_slice(),
            Checked::Sum(u16::MAX),
        ),
        (
            [Some(u16::MAX), None, Some(1)].as_slice(),
            Checked::Overflow,
        ),
        (
            [Some(u16::MAX), None, Some(u16::MAX)].as_slice(),
            Checked::Overflow,
        ),
        ([Some(0), None, Some(0)].as_slice(), Checked::Sum(0)),
    ];
    assert_eq!(rt; first_wrong(rt.alloc(), &DataType::UInt16, &cases), None);
}

#[test]
fn ends_of_32_bits_without_a_sign_are_told(rt: HostRuntime) {
    let cases = [
        (
            [Some(u32::MAX - 1), None, Some(1)].as_slice(),
            Checked::Sum(u32::MAX),
        ),
        (
            [Some(u32::MAX), None, Some(1)].as_slice(),
            Checked::Overflow,
        ),
        (
            [Some(u32::MAX), None, Some(u32::MAX)].as_slice(),
            Checked::Overflow,
        ),
        ([Some(0), None, Some(0)].as_slice(), Checked::Sum(0)),
    ];
    assert_eq!(rt; first_wrong(rt.alloc(), &DataType::UInt32, &cases), None);
}

#[test]
fn ends_of_64_bits_without_a_sign_are_told(rt: HostRuntime) {
    let cases = [
        (
            [Some(u64::MAX - 1), None, Some(1)].as_slice(),
            Checked::Sum(u64::MAX),
        ),
        (
            [Some(u64::MAX), None, Some(1)].as_slice(),
            Checked::Overflow,
        ),
        (
            [Some(u64::MAX), None, Some(u64::MAX)].as_slice(),
            Checked::Overflow,
        ),
        ([Some(0), None, Some(0)].as_slice(), Checked::Sum(0)),
    ];
    assert_eq!(rt; first_wrong(rt.alloc(), &DataType::UInt64, &cases), None);
}

// Slots of 128 bits, and their checked sum.
const WIDE: [([i128; 4], Checked<i128>); 5] = [
    ([i128::MAX, 1, -1, 0], Checked::Sum(i128::MAX)),
    ([i128::MIN, -1, 1, 0], Checked::Sum(i128::MIN)),
    (
        [i128::MAX, i128::MAX, i128::MIN, i128::MIN],
        Checked::Sum(-2),
    ),
    (
        [i128::MIN, i128::MIN, i128::MIN, i128::MIN],
        Checked::Overflow,
    ),
    ([i128::MAX, i128::MAX, 2, 0], Checked::Overflow),
];

#[test]
fn parts_of_a_sum_may_pass_128_bits(rt: HostRuntime) {
    for (values, wanted) in WIDE {
        let slots = values.map(Some);
        let sum = checked(rt.alloc(), &DataType::Decimal(38, 0), &slots);
        assert_eq!(rt; sum, Ok(wanted), "{values:?}");
    }
}
