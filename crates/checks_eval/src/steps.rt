//! Checks of `col_eval`: the kernels on arrays of any type. What trees give is shown by documents.
use col_array::{AnyArray, AnyScalar};
use col_eval::{
    add, add_scalar, can_add, can_div, can_mul, can_neg, can_rem, can_sub, div, div_scalar, mul,
    mul_scalar, neg, rem, sub, sub_scalar,
};
use col_flat::{PrimitiveArray, PrimitiveScalar};
use col_types::{DataType, Error, IntervalUnit, TimeUnit};
use std::alloc::Global;

// A column of numbers of 64 bits.
fn column_of(alloc: Global, slots: &[Option<i64>]) -> Result<AnyArray, Error> {
    Ok(AnyArray::from(PrimitiveArray::from_options(alloc, DataType::Int64, slots)?))
}

fn byte_of(alloc: Global, slot: Option<i8>) -> Result<AnyArray, Error> {
    Ok(AnyArray::from(PrimitiveArray::from_options(alloc, DataType::Int8, &[slot])?))
}

fn long_of(alloc: Global, slot: Option<u64>) -> Result<AnyArray, Error> {
    Ok(AnyArray::from(PrimitiveArray::from_options(alloc, DataType::UInt64, &[slot])?))
}

// One row of 6 as whole numbers of three types, as a duration, and as nulls of an interval.
fn sixes(alloc: Global) -> Result<Vec<AnyArray>, Error> {
    let mut columns = Vec::with_capacity(alloc, 5)?;
    columns.push(byte_of(alloc, Some(6))?)?;
    columns.push(column_of(alloc, &[Some(6)])?)?;
    columns.push(long_of(alloc, Some(6))?)?;
    let duration = DataType::Duration(TimeUnit::Second);
    columns.push(AnyArray::from(PrimitiveArray::from_options(alloc, duration, &[Some(6i64)])?))?;
    columns.push(AnyArray::new_null(alloc, DataType::Interval(IntervalUnit::DayTime), 1)?)?;
    Ok(columns)
}

// How the five kernels on two arrays refuse them, where they do.
fn refusals_of(alloc: Global, lhs: &AnyArray, rhs: &AnyArray) -> [Option<Error>; 5] {
    [
        add(alloc, lhs, rhs).err(),
        sub(alloc, lhs, rhs).err(),
        mul(alloc, lhs, rhs).err(),
        div(alloc, lhs, rhs).err(),
        rem(alloc, lhs, rhs).err(),
    ]
}

// What the five tests tell of two types.
fn told_of(lhs: &DataType, rhs: &DataType) -> [bool; 5] {
    [
        can_add(lhs, rhs),
        can_sub(lhs, rhs),
        can_mul(lhs, rhs),
        can_div(lhs, rhs),
        can_rem(lhs, rhs),
    ]
}

#[test]
fn kernels_take_what_their_tests_tell(rt: HostRuntime) -> Result<(), Error> {
    let columns = sixes(rt.alloc())?;
    for (i, lhs) in columns.iter().enumerate() {
        for (j, rhs) in columns.iter().enumerate() {
            let is_taken = i == j && i < 3;
            let refusal = if is_taken {
                None
            } else {
                Some(Error::NotYetImplemented)
            };
            let told = told_of(lhs.data_type(), rhs.data_type());
            assert_eq!(rt; told, [is_taken; 5], "types {i} and {j}");
            let refusals = refusals_of(rt.alloc(), lhs, rhs);
            assert_eq!(rt; refusals, [refusal; 5], "types {i} and {j}");
        }
    }
    Ok(())
}

type Slots<'a> = &'a [Option<i64>];

// Whether an array has these slots.
fn has_slots(alloc: Global, array: &AnyArray, wanted: Slots) -> Result<bool, Error> {
    Ok(array.equal(&column_of(alloc, wanted)?))
}

// Whether a call answered these slots.
fn answers(alloc: Global, answer: Result<AnyArray, Error>, wanted: Slots) -> Result<bool, Error> {
    match answer {
        Ok(array) => has_slots(alloc, &array, wanted),
        Err(error) => Err(error),
    }
}

// Whether the five kernels on two arrays answer these slots.
fn five_answer(
    alloc: Global,
    lhs: &AnyArray,
    rhs: &AnyArray,
    wanted: [Slots; 5],
) -> Result<[bool; 5], Error> {
    let is_sum = answers(alloc, add(alloc, lhs, rhs), wanted[0])?;
    let is_difference = answers(alloc, sub(alloc, lhs, rhs), wanted[1])?;
    let is_product = answers(alloc, mul(alloc, lhs, rhs), wanted[2])?;
    let is_quotient = answers(alloc, div(alloc, lhs, rhs), wanted[3])?;
    let is_remainder = answers(alloc, rem(alloc, lhs, rhs), wanted[4])?;
    Ok([is_sum, is_difference, is_product, is_quotient, is_remainder])
}

#[test]
fn kernels_answer_on_arrays_of_any_type(rt: HostRuntime) -> Result<(), Error> {
    let alloc = rt.alloc();
    let lhs = column_of(alloc, &[Some(-7), None, Some(6)])?;
    let rhs = column_of(alloc, &[Some(2), Some(0), Some(3)])?;
    let wanted = [
        [Some(-5), None, Some(9)].as_slice(),
        [Some(-9), None, Some(3)].as_slice(),
        [Some(-14), None, Some(18)].as_slice(),
        [Some(-3), None, Some(2)].as_slice(),
        [Some(-1), None, Some(0)].as_slice(),
    ];
    assert_eq!(rt; five_answer(alloc, &lhs, &rhs, wanted)?, [true; 5]);
    Ok(())
}

// Whether the four kernels on an array and a scalar answer these slots.
fn four_answer(
    alloc: Global,
    lhs: &AnyArray,
    rhs: &AnyScalar,
    wanted: [Slots; 4],
) -> Result<[bool; 4], Error> {
    let is_sum = answers(alloc, add_scalar(alloc, lhs, rhs), wanted[0])?;
    let is_difference = answers(alloc, sub_scalar(alloc, lhs, rhs), wanted[1])?;
    let is_product = answers(alloc, mul_scalar(alloc, lhs, rhs), wanted[2])?;
    let is_quotient = answers(alloc, div_scalar(alloc, lhs, rhs), wanted[3])?;
    Ok([is_sum, is_difference, is_product, is_quotient])
}

// A scalar of 64 bits.
fn scalar_of(number: Option<i64>) -> Result<AnyScalar, Error> {
    Ok(AnyScalar::Int64(PrimitiveScalar::new(DataType::Int64, number)?))
}

#[test]
fn kernels_answer_on_an_array_and_a_number(rt: HostRuntime) -> Result<(), Error> {
    let alloc = rt.alloc();
    let lhs = column_of(alloc, &[Some(-7), None, Some(6)])?;
    let rhs = scalar_of(Some(2))?;
    let wanted = [
        [Some(-5), None, Some(8)].as_slice(),
        [Some(-9), None, Some(4)].as_slice(),
        [Some(-14), None, Some(12)].as_slice(),
        [Some(-3), None, Some(3)].as_slice(),
    ];
    assert_eq!(rt; four_answer(alloc, &lhs, &rhs, wanted)?, [true; 4]);
    Ok(())
}

#[test]
fn kernels_answer_on_an_array_and_a_null(rt: HostRuntime) -> Result<(), Error> {
    let alloc = rt.alloc();
    let lhs = column_of(alloc, &[Some(-7), None, Some(6)])?;
    let rhs = scalar_of(None)?;
    let nulls = [None; 3];
    let wanted = [
        nulls.as_slice(),
        nulls.as_slice(),
        nulls.as_slice(),
        nulls.as_slice(),
    ];
    assert_eq!(rt; four_answer(alloc, &lhs, &rhs, wanted)?, [true; 4]);
    Ok(())
}

// Whether the negatives of some slots are these slots.
fn are_negatives(alloc: Global, slots: Slots, wanted: Slots) -> Result<bool, Error> {
    let array = column_of(alloc, slots)?;
    answers(alloc, neg(alloc, &array), wanted)
}

#[test]
fn negatives_of_numbers(rt: HostRuntime) -> Result<(), Error> {
    let slots = [Some(-7), None, Some(6)];
    assert!(rt; are_negatives(rt.alloc(), &slots, &[Some(7), None, Some(-6)])?);
    Ok(())
}

// A type of each of the seven native types that have negatives.
fn signed_type(i: usize) -> DataType {
    match i {
        0 => DataType::Int8,
        1 => DataType::Int16,
        2 => DataType::Date32,
        3 => DataType::Timestamp(TimeUnit::Second, None),
        4 => DataType::Decimal(38, 0),
        5 => DataType::Interval(IntervalUnit::DayTime),
        _ => DataType::Interval(IntervalUnit::MonthDayNano),
    }
}

// Whether an array is its own negative.
fn is_own_negative(alloc: Global, array: &AnyArray) -> bool {
    match neg(alloc, array) {
        Ok(negatives) => negatives.equal(array),
        Err(_) => false,
    }
}

#[test]
fn nulls_of_each_signed_type_have_negatives(rt: HostRuntime) -> Result<(), Error> {
    for i in 0..7 {
        let nulls = AnyArray::new_null(rt.alloc(), signed_type(i), 2)?;
        assert!(rt; can_neg(nulls.data_type()), "type {i}");
        assert!(rt; is_own_negative(rt.alloc(), &nulls), "type {i}");
    }
    Ok(())
}

// How a negation is refused, where it is.
fn refusal_of_negatives(alloc: Global, array: &AnyArray) -> Option<Error> {
    neg(alloc, array).err()
}

#[test]
fn the_least_number_has_no_negative(rt: HostRuntime) -> Result<(), Error> {
    let least = byte_of(rt.alloc(), Some(-128))?;
    assert_eq!(rt;
        refusal_of_negatives(rt.alloc(), &least),
        Some(Error::Overflow)
    );
    Ok(())
}

#[test]
fn numbers_without_a_sign_have_no_negative(rt: HostRuntime) -> Result<(), Error> {
    let unsigned = long_of(rt.alloc(), Some(0))?;
    let refusal = refusal_of_negatives(rt.alloc(), &unsigned);
    assert_eq!(rt; refusal, Some(Error::NotYetImplemented));
    assert!(rt; !can_neg(unsigned.data_type()));
    Ok(())
}

#[test]
fn a_type_that_is_not_carried_has_no_negatives(rt: HostRuntime) {
    assert!(rt; !can_neg(&DataType::Time32(TimeUnit::Microsecond)));
}
