//! Checks of sums of arrays of any type: the type stays, and intervals of several fields are
//! refused.
use col_array::{AnyArray, AnyScalar};
use col_flat::PrimitiveArray;
use col_reduce::{can_sum, sum};
use col_types::{DataType, Error, IntegerType, IntervalUnit, Reason, TimeUnit};
use std::alloc::Global;

// The sum of an array, which is let go.
fn sum_of(alloc: Global, array: AnyArray) -> Result<AnyScalar, Error> {
    sum(alloc, &array)
}

fn sum_i8(alloc: Global, data_type: &DataType, slots: &[Option<i8>]) -> Result<AnyScalar, Error> {
    let data_type = data_type.try_clone(alloc)?;
    let array = PrimitiveArray::from_options(alloc, data_type, slots)?;
    sum_of(alloc, AnyArray::Int8(array))
}

// Whether a scalar has the type and the value.
fn is_i8(scalar: &AnyScalar, data_type: &DataType, value: Option<i8>) -> bool {
    match scalar {
        AnyScalar::Int8(scalar) => scalar.data_type().equal(data_type) && scalar.value() == value,
        _ => false,
    }
}

// Whether the sum of slots has the type and the value.
fn is_sum_i8(
    alloc: Global,
    data_type: &DataType,
    slots: &[Option<i8>],
    value: Option<i8>,
) -> Result<bool, Error> {
    let total = sum_i8(alloc, data_type, slots)?;
    Ok(is_i8(&total, data_type, value))
}

fn sum_i32(alloc: Global, data_type: &DataType, slots: &[Option<i32>]) -> Result<AnyScalar, Error> {
    let data_type = data_type.try_clone(alloc)?;
    let array = PrimitiveArray::from_options(alloc, data_type, slots)?;
    sum_of(alloc, AnyArray::Int32(array))
}

// Whether a scalar has the type and the value.
fn is_i32(scalar: &AnyScalar, data_type: &DataType, value: Option<i32>) -> bool {
    match scalar {
        AnyScalar::Int32(scalar) => scalar.data_type().equal(data_type) && scalar.value() == value,
        _ => false,
    }
}

// Whether the sum of slots has the type and the value.
fn is_sum_i32(
    alloc: Global,
    data_type: &DataType,
    slots: &[Option<i32>],
    value: Option<i32>,
) -> Result<bool, Error> {
    let total = sum_i32(alloc, data_type, slots)?;
    Ok(is_i32(&total, data_type, value))
}

fn sum_i128(
    alloc: Global,
    data_type: &DataType,
    slots: &[Option<i128>],
) -> Result<AnyScalar, Error> {
    let data_type = data_type.try_clone(alloc)?;
    let array = PrimitiveArray::from_options(alloc, data_type, slots)?;
    sum_of(alloc, AnyArray::Int128(array))
}

// Whether a scalar has the type and the value.
fn is_i128(scalar: &AnyScalar, data_type: &DataType, value: Option<i128>) -> bool {
    match scalar {
        AnyScalar::Int128(scalar) => scalar.data_type().equal(data_type) && scalar.value() == value,
        _ => false,
    }
}

// Whether the sum of slots has the type and the value.
fn is_sum_i128(
    alloc: Global,
    data_type: &DataType,
    slots: &[Option<i128>],
    value: Option<i128>,
) -> Result<bool, Error> {
    let total = sum_i128(alloc, data_type, slots)?;
    Ok(is_i128(&total, data_type, value))
}

#[test]
fn sums_of_whole_numbers_wrap(rt: HostRuntime) -> Result<(), Error> {
    let alloc = rt.alloc();
    assert!(rt;
        is_sum_i8(
            alloc,
            &DataType::Int8,
            &[Some(100), Some(100), None],
            Some(-56)
        )?
    );
    assert!(rt; is_sum_i8(alloc, &DataType::Int8, &[], None)?);
    assert!(rt; is_sum_i8(alloc, &DataType::Int8, &[None], None)?);
    Ok(())
}

#[test]
fn types_of_32_bits_stay(rt: HostRuntime) -> Result<(), Error> {
    let types = [
        DataType::Int32,
        DataType::Date32,
        DataType::Time32(TimeUnit::Millisecond),
        DataType::Interval(IntervalUnit::YearMonth),
    ];
    let slots = [Some(1), Some(2), Some(3), Some(4), Some(5)];
    for data_type in &types {
        assert!(rt;
            is_sum_i32(rt.alloc(), data_type, &slots, Some(15))?,
            "{data_type:?}"
        );
    }
    Ok(())
}

#[test]
fn sums_of_decimals_may_pass_their_precision(rt: HostRuntime) -> Result<(), Error> {
    let alloc = rt.alloc();
    let two_digits = DataType::Decimal(2, 1);
    assert!(rt; is_sum_i128(alloc, &two_digits, &[Some(99), None, Some(1)], Some(100))?);
    let most = [Some(i128::MAX), Some(1)];
    assert!(rt; is_sum_i128(alloc, &two_digits, &most, Some(i128::MIN))?);
    Ok(())
}

// The refusal of nulls of a type, if they are refused.
fn refusal(alloc: Global, unit: IntervalUnit, count: usize) -> Result<Option<Error>, Error> {
    let array = AnyArray::new_null(alloc, DataType::Interval(unit), count)?;
    Ok(sum_of(alloc, array).err())
}

#[test]
fn intervals_of_several_fields_are_refused(rt: HostRuntime) -> Result<(), Error> {
    let refused = Some(Error::InvalidArgumentError(Reason::SumType));
    for count in [0, 2] {
        assert_eq!(rt; refusal(rt.alloc(), IntervalUnit::DayTime, count)?, refused);
        assert_eq!(rt;
            refusal(rt.alloc(), IntervalUnit::MonthDayNano, count)?,
            refused
        );
        assert_eq!(rt; refusal(rt.alloc(), IntervalUnit::YearMonth, count)?, None);
    }
    Ok(())
}

// Whether the sum of nulls of a type is a null of the type.
fn is_null_sum(alloc: Global, data_type: &DataType) -> Result<bool, Error> {
    let nulls = AnyArray::new_null(alloc, data_type.try_clone(alloc)?, 2)?;
    let total = sum_of(alloc, nulls)?;
    Ok(total.data_type().equal(data_type) && !total.is_valid())
}

#[test]
fn types_of_single_numbers_are_summed(rt: HostRuntime) -> Result<(), Error> {
    let types = [
        DataType::Int8,
        DataType::Int16,
        DataType::Int32,
        DataType::Int64,
        DataType::UInt8,
        DataType::UInt16,
        DataType::UInt32,
        DataType::UInt64,
        DataType::Date32,
        DataType::Date64,
        DataType::Time32(TimeUnit::Second),
        DataType::Time64(TimeUnit::Nanosecond),
        DataType::Timestamp(TimeUnit::Second, None),
        DataType::Duration(TimeUnit::Microsecond),
        DataType::Interval(IntervalUnit::YearMonth),
        DataType::Decimal(38, 38),
    ];
    for data_type in &types {
        assert!(rt; can_sum(data_type), "{data_type:?}");
        assert!(rt; is_null_sum(rt.alloc(), data_type)?, "{data_type:?}");
    }
    Ok(())
}

#[test]
fn other_types_are_not_summed(rt: HostRuntime) {
    let types = [
        DataType::Null,
        DataType::Boolean,
        DataType::Binary,
        DataType::FixedSizeBinary(4),
        DataType::LargeBinary,
        DataType::Utf8,
        DataType::LargeUtf8,
        DataType::Interval(IntervalUnit::DayTime),
        DataType::Interval(IntervalUnit::MonthDayNano),
    ];
    for data_type in &types {
        assert!(rt; !can_sum(data_type), "{data_type:?}");
    }
}

// Whether dictionaries of whole numbers are summed.
fn sums_dictionaries(alloc: Global) -> Result<bool, Error> {
    let values = Box::new(alloc, DataType::Int32)?;
    Ok(can_sum(&DataType::Dictionary(IntegerType::Int8, values, false)))
}

#[test]
fn dictionaries_are_not_summed(rt: HostRuntime) -> Result<(), Error> {
    assert!(rt; !sums_dictionaries(rt.alloc())?);
    Ok(())
}
