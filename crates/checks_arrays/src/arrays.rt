//! Checks of `col_array`: arrays and scalars of any type.
use col_array::{AnyArray, AnyScalar};
use col_flat::{PrimitiveArray, PrimitiveScalar};
use col_types::{DataType, Error, IntervalUnit, Reason, TimeUnit, days_ms};
use std::alloc::Global;

// An array of so many nulls of a type.
fn nulls_of(alloc: Global, data_type: &DataType, count: usize) -> Result<AnyArray, Error> {
    AnyArray::new_null(alloc, data_type.try_clone(alloc)?, count)
}

// Whether an array has so many slots of the type, all null.
fn is_null_throughout(array: &AnyArray, data_type: &DataType, count: usize) -> bool {
    let has_type = array.data_type().equal(data_type);
    let counts = [array.len(), array.null_count()];
    has_type && counts == [count, count]
}

// Whether another array was made, and is equal to one.
fn is_equal(array: &AnyArray, other: Result<AnyArray, Error>) -> Option<bool> {
    match other {
        Ok(other) => Some(array.equal(&other)),
        Err(_) => None,
    }
}

// Whether nulls of a type are told as such, and are equal to their copy.
fn answers_nulls(alloc: Global, data_type: &DataType) -> (bool, Option<bool>) {
    match nulls_of(alloc, data_type, 3) {
        Ok(nulls) => {
            let is_told = is_null_throughout(&nulls, data_type, 3);
            (is_told, is_equal(&nulls, nulls.try_clone(alloc)))
        }
        Err(_) => (false, None),
    }
}

#[test]
fn each_call_of_col_array_answers_with_ample_memory(rt: HostRuntime) {
    // a type of each native type
    let types = [
        DataType::Int8,
        DataType::Int16,
        DataType::Time32(TimeUnit::Second),
        DataType::Timestamp(TimeUnit::Second, None),
        DataType::Decimal(38, 38),
        DataType::UInt8,
        DataType::UInt16,
        DataType::UInt32,
        DataType::UInt64,
        DataType::Interval(IntervalUnit::DayTime),
        DataType::Interval(IntervalUnit::MonthDayNano),
    ];
    for data_type in &types {
        let answers = answers_nulls(rt.alloc(), data_type);
        assert_eq!(rt; answers, (true, Some(true)), "{data_type:?}");
    }
}

#[test]
fn types_without_arrays_are_refused(rt: HostRuntime) {
    let parameters = Error::InvalidArgumentError(Reason::Parameters);
    let cases = [
        (DataType::Null, Error::OutOfSpec),
        (DataType::Boolean, Error::OutOfSpec),
        (DataType::LargeUtf8, Error::OutOfSpec),
        (DataType::Time32(TimeUnit::Nanosecond), Error::OutOfSpec),
        (DataType::FixedSizeBinary(0), parameters),
        (DataType::Decimal(39, 0), parameters),
    ];
    for (data_type, wanted) in &cases {
        let refusal = nulls_of(rt.alloc(), data_type, 1).err();
        assert_eq!(rt; refusal, Some(*wanted), "{data_type:?}");
    }
}

// Whether two nulls of one type are equal to two nulls of another.
fn are_equal(alloc: Global, lhs: &DataType, rhs: &DataType) -> Option<bool> {
    match nulls_of(alloc, lhs, 2) {
        Ok(nulls) => is_equal(&nulls, nulls_of(alloc, rhs, 2)),
        Err(_) => None,
    }
}

#[test]
fn arrays_are_told_apart_by_type(rt: HostRuntime) {
    let types = [DataType::Int64, DataType::Date64, DataType::UInt64];
    for (i, lhs) in types.iter().enumerate() {
        for (j, rhs) in types.iter().enumerate() {
            let answer = are_equal(rt.alloc(), lhs, rhs);
            assert_eq!(rt; answer, Some(i == j), "{lhs:?} and {rhs:?}");
        }
    }
}

// The slots of an array of any type, and how many of them are null.
fn counts(array: AnyArray) -> (usize, usize) {
    (array.len(), array.null_count())
}

// The counts of an array of two numbers and a null.
fn counts_of_numbers(alloc: Global) -> Result<(usize, usize), Error> {
    let slots = [Some(7u8), None, Some(9)];
    let array = PrimitiveArray::from_options(alloc, DataType::UInt8, &slots)?;
    Ok(counts(AnyArray::from(array)))
}

// The counts of an array of a span.
fn counts_of_spans(alloc: Global) -> Result<(usize, usize), Error> {
    let data_type = DataType::Interval(IntervalUnit::DayTime);
    let array = PrimitiveArray::from_options(alloc, data_type, &[Some(days_ms::new(0, 2))])?;
    Ok(counts(AnyArray::from(array)))
}

#[test]
fn typed_arrays_are_arrays_of_any_type(rt: HostRuntime) {
    assert_eq!(rt; counts_of_numbers(rt.alloc()), Ok((3, 1)), "numbers");
    assert_eq!(rt; counts_of_spans(rt.alloc()), Ok((1, 0)), "a span");
}

// A scalar.
#[derive(Clone, Copy, Debug)]
enum Value {
    Long(Option<i64>),
    Byte(Option<u8>),
}

fn scalar_of(value: Value) -> Result<AnyScalar, Error> {
    match value {
        Value::Long(value) => {
            Ok(AnyScalar::Int64(PrimitiveScalar::new(DataType::Int64, value)?))
        }
        Value::Byte(value) => {
            Ok(AnyScalar::UInt8(PrimitiveScalar::new(DataType::UInt8, value)?))
        }
    }
}

// Whether another scalar was made, and has the type, the validity and the value of one.
fn is_same(scalar: &AnyScalar, other: Result<AnyScalar, Error>) -> Option<[bool; 3]> {
    match other {
        Ok(other) => Some([
            other.data_type().equal(scalar.data_type()),
            other.is_valid() == scalar.is_valid(),
            other.equal(scalar),
        ]),
        Err(_) => None,
    }
}

fn is_copied(alloc: Global, value: Value) -> Option<[bool; 3]> {
    match scalar_of(value) {
        Ok(scalar) => is_same(&scalar, scalar.try_clone(alloc)),
        Err(_) => None,
    }
}

fn are_same(lhs: Value, rhs: Value) -> Option<[bool; 3]> {
    match scalar_of(lhs) {
        Ok(lhs) => is_same(&lhs, scalar_of(rhs)),
        Err(_) => None,
    }
}

#[test]
fn scalars_are_equal_where_types_and_values_are(rt: HostRuntime) {
    // two scalars, and whether they have one type, and are both valid or both null
    let cases = [
        (Value::Long(Some(5)), Value::Long(None), true, false),
        (Value::Long(Some(5)), Value::Long(Some(6)), true, true),
        (Value::Long(None), Value::Byte(None), false, true),
        (Value::Byte(Some(5)), Value::Long(Some(5)), false, true),
    ];
    for (lhs, rhs, has_type, has_validity) in cases {
        let wanted = Some([has_type, has_validity, false]);
        assert_eq!(rt; are_same(lhs, rhs), wanted, "{lhs:?} and {rhs:?}");
        assert_eq!(rt; are_same(rhs, lhs), wanted, "{rhs:?} and {lhs:?}");
        assert_eq!(rt; is_copied(rt.alloc(), lhs), Some([true; 3]), "{lhs:?}");
        assert_eq!(rt; is_copied(rt.alloc(), rhs), Some([true; 3]), "{rhs:?}");
    }
}
