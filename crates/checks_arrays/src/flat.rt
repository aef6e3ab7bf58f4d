//! Checks of `col_flat`: slots and masks, and which parts make an array.
use col_buf::{Bitmap, Buffer};
use col_flat::{MutablePrimitiveArray, PrimitiveArray, PrimitiveScalar, combine_validities};
use col_types::{DataType, Error, IntervalUnit, NativeType, Reason, TimeUnit, months_days_ns};
use std::alloc::Global;

const PARAMETERS: Error = Error::InvalidArgumentError(Reason::Parameters);

type Numbers = PrimitiveArray<i64>;

fn array_of(alloc: Global, slots: &[Option<i64>]) -> Result<Numbers, Error> {
    PrimitiveArray::from_options(alloc, DataType::Int64, slots)
}

fn buffer_of(alloc: Global, values: &[i64]) -> Result<Buffer<i64>, Error> {
    Buffer::from_vec(alloc, Vec::from_slice(alloc, values)?).map_err(|refused| refused.0)
}

// The mask of a text of 0s and 1s.
fn mask_of(alloc: Global, mask: &str) -> Result<Bitmap, Error> {
    let mut flags = Vec::new(alloc);
    for flag in mask.bytes() {
        flags.push(flag == b'1')?;
    }
    Bitmap::from_bools(alloc, flags.as_slice())
}

// Numbers beneath a mask, where there is one.
fn masked(
    data_type: DataType,
    values: Result<Buffer<i64>, Error>,
    mask: Option<Result<Bitmap, Error>>,
) -> Result<Numbers, Error> {
    match (values, mask) {
        (Ok(values), Some(Ok(mask))) => PrimitiveArray::try_new(data_type, values, Some(mask)),
        (Ok(values), None) => PrimitiveArray::try_new(data_type, values, None),
        _ => Err(Error::Memory),
    }
}

// How many slots are null.
fn null_count<T: NativeType>(slots: &[Option<T>]) -> usize {
    let mut count: usize = 0;
    for slot in slots {
        if slot.is_none() {
            count = count.saturating_add(1);
        }
    }
    count
}

// Whether an array tells these slots one by one.
fn tells<T: NativeType>(array: &PrimitiveArray<T>, slots: &[Option<T>]) -> bool {
    for i in 0..array.len() {
        match slots.get(i) {
            Some(slot) if array.get(i) == *slot && array.is_valid(i) == slot.is_some() => {}
            _ => return false,
        }
    }
    true
}

// Whether its iterator gives them.
fn gives<T: NativeType>(array: &PrimitiveArray<T>, slots: &[Option<T>]) -> bool {
    let mut rows = array.iter();
    for slot in slots {
        if rows.next() != Some(*slot) {
            return false;
        }
    }
    rows.next().is_none()
}

// Whether the slots of an array are these, as each reader tells them.
fn has_slots<T: NativeType>(array: &PrimitiveArray<T>, slots: &[Option<T>]) -> bool {
    let counts = [array.len(), array.null_count()];
    counts == [slots.len(), null_count(slots)] && tells(array, slots) && gives(array, slots)
}

// An array of these slots.
fn typed<T: NativeType>(
    alloc: Global,
    data_type: &DataType,
    slots: &[Option<T>],
) -> Result<PrimitiveArray<T>, Error> {
    PrimitiveArray::from_options(alloc, data_type.try_clone(alloc)?, slots)
}

// An array of nulls.
fn nulls_of<T: NativeType>(
    alloc: Global,
    data_type: &DataType,
    count: usize,
) -> Result<PrimitiveArray<T>, Error> {
    PrimitiveArray::new_null(alloc, data_type.try_clone(alloc)?, count)
}

// Whether another array was made, and is equal to one.
fn is_equal<T: NativeType>(
    array: &PrimitiveArray<T>,
    other: Result<PrimitiveArray<T>, Error>,
) -> Option<bool> {
    match other {
        Ok(other) => Some(array.equal(&other)),
        Err(_) => None,
    }
}

// Whether an array that was made has these slots.
fn is_made<T: NativeType>(made: Result<PrimitiveArray<T>, Error>, slots: &[Option<T>]) -> bool {
    match made {
        Ok(array) => has_slots(&array, slots),
        Err(_) => false,
    }
}

// The cut of an array that was made from row 1 on.
fn cut_of<T: NativeType>(
    made: Result<PrimitiveArray<T>, Error>,
) -> Result<PrimitiveArray<T>, Error> {
    match made {
        Ok(array) => {
            let count = array.len();
            if count == 0 {
                return Err(Error::OutOfSpec);
            }
            Ok(array.sliced(1, count - 1))
        }
        Err(error) => Err(error),
    }
}

// Whether an array has its slots, is equal to its copy and to no nulls, and its cut from row 1 on has
// the rest.
fn answers<T: NativeType>(
    alloc: Global,
    data_type: &DataType,
    slots: &[Option<T>],
    rest: &[Option<T>],
) -> bool {
    match typed(alloc, data_type, slots) {
        Ok(array) => {
            has_slots(&array, slots)
                && array.data_type().equal(data_type)
                && is_made(array.try_clone(alloc), slots)
                && is_equal(&array, array.try_clone(alloc)) == Some(true)
                && is_equal(&array, nulls_of(alloc, data_type, slots.len())) == Some(false)
                && is_made(cut_of(array.try_clone(alloc)), rest)
        }
        Err(_) => false,
    }
}

// A scalar.
fn scalar_of<T: NativeType>(
    alloc: Global,
    data_type: &DataType,
    value: Option<T>,
) -> Result<PrimitiveScalar<T>, Error> {
    PrimitiveScalar::new(data_type.try_clone(alloc)?, value)
}

// Whether a copy was made, and is equal to a scalar.
fn is_copy<T: NativeType>(
    scalar: &PrimitiveScalar<T>,
    copy: Result<PrimitiveScalar<T>, Error>,
) -> bool {
    match copy {
        Ok(copy) => scalar.equal(&copy),
        Err(_) => false,
    }
}

// Whether a scalar has its value, and is equal to its copy.
fn scalar_answers<T: NativeType>(alloc: Global, data_type: &DataType, value: Option<T>) -> bool {
    match scalar_of(alloc, data_type, value) {
        Ok(scalar) => {
            scalar.value() == value
                && scalar.is_valid() == value.is_some()
                && is_copy(&scalar, scalar.try_clone(alloc))
        }
        Err(_) => false,
    }
}

#[test]
fn each_call_of_col_flat_answers_with_ample_memory(rt: HostRuntime) {
    let alloc = rt.alloc();
    let byte = DataType::Int8;
    let slots = [Some(i8::MIN), None, Some(1)];
    assert!(rt; answers(alloc, &byte, &slots, &[None, Some(1)]), "bytes");
    assert!(rt; scalar_answers(alloc, &byte, Some(i8::MIN)), "a byte");
    assert!(rt; scalar_answers::<i8>(alloc, &byte, None), "a null of bytes");
    let interval = DataType::Interval(IntervalUnit::MonthDayNano);
    let span = months_days_ns::new(1, -2, 3);
    let slots = [None, Some(span), Some(span)];
    assert!(rt;
        answers(alloc, &interval, &slots, &[Some(span), Some(span)]),
        "spans"
    );
    assert!(rt; scalar_answers(alloc, &interval, Some(span)), "a span");
}

// An array of 7 and a null, pushed one by one.
fn pushed(alloc: Global) -> Result<Numbers, Error> {
    let mut slots = MutablePrimitiveArray::with_capacity(alloc, 1)?;
    slots.push(Some(7))?;
    slots.push(None)?;
    slots.into_array(alloc, DataType::Int64)
}

#[test]
fn slots_that_are_pushed_make_an_array(rt: HostRuntime) {
    assert!(rt;
        is_made(pushed(rt.alloc()), &[Some(7), None]),
        "7 and a null"
    );
}

// How many flags of a combined mask are false, where there is a mask.
fn unset_of(mask: Result<Option<Bitmap>, Error>) -> Result<Option<usize>, Error> {
    match mask {
        Ok(Some(mask)) => Ok(Some(mask.unset_bits())),
        Ok(None) => Ok(None),
        Err(error) => Err(error),
    }
}

// The same of one mask, where there is one, beside none, on the left and on the right.
fn unset_beside_none(alloc: Global, mask: &Bitmap) -> [Result<Option<usize>, Error>; 2] {
    [
        unset_of(combine_validities(alloc, Some(mask), None)),
        unset_of(combine_validities(alloc, None, Some(mask))),
    ]
}

// The same of two masks.
fn unset_of_both(alloc: Global, lhs: &Bitmap, rhs: &Bitmap) -> Result<Option<usize>, Error> {
    if lhs.len() != rhs.len() {
        return Err(Error::OutOfSpec);
    }
    unset_of(combine_validities(alloc, Some(lhs), Some(rhs)))
}

#[test]
fn masks_are_combined_where_there_are_any(rt: HostRuntime) -> Result<(), Error> {
    let left = mask_of(rt.alloc(), "0011")?;
    let right = mask_of(rt.alloc(), "0101")?;
    assert_eq!(rt;
        unset_of(combine_validities(rt.alloc(), None, None)),
        Ok(None),
        "none"
    );
    assert_eq!(rt;
        unset_beside_none(rt.alloc(), &left),
        [Ok(Some(2)); 2],
        "one"
    );
    assert_eq!(rt;
        unset_of_both(rt.alloc(), &left, &right),
        Ok(Some(3)),
        "both"
    );
    Ok(())
}

// Whether an array of two values beneath these flags has a mask, and how many nulls.
fn mask_of_flags(alloc: Global, flags: &[bool; 2]) -> Result<(bool, usize), Error> {
    let values = vec![in alloc; 7i64, 8]?;
    let array = PrimitiveArray::from_flags(alloc, DataType::Int64, values, flags)?;
    Ok((array.validity().is_some(), array.null_count()))
}

#[test]
fn where_no_flag_is_false_there_is_no_mask(rt: HostRuntime) {
    let cases = [([true, true], (false, 0)), ([true, false], (true, 1))];
    for (flags, wanted) in cases {
        assert_eq!(rt; mask_of_flags(rt.alloc(), &flags), Ok(wanted), "{flags:?}");
    }
}

#[test]
fn a_cut_of_a_cut_has_the_slots_from_its_row_on(rt: HostRuntime) {
    let slots = [Some(7), None, Some(9), Some(10)];
    let cut = cut_of(array_of(rt.alloc(), &slots));
    assert!(rt; is_made(cut, &slots[1..]), "from row 1 on");
    let cut = cut_of(cut_of(array_of(rt.alloc(), &slots)));
    assert!(rt; is_made(cut, &slots[2..]), "from row 2 on");
}

// Whether 1, a null and 3 are equal to these values beneath a mask.
fn are_equal(alloc: Global, values: &[i64], mask: &str) -> Option<bool> {
    let other = masked(
        DataType::Int64,
        buffer_of(alloc, values),
        Some(mask_of(alloc, mask)),
    );
    match array_of(alloc, &[Some(1), None, Some(3)]) {
        Ok(array) => is_equal(&array, other),
        Err(_) => None,
    }
}

#[test]
fn arrays_are_equal_where_slots_are(rt: HostRuntime) {
    let cases = [
        ([1, 0, 3].as_slice(), "101", true),
        ([1, -5, 3].as_slice(), "101", true),
        ([1, 5, 3].as_slice(), "111", false),
        ([1, 5, 3].as_slice(), "001", false),
        ([1, 5, 4].as_slice(), "101", false),
        ([1, 5].as_slice(), "10", false),
        ([1, 5, 3, 0].as_slice(), "1010", false),
    ];
    for (values, mask, wanted) in cases {
        let answer = are_equal(rt.alloc(), values, mask);
        assert_eq!(rt; answer, Some(wanted), "{values:?} beneath {mask}");
    }
}

// An array under another type.
fn under(made: Result<Numbers, Error>, data_type: DataType) -> Result<Numbers, Error> {
    match made {
        Ok(array) => array.to(data_type),
        Err(error) => Err(error),
    }
}

#[test]
fn arrays_of_two_types_differ(rt: HostRuntime) -> Result<(), Error> {
    let slots = [Some(1), None];
    let array = array_of(rt.alloc(), &slots)?;
    let span = under(
        array_of(rt.alloc(), &slots),
        DataType::Duration(TimeUnit::Second),
    );
    assert_eq!(rt;
        is_equal(&array, span),
        Some(false),
        "numbers and a duration"
    );
    Ok(())
}

// The refusals of a number, of a null, and of a number that is to have another type.
fn refusals_of(alloc: Global, data_type: &DataType) -> [Option<Error>; 3] {
    let other = match data_type.try_clone(alloc) {
        Ok(other) => under(array_of(alloc, &[Some(1)]), other),
        Err(error) => Err(Error::from(error)),
    };
    [
        typed(alloc, data_type, &[Some(1i64)]).err(),
        nulls_of::<i64>(alloc, data_type, 1).err(),
        other.err(),
    ]
}

#[test]
fn types_of_other_arrays_are_refused(rt: HostRuntime) {
    let cases = [
        (DataType::Int64, None),
        (DataType::Timestamp(TimeUnit::Second, None), None),
        (DataType::Boolean, Some(Error::OutOfSpec)),
        (DataType::Int32, Some(Error::OutOfSpec)),
        (DataType::Time64(TimeUnit::Second), Some(Error::OutOfSpec)),
        (DataType::Decimal(0, 0), Some(PARAMETERS)),
        (DataType::FixedSizeBinary(0), Some(PARAMETERS)),
    ];
    for (data_type, wanted) in &cases {
        assert_eq!(rt;
            refusals_of(rt.alloc(), data_type),
            [*wanted; 3],
            "{data_type:?}"
        );
    }
}

// The refusal of two numbers, beneath a mask where there is one.
fn refusal_of(alloc: Global, data_type: &DataType, mask: Option<&str>) -> Option<Error> {
    let values = buffer_of(alloc, &[7, 8]);
    let mask = match mask {
        Some(mask) => Some(mask_of(alloc, mask)),
        None => None,
    };
    match data_type.try_clone(alloc) {
        Ok(data_type) => masked(data_type, values, mask).err(),
        Err(error) => Some(Error::from(error)),
    }
}

#[test]
fn a_mask_of_another_length_is_refused_after_parameters(rt: HostRuntime) {
    let cases = [
        (DataType::Int64, None, None),
        (DataType::Int64, Some("01"), None),
        (DataType::Int64, Some("1"), Some(Error::OutOfSpec)),
        (DataType::Int64, Some("110"), Some(Error::OutOfSpec)),
        (DataType::Decimal(1, 2), Some("110"), Some(PARAMETERS)),
    ];
    for (data_type, mask, wanted) in &cases {
        let refusal = refusal_of(rt.alloc(), data_type, *mask);
        assert_eq!(rt; refusal, *wanted, "{data_type:?} beneath {mask:?}");
    }
}
