//! Checks of sums beneath masks that are longer than a word, and beneath cuts of them.
use col_buf::{Bitmap, Buffer};
use col_flat::PrimitiveArray;
use col_reduce::{Checked, sum_checked, sum_primitive};
use col_types::{DataType, Error};
use std::alloc::Global;

type Numbers = PrimitiveArray<i64>;

// What is stored beneath a null.
const BENEATH: i64 = 1000000;

// A total and a checked sum.
fn totals(array: &Numbers) -> (Option<i64>, Checked<i64>) {
    (sum_primitive(array), sum_checked(array))
}

// Rows whose numbers are their places, and null where the place divided by 50 leaves 7.
fn places(alloc: Global, count: u32) -> Result<Numbers, Error> {
    let mut values = Vec::new(alloc);
    let mut flags = Vec::new(alloc);
    for i in 0..count {
        let is_valid = i % 50 != 7;
        values.push(if is_valid { i as i64 } else { BENEATH })?;
        flags.push(is_valid)?;
    }
    PrimitiveArray::from_flags(alloc, DataType::Int64, values, flags.as_slice())
}

// So many rows, their sum, and their sum without the first three rows.
const SUMS: [(u32, i64, i64); 8] = [
    (8, 21, 18),
    (63, 1889, 1886),
    (64, 1952, 1949),
    (65, 2016, 2013),
    (127, 7830, 7827),
    (128, 7957, 7954),
    (129, 8085, 8082),
    (1000, 489860, 489857),
];

// The totals of so many rows.
fn totals_of_places(alloc: Global, count: u32) -> Result<(Option<i64>, Checked<i64>), Error> {
    let array = places(alloc, count)?;
    Ok(totals(&array))
}

// The totals of so many rows without the first three.
fn totals_of_cut(alloc: Global, count: u32) -> Result<(Option<i64>, Checked<i64>), Error> {
    let array = places(alloc, count)?;
    let length = array.len();
    if length < 3 {
        return Err(Error::OutOfSpec);
    }
    let cut = array.sliced(3, length - 3);
    Ok(totals(&cut))
}

#[test]
fn masks_are_read_at_the_edges_of_words(rt: HostRuntime) -> Result<(), Error> {
    for (count, all, cut) in SUMS {
        let wanted = (Some(all), Checked::Sum(all));
        assert_eq!(rt;
            totals_of_places(rt.alloc(), count)?,
            wanted,
            "{count} rows"
        );
        let wanted = (Some(cut), Checked::Sum(cut));
        assert_eq!(rt;
            totals_of_cut(rt.alloc(), count)?,
            wanted,
            "{count} rows, cut"
        );
    }
    Ok(())
}

// The totals of 200 rows whose numbers are their places, beneath a mask that has the flag of one
// row apart from the others.
fn totals_beside_one(
    alloc: Global,
    row: usize,
    flag: bool,
) -> Result<(Option<i64>, Checked<i64>), Error> {
    let mut values = Vec::new(alloc);
    let mut flags = Vec::new(alloc);
    for i in 0..200usize {
        values.push(i as i64)?;
        flags.push((i == row) == flag)?;
    }
    let values = Buffer::from_vec(alloc, values).map_err(|refused| refused.0)?;
    let mask = Bitmap::from_bools(alloc, flags.as_slice())?;
    let array = PrimitiveArray::try_new(DataType::Int64, values, Some(mask))?;
    Ok(totals(&array))
}

#[test]
fn words_of_one_kind_are_summed(rt: HostRuntime) -> Result<(), Error> {
    // a row, whether it alone is valid or it alone is null, and the sum
    let cases = [
        (130, false, 19770),
        (130, true, 130),
        (0, true, 0),
        (63, true, 63),
        (64, true, 64),
        (199, false, 19701),
        (200, false, 19900),
    ];
    for (row, flag, sum) in cases {
        let wanted = (Some(sum), Checked::Sum(sum));
        assert_eq!(rt;
            totals_beside_one(rt.alloc(), row, flag)?,
            wanted,
            "row {row}"
        );
    }
    let wanted = (None, Checked::NoValue);
    assert_eq!(rt; totals_beside_one(rt.alloc(), 200, true)?, wanted);
    Ok(())
}

// The totals of 100, null and 100, behind three rows that are cut off.
fn wrapped_cut(alloc: Global) -> Result<(Option<i8>, Checked<i8>), Error> {
    let mut slots = Vec::new(alloc);
    for i in 0..6 {
        slots.push(if i == 4 { None } else { Some(100) })?;
    }
    let array = PrimitiveArray::from_options(alloc, DataType::Int8, slots.as_slice())?;
    if array.len() != 6 {
        return Err(Error::OutOfSpec);
    }
    let cut = array.sliced(3, 3);
    Ok((sum_primitive(&cut), sum_checked(&cut)))
}

#[test]
fn a_cut_at_the_third_bit_wraps(rt: HostRuntime) -> Result<(), Error> {
    assert_eq!(rt; wrapped_cut(rt.alloc())?, (Some(-56), Checked::Overflow));
    Ok(())
}

// The totals of many times the greatest number of 64 bits.
fn totals_past_64_bits(alloc: Global) -> Result<(Option<u64>, Checked<u64>), Error> {
    let mut values = Vec::new(alloc);
    let mut flags = Vec::new(alloc);
    for _ in 0..1000000 {
        values.push(u64::MAX)?;
        flags.push(true)?;
    }
    let array = PrimitiveArray::from_flags(alloc, DataType::UInt64, values, flags.as_slice())?;
    Ok((sum_primitive(&array), sum_checked(&array)))
}

#[test]
fn a_million_rows_pass_64_bits(rt: HostRuntime) -> Result<(), Error> {
    let wanted = (Some(18446744073708551616), Checked::Overflow);
    assert_eq!(rt; totals_past_64_bits(rt.alloc())?, wanted);
    Ok(())
}
