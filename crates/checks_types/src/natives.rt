//! The members of the native types, at the ends of each and on both kinds of whole numbers.
use col_types::{
    DictionaryKey, IntegerType, NativeArithmetics, NativeNegate, NativeWhole, Offset, days_ms,
    months_days_ns,
};

// The number of a value.
fn number<T: NativeWhole>(value: Option<T>) -> Option<i128> {
    match value {
        Some(value) => Some(value.to_i128()),
        None => None,
    }
}

// The number, read into a type and out of it.
fn kept<T: NativeWhole>(n: i128) -> Option<i128> {
    number(T::from_i128(n))
}

// Whether a type has the numbers from `least` to `greatest`, and none past them.
fn has_ends<T: NativeWhole>(least: i128, greatest: i128) -> bool {
    kept::<T>(least) == Some(least)
        && kept::<T>(greatest) == Some(greatest)
        && (least == i128::MIN || kept::<T>(least.wrapping_sub(1)) == None)
        && (greatest == i128::MAX || kept::<T>(greatest.wrapping_add(1)) == None)
        && T::zero().to_i128() == 0
}

#[test]
fn a_whole_number_is_read_where_it_fits(rt: HostRuntime) {
    let cases = [
        ("i8", has_ends::<i8>(-128, 127)),
        ("i16", has_ends::<i16>(-32768, 32767)),
        ("i32", has_ends::<i32>(-2147483648, 2147483647)),
        (
            "i64",
            has_ends::<i64>(-9223372036854775808, 9223372036854775807),
        ),
        ("i128", has_ends::<i128>(i128::MIN, i128::MAX)),
        ("u8", has_ends::<u8>(0, 255)),
        ("u16", has_ends::<u16>(0, 65535)),
        ("u32", has_ends::<u32>(0, 4294967295)),
        ("u64", has_ends::<u64>(0, 18446744073709551615)),
    ];
    for (name, has_its_ends) in cases {
        assert!(rt; has_its_ends, "{name}");
    }
}

// The bits in either, in just one and in both of two numbers, and those that the first lacks.
fn bits<T: NativeWhole>(a: i128, b: i128) -> Option<[i128; 4]> {
    let lhs = T::from_i128(a)?;
    let rhs = T::from_i128(b)?;
    let either = lhs.bit_or(rhs).to_i128();
    let one = lhs.bit_xor(rhs).to_i128();
    let both = lhs.bit_and(rhs).to_i128();
    Some([either, one, both, lhs.bit_not().to_i128()])
}

#[test]
fn bits_are_those_of_twos_complement(rt: HostRuntime) {
    let cases = [
        (bits::<i8>(-128, 1), Some([-127, -127, 0, 127])),
        (bits::<i8>(-1, 127), Some([-1, -128, 127, 0])),
        (bits::<u8>(255, 1), Some([255, 254, 1, 0])),
        (bits::<u8>(12, 10), Some([14, 6, 8, 243])),
        (bits::<u8>(256, 10), None),
    ];
    for (row, (answer, wanted)) in cases.iter().enumerate() {
        assert_eq!(rt; answer, wanted, "case {row}");
    }
}

// The checked and the wrapping negative of a number.
fn negative<T: NativeWhole + NativeNegate>(n: i128) -> Option<(Option<i128>, i128)> {
    let value = T::from_i128(n)?;
    Some((number(value.neg_checked()), value.neg_wrapped().to_i128()))
}

#[test]
fn a_negative_that_does_not_fit_is_none(rt: HostRuntime) {
    let cases = [
        (negative::<i8>(-128), None, -128),
        (negative::<i8>(-127), Some(127), 127),
        (negative::<i8>(1), Some(-1), -1),
        (negative::<i128>(i128::MIN), None, i128::MIN),
        (negative::<u64>(0), Some(0), 0),
        (negative::<u64>(1), None, 18446744073709551615),
        (negative::<u64>(18446744073709551615), None, 1),
    ];
    for (row, (answer, checked, wrapped)) in cases.iter().enumerate() {
        assert_eq!(rt; *answer, Some((*checked, *wrapped)), "case {row}");
    }
}

#[test]
fn a_span_is_negated_in_each_part(rt: HostRuntime) {
    // the parts of a span, and those of its negative where they fit
    let cases = [
        ((2, -3), Some((-2, 3))),
        ((i32::MIN, 1), None),
        ((2, i32::MIN), None),
    ];
    for ((days, milliseconds), wanted) in cases {
        let negative = days_ms::new(days, milliseconds).neg_checked();
        let parts = negative.map(|span| (span.days(), span.milliseconds()));
        assert_eq!(rt; parts, wanted, "{days} and {milliseconds}");
    }
    let least = months_days_ns::new(1, 2, i64::MIN);
    assert_eq!(rt; least.neg_checked(), None, "least nanoseconds");
    assert_eq!(rt;
        least.neg_wrapped(),
        months_days_ns::new(-1, -2, i64::MIN),
        "wrapped"
    );
}

// A number in the checked, the wrapping and the clamping form.
type Forms = (Option<i128>, i128, i128);

// The sum, the difference and the product of two numbers in each form, then the quotient and the
// remainder.
type Answers = (Forms, Forms, Forms, [Option<i128>; 2]);

// What the members answer for two numbers.
fn answers<T: NativeArithmetics>(a: i128, b: i128) -> Option<Answers> {
    let lhs = T::from_i128(a)?;
    let rhs = T::from_i128(b)?;
    Some((
        sums(lhs, rhs),
        differences(lhs, rhs),
        products(lhs, rhs),
        quotients(lhs, rhs),
    ))
}

fn sums<T: NativeArithmetics>(lhs: T, rhs: T) -> Forms {
    let clamped = lhs.add_clamped(rhs).to_i128();
    (
        number(lhs.add_checked(rhs)),
        lhs.add_wrapped(rhs).to_i128(),
        clamped,
    )
}

fn differences<T: NativeArithmetics>(lhs: T, rhs: T) -> Forms {
    let clamped = lhs.sub_clamped(rhs).to_i128();
    (
        number(lhs.sub_checked(rhs)),
        lhs.sub_wrapped(rhs).to_i128(),
        clamped,
    )
}

fn products<T: NativeArithmetics>(lhs: T, rhs: T) -> Forms {
    let clamped = lhs.mul_clamped(rhs).to_i128();
    (
        number(lhs.mul_checked(rhs)),
        lhs.mul_wrapped(rhs).to_i128(),
        clamped,
    )
}

fn quotients<T: NativeArithmetics>(lhs: T, rhs: T) -> [Option<i128>; 2] {
    [number(lhs.div_checked(rhs)), number(lhs.rem_checked(rhs))]
}

// A number that fits.
fn fits(n: i128) -> Forms {
    (Some(n), n, n)
}

// A number that does not fit.
fn unfit(wrapped: i128, nearest: i128) -> Forms {
    (None, wrapped, nearest)
}

#[test]
fn signed_arithmetic_answers_by_its_form(rt: HostRuntime) {
    let low = unfit(127, -128);
    let high = unfit(-128, 127);
    let cases = [
        (-128, -1, (low, fits(-127), high, [None, None])),
        (
            -127,
            -1,
            (fits(-128), fits(-126), fits(127), [Some(127), Some(0)]),
        ),
        (
            -1,
            127,
            (fits(126), fits(-128), fits(-127), [Some(0), Some(-1)]),
        ),
        (-7, 2, (fits(-5), fits(-9), fits(-14), [Some(-3), Some(-1)])),
        (0, 0, (fits(0), fits(0), fits(0), [None, None])),
        (
            1,
            -128,
            (fits(-127), unfit(-127, 127), fits(-128), [Some(0), Some(1)]),
        ),
        (127, 1, (high, fits(126), fits(127), [Some(127), Some(0)])),
        (
            127,
            127,
            (unfit(-2, 127), fits(0), unfit(1, 127), [Some(1), Some(0)]),
        ),
    ];
    for (a, b, wanted) in cases {
        assert_eq!(rt; answers::<i8>(a, b), Some(wanted), "{a} and {b}");
    }
}

#[test]
fn unsigned_arithmetic_answers_by_its_form(rt: HostRuntime) {
    let most = 18446744073709551615;
    let last = 18446744073709551614;
    let high = unfit(0, most);
    let cases = [
        (0, 1, (fits(1), unfit(most, 0), fits(0), [Some(0), Some(0)])),
        (1, 0, (fits(1), fits(1), fits(0), [None, None])),
        (7, 2, (fits(9), fits(5), fits(14), [Some(3), Some(1)])),
        (1, most, (high, unfit(2, 0), fits(most), [Some(0), Some(1)])),
        (
            most,
            1,
            (high, fits(last), fits(most), [Some(most), Some(0)]),
        ),
        (
            most,
            most,
            (
                unfit(last, most),
                fits(0),
                unfit(1, most),
                [Some(1), Some(0)],
            ),
        ),
    ];
    for (a, b, wanted) in cases {
        assert_eq!(rt; answers::<u64>(a, b), Some(wanted), "{a} and {b}");
    }
}

// The bits, the least and the greatest number of a type.
fn limits<T: NativeArithmetics>() -> (u32, i128, i128) {
    (T::WIDTH, T::MIN_VALUE.to_i128(), T::MAX_VALUE.to_i128())
}

#[test]
fn each_width_has_its_limits(rt: HostRuntime) {
    let cases = [
        (limits::<i8>(), (8, -128, 127)),
        (limits::<i16>(), (16, -32768, 32767)),
        (limits::<i32>(), (32, -2147483648, 2147483647)),
        (
            limits::<i64>(),
            (64, -9223372036854775808, 9223372036854775807),
        ),
        (limits::<u8>(), (8, 0, 255)),
        (limits::<u16>(), (16, 0, 65535)),
        (limits::<u32>(), (32, 0, 4294967295)),
        (limits::<u64>(), (64, 0, 18446744073709551615)),
    ];
    for (limits, wanted) in cases {
        assert_eq!(rt; limits, wanted);
    }
}

// The place of an offset, and the offset of a place.
fn places<O: Offset>(n: i128, place: usize) -> (Option<usize>, Option<i128>) {
    let offset = match O::from_i128(n) {
        Some(offset) => offset.to_usize(),
        None => None,
    };
    (offset, number(O::from_usize(place)))
}

#[test]
fn an_offset_is_a_place_where_it_is_not_negative(rt: HostRuntime) {
    let cases = [
        (places::<i32>(-1, 2147483648), (None, None)),
        (places::<i32>(-2147483648, 0), (None, Some(0))),
        (places::<i32>(0, 1), (Some(0), Some(1))),
        (
            places::<i32>(2147483647, 2147483647),
            (Some(2147483647), Some(2147483647)),
        ),
        (places::<i64>(-1, 9223372036854775808), (None, None)),
        (
            places::<i64>(2147483648, 2147483648),
            (Some(2147483648), Some(2147483648)),
        ),
    ];
    for (row, (answer, wanted)) in cases.iter().enumerate() {
        assert_eq!(rt; answer, wanted, "case {row}");
    }
    assert_eq!(rt; [i32::IS_LARGE, i64::IS_LARGE], [false, true]);
}

// The name of a key type, and whether `greatest` is its last place.
fn last_place<T: DictionaryKey>(greatest: usize) -> (IntegerType, bool) {
    let is_place = T::MAX_VALUE.to_place() == Some(greatest);
    let is_key = number(T::from_place(greatest)) == Some(T::MAX_VALUE.to_i128());
    let is_last = greatest == usize::MAX || number(T::from_place(greatest.wrapping_add(1))) == None;
    (T::KEY_TYPE, is_place && is_key && is_last)
}

#[test]
fn a_key_type_has_places_up_to_its_greatest_number(rt: HostRuntime) {
    let cases = [
        (last_place::<i8>(127), IntegerType::Int8),
        (last_place::<i16>(32767), IntegerType::Int16),
        (last_place::<i32>(2147483647), IntegerType::Int32),
        (last_place::<i64>(9223372036854775807), IntegerType::Int64),
        (last_place::<u8>(255), IntegerType::UInt8),
        (last_place::<u16>(65535), IntegerType::UInt16),
        (last_place::<u32>(4294967295), IntegerType::UInt32),
        (last_place::<u64>(18446744073709551615), IntegerType::UInt64),
    ];
    for (answer, key) in cases {
        assert_eq!(rt; answer, (key, true), "{key:?}");
    }
    assert_eq!(rt; (-1i8).to_place(), None, "a negative key");
}
