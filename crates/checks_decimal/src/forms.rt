//! Checks of the plain, checked and saturating forms and of the calls with a scalar, row by row.
//! The tables are worked out by Python's integers; arrow2's own vectors are among them.
use crate::arrays::{Answer, Slots, Step, decimals, told};
use col_flat::PrimitiveScalar;
use col_types::{DataType, Error, Reason};
use std::alloc::Global;

// The greatest number of 38 digits.
const MOST: i128 = 99999999999999999999999999999999999999;

// Two slots, and the slots of the checked and of the saturating form.
type Row = [Option<i128>; 4];

// Sums of `Decimal(5, 2)`.
const SUMS: [Row; 15] = [
    [Some(-99999), Some(-99999), None, Some(-99999)],
    [Some(11111), Some(22222), Some(33333), Some(33333)],
    [Some(99998), Some(1), Some(99999), Some(99999)],
    [Some(99999), Some(1), None, Some(99999)],
    [Some(-99999), Some(-1), None, Some(-99999)],
    [Some(100000), Some(-1), Some(99999), Some(99999)],
    [Some(100000), Some(0), None, Some(99999)],
    [Some(i128::MAX), Some(1), None, Some(99999)],
    [Some(i128::MIN), Some(-1), None, Some(-99999)],
    [Some(i128::MAX), Some(i128::MIN), Some(-1), Some(-1)],
    [None, Some(1), None, None],
    [Some(1), None, None, None],
    [Some(-99998), Some(-1), Some(-99999), Some(-99999)],
    [Some(-1), Some(200000), None, Some(99999)],
    [None, None, None, None],
];

// Differences of `Decimal(5, 2)`.
const DIFFERENCES: [Row; 14] = [
    [Some(99999), Some(-99999), None, Some(99999)],
    [Some(11111), Some(22222), Some(-11111), Some(-11111)],
    [Some(99999), Some(0), Some(99999), Some(99999)],
    [Some(99999), Some(-1), None, Some(99999)],
    [Some(-99999), Some(1), None, Some(-99999)],
    [Some(100000), Some(1), Some(99999), Some(99999)],
    [Some(i128::MAX), Some(-1), None, Some(99999)],
    [Some(i128::MIN), Some(1), None, Some(-99999)],
    [Some(0), Some(i128::MIN), None, Some(99999)],
    [Some(-1), Some(i128::MIN), None, Some(99999)],
    [Some(i128::MIN), Some(i128::MIN), Some(0), Some(0)],
    [None, Some(1), None, None],
    [Some(i128::MAX), Some(i128::MIN), None, Some(99999)],
    [Some(-99998), Some(1), Some(-99999), Some(-99999)],
];

// Products of `Decimal(5, 2)`.
const PRODUCTS: [Row; 21] = [
    [Some(99999), Some(1000), None, Some(99999)],
    [Some(100), Some(200), Some(200), Some(200)],
    [Some(99999), Some(-100), Some(-99999), Some(-99999)],
    [Some(99999), Some(-99999), None, Some(-99999)],
    [Some(11111), Some(200), Some(22222), Some(22222)],
    [Some(99999), Some(100), Some(99999), Some(99999)],
    [Some(99999), Some(101), None, Some(99999)],
    [Some(-99999), Some(101), None, Some(-99999)],
    [Some(150), Some(25), Some(37), Some(37)],
    [Some(-150), Some(25), Some(-37), Some(-37)],
    [Some(155), Some(155), Some(240), Some(240)],
    [Some(-5), Some(15), Some(0), Some(0)],
    [Some(i128::MAX), Some(i128::MAX), None, Some(99999)],
    [Some(i128::MAX), Some(i128::MIN), None, Some(-99999)],
    [Some(i128::MIN), Some(i128::MIN), None, Some(99999)],
    [Some(i128::MIN), Some(1), None, Some(-99999)],
    [Some(i128::MIN), Some(-1), None, Some(99999)],
    [Some(100), None, None, None],
    [None, None, None, None],
    [Some(-100000), Some(100), None, Some(-99999)],
    [Some(100000), Some(100), None, Some(99999)],
];

// Quotients of `Decimal(5, 2)`.
const QUOTIENTS: [Row; 17] = [
    [Some(600), Some(200), Some(300), Some(300)],
    [Some(400), None, None, None],
    [Some(99999), Some(100), Some(99999), Some(99999)],
    [Some(99999), Some(99), None, Some(99999)],
    [Some(-99999), Some(99), None, Some(-99999)],
    [Some(100), Some(300), Some(33), Some(33)],
    [Some(-200), Some(300), Some(-66), Some(-66)],
    [Some(100000), Some(101), Some(99009), Some(99009)],
    [Some(i128::MAX), Some(1), None, Some(99999)],
    [Some(i128::MIN), Some(-1), None, Some(99999)],
    [Some(i128::MAX), Some(i128::MIN), None, Some(-99999)],
    [Some(1), Some(i128::MAX), Some(0), Some(0)],
    [Some(0), Some(i128::MIN), Some(0), Some(0)],
    [Some(-99999), Some(i128::MIN), Some(0), Some(0)],
    [None, Some(0), None, None],
    [Some(100000), Some(100), None, Some(99999)],
    [Some(-100000), Some(100), None, Some(-99999)],
];

// Sums of `Decimal(38, 0)`.
const LONG_SUMS: [Row; 6] = [
    [Some(MOST), Some(0), Some(MOST), Some(MOST)],
    [Some(MOST), Some(1), None, Some(MOST)],
    [Some(-MOST), Some(-1), None, Some(-MOST)],
    [Some(i128::MAX), Some(i128::MIN), Some(-1), Some(-1)],
    [Some(-MOST), Some(MOST), Some(0), Some(0)],
    [Some(i128::MAX), Some(i128::MAX), None, Some(MOST)],
];

// Differences of `Decimal(38, 0)`.
const LONG_DIFFERENCES: [Row; 5] = [
    [Some(MOST), Some(-1), None, Some(MOST)],
    [Some(-MOST), Some(1), None, Some(-MOST)],
    [Some(MOST), Some(MOST), Some(0), Some(0)],
    [Some(i128::MIN), Some(0), None, Some(-MOST)],
    [Some(i128::MIN), Some(i128::MIN), Some(0), Some(0)],
];

// Products of `Decimal(38, 0)`.
const LONG_PRODUCTS: [Row; 6] = [
    [Some(-MOST), Some(MOST), None, Some(-MOST)],
    [Some(MOST), Some(-1), Some(-MOST), Some(-MOST)],
    [
        Some(10000000000000000000),
        Some(10000000000000000000),
        None,
        Some(MOST),
    ],
    [
        Some(9999999999999999999),
        Some(10000000000000000000),
        Some(99999999999999999990000000000000000000),
        Some(99999999999999999990000000000000000000),
    ],
    [
        Some(-10000000000000000000),
        Some(10000000000000000000),
        None,
        Some(-MOST),
    ],
    [Some(i128::MIN), Some(i128::MIN), None, Some(MOST)],
];

// Products of `Decimal(38, 19)`: the first two pass 128 bits, though their quotients by 10^19 would
// fit.
const PRODUCTS_PAST_128_BITS: [Row; 3] = [
    [
        Some(20000000000000000000),
        Some(20000000000000000000),
        None,
        Some(MOST),
    ],
    [
        Some(20000000000000000000),
        Some(-20000000000000000000),
        None,
        Some(-MOST),
    ],
    [
        Some(10000000000000000000),
        Some(10000000000000000000),
        Some(10000000000000000000),
        Some(10000000000000000000),
    ],
];

// Quotients of `Decimal(38, 0)`.
const LONG_QUOTIENTS: [Row; 6] = [
    [Some(MOST), Some(1), Some(MOST), Some(MOST)],
    [Some(MOST), Some(-1), Some(-MOST), Some(-MOST)],
    [Some(i128::MIN), Some(-1), None, Some(MOST)],
    [Some(i128::MIN), Some(1), None, Some(-MOST)],
    [
        Some(i128::MAX),
        Some(2),
        Some(85070591730234615865843651857942052863),
        Some(85070591730234615865843651857942052863),
    ],
    [
        Some(-MOST),
        Some(2),
        Some(-49999999999999999999999999999999999999),
        Some(-49999999999999999999999999999999999999),
    ],
];

// Whether each form answers the row so; the plain one refuses where the checked one has no number
// and the saturating one has.
fn is_told(
    alloc: Global,
    step: Step,
    precision: usize,
    scale: usize,
    row: Row,
) -> Result<bool, Error> {
    let lhs = decimals(alloc, precision, scale, &[row[0]])?;
    let rhs = decimals(alloc, precision, scale, &[row[1]])?;
    let scalar = PrimitiveScalar::new(DataType::Decimal(precision, scale), row[1])?;
    let checked = (precision, scale, row[2]);
    let saturated = (precision, scale, row[3]);
    let plain = if row[2] == row[3] {
        Ok(checked)
    } else {
        Err(Error::Overflow)
    };
    let is_checked = told(step.checked(alloc, &lhs, &rhs)) == Ok(checked);
    let is_saturated = told(step.saturating(alloc, &lhs, &rhs)) == Ok(saturated);
    let is_plain = told(step.plain(alloc, &lhs, &rhs)) == plain;
    let is_scalar = told(step.scalar(alloc, &lhs, &scalar)) == plain;
    Ok(is_checked && is_saturated && is_plain && is_scalar)
}

// The first row of a table that some form answers otherwise.
fn first_wrong(
    alloc: Global,
    step: Step,
    precision: usize,
    scale: usize,
    rows: &[Row],
) -> Result<Option<Row>, Error> {
    for row in rows {
        if !is_told(alloc, step, precision, scale, *row)? {
            return Ok(Some(*row));
        }
    }
    Ok(None)
}

#[test]
fn each_form_answers_with_ample_memory(rt: HostRuntime) -> Result<(), Error> {
    let alloc = rt.alloc();
    let tables = [
        (Step::Add, SUMS.as_slice()),
        (Step::Sub, DIFFERENCES.as_slice()),
        (Step::Mul, PRODUCTS.as_slice()),
        (Step::Div, QUOTIENTS.as_slice()),
    ];
    for (step, rows) in tables {
        assert_eq!(rt;
            first_wrong(alloc, step, 5, 2, rows)?,
            None,
            "{step:?} at 5 digits"
        );
    }
    let tables = [
        (Step::Add, LONG_SUMS.as_slice()),
        (Step::Sub, LONG_DIFFERENCES.as_slice()),
        (Step::Mul, LONG_PRODUCTS.as_slice()),
        (Step::Div, LONG_QUOTIENTS.as_slice()),
    ];
    for (step, rows) in tables {
        assert_eq!(rt;
            first_wrong(alloc, step, 38, 0, rows)?,
            None,
            "{step:?} at 38 digits"
        );
    }
    let told = first_wrong(alloc, Step::Mul, 38, 19, &PRODUCTS_PAST_128_BITS)?;
    assert_eq!(rt; told, None, "products past 128 bits");
    Ok(())
}

// What each form answers by 0: plain, with a scalar, saturating, checked.
fn by_zero(alloc: Global, number: i128) -> Result<[Answer; 4], Error> {
    let lhs = decimals(alloc, 5, 2, &[Some(number)])?;
    let zero = decimals(alloc, 5, 2, &[Some(0)])?;
    let scalar = PrimitiveScalar::new(DataType::Decimal(5, 2), Some(0))?;
    Ok([
        told(Step::Div.plain(alloc, &lhs, &zero)),
        told(Step::Div.scalar(alloc, &lhs, &scalar)),
        told(Step::Div.saturating(alloc, &lhs, &zero)),
        told(Step::Div.checked(alloc, &lhs, &zero)),
    ])
}

#[test]
fn a_zero_divisor_comes_before_what_fits(rt: HostRuntime) {
    let refused = Err(Error::DivideByZero);
    let wanted = [refused, refused, refused, Ok((5, 2, None))];
    for number in [100, 0, i128::MIN] {
        assert_eq!(rt; by_zero(rt.alloc(), number), Ok(wanted), "{number}");
    }
}

// The refusals of each form for two columns, of which the second has these slots at a scale.
fn refusals(
    alloc: Global,
    step: Step,
    scale: usize,
    rhs: Slots,
) -> Result<[Option<Error>; 3], Error> {
    let lhs = decimals(alloc, 5, 2, &[None, Some(100000)])?;
    let rhs = decimals(alloc, 5, scale, rhs)?;
    Ok([
        step.plain(alloc, &lhs, &rhs).err(),
        step.checked(alloc, &lhs, &rhs).err(),
        step.saturating(alloc, &lhs, &rhs).err(),
    ])
}

#[test]
fn parameters_come_before_lengths_and_these_before_rows(rt: HostRuntime) {
    let parameters = Some(Error::InvalidArgumentError(Reason::Parameters));
    let lengths = Some(Error::InvalidArgumentError(Reason::Lengths));
    for step in [Step::Add, Step::Sub, Step::Mul, Step::Div] {
        let told = refusals(rt.alloc(), step, 3, &[None]);
        assert_eq!(rt; told, Ok([parameters; 3]), "{step:?}, scale 3");
        let told = refusals(rt.alloc(), step, 2, &[None]);
        assert_eq!(rt; told, Ok([lengths; 3]), "{step:?}, one row");
    }
}

// What a step answers for one number and a null scalar of a precision.
fn beside_null(alloc: Global, step: Step, precision: usize) -> Answer {
    let lhs = decimals(alloc, 5, 2, &[Some(i128::MAX)])?;
    let scalar = PrimitiveScalar::new(DataType::Decimal(precision, 2), None)?;
    told(step.scalar(alloc, &lhs, &scalar))
}

#[test]
fn a_null_scalar_gives_null_after_the_parameters(rt: HostRuntime) {
    let parameters = Error::InvalidArgumentError(Reason::Parameters);
    for step in [Step::Add, Step::Sub, Step::Mul, Step::Div] {
        let told = beside_null(rt.alloc(), step, 5);
        assert_eq!(rt; told, Ok((5, 2, None)), "{step:?}, precision 5");
        let told = beside_null(rt.alloc(), step, 6);
        assert_eq!(rt; told, Err(parameters), "{step:?}, precision 6");
    }
}
