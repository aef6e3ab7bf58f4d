//! Types, their parts and the errors, against what the Arrow format says of them.
use col_types::{
    DataType, Error, Field, IntegerType, IntervalUnit, NativeType, PhysicalType, PrimitiveType,
    Reason, Text, TimeUnit, months_days_ns,
};
use std::alloc::Global;

#[test]
fn errors_are_numbered_in_their_order(rt: HostRuntime) {
    let cases = [
        (Error::Memory, 1),
        (Error::NotYetImplemented, 2),
        (Error::InvalidArgumentError(Reason::Lengths), 3),
        (Error::InvalidArgumentError(Reason::SumType), 3),
        (Error::Overflow, 4),
        (Error::DivideByZero, 5),
        (Error::OutOfRange, 6),
        (Error::OutOfSpec, 7),
    ];
    for (error, number) in cases {
        assert_eq!(rt; error.number(), number, "{error:?}");
    }
}

// A type around another one.
#[derive(Clone, Copy, Debug)]
enum Level {
    List,
    LargeList,
    Sized(usize),
    Dictionary,
}

// The type with these levels around it, the first outermost.
fn wrapped(alloc: Global, levels: &[Level], inner: DataType) -> Result<DataType, Error> {
    let mut data_type = inner;
    for level in levels.iter().rev() {
        data_type = level_of(alloc, *level, data_type)?;
    }
    Ok(data_type)
}

// The type with one level around it.
fn level_of(alloc: Global, level: Level, inner: DataType) -> Result<DataType, Error> {
    if let Level::Dictionary = level {
        let values = Box::new(alloc, inner)?;
        return Ok(DataType::Dictionary(IntegerType::Int8, values, false));
    }
    let field = Field {
        name: Text::new(alloc, "item")?,
        data_type: inner,
        is_nullable: true,
    };
    let item = Box::new(alloc, field)?;
    match level {
        Level::LargeList => Ok(DataType::LargeList(item)),
        Level::Sized(size) => Ok(DataType::FixedSizeList(item, size)),
        _ => Ok(DataType::List(item)),
    }
}

#[test]
fn each_type_is_stored_as_the_format_says(rt: HostRuntime) {
    let cases = [
        (DataType::Int8, PrimitiveType::Int8),
        (DataType::Int16, PrimitiveType::Int16),
        (DataType::Int32, PrimitiveType::Int32),
        (DataType::Int64, PrimitiveType::Int64),
        (DataType::UInt8, PrimitiveType::UInt8),
        (DataType::UInt16, PrimitiveType::UInt16),
        (DataType::UInt32, PrimitiveType::UInt32),
        (DataType::UInt64, PrimitiveType::UInt64),
        (
            DataType::Timestamp(TimeUnit::Second, None),
            PrimitiveType::Int64,
        ),
        (DataType::Date32, PrimitiveType::Int32),
        (DataType::Date64, PrimitiveType::Int64),
        (DataType::Time32(TimeUnit::Second), PrimitiveType::Int32),
        (DataType::Time64(TimeUnit::Nanosecond), PrimitiveType::Int64),
        (DataType::Duration(TimeUnit::Second), PrimitiveType::Int64),
        (
            DataType::Interval(IntervalUnit::YearMonth),
            PrimitiveType::Int32,
        ),
        (
            DataType::Interval(IntervalUnit::DayTime),
            PrimitiveType::DaysMs,
        ),
        (
            DataType::Interval(IntervalUnit::MonthDayNano),
            PrimitiveType::MonthDayNano,
        ),
        (DataType::Decimal(5, 2), PrimitiveType::Int128),
    ];
    for (data_type, native) in cases {
        let physical = data_type.to_physical_type();
        assert_eq!(rt; physical, PhysicalType::Primitive(native), "{data_type:?}");
        let is_held = [i32::is_of(&data_type), months_days_ns::is_of(&data_type)];
        let wanted = [
            native == PrimitiveType::Int32,
            native == PrimitiveType::MonthDayNano,
        ];
        assert_eq!(rt; is_held, wanted, "{data_type:?}");
    }
}

#[test]
fn types_of_other_layouts_hold_no_numbers(rt: HostRuntime) {
    let cases = [
        (DataType::Null, PhysicalType::Null),
        (DataType::Boolean, PhysicalType::Boolean),
        (DataType::Binary, PhysicalType::Binary),
        (DataType::LargeBinary, PhysicalType::LargeBinary),
        (DataType::FixedSizeBinary(1), PhysicalType::FixedSizeBinary),
        (DataType::Utf8, PhysicalType::Utf8),
        (DataType::LargeUtf8, PhysicalType::LargeUtf8),
    ];
    for (data_type, physical) in cases {
        assert_eq!(rt; data_type.to_physical_type(), physical, "{data_type:?}");
        assert!(rt; !i32::is_of(&data_type), "{data_type:?}");
    }
}

#[test]
fn nested_types_are_stored_by_their_outermost_level(rt: HostRuntime) -> Result<(), Error> {
    let cases = [
        (Level::List, PhysicalType::List),
        (Level::LargeList, PhysicalType::LargeList),
        (Level::Sized(2), PhysicalType::FixedSizeList),
        (
            Level::Dictionary,
            PhysicalType::Dictionary(IntegerType::Int8),
        ),
    ];
    for (level, physical) in cases {
        let data_type = wrapped(rt.alloc(), &[level, Level::List], DataType::Int32)?;
        assert_eq!(rt; data_type.to_physical_type(), physical, "{level:?}");
        assert!(rt; !i32::is_of(&data_type), "{level:?}");
    }
    Ok(())
}

// Whether a type within these levels is carried, and whether its parameters fit.
fn tests_within(
    alloc: Global,
    levels: &[Level],
    data_type: &DataType,
) -> Result<(bool, bool), Error> {
    let nested = wrapped(alloc, levels, data_type.try_clone(alloc)?)?;
    Ok((nested.is_carried(), nested.parameters_fit()))
}

#[test]
fn units_and_parameters_are_looked_at_on_each_level(rt: HostRuntime) -> Result<(), Error> {
    let levels = [
        [].as_slice(),
        [Level::List, Level::Dictionary].as_slice(),
        [Level::LargeList, Level::Sized(2147483647)].as_slice(),
        [Level::Dictionary, Level::List].as_slice(),
    ];
    // a type, whether it is carried, whether its parameters fit
    let cases = [
        (DataType::Time32(TimeUnit::Second), true, true),
        (DataType::Time32(TimeUnit::Millisecond), true, true),
        (DataType::Time32(TimeUnit::Microsecond), false, true),
        (DataType::Time32(TimeUnit::Nanosecond), false, true),
        (DataType::Time64(TimeUnit::Second), false, true),
        (DataType::Time64(TimeUnit::Millisecond), false, true),
        (DataType::Time64(TimeUnit::Microsecond), true, true),
        (DataType::Time64(TimeUnit::Nanosecond), true, true),
        (DataType::Decimal(0, 0), true, false),
        (DataType::Decimal(1, 0), true, true),
        (DataType::Decimal(1, 1), true, true),
        (DataType::Decimal(1, 2), true, false),
        (DataType::Decimal(38, 38), true, true),
        (DataType::Decimal(38, 39), true, false),
        (DataType::Decimal(39, 0), true, false),
        (DataType::FixedSizeBinary(0), true, false),
        (DataType::FixedSizeBinary(1), true, true),
        (DataType::FixedSizeBinary(2147483647), true, true),
        (DataType::FixedSizeBinary(2147483648), true, false),
    ];
    for (data_type, is_carried, fit) in &cases {
        for around in levels {
            let tests = tests_within(rt.alloc(), around, data_type)?;
            assert_eq!(rt; tests, (*is_carried, *fit), "{data_type:?} in {around:?}");
        }
    }
    Ok(())
}

#[test]
fn dictionaries_of_dictionaries_and_empty_rows_are_refused(rt: HostRuntime) -> Result<(), Error> {
    // the levels around a text, whether the type is carried, whether its parameters fit
    let cases = [
        (
            [Level::Dictionary, Level::Dictionary, Level::List],
            false,
            true,
        ),
        (
            [Level::List, Level::Dictionary, Level::Dictionary],
            false,
            true,
        ),
        (
            [Level::Dictionary, Level::List, Level::Dictionary],
            true,
            true,
        ),
        ([Level::Sized(0), Level::List, Level::List], true, false),
        (
            [Level::List, Level::Dictionary, Level::Sized(0)],
            true,
            false,
        ),
        (
            [Level::LargeList, Level::Sized(2147483648), Level::List],
            true,
            false,
        ),
        (
            [Level::Sized(1), Level::Sized(2147483647), Level::List],
            true,
            true,
        ),
    ];
    for (levels, is_carried, fit) in cases {
        let tests = tests_within(rt.alloc(), &levels, &DataType::Utf8)?;
        assert_eq!(rt; tests, (is_carried, fit), "{levels:?}");
    }
    Ok(())
}

// The parts of a type of three levels: lists of fixed size, of lists, of a dictionary of instants.
#[derive(Clone, Copy, Debug, Drop)]
struct Parts {
    names: (&'static str, &'static str),
    are_nullable: (bool, bool),
    size: usize,
    key: IntegerType,
    is_ordered: bool,
    unit: TimeUnit,
    zone: Option<&'static str>,
}

const PLAIN: Parts = Parts {
    names: ("outer", "inner"),
    are_nullable: (true, true),
    size: 3,
    key: IntegerType::Int8,
    is_ordered: true,
    unit: TimeUnit::Second,
    zone: Some("UTC"),
};

impl Parts {
    // The type of these parts.
    fn data_type(self, alloc: Global) -> Result<DataType, Error> {
        let inner = Field {
            name: Text::new(alloc, self.names.1)?,
            data_type: self.dictionary(alloc)?,
            is_nullable: self.are_nullable.1,
        };
        let outer = Field {
            name: Text::new(alloc, self.names.0)?,
            data_type: DataType::List(Box::new(alloc, inner)?),
            is_nullable: self.are_nullable.0,
        };
        Ok(DataType::FixedSizeList(Box::new(alloc, outer)?, self.size))
    }

    // The innermost dictionary.
    fn dictionary(self, alloc: Global) -> Result<DataType, Error> {
        let zone = match self.zone {
            Some(text) => Some(Text::new(alloc, text)?),
            None => None,
        };
        let values = Box::new(alloc, DataType::Timestamp(self.unit, zone))?;
        Ok(DataType::Dictionary(self.key, values, self.is_ordered))
    }
}

// Whether a type differs from that of other parts, which equals itself.
fn differs(alloc: Global, plain: &DataType, parts: Parts) -> Result<bool, Error> {
    let other = parts.data_type(alloc)?;
    Ok(!plain.equal(&other) && !other.equal(plain) && other.equal(&other))
}

#[test]
fn types_that_differ_in_one_part_differ(rt: HostRuntime) -> Result<(), Error> {
    let others = [
        Parts {
            names: ("Outer", "inner"),
            ..PLAIN
        },
        Parts {
            names: ("outer", "inner "),
            ..PLAIN
        },
        Parts {
            are_nullable: (false, true),
            ..PLAIN
        },
        Parts {
            are_nullable: (true, false),
            ..PLAIN
        },
        Parts { size: 4, ..PLAIN },
        Parts {
            key: IntegerType::UInt8,
            ..PLAIN
        },
        Parts {
            is_ordered: false,
            ..PLAIN
        },
        Parts {
            unit: TimeUnit::Millisecond,
            ..PLAIN
        },
        Parts {
            zone: Some("UTC+"),
            ..PLAIN
        },
        Parts {
            zone: None,
            ..PLAIN
        },
    ];
    let plain = PLAIN.data_type(rt.alloc())?;
    for parts in others {
        assert!(rt; differs(rt.alloc(), &plain, parts)?, "{parts:?}");
    }
    Ok(())
}

// Whether a text has these characters, and its copy too.
fn is_text(alloc: Global, characters: &str) -> Result<bool, Error> {
    let text = Text::new(alloc, characters)?;
    Ok(text.as_str() == characters && text.equal(&text.try_clone(alloc)?))
}

// Whether a copy of a type is equal to it.
fn is_copied(alloc: Global, data_type: &DataType) -> Result<bool, Error> {
    Ok(data_type.equal(&data_type.try_clone(alloc)?))
}

#[test]
fn each_call_of_col_types_answers_with_ample_memory(rt: HostRuntime) -> Result<(), Error> {
    assert!(rt; is_text(rt.alloc(), "Zürich")?, "a text");
    assert!(rt;
        is_copied(rt.alloc(), &PLAIN.data_type(rt.alloc())?)?,
        "a type"
    );
    Ok(())
}
