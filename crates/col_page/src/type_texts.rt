//! The texts of types, as documents and pages write them.
ghost use Rattle.std.specs.Prelude.{◌≡◌, ◌++◌, IfOk, codes};
ghost use Rattle.std.specs.Fmt.{decimal};
ghost use Rattle.col_types.specs.Answer.{FailsByMemory};
ghost use Rattle.col_types.specs.DataKind.{kind_of};
ghost use Rattle.col_document.specs.TypeText.{plain_text, span_text, type_text, unit_text};
ghost use Rattle.col_document.specs.TypeText.{zone_text};

use col_types::{DataType, Error, IntervalUnit, Text, TimeUnit};
use itoa::Buffer;

/// Adds the text of a type: its name, then its parameters in brackets.
pub fn push_type(text: &mut Vec<u8>, data_type: &DataType) -> Result<(), Error>
    ensures value { IfOk result
        (λ _. text.new.items ≡ text.old.items ++ type_text (kind_of data_type.now)) }
    ensures refused { FailsByMemory result }
{
    match data_type {
        DataType::Timestamp(unit, zone) => push_timestamp(text, *unit, zone),
        DataType::Time32(unit) => push_parts(text, "Time32(", unit_name(*unit)),
        DataType::Time64(unit) => push_parts(text, "Time64(", unit_name(*unit)),
        DataType::Duration(unit) => push_parts(text, "Duration(", unit_name(*unit)),
        DataType::Interval(unit) => push_parts(text, "Interval(", span_name(*unit)),
        DataType::Decimal(precision, scale) => push_decimal(text, *precision, *scale),
        _ => Ok(text.extend_from_slice(plain_name(data_type).as_bytes())?),
    }
}

// Adds a name with its bracket, a parameter, and the other bracket.
fn push_parts(text: &mut Vec<u8>, name: &str, parameter: &str) -> Result<(), Error>
    ensures value { IfOk result
        (λ _. text.new.items ≡ text.old.items ++ (name.now ++ parameter.now ++ codes ")")) }
    ensures refused { FailsByMemory result }
{
    text.extend_from_slice(name.as_bytes())?;
    text.extend_from_slice(parameter.as_bytes())?;
    text.push(b')')?;
    Ok(())
}

// Adds the text of a type of instants.
fn push_timestamp(text: &mut Vec<u8>, unit: TimeUnit, zone: &Option<Text>) -> Result<(), Error>
    ensures value { IfOk result (λ _. text.new.items ≡ text.old.items
        ++ (codes "Timestamp(" ++ unit_text unit ++ zone_text zone.now ++ codes ")")) }
    ensures refused { FailsByMemory result }
{
    text.extend_from_slice(b"Timestamp(")?;
    text.extend_from_slice(unit_name(unit).as_bytes())?;
    if let Some(zone) = zone {
        text.push(b',')?;
        text.extend_from_slice(zone.as_str().as_bytes())?;
    }
    text.push(b')')?;
    Ok(())
}

// Adds the text of a type of decimal numbers.
fn push_decimal(text: &mut Vec<u8>, precision: usize, scale: usize) -> Result<(), Error>
    ensures value { IfOk result (λ _. text.new.items ≡ text.old.items
        ++ (codes "Decimal(" ++ decimal precision ++ codes "," ++ decimal scale ++ codes ")")) }
    ensures refused { FailsByMemory result }
{
    let mut buffer = Buffer::new();
    text.extend_from_slice(b"Decimal(")?;
    text.extend_from_slice(buffer.format(precision).as_bytes())?;
    text.push(b',')?;
    text.extend_from_slice(buffer.format(scale).as_bytes())?;
    text.push(b')')?;
    Ok(())
}

// The name of a unit of time.
fn unit_name(unit: TimeUnit) -> &'static str
    ensures { result.now ≡ unit_text unit }
{
    match unit {
        TimeUnit::Second => "Second",
        TimeUnit::Millisecond => "Millisecond",
        TimeUnit::Microsecond => "Microsecond",
        TimeUnit::Nanosecond => "Nanosecond",
    }
}

// The name of an interval's parts.
fn span_name(unit: IntervalUnit) -> &'static str
    ensures { result.now ≡ span_text unit }
{
    match unit {
        IntervalUnit::YearMonth => "YearMonth",
        IntervalUnit::DayTime => "DayTime",
        IntervalUnit::MonthDayNano => "MonthDayNano",
    }
}

// The name of a type that has no parameters; no bytes for a type that documents do not name.
fn plain_name(data_type: &DataType) -> &'static str
    ensures { result.now ≡ plain_text (kind_of data_type.now) }
{
    match data_type {
        DataType::Boolean => "Boolean",
        DataType::Int8 => "Int8",
        DataType::Int16 => "Int16",
        DataType::Int32 => "Int32",
        DataType::Int64 => "Int64",
        DataType::UInt8 => "UInt8",
        DataType::UInt16 => "UInt16",
        DataType::UInt32 => "UInt32",
        DataType::UInt64 => "UInt64",
        DataType::Date32 => "Date32",
        DataType::Date64 => "Date64",
        DataType::Binary => "Binary",
        DataType::LargeBinary => "LargeBinary",
        DataType::Utf8 => "Utf8",
        DataType::LargeUtf8 => "LargeUtf8",
        _ => "",
    }
}
