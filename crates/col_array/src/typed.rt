//! The same call for each variant.

/// Matches on an array or a scalar of any type, and makes the same call for each variant: in it the
/// name stands for the array or the scalar of the variant's native type.
#[macro_export]
macro_rules! with_typed {
    ($any:ident, $value:expr, |$typed:ident| $call:expr) => {
        match $value {
            $crate::$any::Int8($typed) => $call,
            $crate::$any::Int16($typed) => $call,
            $crate::$any::Int32($typed) => $call,
            $crate::$any::Int64($typed) => $call,
            $crate::$any::Int128($typed) => $call,
            $crate::$any::UInt8($typed) => $call,
            $crate::$any::UInt16($typed) => $call,
            $crate::$any::UInt32($typed) => $call,
            $crate::$any::UInt64($typed) => $call,
            $crate::$any::DaysMs($typed) => $call,
            $crate::$any::MonthDayNano($typed) => $call,
        }
    };
}
