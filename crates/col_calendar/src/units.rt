//! Units of instants, and whole seconds of so many of them.
ghost use Rattle.std.specs.Prelude.{◌≡◌, ◌<◌, ◌⊎◌, pos, ◌*ℤ◌};
ghost use Rattle.col_calendar.specs.Civil.{instant_of, instant_at, units_per_second};

use crate::temporal_conversions::{MICROSECONDS, MILLISECONDS, NANOSECONDS};
use col_types::TimeUnit;

/// The units of `a` in a second over the units of `b` in a second, in lowest terms: one of the two
/// numbers is 1.
pub fn timeunit_scale(a: TimeUnit, b: TimeUnit) -> (i64, i64)
    ensures value { result.0 *ℤ pos (units_per_second b) ≡ result.1 *ℤ pos (units_per_second a) }
    ensures lowest { (result.0 ≡ pos 1) ⊎ (result.1 ≡ pos 1) }
{
    let (a, b) = (per_second(a), per_second(b));
    if a < b { (1, b / a) } else { (a / b, 1) }
}

// The units of a second.
fn per_second(unit: TimeUnit) -> i64
    ensures { result ≡ pos (units_per_second unit) }
{
    match unit {
        TimeUnit::Second => 1,
        TimeUnit::Millisecond => MILLISECONDS,
        TimeUnit::Microsecond => MICROSECONDS,
        TimeUnit::Nanosecond => NANOSECONDS,
    }
}

// The whole seconds of an instant, rounded down, and the nanoseconds that are left.
pub(crate) fn split(unit: TimeUnit, n: i64) -> (i64, u32)
    ensures instant { instant_at result.0 result.1 ≡ instant_of unit n }
    ensures within { result.1 < 1_000_000_000 }
{
    match unit {
        TimeUnit::Second => (n, 0),
        TimeUnit::Millisecond => (n.div_euclid(1_000), n.rem_euclid(1_000) as u32 * 1_000_000),
        TimeUnit::Microsecond => (
            n.div_euclid(1_000_000),
            n.rem_euclid(1_000_000) as u32 * 1_000,
        ),
        TimeUnit::Nanosecond => (
            n.div_euclid(1_000_000_000),
            n.rem_euclid(1_000_000_000) as u32,
        ),
    }
}
