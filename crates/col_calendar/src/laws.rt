//! What the definitions on the calendar say together, each law as a function that does nothing.
ghost use Rattle.col_calendar.specs.Laws.{DayNumbersTellDates, KnownDays, WeeksAreCounted};

/// The year, the month and the day in the month of a date's day number are the date's own.
pub fn day_numbers_tell_dates()
    ensures { DayNumbersTellDates }
{}

/// The week of a day is the one in which it lies where weeks are counted from that of 4 January on,
/// Monday to Sunday, until the week of the next 4 January.
///
/// Source: ISO 8601.
pub fn weeks_are_counted_from_4_january()
    ensures { WeeksAreCounted }
{}

/// Dates that the standards and almanacs give, from the first to the last: 1970-01-01 was a
/// Thursday, 2000 had a 29 February, and 2021-01-03 was the Sunday of week 53 of 2020.
///
/// Source: ISO 8601.
pub fn known_days()
    ensures { KnownDays }
{}
