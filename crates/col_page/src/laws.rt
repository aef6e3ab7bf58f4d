//! What holds of the definitions, as facts of their own.
ghost use Rattle.col_page.specs.Laws.{NoMadeSumIsRefused, SumsOf64Rows};

/// Of a table that is made of any number of rows, no tree is refused, and each has a sum.
pub fn no_made_sum_is_refused()
    ensures { NoMadeSumIsRefused }
{}

/// The sums of the trees over the table of 64 rows are -22104, 89440, 6148914691236516491 and
/// -549803, under `Int64`, `UInt64` twice, and `Int64`.
pub fn sums_of_64_rows()
    ensures { SumsOf64Rows }
{}
