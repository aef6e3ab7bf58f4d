//! What the definitions of totals say together, each law as a function that does nothing.
ghost use Rattle.col_reduce.specs.Laws.{CheckedSumIsTheExactTotal, TotalIsOfItsType};
ghost use Rattle.col_reduce.specs.Laws.{TotalIsOfValidCells, TotalsOfPartsJoin};

/// The total of cells is that of those that are not null.
pub fn a_total_is_of_valid_cells()
    ensures { TotalIsOfValidCells }
{}

/// The total of a list in two parts is the sum, modulo 2^w, of the totals of its parts; a part
/// without a value adds nothing.
pub fn totals_of_parts_join()
    ensures { TotalsOfPartsJoin }
{}

/// A total is a number of its type.
pub fn a_total_is_of_its_type()
    ensures { TotalIsOfItsType }
{}

/// A checked sum tells a number exactly where that number is both the total and the exact sum.
pub fn a_checked_sum_is_the_exact_total()
    ensures { CheckedSumIsTheExactTotal }
{}
