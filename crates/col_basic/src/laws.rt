//! What the definitions of a step say together, each law as a function that does nothing.
ghost use Rattle.col_basic.specs.Laws.{FlagTellsOverflow, FormsAnswerByName};
ghost use Rattle.col_basic.specs.Laws.{NullGivesNull, StepGivesItsType};
ghost use Rattle.col_basic.specs.Laws.{RowsAnswerOrTheLeastRefuses};
ghost use Rattle.col_basic.specs.Laws.{CheckedSlotsAreThoseOfOtherForms};
ghost use Rattle.col_basic.specs.Laws.{CheckedIsNullWhereFlagged};
ghost use Rattle.col_basic.specs.Laws.{QuotientAndRemainderRebuildTheDividend};
ghost use Rattle.col_basic.specs.Laws.{NotTwiceKeepsSlots, XorTwiceKeepsSlots};

/// Each form answers by its name: a division by 0 is null in the checked form and refused in the
/// others; an exact number that fits is the answer; one that does not fit is refused in the plain
/// form, null in the checked one, a number of the type that differs from it by a multiple of 2^w in
/// the wrapping one, and the nearest number of the type in the saturating one.
pub fn each_form_answers_by_its_name()
    ensures { FormsAnswerByName }
{}

/// A null beside anything gives null, and so does a cell that is no whole number: nothing is
/// refused there, and nothing flagged.
pub fn a_null_gives_null()
    ensures { NullGivesNull }
{}

/// A flag stands exactly where two whole numbers have an exact result that does not fit.
pub fn a_flag_tells_an_overflow()
    ensures { FlagTellsOverflow }
{}

/// A step gives null or a number that its type has.
pub fn a_step_gives_a_cell_of_its_type()
    ensures { StepGivesItsType }
{}

/// A step over rows gives as many cells as there are rows, each what the step answers at its row,
/// or the cause at the least row that it refuses, and each row above that one is answered: of the
/// rows 1 / 1, 1 / 0, 2 / 0 the second is the one that is refused.
pub fn rows_answer_or_the_least_refuses()
    ensures { RowsAnswerOrTheLeastRefuses }
{}

/// Where the checked form gives a number at a row, so does each other form that gives cells, and
/// the same one: 100 + 27 in `Int8` is 127 in every form, and at 100 + 28 the checked form has a
/// null.
pub fn valid_checked_slots_are_those_of_other_forms()
    ensures { CheckedSlotsAreThoseOfOtherForms }
{}

/// A checked sum, difference or product of two numbers is null exactly where the overflowing form
/// flags: 100 + 28 in `Int8` is null, and flagged.
pub fn checked_is_null_where_overflow_is_flagged()
    ensures { CheckedIsNullWhereFlagged }
{}

/// Where the divisor is not 0 and the quotient fits, both the quotient and the remainder are
/// answered, and the quotient times the divisor plus the remainder is the dividend: -7 by 2 gives
/// -3 and -1.
pub fn quotient_and_remainder_rebuild_the_dividend()
    ensures { QuotientAndRemainderRebuildTheDividend }
{}

/// Turning the bits of each number twice gives the cells of before: 5 turned is -6 in `Int8`, and
/// -6 turned is 5; a null stays null.
pub fn not_twice_keeps_slots()
    ensures { NotTwiceKeepsSlots }
{}

/// Exclusive or with one column twice gives the left cells back where that column has a number, and
/// null elsewhere: 5 with 3 is 6, and 6 with 3 is 5.
pub fn xor_twice_keeps_slots()
    ensures { XorTwiceKeepsSlots }
{}
