//! What the definitions on decimals say together, each law as a function that does nothing.
ghost use Rattle.col_decimal.specs.Laws.{AdaptiveAnswerHoldsItsNumbers};
ghost use Rattle.col_decimal.specs.Laws.{CheckedNumberIsThatOfEachForm, StepGivesItsPrecision};
ghost use Rattle.col_decimal.specs.Laws.{WithinTellsDigits};

/// A number lies within a precision, from -(10^p - 1) to 10^p - 1, exactly where it has at most p
/// digits.
pub fn a_number_within_a_precision_has_no_more_digits()
    ensures { WithinTellsDigits }
{}

/// A number that a step gives has at most as many digits as the precision, in each form.
pub fn a_step_gives_a_number_of_its_precision()
    ensures { StepGivesItsPrecision }
{}

/// Where the checked form gives a number, the plain and the saturating form give the same.
pub fn a_checked_number_is_that_of_each_form()
    ensures { CheckedNumberIsThatOfEachForm }
{}

/// Each number of an adaptive answer has no more digits than the precision of the answer's type.
pub fn an_adaptive_answer_holds_its_numbers()
    ensures { AdaptiveAnswerHoldsItsNumbers }
{}
