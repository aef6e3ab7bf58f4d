//! The four operations, each as its function of two numbers.
ghost use Rattle.std.specs.Prelude.{◌≡◌};
ghost use Rattle.col_decimal.specs.DecimalStep.{DecimalOperation, checked_decimal, has_two_signs};
ghost use Rattle.col_decimal.specs.DecimalStep.{is_by_zero, is_negative_result};

use crate::bounds::Bounds;
use crate::wide::product;

// An operation on decimals of one type.
pub(crate) trait DecimalOperator {
    // Which operation it is.
    ghost operation: { DecimalOperation };

    // The result; none where there is none, or it is no number of the type.
    fn checked(bounds: Bounds, a: i128, b: i128) -> Option<i128>
        ensures { result ≡ checked_decimal operation bounds.precision bounds.scale a b };

    // Whether there is no result by the number.
    fn divides_by_zero(b: i128) -> bool
        ensures { result ≡ is_by_zero operation b };

    // Whether a result that is not 0 is negative.
    fn is_negative(a: i128, b: i128) -> bool
        ensures { result ≡ is_negative_result operation a b };
}

// The sum.
pub(crate) struct Addition;

impl DecimalOperator for Addition {
    ghost use Rattle.col_decimal.specs.DecimalStep.{addition};

    ghost operation = { addition };

    fn checked(bounds: Bounds, a: i128, b: i128) -> Option<i128> {
        bounds.within(a.checked_add(b)?)
    }

    fn divides_by_zero(_b: i128) -> bool {
        false
    }

    fn is_negative(a: i128, b: i128) -> bool {
        a.saturating_add(b) < 0
    }
}

// The difference.
pub(crate) struct Subtraction;

impl DecimalOperator for Subtraction {
    ghost use Rattle.col_decimal.specs.DecimalStep.{subtraction};

    ghost operation = { subtraction };

    fn checked(bounds: Bounds, a: i128, b: i128) -> Option<i128> {
        bounds.within(a.checked_sub(b)?)
    }

    fn divides_by_zero(_b: i128) -> bool {
        false
    }

    fn is_negative(a: i128, b: i128) -> bool {
        a.saturating_sub(b) < 0
    }
}

// The product, by the scale's power of ten.
pub(crate) struct Multiplication;

impl DecimalOperator for Multiplication {
    ghost use Rattle.col_decimal.specs.DecimalStep.{multiplication};

    ghost operation = { multiplication };

    fn checked(bounds: Bounds, a: i128, b: i128) -> Option<i128> {
        bounds.within(bounds.unscaled(product(a, b)?))
    }

    fn divides_by_zero(_b: i128) -> bool {
        false
    }

    fn is_negative(a: i128, b: i128) -> bool {
        differ_in_sign(a, b)
    }
}

// The quotient of a dividend that the scale's power of ten is multiplied to, toward zero.
pub(crate) struct Division;

impl DecimalOperator for Division {
    ghost use Rattle.col_decimal.specs.DecimalStep.{division};

    ghost operation = { division };

    fn checked(bounds: Bounds, a: i128, b: i128) -> Option<i128> {
        bounds.within(product(a, bounds.power)?.checked_div(b)?)
    }

    fn divides_by_zero(b: i128) -> bool {
        b == 0
    }

    fn is_negative(a: i128, b: i128) -> bool {
        differ_in_sign(a, b)
    }
}

// Whether one of two numbers is negative and the other is not.
fn differ_in_sign(a: i128, b: i128) -> bool
    ensures { result ≡ has_two_signs a b }
{
    (a < 0) != (b < 0)
}
