//! The five operations, each as its functions of two numbers.
ghost use Rattle.std.specs.Prelude.{◌≡◌, ℤ, false, if◌then◌else◌, option_map};
ghost use Rattle.col_model.specs.Cell.{divide_by_zero, overflow};
ghost use Rattle.col_model.specs.Whole.{WholeType, is_fitting, nearest_number, wrapped_number};
ghost use Rattle.col_model.specs.WholeStep.{Operation, checked_result, exact_result, is_by_zero};
ghost use Rattle.col_model.specs.WholeStep.{division, is_fitting_result};
ghost use Rattle.col_types.specs.Answer.{error_of};

use col_types::{Error, NativeArithmetics};

// An operation on the numbers of a type.
pub(crate) trait Operator<T: NativeArithmetics> {
    // Which operation it is.
    ghost operation: { Operation };

    // The exact number; none where there is none, or it does not fit.
    fn checked(a: T, b: T) -> Option<T>
        ensures { option_map T.value result
            ≡ checked_result operation T.whole_type (T.value a) (T.value b) };

    // Why there is no such number.
    fn refusal(b: T) -> Error
        ensures { result
            ≡ error_of (if is_by_zero operation (T.value b) then divide_by_zero else overflow) };
}

// An operation that has an exact number for any two.
pub(crate) trait TotalOperator<T: NativeArithmetics>: Operator<T> {
    // The exact number, wrapped into the type.
    fn wrapped(a: T, b: T) -> T
        ensures { T.value result ≡ wrapped_number T.whole_type
            (exact_result Self.operation (T.value a) (T.value b)) };

    // The exact number, or the end of the type that it is past.
    fn clamped(a: T, b: T) -> T
        ensures { T.value result ≡ nearest_number T.whole_type
            (exact_result Self.operation (T.value a) (T.value b)) };

    // No number is one that there is no result by.
    ghost total_law: { (n : ℤ) → is_by_zero Self.operation n ≡ false };

    // The exact number alone has to fit.
    ghost fitting_law: { (t : WholeType) (m n : ℤ) → is_fitting_result Self.operation t m n
        ≡ is_fitting t (exact_result Self.operation m n) };
}

// The sum.
pub(crate) struct Addition;

impl<T: NativeArithmetics> Operator<T> for Addition {
    ghost use Rattle.col_model.specs.WholeStep.{addition};

    ghost operation = { addition };

    fn checked(a: T, b: T) -> Option<T> {
        a.add_checked(b)
    }

    fn refusal(_b: T) -> Error {
        Error::Overflow
    }
}

impl<T: NativeArithmetics> TotalOperator<T> for Addition {
    ghost use Rattle.std.specs.Prelude.{refl};

    ghost total_law = { λ n. refl };

    ghost fitting_law = { λ t m n. refl };

    fn wrapped(a: T, b: T) -> T {
        a.add_wrapped(b)
    }

    fn clamped(a: T, b: T) -> T {
        a.add_clamped(b)
    }
}

// The difference.
pub(crate) struct Subtraction;

impl<T: NativeArithmetics> Operator<T> for Subtraction {
    ghost use Rattle.col_model.specs.WholeStep.{subtraction};

    ghost operation = { subtraction };

    fn checked(a: T, b: T) -> Option<T> {
        a.sub_checked(b)
    }

    fn refusal(_b: T) -> Error {
        Error::Overflow
    }
}

impl<T: NativeArithmetics> TotalOperator<T> for Subtraction {
    ghost use Rattle.std.specs.Prelude.{refl};

    ghost total_law = { λ n. refl };

    ghost fitting_law = { λ t m n. refl };

    fn wrapped(a: T, b: T) -> T {
        a.sub_wrapped(b)
    }

    fn clamped(a: T, b: T) -> T {
        a.sub_clamped(b)
    }
}

// The product.
pub(crate) struct Multiplication;

impl<T: NativeArithmetics> Operator<T> for Multiplication {
    ghost use Rattle.col_model.specs.WholeStep.{multiplication};

    ghost operation = { multiplication };

    fn checked(a: T, b: T) -> Option<T> {
        a.mul_checked(b)
    }

    fn refusal(_b: T) -> Error {
        Error::Overflow
    }
}

impl<T: NativeArithmetics> TotalOperator<T> for Multiplication {
    ghost use Rattle.std.specs.Prelude.{refl};

    ghost total_law = { λ n. refl };

    ghost fitting_law = { λ t m n. refl };

    fn wrapped(a: T, b: T) -> T {
        a.mul_wrapped(b)
    }

    fn clamped(a: T, b: T) -> T {
        a.mul_clamped(b)
    }
}

// The quotient, toward zero.
pub(crate) struct Division;

impl<T: NativeArithmetics> Operator<T> for Division {
    ghost use Rattle.col_model.specs.WholeStep.{division};

    ghost operation = { division };

    fn checked(a: T, b: T) -> Option<T> {
        a.div_checked(b)
    }

    fn refusal(b: T) -> Error {
        division_refusal(b)
    }
}

// The remainder, with the sign of the dividend.
pub(crate) struct Remainder;

impl<T: NativeArithmetics> Operator<T> for Remainder {
    ghost use Rattle.col_model.specs.WholeStep.{remainder};

    ghost operation = { remainder };

    fn checked(a: T, b: T) -> Option<T> {
        a.rem_checked(b)
    }

    fn refusal(b: T) -> Error {
        division_refusal(b)
    }
}

// Why a division by the number has no result.
fn division_refusal<T: NativeArithmetics>(b: T) -> Error
    ensures { result
        ≡ error_of (if is_by_zero division (T.value b) then divide_by_zero else overflow) }
{
    if b == T::zero() {
        Error::DivideByZero
    } else {
        Error::Overflow
    }
}
