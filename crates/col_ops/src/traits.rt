//! The operators of arrays: a trait for each operation in each form.
ghost use Rattle.std.specs.Prelude.{Bool, List, Result};
ghost use Rattle.col_types.specs.Answer.{Answers};
ghost use Rattle.col_types.specs.Column.{Column};
ghost use Rattle.col_types.specs.declared.error.Error.{Error};

use col_buf::Bitmap;
use col_types::Error;
use std::alloc::Global;

/// Adds, row by row. A row where either side is null is null; the type is that of the left array.
///
/// Arrays of whole numbers are refused, in this order: `Lengths` exactly where two of them differ
/// in length; `Overflow` exactly where some row has two values whose sum does not fit.
/// Arrays of decimals answer and are refused as by `col_decimal::add`.
pub trait ArrayAdd<Rhs>: Sized {
    /// The column that an array stands for.
    ghost column: { Self → Column };

    /// What is answered for a column and a right operand.
    ghost sum_answer: { Column → Rhs → Result Column Error };

    /// The sums.
    fn add(&self, alloc: Global, rhs: &Rhs) -> Result<Self, Error>
        ensures answer { Answers column result (sum_answer (column self.now) rhs.now) };
}

/// Adds, row by row; a sum is taken modulo 2^w, w being the width of the type. A row where either
/// side is null is null; the type is that of the left array. An array and a number have no such
/// operator.
///
/// Refused: `Lengths` exactly where the arrays differ in length.
pub trait ArrayWrappingAdd<Rhs>: Sized {
    /// The column that an array stands for.
    ghost column: { Self → Column };

    /// What is answered for a column and a right operand.
    ghost wrapped_sum: { Column → Rhs → Result Column Error };

    /// The sums.
    fn wrapping_add(&self, alloc: Global, rhs: &Rhs) -> Result<Self, Error>
        ensures answer { Answers column result (wrapped_sum (column self.now) rhs.now) };
}

/// Adds, row by row. A row where either side is null, or whose sum does not fit, is null; the type
/// is that of the left array.
///
/// Arrays of whole numbers are refused with `Lengths` exactly where two of them differ in length.
/// Arrays of decimals answer and are refused as by `col_decimal::checked_add`.
pub trait ArrayCheckedAdd<Rhs>: Sized {
    /// The column that an array stands for.
    ghost column: { Self → Column };

    /// What is answered for a column and a right operand.
    ghost checked_sum: { Column → Rhs → Result Column Error };

    /// The sums.
    fn checked_add(&self, alloc: Global, rhs: &Rhs) -> Result<Self, Error>
        ensures answer { Answers column result (checked_sum (column self.now) rhs.now) };
}

/// Adds, row by row; a sum past an end of the type is that end. A row where either side is null is
/// null; the type is that of the left array.
///
/// Arrays of whole numbers are refused with `Lengths` exactly where two of them differ in length.
/// Arrays of decimals answer and are refused as by `col_decimal::saturating_add`.
pub trait ArraySaturatingAdd<Rhs>: Sized {
    /// The column that an array stands for.
    ghost column: { Self → Column };

    /// What is answered for a column and a right operand.
    ghost saturated_sum: { Column → Rhs → Result Column Error };

    /// The sums.
    fn saturating_add(&self, alloc: Global, rhs: &Rhs) -> Result<Self, Error>
        ensures answer { Answers column result (saturated_sum (column self.now) rhs.now) };
}

/// Adds, row by row; a sum is taken modulo 2^w, w being the width of the type, and a flag for each
/// row tells whether it did not fit. A row where either side is null is null, with the flag false;
/// the type is that of the left array.
///
/// Arrays of whole numbers are refused with `Lengths` exactly where two of them differ in length.
pub trait ArrayOverflowingAdd<Rhs>: Sized {
    /// The column that an array stands for.
    ghost column: { Self → Column };

    /// What is answered for a column and a right operand.
    ghost flagged_sum: { Column → Rhs → Result (Column × List Bool) Error };

    /// The sums, and a flag for each row.
    fn overflowing_add(&self, alloc: Global, rhs: &Rhs) -> Result<(Self, Bitmap), Error>
        ensures answer { Answers (λ made. (column made.0, made.1)) result
            (flagged_sum (column self.now) rhs.now) };
}

/// Subtracts, row by row. A row where either side is null is null; the type is that of the left
/// array.
///
/// Arrays of whole numbers are refused, in this order: `Lengths` exactly where two of them differ
/// in length; `Overflow` exactly where some row has two values whose difference does not fit.
/// Arrays of decimals answer and are refused as by `col_decimal::sub`.
pub trait ArraySub<Rhs>: Sized {
    /// The column that an array stands for.
    ghost column: { Self → Column };

    /// What is answered for a column and a right operand.
    ghost difference_answer: { Column → Rhs → Result Column Error };

    /// The differences.
    fn sub(&self, alloc: Global, rhs: &Rhs) -> Result<Self, Error>
        ensures answer { Answers column result (difference_answer (column self.now) rhs.now) };
}

/// Subtracts, row by row; a difference is taken modulo 2^w, w being the width of the type. A row
/// where either side is null is null; the type is that of the left array. An array and a number
/// have no such operator.
///
/// Refused: `Lengths` exactly where the arrays differ in length.
pub trait ArrayWrappingSub<Rhs>: Sized {
    /// The column that an array stands for.
    ghost column: { Self → Column };

    /// What is answered for a column and a right operand.
    ghost wrapped_difference: { Column → Rhs → Result Column Error };

    /// The differences.
    fn wrapping_sub(&self, alloc: Global, rhs: &Rhs) -> Result<Self, Error>
        ensures answer { Answers column result (wrapped_difference (column self.now) rhs.now) };
}

/// Subtracts, row by row. A row where either side is null, or whose difference does not fit, is
/// null; the type is that of the left array.
///
/// Arrays of whole numbers are refused with `Lengths` exactly where two of them differ in length.
/// Arrays of decimals answer and are refused as by `col_decimal::checked_sub`.
pub trait ArrayCheckedSub<Rhs>: Sized {
    /// The column that an array stands for.
    ghost column: { Self → Column };

    /// What is answered for a column and a right operand.
    ghost checked_difference: { Column → Rhs → Result Column Error };

    /// The differences.
    fn checked_sub(&self, alloc: Global, rhs: &Rhs) -> Result<Self, Error>
        ensures answer { Answers column result (checked_difference (column self.now) rhs.now) };
}

/// Subtracts, row by row; a difference past an end of the type is that end. A row where either side
/// is null is null; the type is that of the left array.
///
/// Arrays of whole numbers are refused with `Lengths` exactly where two of them differ in length.
/// Arrays of decimals answer and are refused as by `col_decimal::saturating_sub`.
pub trait ArraySaturatingSub<Rhs>: Sized {
    /// The column that an array stands for.
    ghost column: { Self → Column };

    /// What is answered for a column and a right operand.
    ghost saturated_difference: { Column → Rhs → Result Column Error };

    /// The differences.
    fn saturating_sub(&self, alloc: Global, rhs: &Rhs) -> Result<Self, Error>
        ensures answer { Answers column result (saturated_difference (column self.now) rhs.now) };
}

/// Subtracts, row by row; a difference is taken modulo 2^w, w being the width of the type, and a
/// flag for each row tells whether it did not fit. A row where either side is null is null, with
/// the flag false; the type is that of the left array.
///
/// Arrays of whole numbers are refused with `Lengths` exactly where two of them differ in length.
pub trait ArrayOverflowingSub<Rhs>: Sized {
    /// The column that an array stands for.
    ghost column: { Self → Column };

    /// What is answered for a column and a right operand.
    ghost flagged_difference: { Column → Rhs → Result (Column × List Bool) Error };

    /// The differences, and a flag for each row.
    fn overflowing_sub(&self, alloc: Global, rhs: &Rhs) -> Result<(Self, Bitmap), Error>
        ensures answer { Answers (λ made. (column made.0, made.1)) result
            (flagged_difference (column self.now) rhs.now) };
}

/// Multiplies, row by row. A row where either side is null is null; the type is that of the left
/// array.
///
/// Arrays of whole numbers are refused, in this order: `Lengths` exactly where two of them differ
/// in length; `Overflow` exactly where some row has two values whose product does not fit.
/// Arrays of decimals answer and are refused as by `col_decimal::mul`.
pub trait ArrayMul<Rhs>: Sized {
    /// The column that an array stands for.
    ghost column: { Self → Column };

    /// What is answered for a column and a right operand.
    ghost product_answer: { Column → Rhs → Result Column Error };

    /// The products.
    fn mul(&self, alloc: Global, rhs: &Rhs) -> Result<Self, Error>
        ensures answer { Answers column result (product_answer (column self.now) rhs.now) };
}

/// Multiplies, row by row; a product is taken modulo 2^w, w being the width of the type. A row
/// where either side is null is null; the type is that of the left array. An array and a number
/// have no such operator.
///
/// Refused: `Lengths` exactly where the arrays differ in length.
pub trait ArrayWrappingMul<Rhs>: Sized {
    /// The column that an array stands for.
    ghost column: { Self → Column };

    /// What is answered for a column and a right operand.
    ghost wrapped_product: { Column → Rhs → Result Column Error };

    /// The products.
    fn wrapping_mul(&self, alloc: Global, rhs: &Rhs) -> Result<Self, Error>
        ensures answer { Answers column result (wrapped_product (column self.now) rhs.now) };
}

/// Multiplies, row by row. A row where either side is null, or whose product does not fit, is null;
/// the type is that of the left array.
///
/// Arrays of whole numbers are refused with `Lengths` exactly where two of them differ in length.
/// Arrays of decimals answer and are refused as by `col_decimal::checked_mul`.
pub trait ArrayCheckedMul<Rhs>: Sized {
    /// The column that an array stands for.
    ghost column: { Self → Column };

    /// What is answered for a column and a right operand.
    ghost checked_product: { Column → Rhs → Result Column Error };

    /// The products.
    fn checked_mul(&self, alloc: Global, rhs: &Rhs) -> Result<Self, Error>
        ensures answer { Answers column result (checked_product (column self.now) rhs.now) };
}

/// Multiplies, row by row; a product past an end of the type is that end. A row where either side
/// is null is null; the type is that of the left array.
///
/// Arrays of whole numbers are refused with `Lengths` exactly where two of them differ in length.
/// Arrays of decimals answer and are refused as by `col_decimal::saturating_mul`.
pub trait ArraySaturatingMul<Rhs>: Sized {
    /// The column that an array stands for.
    ghost column: { Self → Column };

    /// What is answered for a column and a right operand.
    ghost saturated_product: { Column → Rhs → Result Column Error };

    /// The products.
    fn saturating_mul(&self, alloc: Global, rhs: &Rhs) -> Result<Self, Error>
        ensures answer { Answers column result (saturated_product (column self.now) rhs.now) };
}

/// Multiplies, row by row; a product is taken modulo 2^w, w being the width of the type, and a flag
/// for each row tells whether it did not fit. A row where either side is null is null, with the
/// flag false; the type is that of the left array.
///
/// Arrays of whole numbers are refused with `Lengths` exactly where two of them differ in length.
pub trait ArrayOverflowingMul<Rhs>: Sized {
    /// The column that an array stands for.
    ghost column: { Self → Column };

    /// What is answered for a column and a right operand.
    ghost flagged_product: { Column → Rhs → Result (Column × List Bool) Error };

    /// The products, and a flag for each row.
    fn overflowing_mul(&self, alloc: Global, rhs: &Rhs) -> Result<(Self, Bitmap), Error>
        ensures answer { Answers (λ made. (column made.0, made.1)) result
            (flagged_product (column self.now) rhs.now) };
}

/// Divides, row by row; a quotient goes toward zero. A row where either side is null is null; the
/// type is that of the left array.
///
/// Arrays of whole numbers are refused, in this order: `Lengths` exactly where two of them differ
/// in length; the cause of the least row with two values that has one: `DivideByZero` where the
/// divisor is 0, `Overflow` where the quotient does not fit.
/// Arrays of decimals answer and are refused as by `col_decimal::div`.
pub trait ArrayDiv<Rhs>: Sized {
    /// The column that an array stands for.
    ghost column: { Self → Column };

    /// What is answered for a column and a right operand.
    ghost quotient_answer: { Column → Rhs → Result Column Error };

    /// The quotients.
    fn div(&self, alloc: Global, rhs: &Rhs) -> Result<Self, Error>
        ensures answer { Answers column result (quotient_answer (column self.now) rhs.now) };
}

/// Divides, row by row; a quotient goes toward zero. A row is null where either side is null, the
/// divisor is 0, or the quotient does not fit; the type is that of the left array.
///
/// Arrays of whole numbers are refused with `Lengths` exactly where two of them differ in length.
/// Arrays of decimals answer and are refused as by `col_decimal::checked_div`.
pub trait ArrayCheckedDiv<Rhs>: Sized {
    /// The column that an array stands for.
    ghost column: { Self → Column };

    /// What is answered for a column and a right operand.
    ghost checked_quotient: { Column → Rhs → Result Column Error };

    /// The quotients.
    fn checked_div(&self, alloc: Global, rhs: &Rhs) -> Result<Self, Error>
        ensures answer { Answers column result (checked_quotient (column self.now) rhs.now) };
}

/// Takes remainders, row by row; a remainder has the sign of its dividend. A row where either side
/// is null is null; the type is that of the left array.
///
/// Arrays of whole numbers are refused, in this order: `Lengths` exactly where two of them differ
/// in length; the cause of the least row with two values that has one: `DivideByZero` where the
/// divisor is 0, `Overflow` where the quotient does not fit.
pub trait ArrayRem<Rhs>: Sized {
    /// The column that an array stands for.
    ghost column: { Self → Column };

    /// What is answered for a column and a right operand.
    ghost remainder_answer: { Column → Rhs → Result Column Error };

    /// The remainders.
    fn rem(&self, alloc: Global, rhs: &Rhs) -> Result<Self, Error>
        ensures answer { Answers column result (remainder_answer (column self.now) rhs.now) };
}

/// Takes remainders, row by row; a remainder has the sign of its dividend. A row is null where
/// either side is null, the divisor is 0, or the quotient does not fit; the type is that of the
/// left array.
///
/// Arrays of whole numbers are refused with `Lengths` exactly where two of them differ in length.
pub trait ArrayCheckedRem<Rhs>: Sized {
    /// The column that an array stands for.
    ghost column: { Self → Column };

    /// What is answered for a column and a right operand.
    ghost checked_remainder: { Column → Rhs → Result Column Error };

    /// The remainders.
    fn checked_rem(&self, alloc: Global, rhs: &Rhs) -> Result<Self, Error>
        ensures answer { Answers column result (checked_remainder (column self.now) rhs.now) };
}
