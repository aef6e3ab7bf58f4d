//! The adaptive kernel, for any operation: on arrays of any two decimal types.
ghost use Rattle.std.specs.Prelude.{◌≡◌, ◌≤◌, ◌-◌, ◌^◌, ◌↔◌, IfErr, IfOk, IsOk, IsTrue, max};
ghost use Rattle.std.specs.Prelude.{nat_le, pos};
ghost use Rattle.col_model.specs.Cell.{whole};
ghost use Rattle.col_types.specs.Answer.{Answers, as_errors};
ghost use Rattle.col_types.specs.Column.{kernel_answer};
ghost use Rattle.col_types.specs.declared.datatypes.physical_type.PrimitiveType.TheVariants as name;
ghost use Rattle.col_types.specs.declared.error.Reason.TheVariants.{Parameters};
ghost use Rattle.col_types.specs.DataKind.{decimal, kind_of};
ghost use Rattle.col_types.specs.DataType.{IsMadeOf, is_fitting_decimal};
ghost use Rattle.col_flat.specs.Parts.{column_of};
ghost use Rattle.col_arity.specs.Answered.{plain_cell};
ghost use Rattle.col_decimal.specs.Adaptive.{adaptive_answer, adaptive_step, brought_numbers};
ghost use Rattle.col_decimal.specs.Adaptive.{first_precision, most_digits};
ghost use Rattle.col_decimal.specs.Decimal.{scale_of};

use crate::bounds::{Bounds, parameters_of};
use crate::decimal::{adjusted_precision_scale, digits_of_size, power_of_ten};
use crate::kernels::{Plain, RefusingForm, refusing_number};
use crate::operator::DecimalOperator;
use crate::wide::product;
use col_arity::try_binary;
use col_flat::PrimitiveArray;
use col_types::{DataType, Error, Reason};
use std::alloc::Global;

// How numbers of two scales are brought to the larger one.
#[derive(Clone, Copy)]
struct Scales {
    left: usize,
    right: usize,
    // 10 to the power of what each of them lacks to the larger one
    left_power: i128,
    right_power: i128,
    // what is asked of a number of 38 digits at the larger one
    bounds: Bounds,
    ghost left_lacks: { left_power ≡ pos (10 ^ (max left right - left)) },
    ghost right_lacks: { right_power ≡ pos (10 ^ (max left right - right)) },
    ghost digits: { bounds.precision ≡ 38 },
    ghost larger: { bounds.scale ≡ max left right },
}

impl Scales {
    // Those of two scales.
    fn new(left: usize, right: usize) -> Scales
        requires left { left ≤ 38 }
        requires right { right ≤ 38 }
        ensures left { result.left ≡ left }
        ensures right { result.right ≡ right }
    {
        let larger = left.max(right);
        Scales {
            left,
            right,
            left_power: power_of_ten(larger - left),
            right_power: power_of_ten(larger - right),
            bounds: Bounds::new(38, larger),
        }
    }

    // Both numbers at the larger scale, where they fit.
    fn brought(self, a: i128, b: i128) -> Option<(i128, i128)>
        ensures { result ≡ brought_numbers self.left self.right a b }
    {
        let left = product(a, self.left_power)?;
        let right = product(b, self.right_power)?;
        Some((left, right))
    }
}

// The adaptive form on two arrays.
pub(crate) fn adaptive_two<O: DecimalOperator>(
    alloc: Global,
    lhs: &PrimitiveArray<i128>,
    rhs: &PrimitiveArray<i128>,
) -> Result<PrimitiveArray<i128>, Error>
    ensures answer { Answers column_of result
        (adaptive_answer O.operation (column_of lhs.now) (column_of rhs.now)) }
{
    let (precision, scales) = common_type(lhs.data_type(), rhs.data_type())?;
    let array = adaptive_rows::<O>(alloc, scales, lhs, rhs)?;
    with_digits(array, precision, scales.bounds.scale)
}

// The precision that two types alone ask for, and how their numbers are brought to one scale.
//
// Refused: `Parameters` where that precision is none.
fn common_type(lhs: &DataType, rhs: &DataType) -> Result<(usize, Scales), Error>
    requires made { IsMadeOf (kind_of lhs.now) name.Int128
        × IsMadeOf (kind_of rhs.now) name.Int128 }
    ensures precision { IfOk result
        (λ found. found.0 ≡ first_precision (kind_of lhs.now) (kind_of rhs.now)) }
    ensures scales { IfOk result (λ found. (found.1.left ≡ scale_of (kind_of lhs.now))
        × (found.1.right ≡ scale_of (kind_of rhs.now))) }
    ensures fits { IfOk result
        (λ found. IsTrue (is_fitting_decimal found.0 found.1.bounds.scale)) }
    ensures range { IsOk result
        ↔ IsTrue (nat_le (first_precision (kind_of lhs.now) (kind_of rhs.now)) 38) }
    ensures refused { IfErr result (λ e. e ≡ Error.InvalidArgumentError Parameters) }
{
    let left = parameters_of(lhs);
    let right = parameters_of(rhs);
    let (precision, _, _) = adjusted_precision_scale(left.0, left.1, right.0, right.1);
    if precision <= 38 {
        Ok((precision, Scales::new(left.1, right.1)))
    } else {
        Err(Error::InvalidArgumentError(Reason::Parameters))
    }
}

// The array in a type of the scale, with the precision, or more where its numbers need more.
fn with_digits(
    array: PrimitiveArray<i128>,
    precision: usize,
    scale: usize,
) -> Result<PrimitiveArray<i128>, Error>
    requires digits { most_digits (column_of array).cells ≤ 38 }
    requires fits { IsTrue (is_fitting_decimal precision scale) }
    ensures ok { IsOk result }
    ensures value { IfOk result (λ made. column_of made ≡ record {
      data_type = decimal (max precision (most_digits (column_of array).cells)) scale;
      cells = (column_of array).cells;
    }) }
{
    let precision = precision.max(longest(&array));
    array.to(DataType::Decimal(precision, scale))
}

// The adaptive form, row by row, in the type of 38 digits.
fn adaptive_rows<O: DecimalOperator>(
    alloc: Global,
    scales: Scales,
    lhs: &PrimitiveArray<i128>,
    rhs: &PrimitiveArray<i128>,
) -> Result<PrimitiveArray<i128>, Error>
    ensures answer { Answers column_of result
        (kernel_answer (adaptive_step O.operation scales.left scales.right)
        (record {
          data_type = decimal 38 (max scales.left scales.right);
          cells = (column_of lhs.now).cells;
        }) (column_of rhs.now)) }
{
    let data_type = DataType::Decimal(38, scales.bounds.scale);
    let number = |a: i128, b: i128| -> Result<i128, Error>
        ensures { plain_cell whole result ≡ as_errors
            (adaptive_step O.operation scales.left scales.right (whole a) (whole b)) }
    { adaptive_number::<O>(scales, a, b) };
    try_binary(alloc, lhs, rhs, data_type, number)
}

// What the adaptive form gives for two numbers.
fn adaptive_number<O: DecimalOperator>(scales: Scales, a: i128, b: i128) -> Result<i128, Error>
    ensures { plain_cell whole result ≡ as_errors
        (adaptive_step O.operation scales.left scales.right (whole a) (whole b)) }
{
    match scales.brought(a, b) {
        Some((left, right)) => refusing_number::<O, Plain>(scales.bounds, left, right),
        None => Plain::unfit::<O>(scales.bounds, a, b),
    }
}

// The digits of the longest number of an array.
fn longest(array: &PrimitiveArray<i128>) -> usize
    ensures { result ≡ most_digits (column_of array.now).cells }
{
    let mut largest = 0;
    for slot in array.iter() {
        if let Some(number) = slot {
            largest = number.unsigned_abs().max(largest);
        }
    }
    digits_of_size(largest)
}
