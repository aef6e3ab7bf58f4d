//! What a decimal type asks of its numbers.
ghost use Rattle.std.specs.Prelude.{◌≡◌, ◌≤◌, ◌-◌, ◌^◌, ◌↔◌, pos, neg_ℤ, IfErr, IfOk, IsOk, IsTrue};
ghost use Rattle.std.specs.Prelude.{None, Some, if◌then◌else◌};
ghost use Rattle.col_types.specs.declared.datatypes.physical_type.PrimitiveType.TheVariants as name;
ghost use Rattle.col_types.specs.declared.error.Reason.TheVariants.{Parameters};
ghost use Rattle.col_types.specs.DataKind.{kind_of};
ghost use Rattle.col_types.specs.DataType.{IsMadeOf, is_fitting_decimal};
ghost use Rattle.col_decimal.specs.Decimal.{decimal_limit, has_parameters_of, is_within};
ghost use Rattle.col_decimal.specs.Decimal.{precision_of, quotient_by_ten, scale_of};
ghost use Rattle.col_decimal.specs.DecimalStep.{signed_limit};

use crate::decimal::{max_value, power_of_ten};
use col_types::{DataType, Error, Reason};

// What a decimal type asks of its numbers.
#[derive(Clone, Copy)]
pub(crate) struct Bounds {
    pub(crate) precision: usize,
    pub(crate) scale: usize,
    // the greatest number of the precision
    pub(crate) limit: i128,
    // 10 to the power of the scale
    pub(crate) power: i128,
    ghost small: { precision ≤ 38 },
    ghost low: { scale ≤ 38 },
    ghost is_limit: { limit ≡ pos (decimal_limit precision) },
    ghost is_power: { power ≡ pos (10 ^ scale) },
}

impl Bounds {
    // Those of a precision and a scale.
    pub(crate) fn new(precision: usize, scale: usize) -> Bounds
        requires small { precision ≤ 38 }
        requires low { scale ≤ 38 }
        ensures precision { result.precision ≡ precision }
        ensures scale { result.scale ≡ scale }
    {
        Bounds {
            precision,
            scale,
            limit: max_value(precision),
            power: power_of_ten(scale),
        }
    }

    // The number, where it is one of the precision.
    pub(crate) fn within(self, n: i128) -> Option<i128>
        ensures { result ≡ (if is_within self.precision n then Some n else None) }
    {
        if -self.limit <= n && n <= self.limit {
            Some(n)
        } else {
            None
        }
    }

    // The quotient by the scale's power of ten, toward zero.
    pub(crate) fn unscaled(self, n: i128) -> i128
        ensures { result ≡ quotient_by_ten n self.scale }
    {
        match (i64::try_from(n), i64::try_from(self.power)) {
            (Ok(n), Ok(power)) => i128::from(n / power),
            _ => n / self.power,
        }
    }

    // The limit, with a sign.
    pub(crate) fn signed(self, is_negative: bool) -> i128
        ensures { result ≡ signed_limit self.precision is_negative }
    {
        if is_negative { -self.limit } else { self.limit }
    }
}

// The precision and the scale of a decimal type.
pub(crate) fn parameters_of(data_type: &DataType) -> (usize, usize)
    requires { IsMadeOf (kind_of data_type.now) name.Int128 }
    ensures fits { IsTrue (is_fitting_decimal result.0 result.1) }
    ensures precision { result.0 ≡ precision_of (kind_of data_type.now) }
    ensures scale { result.1 ≡ scale_of (kind_of data_type.now) }
{
    match data_type {
        DataType::Decimal(precision, scale) => (*precision, *scale),
        _ => (0, 0),
    }
}

// What two decimal types ask of their numbers.
//
// Refused: `Parameters` where the types have not the same parameters.
pub(crate) fn bounds_of(lhs: &DataType, rhs: &DataType) -> Result<Bounds, Error>
    requires left { IsMadeOf (kind_of lhs.now) name.Int128 }
    requires right { IsMadeOf (kind_of rhs.now) name.Int128 }
    ensures precision { IfOk result (λ bounds. bounds.precision ≡ precision_of (kind_of lhs.now)) }
    ensures scale { IfOk result (λ bounds. bounds.scale ≡ scale_of (kind_of lhs.now)) }
    ensures range { IsOk result
        ↔ IsTrue (has_parameters_of (kind_of lhs.now) (kind_of rhs.now)) }
    ensures refused { IfErr result (λ e. e ≡ Error.InvalidArgumentError Parameters) }
{
    let left = parameters_of(lhs);
    let right = parameters_of(rhs);
    if left.0 == right.0 && left.1 == right.1 {
        Ok(Bounds::new(left.0, left.1))
    } else {
        Err(Error::InvalidArgumentError(Reason::Parameters))
    }
}
