//! The table of steps: which operands a step takes.
ghost use Rattle.std.specs.Prelude.{◌≡◌};
ghost use Rattle.col_types.specs.Answer.{Answers};
ghost use Rattle.col_types.specs.DataKind.{DataKind, kind_of};
ghost use Rattle.col_decimal.specs.Decimal.{has_parameters_of, precision_of, scale_of};
ghost use Rattle.col_eval.specs.declared.expr.Op.{Op};
ghost use Rattle.col_eval.specs.Entries.{decimal_form, decimal_operation, decimal_rule};
ghost use Rattle.col_eval.specs.Entries.{entry_by, form_of, is_plain_form, operation_of, rule_of};

use crate::expr::Op;
use col_types::{DataType, Error, Reason};
use std::alloc::Global;

/// A rule by which steps work on operands of some types.
#[derive(Clone, Copy)]
pub enum Rule {
    /// Two whole numbers of one type give one of that type.
    WholeNumbers,
    /// Two decimals of one precision and scale give one of these.
    Decimals,
}

impl Rule {
    /// The rule of a step on operands of two types; `None` where the step does not take them.
    pub fn of(op: Op, lhs: &DataType, rhs: &DataType) -> Option<Rule>
        ensures { result ≡ rule_of op (kind_of lhs.now) (kind_of rhs.now) }
    {
        match (lhs, rhs) {
            (DataType::Int8, DataType::Int8)
            | (DataType::Int16, DataType::Int16)
            | (DataType::Int32, DataType::Int32)
            | (DataType::Int64, DataType::Int64)
            | (DataType::UInt8, DataType::UInt8)
            | (DataType::UInt16, DataType::UInt16)
            | (DataType::UInt32, DataType::UInt32)
            | (DataType::UInt64, DataType::UInt64) => Some(Rule::WholeNumbers),
            (DataType::Decimal(..), DataType::Decimal(..)) => Rule::of_decimals(op),
            _ => None,
        }
    }

    // The rule of a step on two decimals; `None` where they have no such step.
    fn of_decimals(op: Op) -> Option<Rule>
        ensures { result
            ≡ decimal_rule (decimal_operation (operation_of op)) (decimal_form (form_of op)) }
    {
        match op {
            Op::Add
            | Op::CheckedAdd
            | Op::SaturatingAdd
            | Op::Sub
            | Op::CheckedSub
            | Op::SaturatingSub
            | Op::Mul
            | Op::CheckedMul
            | Op::SaturatingMul
            | Op::Div
            | Op::CheckedDiv => Some(Rule::Decimals),
            Op::WrappingAdd | Op::WrappingSub | Op::WrappingMul | Op::Rem | Op::CheckedRem => None,
        }
    }

    /// Whether the right operand of a step by the rule may be a literal of a tree.
    pub fn takes_literal(self, op: Op) -> bool
        ensures { (s t : DataKind) → result ≡ (entry_by self op s t).takes_literal }
    {
        match self {
            Rule::WholeNumbers => true,
            Rule::Decimals => is_plain(op),
        }
    }

    /// The type that a step by the rule gives for operands of two types.
    ///
    /// Refused: `Parameters` where decimal types differ in precision or scale, or have parameters
    /// that do not fit.
    pub fn answer_type(
        self,
        alloc: Global,
        lhs: &DataType,
        rhs: &DataType,
    ) -> Result<DataType, Error>
        ensures { (op : Op) → Answers kind_of result
            (entry_by self op (kind_of lhs.now) (kind_of rhs.now)).answer_type }
    {
        match self {
            Rule::WholeNumbers => lhs.try_clone(alloc),
            Rule::Decimals if lhs.parameters_fit() && have_one_precision_and_scale(lhs, rhs) => {
                lhs.try_clone(alloc)
            }
            Rule::Decimals => Err(Error::InvalidArgumentError(Reason::Parameters)),
        }
    }
}

// Whether a step refuses a row whose number does not fit.
fn is_plain(op: Op) -> bool
    ensures { result ≡ is_plain_form (form_of op) }
{
    match op {
        Op::Add | Op::Sub | Op::Mul | Op::Div | Op::Rem => true,
        Op::WrappingAdd
        | Op::CheckedAdd
        | Op::SaturatingAdd
        | Op::WrappingSub
        | Op::CheckedSub
        | Op::SaturatingSub
        | Op::WrappingMul
        | Op::CheckedMul
        | Op::SaturatingMul
        | Op::CheckedDiv
        | Op::CheckedRem => false,
    }
}

// Whether two types have the same parameters as decimals.
fn have_one_precision_and_scale(lhs: &DataType, rhs: &DataType) -> bool
    ensures { result ≡ has_parameters_of (kind_of lhs.now) (kind_of rhs.now) }
{
    let left = parameters_of(lhs);
    let right = parameters_of(rhs);
    left.0 == right.0 && left.1 == right.1
}

// The precision and the scale of a decimal type; of another type 0 and 0.
fn parameters_of(data_type: &DataType) -> (usize, usize)
    ensures precision { result.0 ≡ precision_of (kind_of data_type.now) }
    ensures scale { result.1 ≡ scale_of (kind_of data_type.now) }
{
    match data_type {
        DataType::Decimal(precision, scale) => (*precision, *scale),
        _ => (0, 0),
    }
}
