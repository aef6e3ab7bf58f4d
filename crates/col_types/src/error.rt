//! Why a call refuses.
ghost use Rattle.std.specs.Prelude.{◌≡◌};
ghost use Rattle.col_types.specs.declared.error.Error.TheVariants.{Memory};
ghost use Rattle.col_types.specs.ErrorNumber.{error_number};

use std::alloc::{AllocError, AllocFailed};
use thiserror::Error;

/// Which argument does not fit.
#[derive(Clone, Copy, Debug, PartialEq, Eq, Error)]
pub enum Reason {
    /// Arrays or columns that differ in length.
    #[error("the lengths differ")]
    Lengths,
    /// A tree of more than 256 levels.
    #[error("the tree has more than 256 levels")]
    Depth,
    /// A position at which the table has no column.
    #[error("no column stands at this position")]
    Position,
    /// A precision, scale or size out of range.
    #[error("a precision, scale or size is out of range")]
    Parameters,
    /// A time zone that is not read.
    #[error("the time zone is not read")]
    Zone,
    /// A list row that has not the fixed length.
    #[error("a list has not the fixed length")]
    RowLength,
    /// Types of time that do not go together.
    #[error("these types of time do not go together")]
    TimeTypes,
    /// A type that is not summed.
    #[error("columns of this type are not summed")]
    SumType,
}

/// Why a call refuses.
#[derive(Clone, Copy, Debug, PartialEq, Eq, Error)]
pub enum Error {
    /// Memory was not found.
    #[error("out of memory")]
    Memory,
    /// These types have no such kernel, or no such step.
    #[error("not yet implemented")]
    NotYetImplemented,
    /// An argument does not fit.
    #[error("invalid argument: {0}")]
    InvalidArgumentError(Reason),
    /// A valid row's number passes its type.
    #[error("overflow")]
    Overflow,
    /// A valid row's divisor is 0.
    #[error("division by zero")]
    DivideByZero,
    /// A valid row's date or time is out of range.
    #[error("out of range")]
    OutOfRange,
    /// Parts that make no array.
    #[error("out of spec")]
    OutOfSpec,
}

impl Error {
    /// The error's number, from 1 to 7 in the order of the variants.
    pub fn number(&self) -> u8
        ensures { result ≡ error_number self.now }
    {
        match self {
            Error::Memory => 1,
            Error::NotYetImplemented => 2,
            Error::InvalidArgumentError(_) => 3,
            Error::Overflow => 4,
            Error::DivideByZero => 5,
            Error::OutOfRange => 6,
            Error::OutOfSpec => 7,
        }
    }
}

impl From<AllocError> for Error {
    ghost from_gives = { λ _ e. e ≡ Memory };

    fn from(_e: AllocError) -> Error {
        Error::Memory
    }
}

impl<T: Drop> From<AllocFailed<T>> for Error {
    ghost from_gives = { λ _ e. e ≡ Memory };

    fn from(_e: AllocFailed<T>) -> Error {
        Error::Memory
    }
}
