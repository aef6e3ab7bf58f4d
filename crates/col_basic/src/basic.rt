//! Arithmetic on whole numbers, one file for each operation.
pub mod add;
pub mod div;
pub mod mul;
pub mod negate;
pub mod pow;
pub mod rem;
pub mod sub;
