//! Checks of the operators of arrays: each once, on two arrays and on an array and a number, and
//! those of decimals.
#![tactic(auto)]

#[cfg(test)]
mod decimal;
#[cfg(test)]
mod operators;
