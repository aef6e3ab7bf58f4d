//! Checks of types and of native types: that calls succeed, and what they answer.
#![tactic(auto)]

#[cfg(test)]
mod datatypes;
#[cfg(test)]
mod natives;
