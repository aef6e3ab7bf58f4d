//! Checks of JSON read a token at a time: what is read, and where a call gives up.
#![tactic(auto)]

#[cfg(test)]
mod numbers;
#[cfg(test)]
mod objects;
#[cfg(test)]
mod tokens;
#[cfg(test)]
mod values;
