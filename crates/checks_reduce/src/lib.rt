//! Checks of sums: that calls succeed, and examples of what they answer.
#![tactic(auto)]

#[cfg(test)]
mod any;
#[cfg(test)]
mod ends;
#[cfg(test)]
mod masks;
#[cfg(test)]
mod slots;
