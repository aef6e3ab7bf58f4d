//! Checks of the calendar: that calls succeed, and examples of what they answer.
#![tactic(auto)]

#[cfg(test)]
mod conversions;
#[cfg(test)]
mod offsets;
