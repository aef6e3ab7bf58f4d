//! Checks of buffers, bitmaps and arrays: that calls succeed, and what they answer.
#![tactic(auto)]

#[cfg(test)]
mod arrays;
#[cfg(test)]
mod buffers;
#[cfg(test)]
mod flat;
