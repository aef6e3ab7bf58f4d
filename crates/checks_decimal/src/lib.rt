//! Checks of kernels on decimals: that calls succeed, and examples of what they answer.
#![tactic(auto)]

#[cfg(test)]
mod adaptive;
#[cfg(test)]
mod arrays;
#[cfg(test)]
mod forms;
#[cfg(test)]
mod parameters;
