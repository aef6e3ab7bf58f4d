//! Checks of kernels: that calls succeed, and what they answer where no document asks.
#![tactic(auto)]

#[cfg(test)]
mod arity;
#[cfg(test)]
mod calls;
#[cfg(test)]
mod division;
#[cfg(test)]
mod flags;
#[cfg(test)]
mod single;
#[cfg(test)]
mod whole;
