//! Checks of steps and of trees: that calls succeed, and what they answer where no document asks.
#![tactic(auto)]

#[cfg(test)]
mod answers;
#[cfg(test)]
mod decimal_trees;
#[cfg(test)]
mod decimals;
#[cfg(test)]
mod eval;
#[cfg(test)]
mod steps;
