//! What contracts of several crates speak of: definitions alone, in terms of no code.
#![tactic(auto)]
