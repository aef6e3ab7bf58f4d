//! Checks of the parts of dates, instants and times of day: that calls succeed, and examples of
//! what they answer.
#![tactic(auto)]

#[cfg(test)]
mod answers;
#[cfg(test)]
mod columns;
#[cfg(test)]
mod days;
#[cfg(test)]
mod instants;
#[cfg(test)]
mod times;
#[cfg(test)]
mod types;
#[cfg(test)]
mod weeks;
#[cfg(test)]
mod zones;
