//! Checks of runs: the edge to std's readers and writers, faults in mid-stream, pages, and which
//! documents are read in one pass.
#![tactic(auto)]

#[cfg(test)]
mod faults;
#[cfg(test)]
mod pages;
#[cfg(test)]
mod plain;
#[cfg(test)]
mod positions;
#[cfg(test)]
mod runs;
#[cfg(test)]
mod streams;
