//! Tests of the places of timestamps in lines, of verdicts on lines, of bounds by the clock, of streams that are
//! rewritten line by line, and of files that are replaced in a folder in memory.
#![tactic(auto)]

#[cfg(test)]
mod clocks;
pub mod memory;
#[cfg(test)]
mod outcomes;
#[cfg(test)]
mod places;
#[cfg(test)]
mod replacing;
#[cfg(test)]
mod spliced;
#[cfg(test)]
mod stream;
#[cfg(test)]
mod zoned;
