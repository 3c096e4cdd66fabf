//! Tests of prepared descriptions, and of the location of errors.
#![tactic(auto)]

#[cfg(test)]
mod locating;
#[cfg(test)]
mod preparing;
