//! Tests of records: items that are parsed into a record, its fields, and its conversions to values.
#![tactic(auto)]

#[cfg(test)]
mod conversions;
#[cfg(test)]
mod counted_and_laws;
pub mod fields;
#[cfg(test)]
mod guides;
pub mod inspected;
#[cfg(test)]
mod items;
#[cfg(test)]
mod records;
pub mod same;
#[cfg(test)]
mod surface;
