//! Tests of the parsers of components, and of descriptions written as text: worked ones have their steps or their error;
//! every short text, and every truncated and changed one, has the error of a slow parser; and tests of the room for
//! their steps, of their trees as items that own their parts, of the debug output of items, of the texts of
//! descriptions, and of the texts of moments by them.
#![tactic(auto)]

#[cfg(test)]
mod components;
#[cfg(test)]
mod debugging;
#[cfg(test)]
mod describing;
#[cfg(test)]
mod differential;
#[cfg(test)]
mod formatting;
#[cfg(test)]
mod slow;
#[cfg(test)]
mod steps;
#[cfg(test)]
mod surface;
