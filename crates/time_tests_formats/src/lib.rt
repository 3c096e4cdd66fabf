//! Tests of the formats RFC 3339, RFC 2822 and ISO 8601, of parses by them and by descriptions, and of texts by them.
#![tactic(auto)]

#[cfg(test)]
mod defaults;
#[cfg(test)]
mod errors;
#[cfg(test)]
mod formats;
#[cfg(test)]
mod guides;
#[cfg(test)]
mod hostile;
#[cfg(test)]
mod iso_texts;
#[cfg(test)]
mod parses;
#[cfg(test)]
mod paths;
#[cfg(test)]
mod records;
#[cfg(test)]
mod rfc2822;
#[cfg(test)]
mod rfc3339;
#[cfg(test)]
mod surface;
#[cfg(test)]
mod writing;
