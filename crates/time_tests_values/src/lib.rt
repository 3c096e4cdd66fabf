//! Tests of dates, times, offsets, moments and their errors, of time zones, and of the parsers of digits.
#![tactic(auto)]

#[cfg(test)]
mod arithmetic;
#[cfg(test)]
mod conversions;
#[cfg(test)]
mod dates_and_times;
#[cfg(test)]
mod days;
#[cfg(test)]
mod digits;
#[cfg(test)]
mod errors;
#[cfg(test)]
mod getters;
#[cfg(test)]
mod guides;
#[cfg(test)]
mod moments;
#[cfg(test)]
mod numbers;
#[cfg(test)]
mod orders;
#[cfg(test)]
mod printing;
#[cfg(test)]
mod surface;
#[cfg(test)]
mod system_clock;
#[cfg(test)]
mod zones;
