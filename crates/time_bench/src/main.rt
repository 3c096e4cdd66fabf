//! Parses a text, or writes moments, many times, so that the instructions of one parse or text can be counted.
//!
//! - `time_bench FORMAT TARGET TIMES TEXT` parses by a named format, or by a description.
//! - `time_bench describe WAY DESCRIPTION YEAR TARGET TIMES TEXT` parses by a description, `prepared` or as
//!   its `steps`. One with a `%` is of strftime, and any other of version 2. YEAR is the default year, or `-`.
//! - `time_bench write CASE TIMES DAY` writes moments from that day of March 2021 on. DAY is from 1 to 23, and CASE is
//!   a name that `writing::sum_of` lists.
//!
//! Each prints a sum to which each value or text adds a number, and each error 1. With invalid arguments it prints how
//! it is used to standard error, and exits with 2.
#![tactic(auto)]

mod answers;
mod described;
mod descriptions;
mod sums;
mod writing;

use described::Case;
use std::alloc::Global;
use std::process::ExitCode;
use std::{env, io};
use sums::{Texts, sum_by_name};

const USAGE: &str = "usage: time_bench FORMAT TARGET TIMES TEXT
       time_bench describe WAY DESCRIPTION YEAR TARGET TIMES TEXT
       time_bench write CASE TIMES DAY";

// The sum for the words after `write`: a case, how many moments, and a day. `None` if the words aren't three, or
// `writing::sum_of` rejects them.
fn written(words: &[String]) -> Option<i64> {
    let [case, times, day] = words else {
        return None;
    };
    writing::sum_of(case.as_str(), times.as_str(), day.as_str())
}

// The sum of the parses for the words after `describe`: WAY, DESCRIPTION, YEAR, TARGET, TIMES and TEXT; `copy` is a
// copy of TEXT. `None` if the words aren't six, TIMES is no `u64`, or `described::sum_of` rejects them.
fn parsed_by_description(words: &[String], copy: &[u8]) -> Option<i64> {
    let [way, description, year, target, times, text] = words else {
        return None;
    };
    let case = Case {
        way: way.as_str(),
        description: description.as_str(),
        year: year.as_str(),
        target: target.as_str(),
    };
    let texts = Texts {
        text: text.as_bytes(),
        copy,
    };
    described::sum_of(case, times.as_str().parse::<u64>().ok()?, texts)
}

// The sum of the parses for these words: a named format or a description, a target, how many parses, and the text;
// `copy` is a copy of the text. `None` if the words aren't four, the number is no `u64`, or `sum_by_name` rejects them.
fn parsed(words: &[String], copy: &[u8]) -> Option<i64> {
    let [format, target, times, text] = words else {
        return None;
    };
    let times = times.as_str().parse::<u64>().ok()?;
    let texts = Texts {
        text: text.as_bytes(),
        copy,
    };
    sum_by_name(format.as_bytes(), target.as_bytes(), times, texts)
}

// The sum for all words after the program's name. `None` if they are invalid, as without words. `copy` is a copy of the
// last word.
fn sum_of_words(words: &[String], copy: &[u8]) -> Option<i64> {
    let [first, others @ ..] = words else {
        return None;
    };
    match first.as_str() {
        "write" => written(others),
        "describe" => parsed_by_description(others, copy),
        _ => parsed(words, copy),
    }
}

// A copy of the last word, elsewhere in memory, or an empty text if there are no words. `Err` if memory runs out.
fn last_copied(alloc: Global, words: &[String]) -> io::Result<String> {
    match words {
        [.., last] => Ok(last.clone()?),
        [] => Ok(String::new(alloc)),
    }
}

// Prints the sum for the command line; or with invalid words the usage to standard error, and exits with 2.
fn main(rt: HostRuntime) -> io::Result<ExitCode> {
    let words: Vec<String> = env::args(&rt)?.skip(1).collect(rt.alloc())?;
    let copy = last_copied(rt.alloc(), words.as_slice())?;
    match sum_of_words(words.as_slice(), copy.as_bytes()) {
        Some(sum) => {
            println!(rt; "{sum}")?;
            Ok(ExitCode::SUCCESS)
        }
        None => {
            eprintln!(rt; "{USAGE}")?;
            Ok(ExitCode::from(2))
        }
    }
}

#[cfg(test)]
mod tests {
    use crate::described::{self, Case};
    use crate::sums::Texts;
    use crate::writing;
    use std::test::Fail;

    // For the case `z`, three texts are written. Each adds its last byte to the sum: `Z`, the byte 90.
    #[test]
    fn written_sums(rt: HostRuntime) -> Result<(), Fail> {
        assert_eq!(rt; writing::sum_of("z", "3", "5"), Some(270));
        assert_eq!(rt; writing::sum_of("z", "3", "fifth"), None);
        assert_eq!(rt; writing::sum_of("of no such case", "3", "5"), None);
        Ok(())
    }

    // A date adds its year, month and day: 2021 + 3 + 4, three times.
    #[test]
    fn described_sums(rt: HostRuntime) -> Result<(), Fail> {
        let texts = Texts {
            text: b"2021-03-04",
            copy: b"2021-03-04",
        };
        for way in ["prepared", "steps"] {
            let case = Case {
                way,
                description: "[year]-[month]-[day]",
                year: "-",
                target: "date",
            };
            assert_eq!(rt; described::sum_of(case, 3, texts), Some(6084));
        }
        Ok(())
    }
}
