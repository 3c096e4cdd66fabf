//! Parses date-time texts from standard input, and prints their values.
//!
//! `time_parse [--place] [--v1] FORMAT TARGET` parses each line by the format, and writes one line for it: the value,
//! or `error: ` and the reason. With `--place` the error's location follows, if it has one.
#![tactic(auto)]

mod arguments;
mod laws;
mod place;
mod request;
mod serving;

use arguments::{Command, Question, command_of, report};
use byte_streams::{BufferedSink, Counted};
use serving::{Failure, serve};
use std::io::Write;
use std::process::ExitCode;
use std::{env, io};

const USAGE: &str = "usage: time_parse [--place] [--v1] FORMAT TARGET";

const HELP: &str = "Reads texts from standard input, one a line, and answers each by a line: its
value, or `error: ` and why it has none.

FORMAT is a name: rfc3339, rfc2822, iso8601, ymd, clock, unix or local.
Else it is a description, where it has a `[`, as `[year]-[month]-[day]`. With
--v1 it is one of version 1.
Else it is a description as strftime has it, where it has a `%`, as `%d/%b/%Y`.
TARGET is date, time, offset, plain, utc, datetime, staged or timestamp.
With --place an error says where a text goes wrong, as ` at 5: expected month`.

The status is 0; or 1 after a failed write; or 2 after a fault of the arguments,
or a failed read.";

// Writes the answers to the lines of standard input, and returns the exit status: 0, 1 after a failed write, or 2 after
// another failure. A fault of the arguments is reported on standard error, unless memory for the report runs out. `Err`
// if the report can't be written.
fn answer(rt: &HostRuntime, question: Question<'_>) -> io::Result<u8> {
    let mut input = Counted::new(rt.reader());
    let mut out = BufferedSink::new(Counted::new(io::writer(rt)));
    match serve(question, rt.alloc(), &mut input, &mut out) {
        Ok(()) => Ok(0),
        Err(Failure::Stopped(stop)) => Ok(stop.status()),
        Err(Failure::Arguments(fault)) => {
            let Ok(lines) = report(rt.alloc(), fault) else {
                return Ok(2);
            };
            rt.stderr().write_all(lines.as_slice())?;
            Ok(2)
        }
    }
}

// Prints the usage to standard error, and returns the exit status 2. `Err` if it can't be written.
fn print_usage(rt: &HostRuntime) -> io::Result<u8> {
    eprintln!(rt; "{USAGE}")?;
    Ok(2)
}

// Runs what these words after the program's name request, and returns the exit status. `Err` if a page, the usage or a
// report can't be written.
fn follow(rt: &HostRuntime, words: &[String]) -> io::Result<u8> {
    match command_of(words) {
        Command::Help => {
            println!(rt; "{USAGE}\n\n{HELP}")?;
            Ok(0)
        }
        Command::Version => {
            println!(rt; "time_parse 1.0.0")?;
            Ok(0)
        }
        Command::Parse(question) => answer(rt, question),
        Command::Unknown => print_usage(rt),
    }
}

// Runs what the words of the command line request. If they can't be read (one isn't UTF-8, or memory runs out), prints
// the usage, and exits with 2. `Err` if a page, the usage or a report can't be written, or `words` can't be allocated.
fn main(rt: HostRuntime) -> io::Result<ExitCode> {
    let Ok(arguments) = env::args(&rt) else {
        return Ok(ExitCode::from(print_usage(&rt)?));
    };
    let words: Vec<String> = arguments.skip(1).collect(rt.alloc())?;
    Ok(ExitCode::from(follow(&rt, words.as_slice())?))
}
