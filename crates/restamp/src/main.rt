//! `restamp` rewrites the timestamp in each line of files, or of standard input, and leaves every other byte unchanged.
#![tactic(auto)]

mod completions;
mod folder;
mod in_place;
mod opening;
mod output;
mod progress;
mod words;

use byte_streams::Counted;
use clap::ArgMatches;
use completions::completions_of;
use in_place::replace_all;
use opening::Disk;
use output::Erasing;
use progress::{Progress, Reporter};
use restamp_command::{Fault, Options, Request, make_command, serve};
use restamp_stream::{Block, Stop, Stream, status};
use std::alloc::AllocError;
use std::convert::TryFrom;
use std::io::{BufWriter, ErrorKind, IsTerminal, Write};
use std::process::ExitCode;
use std::time::SystemTime;
use std::{env, io};
use time_values::UtcDateTime;
use words::words_of;

// The names of the files; `-`, which is standard input, if none is given. The error is that memory is short.
fn names_of<'m>(
    rt: &HostRuntime,
    matches: &'m ArgMatches<'_>,
) -> Result<Vec<&'m [u8]>, AllocError> {
    let mut names = Vec::new(rt.alloc());
    if let Some(given) = matches.get_strs("FILE") {
        for name in given {
            names.push(name.as_bytes())?;
        }
    }
    if names.is_empty() {
        names.push(b"-".as_slice())?;
    }
    Ok(names)
}

// Prints on standard error the error of an option, or that memory is short. Returns the exit status, 2.
fn report(rt: &HostRuntime, fault: Fault<'_>) -> io::Result<u8> {
    match fault.place() {
        Some((option, value)) => {
            eprint!(rt; "error: invalid value '{value}' for '{option}': {fault}")?;
        }
        None => eprint!(rt; "error: {fault}")?,
    }
    eprintln!(rt; "\n\nFor more information, try '--help'.")?;
    Ok(2)
}

// Prints on standard error why the output wasn't written; nothing for `None`, and if its reader has closed the pipe.
fn report_unwritten(rt: &HostRuntime, failure: Option<ErrorKind>) -> io::Result<()> {
    match failure {
        Some(ErrorKind::BrokenPipe) => Ok(()),
        Some(kind) => eprintln!(rt; "restamp: the output was not written: {kind}"),
        None => Ok(()),
    }
}

// Processes the files, and returns the exit status. Inlined, so that the loop over lines has the request of the options
// in its own frame.
#[inline(always)]
fn answer(
    rt: &HostRuntime,
    request: &Request<'_>,
    names: &[&[u8]],
    reporter: Reporter,
) -> io::Result<u8> {
    let progress = Progress::new(rt, reporter);
    let out = Counted::new(io::writer(rt));
    let log = BufWriter::new(rt.alloc(), Erasing::new(rt.stderr(), &progress))?;
    let mut stream = Stream::new(out, Counted::new(log));
    let mut disk = Disk::new(rt, &progress);
    let stop = match serve(request, names, &mut disk, &mut stream, &mut Block::new()) {
        Ok(()) => None,
        Err(stop) => Some(stop),
    };
    let (out, log, tally) = stream.into_parts();
    drop(log);
    progress.erase();
    if let Some(Stop::Unwritten) = stop {
        let (_, error) = out.into_parts();
        report_unwritten(rt, error.map(|error| error.kind()))?;
    }
    Ok(status(&tally, stop, request.strict))
}

// Prints the completions of a shell. Returns the exit status: 0, or 2 for an unknown shell, which is reported.
fn complete(rt: &HostRuntime, shell: &str) -> io::Result<u8> {
    match completions_of(shell) {
        Some(text) => {
            print!(rt; "{text}")?;
            Ok(0)
        }
        None => {
            eprintln!(rt;
                "error: invalid value '{shell}' for '--completions <SHELL>': it is not bash, zsh or fish"
            )?;
            Ok(2)
        }
    }
}

// The clock's moment; `None` if the clock can't be read, or is before 1970 or after the year 999999.
fn now_of(rt: &HostRuntime) -> Option<UtcDateTime> {
    let time = SystemTime::now(rt).ok()?;
    UtcDateTime::try_from(time).ok()
}

// Whether standard error is a terminal that isn't dumb: `TERM` isn't `dumb`.
fn has_terminal(rt: &HostRuntime) -> bool {
    let is_dumb = match env::var(rt, "TERM") {
        Ok(name) => name.as_str() == "dumb",
        Err(_) => false,
    };
    rt.stderr().is_terminal() && !is_dumb
}

// Whether standard error is a terminal that isn't dumb, and `NO_COLOR` isn't set, not even to the empty text. A value
// of `NO_COLOR` that isn't UTF-8 has no effect.
fn shows_colors(rt: &HostRuntime) -> bool {
    has_terminal(rt) && env::var(rt, "NO_COLOR").is_err()
}

// How progress is reported: not at all without `--progress`. Each report is a line of its own if standard error is no
// terminal or a dumb one, or if standard output is a terminal too: no report then overwrites the end of another line.
fn reporter_of(rt: &HostRuntime, matches: &ArgMatches<'_>) -> Reporter {
    if !matches.get_flag("progress") {
        Reporter::Nothing
    } else if has_terminal(rt) && !rt.stdout().is_terminal() {
        Reporter::OneLine
    } else {
        Reporter::Lines
    }
}

// Prints on standard error that --in-place rejects standard input. Returns the exit status, 2.
fn report_input(rt: &HostRuntime) -> io::Result<u8> {
    eprintln!(rt;
        "error: --in-place takes files, and not standard input\n\nFor more information, try '--help'."
    )?;
    Ok(2)
}

// Replaces the files, and returns the exit status. Prints an error instead if one of them is standard input, also if no
// file is given, or if `Request::new` returns an error.
#[inline(never)]
fn follow_in_place(rt: &HostRuntime, matches: &ArgMatches<'_>) -> io::Result<u8> {
    let names = names_of(rt, matches)?;
    for name in names.as_slice() {
        if *name == b"-".as_slice() {
            return report_input(rt);
        }
    }
    match Request::new(rt, &Options::of(matches), shows_colors(rt), now_of(rt)) {
        Ok(request) => replace_all(rt, &request, names.as_slice(), reporter_of(rt, matches)),
        Err(fault) => report(rt, fault),
    }
}

// Processes the files, or standard input without any; or prints why the options are rejected. Returns the exit status.
#[inline(never)]
fn follow_lines(rt: &HostRuntime, matches: &ArgMatches<'_>) -> io::Result<u8> {
    let names = names_of(rt, matches)?;
    match Request::new(rt, &Options::of(matches), shows_colors(rt), now_of(rt)) {
        Ok(request) => answer(rt, &request, names.as_slice(), reporter_of(rt, matches)),
        Err(fault) => report(rt, fault),
    }
}

// Does what the options request, and returns the exit status. Processing and replacing files are functions with their
// own frames, since each frame has a buffer for the bytes that are read.
fn follow(rt: &HostRuntime, matches: &ArgMatches<'_>) -> io::Result<u8> {
    if let Some(shell) = matches.get_str("completions") {
        return complete(rt, shell);
    }
    if matches.get_str("in-place").is_some() {
        follow_in_place(rt, matches)
    } else {
        follow_lines(rt, matches)
    }
}

// Does what the command line requests, and returns the exit status: 2 for a rejected command line, which is reported.
fn run(rt: &HostRuntime) -> io::Result<u8> {
    let Some(words) = words_of(rt)? else {
        return Ok(2);
    };
    let command = make_command(rt.alloc())?;
    match command.try_get_matches_from(words.as_slice()) {
        Ok(matches) => follow(rt, &matches),
        Err(error) => {
            error.print(rt)?;
            Ok(if error.use_stderr() { 2 } else { 0 })
        }
    }
}

// Prints on standard error the error that ended the program, unless the reader of its output has closed the pipe. A
// failed write to standard error is ignored.
fn report_failed(rt: &HostRuntime, error: io::Error) {
    if error.kind() != ErrorKind::BrokenPipe {
        eprintln!(rt; "restamp: {error}").unwrap_or(());
    }
}

fn main(rt: HostRuntime) -> ExitCode {
    match run(&rt) {
        Ok(status) => ExitCode::from(status),
        Err(error) => {
            report_failed(&rt, error);
            ExitCode::from(2)
        }
    }
}
