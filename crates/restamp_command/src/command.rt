//! The command line, built from the table of the options.
use crate::table::{EXAMPLES, Kind, OTHERS, Row, SECTIONS};
use clap::{Arg, ArgAction, ArgGroup, Command};
use std::alloc::{AllocError, Global};

// The option that a row describes. The error is that memory is short.
fn option<'a>(alloc: Global, row: &Row) -> Result<Arg<'a>, AllocError> {
    let option = Arg::new(alloc, row.name)
        .long(row.name)
        .help(row.help)
        .requires_all(row.needs)?
        .conflicts_with_all(row.excludes)?;
    let option = match row.letter {
        Some(letter) => option.short(letter),
        None => option,
    };
    let option = match row.default {
        Some(text) => option.default_value(text),
        None => option,
    };
    Ok(match row.kind {
        Kind::Flag => option.action(ArgAction::SetTrue),
        Kind::Text(value) => with_value(option, value),
        Kind::Texts(value) => with_value(option, value).action(ArgAction::Append),
        Kind::Pair(value) => with_value(option, value).num_args(2..=2),
        Kind::Attached(value) => with_attached(option, value),
    })
}

// Gives the option a value. The value may start with a hyphen, and has that name in help.
fn with_value<'a>(option: Arg<'a>, name: &'static str) -> Arg<'a> {
    option.value_name(name).allow_hyphen_values(true)
}

// Gives the option an optional value, of that name in help, after `=`; without one the value is the empty text.
fn with_attached<'a>(option: Arg<'a>, name: &'static str) -> Arg<'a> {
    option
        .value_name(name)
        .num_args(0..=1)
        .require_equals(true)
        .default_missing_value("")
}

// The arguments that aren't options: any number of files.
fn files<'a>(alloc: Global) -> Arg<'a> {
    Arg::new(alloc, "FILE")
        .num_args(0..)
        .action(ArgAction::Append)
        .help("Files, in turn; none, or -, is standard input")
}

// The group of options for the place of a line's timestamp. At most one of them may be given.
fn one_place<'a>(alloc: Global) -> Result<ArgGroup<'a>, AllocError> {
    ArgGroup::new(alloc, "place")
        .arg("front")?
        .arg("anywhere")?
        .arg("field")?
        .arg("between")?
        .arg("after")
}

// Adds an option for each row of a table. The error is that memory is short.
fn add<'a>(
    alloc: Global,
    mut command: Command<'a>,
    rows: &[Row],
) -> Result<Command<'a>, AllocError> {
    for row in rows {
        command = command.arg(option(alloc, row)?)?;
    }
    Ok(command)
}

// Adds the options of each section, under its heading in help. The error is that memory is short.
fn add_sections(alloc: Global, mut command: Command<'_>) -> Result<Command<'_>, AllocError> {
    for (heading, rows) in &SECTIONS {
        command = add(alloc, command.next_help_heading(heading), rows)?;
    }
    Ok(command)
}

/// The definition of the command line of `restamp`. Its parser rejects unknown options, options that exclude each
/// other, and options without others that they require. The error is that memory is short.
pub fn make_command<'a>(alloc: Global) -> Result<Command<'a>, AllocError> {
    let command = Command::new(alloc, "restamp")
        .bin_name("restamp")?
        .version("1.0.0")
        .about(
            "Rewrites the time in each line of files, or of standard input, and leaves every\nother byte as it is.",
        )
        .after_help(EXAMPLES)
        .arg(files(alloc))?;
    let command = add(alloc, command, OTHERS)?;
    add_sections(alloc, command)?.group(one_place(alloc)?)
}
