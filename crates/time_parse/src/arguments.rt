//! Parses the command line, and reports its faults.
ghost use Rattle.std.specs.Prelude.{◌≡◌, map, string_bytes, IfOk};
ghost use Rattle.time_parse.specs.Request as spec;
ghost use Rattle.std.specs.Option.{option_map};
ghost use Rattle.time_descriptions.specs.Refusal.{refusal_of};
ghost use Rattle.time_parse.specs.Request.{IsReport, reason_of, reason_text};

use crate::request::Version;
use std::alloc::{AllocError, Global};
use std::fmt;
use time_descriptions::InvalidFormatDescription;

/// What the command line requests of `time_parse`: a format, a target and two options.
#[derive(Clone, Copy)]
pub struct Question<'a> {
    /// Whether an error is printed with its location: with `--place`.
    pub prints_places: bool,
    /// The version of a description in brackets: 1 with `--v1`, else 2.
    pub version: Version,
    /// The format: a name or a description.
    pub format: &'a str,
    /// The name of the target.
    pub target: &'a str,
}

/// What the command line requests: the help, the version, answers to lines, or the usage for unknown words.
#[derive(Clone, Copy)]
pub enum Command<'a> {
    /// The usage and the page of help.
    Help,
    /// The program's name and version.
    Version,
    /// Answers to the lines of standard input.
    Parse(Question<'a>),
    /// The usage, since the words match none of the above.
    Unknown,
}

// The request of a single word: `--help` or `--version`, and `Unknown` for any other.
fn page<'a>(word: &str) -> Command<'a>
    ensures { spec.value_of result ≡ spec.page word.now }
{
    match word {
        "--help" => Command::Help,
        "--version" => Command::Version,
        _ => Command::Unknown,
    }
}

// The request of the words after `--place`, or of all words without it: `[--v1] FORMAT TARGET`. `Unknown` for any other
// words, as for `--v1` and only one word after it.
fn question_of(prints_places: bool, words: &[String]) -> Command<'_>
    ensures { spec.value_of result ≡ spec.question_of prints_places (map string_bytes words.now) }
{
    match words {
        [format, target] => {
            if format.as_str() == "--v1" {
                return Command::Unknown;
            }
            Command::Parse(Question {
                prints_places,
                version: Version::Two,
                format: format.as_str(),
                target: target.as_str(),
            })
        }
        [option, format, target] => {
            if option.as_str() != "--v1" {
                return Command::Unknown;
            }
            Command::Parse(Question {
                prints_places,
                version: Version::One,
                format: format.as_str(),
                target: target.as_str(),
            })
        }
        _ => Command::Unknown,
    }
}

/// The request of the words after the program's name: `--help` or `--version` alone, or `[--place] [--v1] FORMAT
/// TARGET`, in this order. `--place` or `--v1`, where that option may be, is never FORMAT. `Unknown` for other words.
pub fn command_of(words: &[String]) -> Command<'_>
    ensures { spec.value_of result ≡ spec.command_of (map string_bytes words.now) }
{
    match words {
        [word] => page(word.as_str()),
        [option, others @ ..] => {
            if option.as_str() == "--place" {
                question_of(true, others)
            } else {
                question_of(false, words)
            }
        }
        [] => Command::Unknown,
    }
}

/// The fault of the arguments: an unknown format, a malformed or too long description, or an unknown target.
#[derive(Clone, Copy, Debug)]
pub enum Fault<'a> {
    /// The format isn't the name of one, and is no description, as it contains neither `[` nor `%`.
    UnknownFormat {
        /// The format that was requested.
        name: &'a [u8],
    },
    /// The description is malformed, or has more than 1024 steps.
    Description {
        /// The description.
        format: &'a [u8],
        /// Its first fault, or that it has too many steps.
        error: InvalidFormatDescription<'a>,
    },
    /// No target has the requested name.
    UnknownTarget {
        /// The requested name.
        name: &'a [u8],
    },
}

impl fmt::Display for Fault<'_> {
    ghost output = { λ fault. reason_text (reason_of fault) };

    fn fmt<W: fmt::Write>(&self, f: &mut fmt::Formatter<W>) -> fmt::Result {
        match self {
            Self::UnknownFormat { .. } => {
                write!(
                    f,
                    "no format has this name, and a description has a `[` or a `%`"
                )
            }
            Self::Description { error, .. } => write!(f, "{error}"),
            Self::UnknownTarget { .. } => write!(f, "no target has this name"),
        }
    }
}

impl<'a> Fault<'a> {
    // The faulty argument, and the byte index of the fault in it: 0 for an unknown name. `None` for a description with
    // too many steps.
    fn place(&self) -> Option<(&'a [u8], usize)>
        ensures { option_map (λ place. (place.0.now, place.1)) result ≡ spec.place_of (reason_of self.now) }
    {
        match *self {
            Self::UnknownFormat { name } => Some((name, 0)),
            Self::UnknownTarget { name } => Some((name, 0)),
            Self::Description { format, error } => Some((format, error.index()?)),
        }
    }
}

/// A byte as it is printed: itself if it is a printable character of ASCII, else `?`.
pub fn printable(byte: u8) -> u8
    ensures { result ≡ spec.printable byte }
{
    if b' ' <= byte && byte <= b'~' {
        byte
    } else {
        b'?'
    }
}

// Two lines, each with LF: the bytes after two spaces, with `?` for each that isn't printable ASCII, and a caret below
// the byte at that index, or further right if the bytes end before it. `Err` if memory runs out.
fn caret_lines(alloc: Global, bytes: &[u8], index: usize) -> Result<Vec<u8>, AllocError>
    ensures { IfOk result (λ lines. lines.items ≡ spec.caret_lines bytes.now index) }
{
    let line: Vec<u8> = bytes.iter().map(|byte| printable(*byte)).collect(alloc)?;
    let blanks = vec![in alloc; b' '; index]?;
    let mut lines = Vec::new(alloc);
    lines.extend_from_slice(b"  ")?;
    lines.extend_from_slice(line.as_slice())?;
    lines.extend_from_slice(b"\n  ")?;
    lines.extend_from_slice(blanks.as_slice())?;
    lines.extend_from_slice(b"^\n")?;
    Ok(lines)
}

/// The report of a fault: a line with `error: ` and its message. Then, unless a description has too many steps, two
/// lines after two spaces each: the argument, each byte as by [`printable`], and a caret below the fault's index, 0 for
/// an unknown name. Each line ends with LF. `Err` if memory runs out.
pub fn report(alloc: Global, fault: Fault<'_>) -> Result<Vec<u8>, AllocError>
    ensures { IfOk result (λ lines. IsReport (reason_of fault.entry) lines.items) }
{
    let why = format!(in alloc; "{fault}")?;
    let mut lines = Vec::new(alloc);
    lines.extend_from_slice(b"error: ")?;
    lines.extend_from_slice(why.as_bytes())?;
    lines.extend_from_slice(b"\n")?;
    if let Some((bytes, index)) = fault.place() {
        lines.extend_from_slice(caret_lines(alloc, bytes, index)?.as_slice())?;
    }
    Ok(lines)
}
