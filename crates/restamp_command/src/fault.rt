//! The error of an option.
ghost use Rattle.std.specs.Prelude.{◌≡◌, Some};
ghost use Rattle.std.specs.Option.{option_map};
ghost use Rattle.restamp_command.specs.Fault as spec;

use restamp_formats::{FormatFault, MissingField, Reason};
use std::fmt;
use time_zones::ZoneFault;

/// Why the text of a time option is no moment: it doesn't parse, its word has no valid moment, or the clock is unknown.
#[derive(Clone, Copy, Debug)]
pub enum TimeArgError {
    /// It is no word and no format matches it: the error of RFC 3339. Or it is a word for a day that has no start in
    /// the default zone: nonexistent, or outside the range of time zones.
    Unread(Reason),
    /// It is a word, and its moment has no date in UTC: it is before the year -999999 or after 999999.
    OutOfRange,
    /// It is a word, and the clock's moment isn't given: it is outside the years 1970 to 999999, or can't be read.
    NoClock,
}

impl fmt::Display for TimeArgError {
    ghost output = { λ why. Some (spec.none_text (spec.erased_time_error why)) };

    fn fmt<W: fmt::Write>(&self, f: &mut fmt::Formatter<W>) -> fmt::Result {
        match self {
            TimeArgError::Unread(reason) => write!(f, "{reason}"),
            TimeArgError::OutOfRange => write!(f, "it is before the year -999999 or after 999999"),
            TimeArgError::NoClock => write!(f, "the system clock is before 1970 or after 999999"),
        }
    }
}

/// Why the options are no request: one rejects its value or can't load its zones, a default has no use, or memory is
/// short. Each variant but `Memory` has the option's value, and some have the cause after it.
#[derive(Drop)]
pub enum Fault<'a> {
    /// Out of memory.
    Memory,
    /// `--field` expects a number from 1 to 18446744073709551615.
    Field(&'a str),
    /// `--delimiter` expects one byte, or `\t` for TAB.
    Delimiter(&'a str),
    /// `--from` expects the name of a format, or a valid description.
    From(&'a str, FormatFault<'a>),
    /// `--from rfc9557` needs the zones of the system, which can't be read.
    Zones(&'a str, ZoneFault),
    /// `--from` expects texts that are moments, but all texts of this format omit this part, and no default gives it.
    IncompleteFormat(&'a str, MissingField),
    /// `--to` expects the name of an output format, or a valid description.
    To(&'a str, FormatFault<'a>),
    /// `--to rfc9557` needs `--utc`, or a `--zone` of whole minutes below 24 hours or with a name that RFC 9557 allows.
    Unnamed(&'a str),
    /// `--year` expects a year from -999999 to 999999.
    Year(&'a str),
    /// `--offset` expects an offset such as `+05:30`.
    Offset(&'a str),
    /// `--in` expects the name of a zone that can be loaded.
    In(&'a str, ZoneFault),
    /// `--fold` expects `earlier`, `later` or `refuse`.
    Fold(&'a str),
    /// `--year` is of no use: each text of each format has a part of a year, or a count from 1970.
    UnusedYear(&'a str),
    /// `--latest` is of no use: each text of each format has a part of a year, or a count from 1970.
    UnusedLatest(&'a str),
    /// `--offset` is of no use: each text of each format has an offset, or a count from 1970.
    UnusedOffset(&'a str),
    /// `--in` is of no use: each text of each format has an offset, or a count from 1970.
    UnusedIn(&'a str),
    /// `--zone` expects `keep`, `utc`, an offset or the name of a zone that can be loaded.
    Zone(&'a str, ZoneFault),
    /// `--digits` expects one digit from 0 to 9, or `auto`.
    Digits(&'a str),
    /// `--errors` expects a number from 0 to 18446744073709551615.
    Errors(&'a str),
    /// `--latest` expects a time by RFC 3339 or a format of `--from`, or a word for one.
    Latest(&'a str, TimeArgError),
    /// `--color` expects `auto`, `always` or `never`.
    Color(&'a str),
    /// `--since` expects a time by RFC 3339 or a format of `--from`, or a word for one.
    Since(&'a str, TimeArgError),
    /// `--until` expects a time by RFC 3339 or a format of `--from`, or a word for one.
    Until(&'a str, TimeArgError),
    /// `--in-place` expects a suffix without a slash.
    InPlace(&'a str),
}

impl<'a> Fault<'a> {
    /// The option, as help prints it, and the rejected value; `None` for `Memory`.
    pub fn place(&self) -> Option<(&'static str, &'a str)>
        ensures { option_map (λ place. (place.0.now, place.1.now)) result ≡ spec.place_of (spec.erased_fault self.now) }
    {
        match self {
            Fault::Memory => None,
            Fault::Field(value) => Some(("--field <N>", value)),
            Fault::Delimiter(value) => Some(("--delimiter <BYTE>", value)),
            Fault::From(value, _) => Some(("--from <FORMAT>", value)),
            Fault::Zones(value, _) => Some(("--from <FORMAT>", value)),
            Fault::IncompleteFormat(value, _) => Some(("--from <FORMAT>", value)),
            Fault::To(value, _) | Fault::Unnamed(value) => Some(("--to <FORMAT>", value)),
            Fault::Year(value) | Fault::UnusedYear(value) => Some(("--year <YEAR>", value)),
            Fault::Offset(value) | Fault::UnusedOffset(value) => {
                Some(("--offset <OFFSET>", value))
            }
            Fault::In(value, _) | Fault::UnusedIn(value) => Some(("--in <ZONE>", value)),
            Fault::Fold(value) => Some(("--fold <WHICH>", value)),
            Fault::Zone(value, _) => Some(("--zone <ZONE>", value)),
            Fault::Digits(value) => Some(("--digits <N>", value)),
            Fault::Errors(value) => Some(("--errors <N>", value)),
            Fault::Latest(value, _) | Fault::UnusedLatest(value) => {
                Some(("--latest <TIME>", value))
            }
            Fault::Color(value) => Some(("--color <WHEN>", value)),
            Fault::Since(value, _) => Some(("--since <TIME>", value)),
            Fault::Until(value, _) => Some(("--until <TIME>", value)),
            Fault::InPlace(value) => Some(("--in-place[=<SUFFIX>]", value)),
        }
    }
}

impl fmt::Display for Fault<'_> {
    ghost output = { λ fault. spec.why_text (spec.erased_fault fault) };

    fn fmt<W: fmt::Write>(&self, f: &mut fmt::Formatter<W>) -> fmt::Result {
        match self {
            Fault::Memory => write!(f, "out of memory"),
            Fault::Field(_) => write!(f, "it is not a number from 1 to 18446744073709551615"),
            Fault::Delimiter(_) => write!(f, "it is not one byte"),
            Fault::From(_, why) | Fault::To(_, why) => write!(f, "{why}"),
            Fault::Zones(_, why) | Fault::In(_, why) | Fault::Zone(_, why) => write!(f, "{why}"),
            Fault::IncompleteFormat(_, missing_field) => write!(f, "{missing_field}"),
            Fault::Unnamed(_) => {
                write!(f, "it needs --utc, or a --zone name or offset below 24:00")
            }
            Fault::Year(_) => write!(f, "it is not a year from -999999 to 999999"),
            Fault::Offset(_) => write!(f, "it is not an offset such as +05:30"),
            Fault::Fold(_) => write!(f, "it is not earlier, later or refuse"),
            Fault::UnusedYear(_) | Fault::UnusedLatest(_) => write!(f, "no format needs it"),
            Fault::UnusedOffset(_) | Fault::UnusedIn(_) => write!(f, "no format needs it"),
            Fault::Digits(_) => write!(f, "it is not 0 to 9 or auto"),
            Fault::Errors(_) => write!(f, "it is not a number from 0 to 18446744073709551615"),
            Fault::Latest(_, why) => write!(f, "{why}"),
            Fault::Color(_) => write!(f, "it is not auto, always or never"),
            Fault::Since(_, why) => write!(f, "{why}"),
            Fault::Until(_, why) => write!(f, "{why}"),
            Fault::InPlace(_) => write!(f, "it has a slash"),
        }
    }
}
