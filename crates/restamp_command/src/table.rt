//! The options, each a row of a table, and the end of the help.

/// The text at the end of the help: examples, formats, times and the exit status.
pub(crate) const EXAMPLES: &str = "Examples:
  tail -f app.log | restamp -l -z local
  tail -f access.log | restamp -b '[' ']' -f common -u
  restamp -b '[' ']' -f common -u -t '%d/%b/%Y:%H:%M:%S %z' access.log
  restamp -a 'Date: ' -f rfc2822 mbox
  restamp -k 3 --csv -f '[day]/[month]/[year] [hour]:[minute]' orders.csv
  restamp -l -f syslog --year 2026 -s 2026-11-25T12:00:00Z syslog
  restamp -i=.old -k 2 --csv -z utc orders.csv

FORMAT is rfc3339, rfc9557, rfc2822, iso8601, unix, unix-ms, unix-us, unix-ns;
or a description, as `[year]-[month]-[day]` or, of strftime, `%Y-%m-%d`;
for --from also common (access logs) or syslog.
TIME is of RFC 3339 or a format of --from; now, now-90m, now+2d (also s, h, w),
today or yesterday.
The status is 0 if a time was rewritten, 1 if none was, and 2 after an invalid
option, a file that was not read or not replaced, a failed write, or a line that
is rejected under --strict.";

/// How many values an option has, and their name in help.
#[derive(Clone, Copy)]
pub(crate) enum Kind {
    /// No value: a flag.
    Flag,
    /// One value.
    Text(&'static str),
    /// One value each time that the option is given.
    Texts(&'static str),
    /// Two values.
    Pair(&'static str),
    /// One value after `=`; the empty text without it.
    Attached(&'static str),
}

/// An option.
#[derive(Clone, Copy)]
pub(crate) struct Row {
    /// The long form, without `--`.
    pub(crate) name: &'static str,
    /// The letter of the short form, without `-`.
    pub(crate) letter: Option<char>,
    pub(crate) kind: Kind,
    /// The default value.
    pub(crate) default: Option<&'static str>,
    pub(crate) help: &'static str,
    /// The long forms of the options that must all be given with this one.
    pub(crate) needs: &'static [&'static str],
    /// The long forms of the options that can't be given with this one.
    pub(crate) excludes: &'static [&'static str],
}

// The default for the fields of a row: a flag without a letter, which requires and excludes no option.
const FLAG: Row = Row {
    name: "",
    letter: None,
    kind: Kind::Flag,
    default: None,
    help: "",
    needs: &[],
    excludes: &[],
};

// The options for the place of a line's timestamp.
const PLACES: &[Row] = &[
    Row {
        name: "front",
        letter: Some('l'),
        help: "The line starts with the time",
        ..FLAG
    },
    Row {
        name: "anywhere",
        help: "The first text in the line that a format matches",
        ..FLAG
    },
    Row {
        name: "field",
        letter: Some('k'),
        kind: Kind::Text("N"),
        help: "Field N, from 1",
        ..FLAG
    },
    Row {
        name: "between",
        letter: Some('b'),
        kind: Kind::Pair("TEXT"),
        help: "From after the first TEXT up to the second",
        ..FLAG
    },
    Row {
        name: "after",
        letter: Some('a'),
        kind: Kind::Text("KEY"),
        help: "After KEY, to where its format ends",
        ..FLAG
    },
    Row {
        name: "delimiter",
        letter: Some('d'),
        kind: Kind::Text("BYTE"),
        default: Some(","),
        help: "Ends a field: a byte, or \\t for TAB",
        ..FLAG
    },
    Row {
        name: "blanks",
        help: "Fields are words between blanks, as awk's",
        needs: &["field"],
        excludes: &["delimiter", "csv"],
        ..FLAG
    },
    Row {
        name: "csv",
        help: "A field may be in quotes",
        needs: &["field"],
        ..FLAG
    },
];

// The options for how timestamps are parsed.
const READING: &[Row] = &[
    Row {
        name: "from",
        letter: Some('f'),
        kind: Kind::Texts("FORMAT"),
        default: Some("rfc3339"),
        help: "The format, or several in turn",
        ..FLAG
    },
    Row {
        name: "year",
        kind: Kind::Text("YEAR"),
        help: "The year of times without one",
        ..FLAG
    },
    Row {
        name: "latest",
        kind: Kind::Text("TIME"),
        help: "Such times are the latest not after TIME",
        excludes: &["year"],
        ..FLAG
    },
    Row {
        name: "offset",
        kind: Kind::Text("OFFSET"),
        help: "The offset of times without one [default: +00:00]",
        ..FLAG
    },
    Row {
        name: "in",
        kind: Kind::Text("ZONE"),
        help: "The zone of such times: local or a name",
        excludes: &["offset"],
        ..FLAG
    },
    Row {
        name: "fold",
        kind: Kind::Text("WHICH"),
        help: "For an ambiguous time: earlier, later or refuse",
        needs: &["in"],
        ..FLAG
    },
];

// The options for how moments are written, and `--only`, which writes nothing else of a line.
const WRITING: &[Row] = &[
    Row {
        name: "to",
        letter: Some('t'),
        kind: Kind::Text("FORMAT"),
        default: Some("rfc3339"),
        help: "The format",
        ..FLAG
    },
    Row {
        name: "zone",
        letter: Some('z'),
        kind: Kind::Text("ZONE"),
        default: Some("keep"),
        help: "keep, utc, local, +05:30 or a name",
        ..FLAG
    },
    Row {
        name: "utc",
        letter: Some('u'),
        help: "Same as --zone utc",
        excludes: &["zone"],
        ..FLAG
    },
    Row {
        name: "digits",
        kind: Kind::Text("N"),
        default: Some("auto"),
        help: "Digits of a fraction: 0 to 9, or auto",
        ..FLAG
    },
    Row {
        name: "only",
        letter: Some('o'),
        help: "Writes the times alone, one a line",
        ..FLAG
    },
];

// The options for which lines are written.
const LINES: &[Row] = &[
    Row {
        name: "since",
        letter: Some('s'),
        kind: Kind::Text("TIME"),
        help: "Drops lines before TIME, as now-90m or today",
        ..FLAG
    },
    Row {
        name: "until",
        letter: Some('e'),
        kind: Kind::Text("TIME"),
        help: "Drops lines from TIME on, as now-2d",
        ..FLAG
    },
    Row {
        name: "drop-refused",
        help: "Drops lines without a time or with a rejected one",
        ..FLAG
    },
];

// The options for how rejected lines are reported, and whether one stops the work. `LINES` has `--drop-refused`.
const REPORTS: &[Row] = &[
    Row {
        name: "quiet",
        letter: Some('q'),
        help: "Reports no rejected line",
        ..FLAG
    },
    Row {
        name: "errors",
        kind: Kind::Text("N"),
        default: Some("10"),
        help: "Reports the first N of each file",
        ..FLAG
    },
    Row {
        name: "strict",
        letter: Some('x'),
        help: "Stops at the first, or at a line without a time",
        ..FLAG
    },
    Row {
        name: "keep-going",
        help: "Continues under --strict, with its status",
        needs: &["strict"],
        ..FLAG
    },
    Row {
        name: "color",
        kind: Kind::Text("WHEN"),
        default: Some("auto"),
        help: "Colours reports: auto, always or never",
        ..FLAG
    },
];

/// The headings of the help in order, each with its options.
pub(crate) static SECTIONS: [(&str, &[Row]); 5] = [
    ("Where the time is (default: the whole line)", PLACES),
    ("How it is read", READING),
    ("How it is written", WRITING),
    ("Which lines are written", LINES),
    ("Rejected lines", REPORTS),
];

/// The options that have no heading in the help.
pub(crate) const OTHERS: &[Row] = &[
    Row {
        name: "in-place",
        letter: Some('i'),
        kind: Kind::Attached("SUFFIX"),
        help: "Replaces each FILE; SUFFIX names a backup of it",
        excludes: &["only"],
        ..FLAG
    },
    Row {
        name: "progress",
        help: "Reports how far a long file was read",
        ..FLAG
    },
    Row {
        name: "completions",
        kind: Kind::Text("SHELL"),
        help: "Prints the completions of bash, zsh or fish",
        ..FLAG
    },
];
