//! Timestamps of RFC 3339 with a suffix of RFC 9557.
use super::clocks::berlin;
use restamp_formats::{Clock, Defaults, Form, Reading, Reason, Writing, find_writing, read};
use restamp_lines::{Job, Refusal};
use restamp_place::Place;
use restamp_stream::LineAction;
use std::alloc::Global;
use std::test::Fail;
use time_formatting::{FractionDigits, Text};
use time_values::error::{Parse, ParseFromDescription};
use time_zones::SuffixFault::{self, CriticalKey, OtherOffset, UnknownZone};
use time_zones::Zones;

// No defaults: a timestamp needs its own year and offset.
const NOTHING_GIVEN: Defaults = Defaults {
    year: None,
    offset: None,
    clocks: None,
    latest: None,
};

// RFC 3339 with a suffix of RFC 9557. The only zone is Europe/Berlin. `None` if memory is short.
fn zoned(alloc: Global) -> Option<Reading> {
    let mut zones = Zones::new(alloc);
    zones.insert("Europe/Berlin", berlin(alloc)?).ok()?;
    Some(Reading::Zoned(zones))
}

// The result of parsing: the seconds since 1970 and how many bytes match; bytes remain after the timestamp; its suffix
// is rejected; or another error.
#[derive(Clone, Copy, Debug, PartialEq, Eq)]
enum Answer {
    Parses(i64, usize),
    Left,
    Refused(SuffixFault),
    Otherwise,
}

// The result of parsing the text: a prefix of it if `is_prefix`, and otherwise the whole.
fn answer_of(reading: &Reading, is_prefix: bool, text: &[u8]) -> Answer {
    match read(reading, is_prefix, text, &NOTHING_GIVEN) {
        Ok(said) => Answer::Parses(said.moment.unix_timestamp(), said.start + said.length),
        Err(Reason::Suffix(fault)) => Answer::Refused(fault),
        Err(
            Reason::Unread(
                Parse::ParseFromDescription(ParseFromDescription::UnexpectedTrailingCharacters),
            ),
        ) => Answer::Left,
        Err(_) => Answer::Otherwise,
    }
}

// 2026-11-27T14:00:00Z in seconds since 1970, as `date` of coreutils counts them.
const TWO: i64 = 1_795_788_000;

// 2026-11-27T15:00:00Z in seconds since 1970, as `date` of coreutils counts them.
const THREE: i64 = 1_795_791_600;

// 2026-07-27T13:00:00Z in seconds since 1970, as `date` of coreutils counts them.
const SUMMER: i64 = 1_785_157_200;

// Whether a prefix suffices, a text, and the result.
type Row = (bool, &'static [u8], Answer);

static ROWS: [Row; 18] = [
    (
        false,
        b"2026-11-27T15:00:00+01:00[Europe/Berlin]",
        Answer::Parses(TWO, 40),
    ),
    (
        false,
        b"2026-07-27T15:00:00+02:00[!Europe/Berlin]",
        Answer::Parses(SUMMER, 41),
    ),
    (
        false,
        b"2026-11-27T15:00:00+01:00[Europe/Berlin][u-ca=gregory]",
        Answer::Parses(TWO, 54),
    ),
    (false, b"2026-11-27T15:00:00+01:00", Answer::Parses(TWO, 25)),
    (
        false,
        b"2026-11-27T15:00:00+01:00[+01:00]",
        Answer::Parses(TWO, 33),
    ),
    (
        false,
        b"2026-11-27T15:00:00Z[Europe/Berlin]",
        Answer::Parses(THREE, 35),
    ),
    (
        false,
        b"2026-11-27T15:00:00.5z[Europe/Berlin]",
        Answer::Parses(THREE, 37),
    ),
    (
        false,
        b"2026-11-27T15:00:00-00:00[Europe/Berlin]",
        Answer::Parses(THREE, 40),
    ),
    (
        false,
        b"2026-11-27T15:00:00+00:00[Europe/Berlin]",
        Answer::Refused(OtherOffset),
    ),
    (
        false,
        b"2026-11-27T15:00:00+02:00[Europe/Berlin]",
        Answer::Refused(OtherOffset),
    ),
    (
        false,
        b"2026-11-27T15:00:00+01:00[Europe/Bern]",
        Answer::Refused(UnknownZone),
    ),
    (
        false,
        b"2026-11-27T15:00:00+01:00[Europe/Bern][!x-y=z]",
        Answer::Refused(CriticalKey),
    ),
    (
        false,
        b"2026-11-27T15:00:00+01:00[Europe/Berlin] x",
        Answer::Left,
    ),
    (
        false,
        b"2026-11-27T15:00:00+01:00[Europe/Bern] x",
        Answer::Left,
    ),
    (
        false,
        b"2026-11-27T15:00:00+01:00[Europe/Berlin",
        Answer::Left,
    ),
    (
        true,
        b"2026-11-27T15:00:00+01:00[Europe/Berlin] x",
        Answer::Parses(TWO, 40),
    ),
    (
        true,
        b"2026-11-27T15:00:00+01:00[Europe/Berlin",
        Answer::Parses(TWO, 25),
    ),
    (false, b"2026-11-27 [Europe/Berlin]", Answer::Otherwise),
];

#[test]
fn suffixes(rt: HostRuntime) {
    let Some(reading) = zoned(rt.alloc()) else {
        assert!(rt; false);
        return;
    };
    for (is_prefix, text, wanted) in &ROWS {
        assert!(rt;
            answer_of(&reading, *is_prefix, text) == *wanted,
            "{text:?}"
        );
    }
}

// The column, from 1, of the error in a line that should be a timestamp as a whole; 0 without an error.
fn error_column<'a>(reading: &'a Reading, writing: &'a Writing, line: &[u8]) -> usize {
    let job = Job {
        place: Some(Place::Whole),
        first: reading,
        others: &[],
        defaults: NOTHING_GIVEN,
        form: Form {
            writing,
            digits: FractionDigits::Auto,
            clock: Clock::Own,
        },
        since: None,
        until: None,
        requires_timestamp: false,
    };
    match job.judge::<Reason>(line, &mut Text::new()) {
        LineAction::Refused(Refusal { column, reason }) => {
            job.find_location(line, column, reason).column
        }
        LineAction::Without | LineAction::Rewritten { .. } | LineAction::Dropped => 0,
    }
}

// A line, and the column of its error, from 1; 0 without an error. The error of a suffix that rejects its timestamp is
// at the start of the suffix. The error of bytes after a suffix is at the first of them.
static COLUMNS: [(&'static [u8], usize); 6] = [
    (b"2026-11-27T15:00:00+01:00[Europe/Berlin]", 0),
    (b"2026-11-27T15:00:00+01:00[Europe/Bern]", 26),
    (b"2026-11-27T15:00:00.5+02:00[Europe/Berlin]", 28),
    (b"2026-11-27T15:00:00+01:00[Europe/Berlin] x", 41),
    (b"2026-11-27T15:00:00+01:00[Europe/Berlin", 26),
    (b"2026-13-27T15:00:00+01:00[Europe/Berlin]", 6),
];

#[test]
fn columns(rt: HostRuntime) -> Result<(), Fail> {
    let (Some(reading), Ok(writing)) = (zoned(rt.alloc()), find_writing(b"unix")) else {
        return Err("no format".into());
    };
    for (line, column) in &COLUMNS {
        assert!(rt;
            error_column(&reading, &writing, line) == *column,
            "{line:?}"
        );
    }
    Ok(())
}
