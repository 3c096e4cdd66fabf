//! Compares the full verdict on a line, which has a reason, with the brief verdict on it.
use restamp_formats::{
    Brief, Clock, Defaults, Form, Reading, Reason, Writing, find_reading, find_writing,
};
use restamp_lines::Job;
use restamp_place::Place;
use restamp_stream::LineAction;
use std::test::Fail;
use time_formatting::FractionDigits;
use time_values::text::Text;
use time_values::{OffsetDateTime, UtcOffset};

// The place of a timestamp, the format to parse it, the format to write it, and a line with such a timestamp.
type Sample = (Place<'static>, &'static [u8], &'static [u8], &'static [u8]);

static SAMPLES: [Sample; 9] = [
    (Place::Whole, b"rfc3339", b"unix", b"2021-01-02T03:04:05Z"),
    (
        Place::Front,
        b"rfc3339",
        b"rfc3339",
        b"2021-01-02T03:04:05.25+01:00 x",
    ),
    (
        Place::Between(b"[", b"]"),
        b"common",
        b"rfc3339",
        b"x [10/Oct/2000:13:55:36 -0700] y",
    ),
    (
        Place::Front,
        b"syslog",
        b"unix-ms",
        b"Jan  2 03:04:05 host x",
    ),
    (
        Place::Whole,
        b"rfc2822",
        b"rfc3339",
        b"Fri, 2 Jan 1970 00:00:09 UT",
    ),
    (
        Place::Front,
        b"rfc2822",
        b"unix-ns",
        b" Fri, 2 Jan 1970 00:00:09 +0000 x",
    ),
    (
        Place::Whole,
        b"iso8601",
        b"%Y-%m-%d %H:%M:%S",
        b"2021-W01-6T03:04:05Z",
    ),
    (Place::Whole, b"unix", b"rfc2822", b"-60.5"),
    (
        Place::After(b"at "),
        b"%Y-%m-%d %H:%M",
        b"iso8601",
        b"x at 2021-01-02 03:04",
    ),
];

// Defaults for what a timestamp omits: the offset is UTC, and the year is `year`, or the latest by which the timestamp
// isn't after `latest`.
fn defaults_of(year: Option<i32>, latest: Option<OffsetDateTime>) -> Defaults<'static> {
    Defaults {
        year,
        offset: Some(UtcOffset::UTC),
        clocks: None,
        latest,
    }
}

// What is done with lines: `first` is tried before `others`, which is RFC 3339, lines with timestamps before 1970 are
// dropped, and timestamps are written in UTC.
fn job_of<'a>(
    place: Place<'a>,
    first: &'a Reading,
    others: &'a [Reading],
    writing: &'a Writing,
    defaults: Defaults<'a>,
) -> Job<'a> {
    Job {
        place: Some(place),
        first,
        others,
        defaults,
        form: Form {
            writing,
            digits: FractionDigits::Auto,
            clock: Clock::Fixed(UtcOffset::UTC),
        },
        since: OffsetDateTime::from_unix_timestamp(0).ok(),
        until: None,
        requires_timestamp: true,
    }
}

// Whether the full and the brief verdict on a line are equal: in their action, and in the column of an error or the
// place and text of a new timestamp.
fn is_one(job: &Job<'_>, line: &[u8]) -> bool {
    let (mut text, mut other) = (Text::new(), Text::new());
    match (
        job.judge::<Reason>(line, &mut text),
        job.judge::<Brief>(line, &mut other),
    ) {
        (LineAction::Without, LineAction::Without) => true,
        (LineAction::Dropped, LineAction::Dropped) => true,
        (LineAction::Refused(full), LineAction::Refused(brief)) => full.column == brief.column,
        (
            LineAction::Rewritten { begin, end },
            LineAction::Rewritten {
                begin: start,
                end: stop,
            },
        ) => begin == start && end == stop && text.as_bytes() == other.as_bytes(),
        _ => false,
    }
}

// The index of the first byte of a line, truncated to 32 bytes, whose change makes the verdicts differ, and its changed
// value. `None` if no change does.
fn find_difference(job: &Job<'_>, sample: &[u8]) -> Option<(usize, u8)> {
    let many = sample.len().min(32);
    for at in 0..many {
        for byte in 0..=255 {
            let mut line = [0; 32];
            line[..many].copy_from_slice(&sample[..many]);
            line[at] = byte;
            if !is_one(job, &line[..many]) {
                return Some((at, byte));
            }
        }
    }
    None
}

// Changes each of the first 32 bytes of a line to each other byte.
#[test]
fn changed(rt: HostRuntime) -> Result<(), Fail> {
    for (place, from, to, sample) in &SAMPLES {
        let (Ok(first), Ok(second), Ok(writing)) = (
            find_reading(from),
            find_reading(b"rfc3339"),
            find_writing(to),
        ) else {
            return Err("no format".into());
        };
        let others = [second];
        let defaults = defaults_of(Some(2021), None);
        let job = job_of(*place, &first, &others, &writing, defaults);
        assert_eq!(rt; find_difference(&job, sample), None);
    }
    Ok(())
}

// Values of `latest`, in seconds since 1970: a second before 2021-01-02T03:04:05Z, that moment, and the first and the
// last second of 2021.
static LATEST: [i64; 4] = [1609556644, 1609556645, 1609459200, 1640995199];

// Changes each byte of lines whose timestamps have no year.
#[test]
fn undated(rt: HostRuntime) -> Result<(), Fail> {
    let (Ok(first), Ok(second), Ok(writing)) = (
        find_reading(b"syslog"),
        find_reading(b"rfc3339"),
        find_writing(b"rfc3339"),
    ) else {
        return Err("no format".into());
    };
    let others = [second];
    for seconds in &LATEST {
        let defaults = defaults_of(None, OffsetDateTime::from_unix_timestamp(*seconds).ok());
        let job = job_of(Place::Front, &first, &others, &writing, defaults);
        assert_eq!(rt; find_difference(&job, b"Jan  2 03:04:05 host x"), None);
        assert_eq!(rt; find_difference(&job, b"Feb 29 03:04:05 host x"), None);
    }
    Ok(())
}
