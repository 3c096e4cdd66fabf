//! Timestamps without an offset, in the local time of a zone, and bounds that are words relative to the clock.
use restamp_formats::{
    Clocks, Defaults, Fold, OffsetParts, Reason, TwoOffsets, find_reading, parse_dated,
};
use std::alloc::Global;
use time_values::OffsetDateTime;
use time_zones::{NamedZone, ReadFault, ZoneFiles, find_zone_in};

// A folder without zones.
#[derive(Drop)]
struct Empty {}

impl ZoneFiles for Empty {
    ghost gives = { λ folder path given. Unit {0} };

    fn read(&self, _path: &str) -> Result<Vec<u8>, ReadFault> {
        Err(ReadFault::Missing)
    }
}

/// The zone of Berlin: in 2021 its clocks move forward from 2:00 to 3:00 on 28 March, and back from 3:00 to 2:00 on 31
/// October. `None` if it can't be loaded.
pub(super) fn berlin(alloc: Global) -> Option<NamedZone> {
    let rule = "CET-1CEST,M3.5.0,M10.5.0/3";
    find_zone_in(alloc, &Empty {}, "/zones", Some(rule), "local").ok()
}

// The result of parsing: the seconds since 1970, or why the local time is no single moment.
#[derive(Clone, Copy, Debug, PartialEq, Eq)]
enum Answer {
    // Parsed, in seconds since 1970.
    At(i64),
    // No such local time in the zone.
    Nonexistent,
    // Ambiguous, with the two offsets.
    Twice(TwoOffsets),
    // Another error.
    Otherwise,
}

// The result of parsing the whole text by the format, in the local time of that zone. A timestamp without a year has
// the latest year by which it isn't after `latest`.
fn answer_of(
    format: &[u8],
    text: &[u8],
    clocks: Clocks<'_>,
    latest: Option<OffsetDateTime>,
) -> Answer {
    let Ok(reading) = find_reading(format) else {
        return Answer::Otherwise;
    };
    let defaults = Defaults {
        year: None,
        offset: None,
        clocks: Some(clocks),
        latest,
    };
    match parse_dated(&reading, false, text, &defaults) {
        Ok(said) => Answer::At(said.moment.unix_timestamp()),
        Err(Reason::Nonexistent) => Answer::Nonexistent,
        Err(Reason::Ambiguous(offsets)) => Answer::Twice(offsets),
        Err(_) => Answer::Otherwise,
    }
}

// Ambiguous: at +02:00 first, and then at +01:00.
const BOTH: Answer = Answer::Twice(TwoOffsets {
    earlier: OffsetParts {
        is_behind: false,
        seconds: 7200,
    },
    later: OffsetParts {
        is_behind: false,
        seconds: 3600,
    },
});

// Which moment an ambiguous local time means, a local time in Berlin, and the result. 2021-03-28T00:00:00Z is
// 1616889600, and 2021-10-31T00:00:00Z is 1635638400.
type Row = (Fold, &'static [u8], Answer);

static ROWS: [Row; 8] = [
    (Fold::Refuse, b"2021-03-28 01:59", Answer::At(1_616_893_140)),
    (Fold::Later, b"2021-03-28 02:30", Answer::Nonexistent),
    (Fold::Refuse, b"2021-03-28 03:00", Answer::At(1_616_893_200)),
    (Fold::Refuse, b"2021-10-31 02:30", BOTH),
    (
        Fold::Earlier,
        b"2021-10-31 02:30",
        Answer::At(1_635_640_200),
    ),
    (Fold::Later, b"2021-10-31 02:30", Answer::At(1_635_643_800)),
    (Fold::Refuse, b"2021-10-31 03:00", Answer::At(1_635_645_600)),
    (Fold::Refuse, b"2021-02-29 03:00", Answer::Otherwise),
];

#[test]
fn on_clocks(rt: HostRuntime) {
    let Some(named) = berlin(rt.alloc()) else {
        return assert!(rt; false);
    };
    for (fold, text, wanted) in &ROWS {
        let clocks = Clocks {
            zone: named.time_zone(),
            fold: *fold,
        };
        assert_eq!(rt; answer_of(b"%Y-%m-%d %H:%M", text, clocks, None), *wanted);
    }
}

// The seconds of the moment that a timestamp without a year isn't after, the timestamp, and the result of parsing it.
// 2021-12-01T00:00:00Z is 1638316800, and 2021-02-01T00:00:00Z is 1612137600.
static UNDATED: [(i64, &[u8], Answer); 5] = [
    (1_638_316_800, b"Mar 28 02:30:00", Answer::Nonexistent),
    (1_638_316_800, b"Mar 27 02:30:00", Answer::At(1_616_808_600)),
    (1_638_316_800, b"Oct 31 02:30:00", BOTH),
    (1_612_137_600, b"Mar 28 02:30:00", Answer::At(1_585_359_000)),
    (1_612_137_600, b"Oct 31 02:30:00", Answer::At(1_604_107_800)),
];

#[test]
fn with_no_year(rt: HostRuntime) {
    let Some(named) = berlin(rt.alloc()) else {
        return assert!(rt; false);
    };
    let clocks = Clocks {
        zone: named.time_zone(),
        fold: Fold::Refuse,
    };
    for (seconds, text, wanted) in &UNDATED {
        let latest = OffsetDateTime::from_unix_timestamp(*seconds).ok();
        assert_eq!(rt; answer_of(b"syslog", text, clocks, latest), *wanted);
    }
}

// Bounds that are words relative to the clock.
mod bounds {
    use restamp_command::{Fault, Options, Request, TimeArgError, make_command};
    use std::test::Fail;
    use time_values::UtcDateTime;

    // 2021-01-02T03:04:05Z, in seconds since 1970.
    const NOW: i64 = 1_609_556_645;

    // The meaning of a text: a second since 1970, or why there is no such second: it is out of range, it is a word and
    // there is no clock, or it is neither a word nor a timestamp.
    #[derive(Clone, Copy, PartialEq, Eq)]
    enum Named {
        At(i64),
        OutOfRange,
        NoClock,
        Nothing,
    }

    // The default offset, a text, and its meaning at 2021-01-02T03:04:05Z.
    static ROWS: [(&str, &str, Named); 24] = [
        ("+00:00", "now", Named::At(NOW)),
        ("+00:00", "now-5s", Named::At(NOW - 5)),
        ("+00:00", "now-90m", Named::At(NOW - 90 * 60)),
        ("+00:00", "now+1h", Named::At(NOW + 3_600)),
        ("+00:00", "now-2d", Named::At(NOW - 2 * 86_400)),
        ("+00:00", "now+01w", Named::At(NOW + 7 * 86_400)),
        ("+05:30", "now-0s", Named::At(NOW)),
        // 03:04:05 are 11045 seconds.
        ("+00:00", "today", Named::At(NOW - 11_045)),
        ("+00:00", "yesterday", Named::At(NOW - 11_045 - 86_400)),
        // At -05:00 it is 22:04:05 of the day before, which started 79445 seconds ago.
        ("-05:00", "today", Named::At(NOW - 79_445)),
        ("-05:00", "yesterday", Named::At(NOW - 79_445 - 86_400)),
        // 17:04:05 are 61445 seconds.
        ("+14:00", "today", Named::At(NOW - 61_445)),
        // A text that a format matches is no word.
        ("+00:00", "2021-01-02 03:04", Named::At(NOW - 5)),
        ("+01:00", "2021-01-02 04:04", Named::At(NOW - 5)),
        ("+00:00", "now+999999999w", Named::OutOfRange),
        ("+00:00", "now-9223372036854775807s", Named::OutOfRange),
        // 2^63 is no number of 64 bits with a sign.
        ("+00:00", "now+9223372036854775808s", Named::Nothing),
        ("+00:00", "now-5", Named::Nothing),
        ("+00:00", "now5m", Named::Nothing),
        ("+00:00", "now-+5m", Named::Nothing),
        ("+00:00", "now-m", Named::Nothing),
        ("+00:00", "now-5y", Named::Nothing),
        ("+00:00", "Now", Named::Nothing),
        ("+00:00", "today-1d", Named::Nothing),
    ];

    // The meaning of a text as a lower bound, with that default offset and with `now` as the moment of the clock
    // (`None`: no clock).
    fn find_named(
        rt: &HostRuntime,
        offset: &str,
        text: &str,
        now: Option<UtcDateTime>,
    ) -> Result<Named, Fail> {
        let command = make_command(rt.alloc())?;
        let words = [
            "restamp",
            "-f",
            "%Y-%m-%d %H:%M",
            "--offset",
            offset,
            "--since",
            text,
        ];
        let Ok(matches) = command.try_get_matches_from(words.as_slice()) else {
            return Err("no options".into());
        };
        match Request::new(rt, &Options::of(&matches), false, now) {
            Ok(request) => match request.since {
                Some(moment) => Ok(Named::At(moment.unix_timestamp())),
                None => Err("no bound".into()),
            },
            Err(Fault::Since(_, TimeArgError::OutOfRange)) => Ok(Named::OutOfRange),
            Err(Fault::Since(_, TimeArgError::NoClock)) => Ok(Named::NoClock),
            Err(Fault::Since(_, TimeArgError::Unread(_))) => Ok(Named::Nothing),
            Err(_) => Err("another fault".into()),
        }
    }

    #[test]
    fn words_name_moments(rt: HostRuntime) -> Result<(), Fail> {
        let now = UtcDateTime::from_unix_timestamp(NOW).ok();
        for (offset, text, wanted) in &ROWS {
            let named = find_named(&rt, offset, text, now)?;
            assert!(rt; named == *wanted, "{text} at {offset}");
        }
        Ok(())
    }

    #[test]
    fn only_words_need_the_clock(rt: HostRuntime) -> Result<(), Fail> {
        assert!(rt; find_named(&rt, "+00:00", "2021-01-02 03:04", None)? == Named::At(NOW - 5));
        assert!(rt; find_named(&rt, "+00:00", "yesterday", None)? == Named::NoClock);
        assert!(rt; find_named(&rt, "+00:00", "noon", None)? == Named::Nothing);
        Ok(())
    }
}
