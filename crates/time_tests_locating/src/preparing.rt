//! Prepared descriptions: worked values, and results that are equal to those of the walk over their steps or items.
mod items;

use time_descriptions::{Description, parse_borrowed, parse_strftime};
use time_preparing::Prepared;

/// A description, parsed and prepared.
#[derive(Drop)]
pub struct Both {
    /// The parsed description.
    pub description: Description<64>,
    /// The prepared description.
    pub prepared: Prepared<64>,
}

/// Parses and prepares a description. It is one of strftime if it contains a `%`, and one of version 2 otherwise.
/// `None` if it is invalid or has more than 64 steps.
pub fn read(text: &[u8]) -> Option<Both> {
    let description = if text.contains(&b'%') {
        parse_strftime::<64>(text).ok()?
    } else {
        parse_borrowed::<2, 64>(text).ok()?
    };
    let prepared = Prepared::from_steps(description.steps())?;
    Some(Both {
        description,
        prepared,
    })
}

// Components of the descriptions of these tests, with the modifiers that a text's names have by default.
mod parts {
    use time_components::{Component, Padding, SubsecondDigits, modifier};

    /// The calendar year, of four digits, or of up to six after a sign.
    pub const YEAR: Component = Component::CalendarYearFullExtendedRange(
        modifier::CalendarYearFullExtendedRange {
            padding: Padding::Zero,
            sign_is_mandatory: false,
        },
    );

    /// The number of the month, from 01 to 12.
    pub const MONTH: Component = Component::MonthNumerical(modifier::MonthNumerical {
        padding: Padding::Zero,
    });

    /// The day of the month, from 01 to 31.
    pub const DAY: Component = Component::Day(modifier::Day {
        padding: Padding::Zero,
    });

    /// The hour of the 24-hour clock, from 00 to 23.
    pub const HOUR: Component = Component::Hour24(modifier::Hour24 {
        padding: Padding::Zero,
    });

    /// The minute, from 00 to 59.
    pub const MINUTE: Component = Component::Minute(modifier::Minute {
        padding: Padding::Zero,
    });

    /// The second, from 00 to 60.
    pub const SECOND: Component = Component::Second(modifier::Second {
        padding: Padding::Zero,
    });

    /// The fraction of a second, of one or more digits.
    pub const SUBSECOND: Component = Component::Subsecond(modifier::Subsecond {
        digits: SubsecondDigits::OneOrMore,
    });
}

// Worked rows: the value has the components of the text.
mod worked {
    use super::read;
    use time_parsing::{Parsable, Target};
    use time_preparing::Prepared;
    use time_record::Parsed;
    use time_values::{Date, Month, OffsetDateTime, Time};

    const DATE: &[u8] = b"[year]-[month]-[day]";

    const CHOICE: &[u8] =
        b"[first [[year]-[month]-[day]] [[year]-[ordinal]] [[day].[month].[year]]]";

    // A description, a text, and its year, month and day; `None` if the text is rejected.
    type DateRow = (&'static [u8], &'static str, Option<(i32, Month, u8)>);

    static DATES: [DateRow; 14] = [
        (DATE, "2021-03-04", Some((2021, Month::March, 4))),
        (DATE, "-2021-12-31", Some((-2021, Month::December, 31))),
        // 2021 isn't a multiple of 4.
        (DATE, "2021-02-29", None),
        (DATE, "2021-13-04", None),
        (DATE, "2021-00-04", None),
        (DATE, "2021-03-32", None),
        (DATE, "2021-03-00", None),
        (DATE, "2021-3-04", None),
        (DATE, "2021/03/04", None),
        (
            b"[year].[month].[day]",
            "2020.02.29",
            Some((2020, Month::February, 29)),
        ),
        (CHOICE, "2021-03-04", Some((2021, Month::March, 4))),
        // The 366th day of a leap year is its last.
        (CHOICE, "2020-366", Some((2020, Month::December, 31))),
        (CHOICE, "04.03.2021", Some((2021, Month::March, 4))),
        (CHOICE, "04/03/2021", None),
    ];

    // The year, month and day that the prepared description parses; `None` if it rejects the text.
    fn date_of(description: &[u8], text: &str) -> Option<(i32, Month, u8)> {
        let format = read(description)?.prepared;
        let date = Date::parse(text, &format).ok()?;
        Some(date.to_calendar_date())
    }

    #[test]
    fn dates(rt: HostRuntime) {
        for (description, text, date) in &DATES {
            assert!(rt; date_of(description, text) == *date, "{text}");
        }
    }

    const CLOCK: &[u8] = b"[hour]:[minute]:[second]";

    // A time of the 12-hour clock, with an optional second and fraction.
    const HALVES: &[u8] =
        b"[hour repr:12 padding:none]:[minute][optional [:[second][optional [.[subsecond]]]]] [period]";

    // A description, a text, and its hour (of the 24-hour clock), minute, second and nanosecond; `None` if the text is
    // rejected.
    type TimeRow = (&'static [u8], &'static str, Option<(u8, u8, u8, u32)>);

    static TIMES: [TimeRow; 15] = [
        (CLOCK, "23:59:58", Some((23, 59, 58, 0))),
        (CLOCK, "24:00:00", None),
        (CLOCK, "23:60:00", None),
        (CLOCK, "23:59:61", None),
        (CLOCK, "23-59-58", None),
        (CLOCK, "23:59", None),
        (CLOCK, "23:59:58 ", None),
        // After noon the 24-hour clock counts 12 more.
        (HALVES, "1:05:09.25 PM", Some((13, 5, 9, 250_000_000))),
        (HALVES, "1:05:09 PM", Some((13, 5, 9, 0))),
        (HALVES, "12:05 AM", Some((0, 5, 0, 0))),
        (HALVES, "12:05:09.000000001 PM", Some((12, 5, 9, 1))),
        (HALVES, "13:05 AM", None),
        (HALVES, "0:05 AM", None),
        (HALVES, "1:05:60 PM", None),
        (HALVES, "1:05: PM", None),
    ];

    // The hour, minute, second and nanosecond that the prepared description parses; `None` if it rejects the text.
    fn time_of(description: &[u8], text: &str) -> Option<(u8, u8, u8, u32)> {
        let format = read(description)?.prepared;
        let time = Time::parse(text, &format).ok()?;
        Some(time.as_hms_nano())
    }

    #[test]
    fn times(rt: HostRuntime) {
        for (description, text, time) in &TIMES {
            assert!(rt; time_of(description, text) == *time, "{text}");
        }
    }

    const APART: &[u8] =
        b"[year]-[month]-[day] [hour]:[minute]:[second] [offset_hour sign:mandatory]:[offset_minute]";

    const LOG: &[u8] =
        b"[day]/[month repr:short]/[year]:[hour]:[minute]:[second] [offset_hour sign:mandatory][offset_minute]";

    // A year, month and day, and the hours, minutes and seconds of a time and of its offset. The parts of an offset
    // have its sign.
    type Moment = ((i32, Month, u8), (u8, u8, u8), (i8, i8, i8));

    // A description, a text, and its moment; `None` if the text is rejected.
    type MomentRow = (&'static [u8], &'static str, Option<Moment>);

    static MOMENTS: [MomentRow; 8] = [
        (
            APART,
            "2021-01-02 03:04:05 -00:30",
            Some(((2021, Month::January, 2), (3, 4, 5), (0, -30, 0))),
        ),
        (
            LOG,
            "04/Mar/2021:05:06:07 -0530",
            Some(((2021, Month::March, 4), (5, 6, 7), (-5, -30, 0))),
        ),
        (LOG, "31/Apr/2021:05:06:07 -0530", None),
        (LOG, "04/mar/2021:05:06:07 -0530", None),
        (LOG, "04/Mar/2021:05:06:60 -0530", None),
        (LOG, "04/Mar/2021:05:06:07 -0560", None),
        (LOG, "04/Mar/2021:05:06:07 0530", None),
        (LOG, "04/Mar/2021:05:06:07 -0530 ", None),
    ];

    // The moment that the prepared description parses; `None` if it rejects the text.
    fn moment_of(description: &[u8], text: &str) -> Option<Moment> {
        let format = read(description)?.prepared;
        let moment = OffsetDateTime::parse(text, &format).ok()?;
        let day = moment.date().to_calendar_date();
        Some((day, moment.time().as_hms(), moment.offset().as_hms()))
    }

    #[test]
    fn moments(rt: HostRuntime) {
        for (description, text, moment) in &MOMENTS {
            assert!(rt; moment_of(description, text) == *moment, "{text}");
        }
    }

    // The date that a month and a day have with the year of the defaults; `None` if it is rejected.
    fn day_of(text: &[u8], defaults: Option<Parsed>) -> Option<(i32, Month, u8)> {
        let format = read(b"[month]-[day]")?.prepared;
        let date = format.parse_date(text, defaults).ok()?;
        Some(date.to_calendar_date())
    }

    // The date of a timestamp as in a log of syslog, with the year of the defaults; `None` if it is rejected.
    fn day_of_log(text: &[u8], defaults: Option<Parsed>) -> Option<(i32, Month, u8)> {
        let format = read(b"%b %e %H:%M:%S")?.prepared;
        let moment = format.parse_plain_date_time(text, defaults).ok()?;
        Some(moment.date().to_calendar_date())
    }

    // The year is that of the defaults, and without them it is missing.
    #[test]
    fn defaults(rt: HostRuntime) {
        let Some(known) = Parsed::new().with_year(2020) else {
            panic!(rt; "out of range");
        };
        let leap_day = (2020, Month::February, 29);
        assert!(rt; day_of(b"02-29", Some(known)) == Some(leap_day));
        assert!(rt; day_of(b"02-29", None).is_none());
        for (text, day) in [
            (b"Feb 29 05:06:07", leap_day),
            (b"Mar  4 05:06:07", (2020, Month::March, 4)),
        ] {
            assert!(rt; day_of_log(text, Some(known)) == Some(day), "{text:?}");
        }
    }

    // The prepared steps are the five of the description: three components and two dashes.
    #[test]
    fn room(rt: HostRuntime) {
        let Some(both) = read(DATE) else {
            panic!(rt; "no description");
        };
        let steps = both.description.steps();
        assert!(rt; both.prepared.steps() == steps);
        assert!(rt; Prepared::<5>::from_steps(steps).is_some());
        assert!(rt; Prepared::<4>::from_steps(steps).is_none());
    }
}

// Each text of a fused step, with each of its bytes changed to each other byte: the prepared description and the walk
// over the steps have equal results.
mod fused_steps {
    use super::{Both, read};
    use std::num::NonZero;
    use std::process::Abort;
    use time_parsing::Parsable;
    use time_record::Parsed;
    use time_tests_records::same::same_record;
    use time_values::error::Parse;
    use time_values::{Date, OffsetDateTime, PlainDateTime, Time};

    // A description, and a text that starts with what it parses.
    type Row = (&'static [u8], &'static [u8]);

    static DATES: [Row; 6] = [
        (b"[year]-[month]-[day]", b"2021-03-04"),
        (b"[year]-[month]-[day]", b"0000-12-31x"),
        (b"[year]x[month]x[day]", b"9999x10x29"),
        (b"[day]/[month repr:short]/[year]", b"29/Feb/2021"),
        (b"%b %e", b"Nov  9"),
        (b"%b %e", b"Dec 31x"),
    ];

    const FRACTION: &[u8] = b"[hour]:[minute]:[second][optional [.[subsecond]]]";

    static TIMES: [Row; 4] = [
        (b"[hour]:[minute]:[second]", b"23:59:60"),
        (b"[hour]0[minute]0[second]", b"00000009"),
        (FRACTION, b"23:59:58.123456789"),
        (FRACTION, b"00:00:00"),
    ];

    // A date, a time and an offset, or else a year and an ordinal.
    const LOCAL: &[u8] =
        b"[first [[year]-[month]-[day] [hour]:[minute]:[second] [offset_hour sign:mandatory]:[offset_minute]] [[year]-[ordinal]]]";

    // A time of the 12-hour clock, with an optional second and fraction.
    const CLOCK: &[u8] =
        b"[hour repr:12 padding:none]:[minute][optional [:[second][optional [.[subsecond]]]]] [period]";

    // A time of the 12-hour clock, with an optional second and fraction, an `x` between each two parts, and a period in
    // either case.
    const EITHER_CASE: &[u8] =
        b"[hour repr:12 padding:none]x[minute][optional [x[second][optional [x[subsecond]]]]]x[period case_sensitive:false]";

    static GROUPS: [Row; 7] = [
        (CLOCK, b"1:05:09.25 PM"),
        (CLOCK, b"12:59 AM"),
        (EITHER_CASE, b"12x00x59x1xpm"),
        (EITHER_CASE, b"2x30x60xAM"),
        (LOCAL, b"2021-01-02 03:04:05 -00:30"),
        (LOCAL, b"2020-366"),
        (
            b"[optional [[year]-[month]]]-[day][optional [ab]]c",
            b"2020-12-11abc",
        ),
    ];

    static MOMENTS: [Row; 7] = [
        (b"%Y-%m-%dT%H:%M:%S%z", b"2021-01-02T23:59:60-0030"),
        (b"%b %e %H:%M:%S", b"Mar  4 05:06:07"),
        (b"%b %e %H:%M:%S", b"Feb 29 23:59:60"),
        (b"%b/%e/%H-%M-%S", b"Dec/31/00-00-00x"),
        (
            b"[year]-[month]-[day] [hour]:[minute]:[second]",
            b"2020-02-29 23:59:59",
        ),
        (
            b"[day]/[month repr:short]/[year]:[hour]:[minute]:[second] [offset_hour sign:mandatory][offset_minute]",
            b"31/Dec/1999:23:59:59 +0530",
        ),
        (
            b"[year]-[month]-[day] [hour]:[minute]:[second] [offset_hour sign:mandatory]:[offset_minute]",
            b"2021-01-02 03:04:05 -00:30",
        ),
    ];

    static COMPONENTS: [Row; 3] = [
        (b"%a, %d %m %H %M %S %y", b"Thu, 04 03 05 06 07 21"),
        (b"[offset_minute][optional [ x[minute]]]", b"59 x07"),
        (b"[hour][first [[minute]] [x[minute]]] at", b"05x06 at"),
    ];

    // Whether the walk over the steps and the prepared description parse the text equally, each over a copy of
    // `record`: the rest and the stored record are equal, or the error is, and then the records are equal too.
    fn has_equal_results(both: &Both, text: &[u8], record: Parsed) -> bool {
        let mut by_walk = record;
        let mut at_once = record;
        let walked = by_walk.parse_steps(text, both.description.steps());
        let read = both.prepared.parse_front_into(text, &mut at_once);
        walked == read && same_record(&by_walk, &at_once)
    }

    /// The results of parsing the whole text as a date, a time, both, and both with an offset.
    pub type Values = (
        Result<Date, Parse>,
        Result<Time, Parse>,
        Result<PlainDateTime, Parse>,
        Result<OffsetDateTime, Parse>,
    );

    /// The results without defaults.
    pub fn values_of<F: Parsable>(format: &F, text: &[u8]) -> Values {
        (
            format.parse_date(text, None),
            format.parse_time(text, None),
            format.parse_plain_date_time(text, None),
            format.parse_offset_date_time(text, None),
        )
    }

    // Whether both parse the whole text, with `known` as defaults, into an equal date and time, or fail with equal
    // errors.
    fn has_equal_date_time(both: &Both, text: &[u8], known: Parsed) -> bool {
        let walked = both.description.parse_plain_date_time(text, Some(known));
        walked == both.prepared.parse_plain_date_time(text, Some(known))
    }

    // Whether both parse the text equally over the last of the records, and have equal results for the whole text with
    // each record as defaults and without defaults.
    fn has_equal_results_over_all(both: &Both, text: &[u8], records: &[Parsed; 4]) -> bool {
        for known in records {
            if !has_equal_date_time(both, text, *known) {
                return false;
            }
        }
        has_equal_results(both, text, records[3])
            && values_of(&both.description, text) == values_of(&both.prepared, text)
    }

    // More bytes than any text of the rows.
    const ROOM: usize = 32;

    // Whether both parse equally each text that has any byte at the index `at` and the bytes of `text` elsewhere.
    // `false` if `at` isn't an index of the text, or the text is longer than `ROOM`.
    fn have_equal_results_at(both: &Both, text: &[u8], at: usize, records: &[Parsed; 4]) -> bool {
        let mut bytes = [0; ROOM];
        let Some(changed) = bytes.get_mut(..text.len()) else {
            return false;
        };
        changed.copy_from_slice(text);
        for byte in 0..=255u8 {
            let Some(place) = changed.get_mut(at) else {
                return false;
            };
            *place = byte;
            if !has_equal_results_over_all(both, changed, records) {
                return false;
            }
        }
        true
    }

    // Records as defaults: a year alone, a year with a fraction of a second, a year with a day, and a day alone.
    fn known_records() -> Option<[Parsed; 4]> {
        let year = Parsed::new().with_year(2020)?;
        Some([
            year,
            year.with_subsecond(1)?,
            year.with_ordinal(NonZero::<u16>::MIN)?,
            Parsed::new().with_ordinal(NonZero::<u16>::MIN)?,
        ])
    }

    // Whether both parse equally the text, each text that differs from it in one byte, and each of its prefixes.
    fn have_equal_results(both: &Both, text: &[u8]) -> bool {
        let Some(records) = known_records() else {
            return false;
        };
        for at in 0..text.len() {
            if !has_equal_results_over_all(both, &text[..at], &records)
                || !have_equal_results_at(both, text, at, &records)
            {
                return false;
            }
        }
        has_equal_results_over_all(both, text, &records)
            && has_equal_results(both, text, Parsed::new())
    }

    // Asserts for each row that its description, walked and prepared, parses the text, its prefixes and its changes of
    // one byte equally.
    fn assert_equal_results(rt: &impl Abort, rows: &[Row]) {
        for (description, text) in rows {
            let is_equal = match read(description) {
                Some(both) => have_equal_results(&both, text),
                None => false,
            };
            assert!(rt; is_equal, "{text:?}");
        }
    }

    #[test]
    fn dates(rt: HostRuntime) {
        assert_equal_results(&rt, &DATES);
    }

    #[test]
    fn times(rt: HostRuntime) {
        assert_equal_results(&rt, &TIMES);
    }

    #[test]
    fn groups(rt: HostRuntime) {
        assert_equal_results(&rt, &GROUPS);
    }

    #[test]
    fn moments(rt: HostRuntime) {
        assert_equal_results(&rt, &MOMENTS);
    }

    #[test]
    fn components(rt: HostRuntime) {
        assert_equal_results(&rt, &COMPONENTS);
    }
}
