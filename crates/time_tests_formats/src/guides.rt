//! The callers that the pages `CALLING.md` of formats and their parsers show, with their contracts, and the examples of
//! the README.
ghost use Rattle.std.specs.Prelude.{IfOk, true};
ghost use Rattle.time_values.specs.Calendar.{greatest_year};
ghost use Rattle.time_readers.specs.Rfc3339.{HasForm};
ghost use Rattle.time_record.specs.Record.{empty, put, year_is};
ghost use Rattle.time_record.specs.Resolution.{IsDated};
ghost use Rattle.time_parsing.specs.Outcome.{IsOutcome, begun, seen};

use time_components::{BorrowedFormatItem, Component, Padding, modifier};
use time_parsing::{Parsable, Rfc3339};
use time_readers::rfc3339::{Numbers, Place, read};
use time_record::Parsed;
use time_values::error::Parse;
use time_values::{Date, Month};

// The numbers of a moment of RFC 3339 at the start of a text, and the unread rest, or the first place that fails.
fn numbers(input: &[u8]) -> Result<(Numbers, &[u8]), Place>
    ensures { IfOk result (λ found. HasForm true input.now found.1.now found.0) }
{
    let found = read::<true>(input)?;
    Ok((found.1, found.0))
}

// A text, and the day of the moment at its start with the unread rest; `None` if it is rejected.
static STAMPS: [(&[u8], Option<(u8, &[u8])>); 2] = [
    (b"2021-01-02T03:04:05Z, and more", Some((2, b", and more"))),
    (b"2021-01-02T25:04:05Z", None),
];

// The day of the moment of RFC 3339 at the start of a text, and the unread rest; `None` if it is rejected.
fn day_and_rest(input: &[u8]) -> Option<(u8, &[u8])> {
    let found = numbers(input).ok()?;
    Some((found.0.day, found.1))
}

#[test]
fn callers_of_readers(rt: HostRuntime) {
    for (text, expected) in &STAMPS {
        assert!(rt; day_and_rest(text) == *expected);
    }
}

const MONTH: BorrowedFormatItem<'static> = BorrowedFormatItem::Component(
    Component::MonthNumerical(modifier::MonthNumerical {
        padding: Padding::Zero,
    }),
);

const DAY: BorrowedFormatItem<'static> = BorrowedFormatItem::Component(Component::Day(
    modifier::Day {
        padding: Padding::Zero,
    },
));

const HYPHEN: BorrowedFormatItem<'static> = BorrowedFormatItem::StringLiteral("-");

const MARCH: (i32, Month, u8) = (2021, Month::March, 4);

// The date of a configuration entry, which may omit the year for this one.
fn date_in<F: Parsable>(year: i32, text: &[u8], format: &F) -> Result<Date, Parse>
    ensures { IsOutcome (IsDated greatest_year) (F.reads format.now) (F.refuses format.now) text.now
        (begun (put greatest_year (year_is year) empty)) (seen result) }
{
    format.parse_date(text, Parsed::new().with_year(year))
}

// The year, the month and the day of a text such as `03-04` in that year; `None` if it is rejected.
fn calendar_date_in(year: i32, text: &[u8]) -> Option<(i32, Month, u8)> {
    let items = [MONTH, HYPHEN, DAY];
    let date = date_in(year, text, &BorrowedFormatItem::Compound(&items)).ok()?;
    Some(date.to_calendar_date())
}

#[test]
fn callers_of_formats(rt: HostRuntime) {
    for (year, text, expected) in [
        (2021, b"03-04".as_slice(), Some(MARCH)),
        (2021, b"02-29", None),
        (2024, b"02-29", Some((2024, Month::February, 29))),
        (1_000_000, b"03-04", None),
    ] {
        assert!(rt; calendar_date_in(year, text) == expected, "{year}");
    }
    assert!(rt; date_in(1999, b"2021-03-04T00:00:00Z", &Rfc3339).is_ok());
}

// The examples of `README.md`, quoted as they are.
mod readme {
    mod clock {
        use time_parsing::Parsable;
        use time_readers::{BorrowedFormatItem, Component, Padding, modifier};
        use time_values::Time;
        use time_values::error::Parse;

        // The time of day in a text such as `23:59`.
        fn clock(text: &[u8]) -> Result<Time, Parse> {
            let padding = Padding::Zero;
            let items = [
                BorrowedFormatItem::Component(Component::Hour24(modifier::Hour24 { padding })),
                BorrowedFormatItem::StringLiteral(":"),
                BorrowedFormatItem::Component(Component::Minute(modifier::Minute { padding })),
            ];
            BorrowedFormatItem::Compound(&items).parse_time(text, None)
        }

        use time_values::error::ParseFromDescription;

        const NO_COLON: Parse = Parse::ParseFromDescription(ParseFromDescription::InvalidLiteral);

        const NO_MINUTE: Parse = Parse::ParseFromDescription(ParseFromDescription::InvalidComponent(
            "minute",
        ));

        // The hour, the minute, the second and the nanosecond of the text.
        fn numbers(text: &[u8]) -> Result<(u8, u8, u8, u32), Parse> {
            Ok(clock(text)?.as_hms_nano())
        }

        #[test]
        fn clocks(rt: HostRuntime) {
            for (text, expected) in [
                (b"23:59".as_slice(), Ok((23, 59, 0, 0))),
                (b"2359", Err(NO_COLON)),
                (b"23:60", Err(NO_MINUTE)),
            ] {
                assert!(rt; numbers(text) == expected, "{text:?}");
            }
        }
    }

    mod moment {
        use time_parsing::{Parsable, Rfc3339};
        use time_values::OffsetDateTime;
        use time_values::error::Parse;

        // The moment of a log line's first field.
        fn moment(field: &[u8]) -> Result<OffsetDateTime, Parse> {
            Rfc3339.parse_offset_date_time(field, None)
        }

        use crate::formats::numbers;
        use time_values::Month;
        use time_values::error::ParseFromDescription;

        const NO_YEAR: Parse = Parse::ParseFromDescription(ParseFromDescription::InvalidComponent(
            "year",
        ));

        #[test]
        fn moments(rt: HostRuntime) {
            let expected = (
                (1985, Month::April, 12),
                (23, 20, 50, 520_000_000),
                (0, 0, 0),
            );
            assert!(rt; moment(b"1985-04-12T23:20:50.52Z").map(numbers) == Ok(expected));
            assert!(rt; moment(b"") == Err(NO_YEAR));
        }
    }
}
