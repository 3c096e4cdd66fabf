//! Parses of whole texts, and of prefixes.

// The parse of a whole text, by each type of format.
mod whole_parses {
    use self::Defaults::{Epoch, FirstDay, OffsetSecond, Seconds, Signed, Stamped};
    use crate::errors::{MISSING, MONTH, NO_SECOND, TRAILING, YEAR};
    use crate::formats::Part::{Date, Moment, Offset, Time, Utc};
    use crate::formats::{
        Format, NO_DATE, NO_OFFSET, NO_TIME, Numbers, Part, date_items, parse_part, parse_part_by,
    };
    use std::alloc::{AllocError, Global};
    use std::num::NonZero;
    use std::test::Fail;
    use time_parsing::{Items, Parsable, Rfc3339};
    use time_readers::{
        BorrowedFormatItem, Component, FormatDescriptionV3, FormatDescriptionV3Inner,
        OwnedFormatItem, Padding, modifier,
    };
    use time_record::Parsed;
    use time_values::Month::{January, March};
    use time_values::error::{Parse, ParseFromDescription};

    // The contents of the defaults.
    #[derive(Clone, Copy)]
    enum Defaults {
        // A timestamp of 0, set by a builder.
        Stamped,
        // A timestamp of 0, set by a setter.
        Epoch,
        // The first day of a year.
        FirstDay,
        // 15 seconds of an offset, and a time's second of 7.
        Seconds,
        // 15 seconds of an offset alone.
        OffsetSecond,
        // An offset of minus five hours, parsed with its sign.
        Signed,
    }

    // A record with an offset of minus five hours, parsed with its sign.
    fn negative_offset() -> Option<Parsed> {
        let mut record = Parsed::new();
        let hour = Component::OffsetHour(modifier::OffsetHour {
            padding: Padding::Zero,
            sign_is_mandatory: false,
        });
        let rest = record.parse_component(b"-05", hour).ok()?;
        if rest.is_empty() { Some(record) } else { None }
    }

    // A record with a timestamp of 0, set by a setter.
    fn epoch() -> Option<Parsed> {
        let mut record = Parsed::new();
        record.set_unix_timestamp_nanos(0)?;
        Some(record)
    }

    // The record with the contents of the defaults.
    fn record(defaults: Defaults) -> Option<Parsed> {
        match defaults {
            Stamped => Parsed::new().with_unix_timestamp_nanos(0),
            Epoch => epoch(),
            FirstDay => Parsed::new().with_ordinal(NonZero::<u16>::new(1)?),
            Seconds => Parsed::new().with_second(7)?.with_offset_second_signed(15),
            OffsetSecond => Parsed::new().with_offset_second_signed(15),
            Signed => negative_offset(),
        }
    }

    // The moment of a timestamp of 0 with half a second, which is that of the text.
    const HALF_SECOND: Numbers = ((1970, January, 1), (0, 0, 0, 500_000_000), NO_OFFSET);

    // A format, a part, a text, and the result of parsing the text for the part.
    static WHOLE: [(Format, Part, &[u8], Result<Numbers, Parse>); 9] = [
        // A moment whose day in UTC is the first of the year 10000, a leap second, and a comment after a zone name.
        (
            Format::Stamp,
            Utc,
            b"9999-12-31T23:59:59.999999999-23:59",
            Ok(((10_000, January, 1), (23, 58, 59, 999_999_999), NO_OFFSET)),
        ),
        (Format::Stamp, Time, b"1990-12-31T23:59:60Z", Err(NO_SECOND)),
        (
            Format::Mail,
            Utc,
            b"02 Jan 2021 03:04 GMT (x)",
            Ok(((2021, January, 2), (3, 4, 0, 0), NO_OFFSET)),
        ),
        (
            Format::Mail,
            Offset,
            b"1 Jan 2021 03:04 +2559",
            Ok((NO_DATE, NO_TIME, (25, 59, 0))),
        ),
        (
            Format::Mail,
            Offset,
            b"1 Jan 2021 03:04 -0030",
            Ok((NO_DATE, NO_TIME, (0, -30, 0))),
        ),
        // A reference to a format has no direct path.
        (
            Format::StampByReference,
            Moment,
            b"2021-13-01T00:00:00Z",
            Err(MONTH),
        ),
        (Format::StampByReference, Utc, b"x", Err(YEAR)),
        (Format::Stamp, Utc, b"x", Err(YEAR)),
        (
            Format::StampByReference,
            Time,
            b"1985-04-12T23:20:50.52Z",
            Ok((NO_DATE, (23, 20, 50, 520_000_000), NO_OFFSET)),
        ),
    ];

    #[test]
    fn whole_parses(rt: HostRuntime) {
        for (format, part, text, expected) in &WHOLE {
            let parsed = parse_part(*format, *part, text, None);
            assert!(rt; parsed == *expected, "{text:?}");
        }
    }

    // The nanoseconds from 1970-01-01T00:00:00Z to the moment of the text; `None` if it is rejected.
    fn timestamp<F: Parsable>(format: &F, text: &[u8]) -> Option<i128> {
        let timestamp = format.parse_timestamp(text, None).ok()?;
        Some(timestamp.nanoseconds())
    }

    // A text, and the nanoseconds from 1970-01-01T00:00:00Z to its moment. 1985-04-12 is 15 years, of them 4 leap
    // years, and 101 days after the start of 1970, which makes 5580 days.
    static TIMESTAMPS: [(&[u8], i128); 2] = [
        (b"1985-04-12T23:20:50.52Z", 482_196_050_520_000_000),
        (
            b"9999-12-31T23:59:59.999999999-23:59",
            253_402_387_139_999_999_999,
        ),
    ];

    // A format and a reference to it have equal results.
    #[test]
    fn timestamps(rt: HostRuntime) {
        for (text, expected) in &TIMESTAMPS {
            let both = (timestamp(&Rfc3339, text), timestamp(&&Rfc3339, text));
            assert!(rt; both == (Some(*expected), Some(*expected)), "{text:?}");
        }
    }

    // A format, a part, a text, the defaults, and the result of parsing the text over the defaults for the part.
    static OVER_DEFAULTS: [(Format, Part, &[u8], Defaults, Numbers); 13] = [
        // A timestamp in the defaults takes precedence.
        (
            Format::Stamp,
            Moment,
            b"2021-01-02T03:04:05.5Z",
            Stamped,
            HALF_SECOND,
        ),
        (
            Format::Stamp,
            Moment,
            b"2021-01-02T03:04:05.5Z",
            Epoch,
            HALF_SECOND,
        ),
        (
            Format::Stamp,
            Date,
            b"2021-03-04T00:00:00Z",
            FirstDay,
            ((2021, January, 1), NO_TIME, NO_OFFSET),
        ),
        // The text's offset keeps the second of the defaults, and doesn't keep their sign.
        (
            Format::Mail,
            Time,
            b"1 Jan 2021 03:04 GMT",
            Seconds,
            (NO_DATE, (3, 4, 7, 0), NO_OFFSET),
        ),
        (
            Format::Mail,
            Offset,
            b"1 Jan 2021 03:04 +0030",
            Seconds,
            (NO_DATE, NO_TIME, (0, 30, 15)),
        ),
        (
            Format::Mail,
            Offset,
            b"1 Jan 2021 03:04 GMT",
            Seconds,
            (NO_DATE, NO_TIME, (0, 0, 0)),
        ),
        (
            Format::Mail,
            Offset,
            b"1 Jan 2021 03:04 +0030",
            Signed,
            (NO_DATE, NO_TIME, (0, 30, 0)),
        ),
        (
            Format::Stamp,
            Offset,
            b"2021-01-02T03:04:05+00:30",
            Signed,
            (NO_DATE, NO_TIME, (0, 30, 0)),
        ),
        (
            Format::Iso,
            Offset,
            b"+0030",
            OffsetSecond,
            (NO_DATE, NO_TIME, (0, 30, 15)),
        ),
        (
            Format::Iso,
            Offset,
            b"03:04+01",
            OffsetSecond,
            (NO_DATE, NO_TIME, (1, 0, 15)),
        ),
        (
            Format::Iso,
            Offset,
            b"Z",
            OffsetSecond,
            (NO_DATE, NO_TIME, (0, 0, 0)),
        ),
        (
            Format::Iso,
            Offset,
            b"+0030",
            Signed,
            (NO_DATE, NO_TIME, (0, 30, 0)),
        ),
        (
            Format::Iso,
            Offset,
            b"Z",
            Signed,
            (NO_DATE, NO_TIME, (0, 0, 0)),
        ),
    ];

    #[test]
    fn whole_parses_over_defaults(rt: HostRuntime) {
        for (format, part, text, defaults, expected) in &OVER_DEFAULTS {
            let defaults = record(*defaults);
            assert!(rt;
                defaults.is_some() && parse_part(*format, *part, text, defaults) == Ok(*expected),
                "{text:?}"
            );
        }
    }

    const YEAR_COMPONENT: Component = Component::CalendarYearFullStandardRange(
        modifier::CalendarYearFullStandardRange {
            padding: Padding::Zero,
            sign_is_mandatory: false,
        },
    );

    const MONTH_COMPONENT: Component = Component::MonthNumerical(modifier::MonthNumerical {
        padding: Padding::Zero,
    });

    const DAY_COMPONENT: Component = Component::Day(modifier::Day {
        padding: Padding::Zero,
    });

    // Whether the format parses `2021-03-04`, and rejects a trailing byte.
    fn reads_a_date<F: Parsable>(format: &F) -> bool {
        let date = parse_part_by(format, Date, b"2021-03-04", None);
        date == Ok(((2021, March, 4), NO_TIME, NO_OFFSET))
            && parse_part_by(format, Date, b"2021-03-04 ", None) == Err(TRAILING)
    }

    // Whether the items parse the text, but have too few components for a date.
    fn have_too_few_components(items: &[BorrowedFormatItem<'_>], text: &[u8]) -> bool {
        Items(items).parse_date(text, None) == Err(MISSING)
    }

    // Each type of description, with equal items, has equal results.
    #[test]
    fn equal_descriptions(rt: HostRuntime) {
        let items = date_items(YEAR_COMPONENT, BorrowedFormatItem::StringLiteral("-"));
        let compound = BorrowedFormatItem::Compound(&items);
        assert!(rt;
            reads_a_date(&compound) && reads_a_date(&&compound) && reads_a_date(&Items(&items))
        );
        // The first three are a year and a month, and the last three a month and a day.
        assert!(rt; have_too_few_components(&items[..3], b"2021-03"));
        assert!(rt; have_too_few_components(&items[2..], b"03-04"));
    }

    // A literal of one hyphen.
    fn owned_hyphen(alloc: Global) -> Result<OwnedFormatItem, AllocError> {
        Ok(OwnedFormatItem::Literal(vec![in alloc; b'-']?))
    }

    // A year, a month and a day, with a hyphen between each two.
    fn owned_items(alloc: Global) -> Result<OwnedFormatItem, AllocError> {
        let first = owned_hyphen(alloc)?;
        let second = owned_hyphen(alloc)?;
        let items = vec![in alloc;
            OwnedFormatItem::Component(YEAR_COMPONENT),
            first,
            OwnedFormatItem::Component(MONTH_COMPONENT),
            second,
            OwnedFormatItem::Component(DAY_COMPONENT),
        ]?;
        Ok(OwnedFormatItem::Compound(items))
    }

    #[test]
    fn equal_owned_descriptions(rt: HostRuntime) -> Result<(), Fail> {
        let items = owned_items(rt.alloc())?;
        assert!(rt; reads_a_date(&items));
        Ok(())
    }

    // A year, a month and a day, with a hyphen between each two, as a description of version 3.
    fn version_3(alloc: Global) -> Result<FormatDescriptionV3<'static>, AllocError> {
        let items = vec![in alloc;
            FormatDescriptionV3Inner::Component(YEAR_COMPONENT),
            FormatDescriptionV3Inner::BorrowedLiteral("-"),
            FormatDescriptionV3Inner::Component(MONTH_COMPONENT),
            FormatDescriptionV3Inner::BorrowedLiteral("-"),
            FormatDescriptionV3Inner::Component(DAY_COMPONENT),
        ]?;
        Ok(FormatDescriptionV3 {
            inner: FormatDescriptionV3Inner::OwnedCompound(items),
        })
    }

    #[test]
    fn equal_descriptions_in_version_3(rt: HostRuntime) -> Result<(), Fail> {
        let description = version_3(rt.alloc())?;
        assert!(rt; reads_a_date(&description));
        Ok(())
    }

    // The error of skipped bytes that end inside a character.
    const IGNORED: Parse = Parse::ParseFromDescription(ParseFromDescription::InvalidComponent(
        "ignore",
    ));

    // The two bytes of U+00E9 in UTF-8.
    const CHARACTER: &[u8] = b"\xC3\xA9";

    // What remains of `CHARACTER` after a component that skips bytes is parsed alone, and the error of a description of
    // version 3 with that component.
    fn skipped(ignore: Component) -> (Option<&'static [u8]>, Option<Parse>) {
        let rest = Parsed::new().parse_component(CHARACTER, ignore).ok();
        let description = FormatDescriptionV3 {
            inner: FormatDescriptionV3Inner::Component(ignore),
        };
        (
            rest,
            description.parse_into(CHARACTER, &mut Parsed::new()).err(),
        )
    }

    #[test]
    fn skipped_bytes(rt: HostRuntime) -> Result<(), Fail> {
        let count = NonZero::<u16>::new(1).ok_or("zero")?;
        let ignore = Component::Ignore(modifier::Ignore { count });
        assert!(rt; skipped(ignore) == (Some(&CHARACTER[1..]), Some(IGNORED)));
        Ok(())
    }
}

// Parses of whole texts by parsed descriptions.
mod described {
    use crate::errors::{DAY, LITERAL, MONTH, TRAILING, YEAR};
    use crate::formats::Part::{Date, Offset, Time};
    use crate::formats::{
        Format, NO_DATE, NO_OFFSET, NO_TIME, Numbers, Part, date_items, described, parse_part,
    };
    use time_descriptions::Description;
    use time_parsing::{Items, Parsable};
    use time_readers::{BorrowedFormatItem, Component, Padding, modifier};
    use time_record::{Parsed, Tries};
    use time_values::Month::January;
    use time_values::error::Parse;

    const YEAR_COMPONENT: Component = Component::CalendarYearFullExtendedRange(
        modifier::CalendarYearFullExtendedRange {
            padding: Padding::Zero,
            sign_is_mandatory: false,
        },
    );

    const SECOND_OF_JANUARY: Result<Numbers, Parse> = Ok(((2021, January, 2), NO_TIME, NO_OFFSET));

    // The date of the text by the items, or the error.
    fn date_by(items: &[BorrowedFormatItem<'_>], text: &[u8]) -> Result<Numbers, Parse> {
        let date = Items(items).parse_date(text, None)?;
        Ok((date.to_calendar_date(), NO_TIME, NO_OFFSET))
    }

    // A text, and the result of parsing it as a year, a month and a day with hyphens.
    static DATES: [(&[u8], Result<Numbers, Parse>); 6] = [
        (b"2021-01-02", SECOND_OF_JANUARY),
        (b"2021-13-02", Err(MONTH)),
        (b"2021/01-02", Err(LITERAL)),
        (b"2021-01-02x", Err(TRAILING)),
        (b"2021-01-", Err(DAY)),
        (b"", Err(YEAR)),
    ];

    #[test]
    fn dates(rt: HostRuntime) {
        let items = date_items(YEAR_COMPONENT, BorrowedFormatItem::Literal(b"-"));
        for (text, expected) in &DATES {
            let by_description = parse_part(
                Format::Described(b"[year]-[month]-[day]"),
                Date,
                text,
                None,
            );
            let by_items = date_by(&items, text);
            assert!(rt;
                (by_description, by_items) == (*expected, *expected),
                "{text:?}"
            );
        }
    }

    const WORDED: &[u8] = b"[year], Day [day] of [month]";

    const CLOCK: &[u8] = b"[hour]:[minute][optional [:[second]]]";

    // A description, a part, a text, and the result of parsing the text for the part.
    static TEXTS: [(&[u8], Part, &[u8], Result<Numbers, Parse>); 10] = [
        (WORDED, Date, b"2021, Day 02 of 01", SECOND_OF_JANUARY),
        (WORDED, Date, b"2021, Day 02 of 13", Err(MONTH)),
        (WORDED, Date, b"2021, Day 32 of 01", Err(DAY)),
        (WORDED, Date, b"2021, Tag 02 of 01", Err(LITERAL)),
        (WORDED, Date, b"2021, Da", Err(LITERAL)),
        (WORDED, Date, b"2021, Day 02 of 01.", Err(TRAILING)),
        (
            CLOCK,
            Time,
            b"03:04",
            Ok((NO_DATE, (3, 4, 0, 0), NO_OFFSET)),
        ),
        (
            CLOCK,
            Time,
            b"03:04:05",
            Ok((NO_DATE, (3, 4, 5, 0), NO_OFFSET)),
        ),
        (
            b"[offset_hour sign:mandatory]:[offset_minute]",
            Offset,
            b"-05:30",
            Ok((NO_DATE, NO_TIME, (-5, -30, 0))),
        ),
        // 11 in the second half of the day is 11 + 12.
        (
            b"[hour repr:12] [period case:lower]",
            Time,
            b"11 pm",
            Ok((NO_DATE, (23, 0, 0, 0), NO_OFFSET)),
        ),
    ];

    #[test]
    fn texts(rt: HostRuntime) {
        for (description, part, text, expected) in &TEXTS {
            let parsed = parse_part(Format::Described(description), *part, text, None);
            assert!(rt; parsed == *expected, "{text:?}");
        }
    }

    // How many items are visited to parse the whole text; `None` if it isn't parsed whole.
    fn tries_of(description: &Description<80>, text: &[u8]) -> Option<u64> {
        let mut tries = Tries::new();
        let rest = Parsed::new()
            .parse_steps_counted(text, description.steps(), &mut tries)
            .ok()?;
        if rest.is_empty() {
            Some(tries.count())
        } else {
            None
        }
    }

    // The sequence, three leaves, the optional item, its list, and two leaves: 1 + 3 + 1 + 1 + 2.
    #[test]
    fn optional_second(rt: HostRuntime) {
        let description = described(CLOCK).expect(&rt, "a description");
        assert!(rt; tries_of(&description, b"03:04:05") == Some(8));
    }
}

// The moment at the start of a text, and the bytes after it.
mod front_moments {
    use crate::errors::{DESCRIPTION, HOUR, LITERAL, MISSING, MONTH, NO_DAY};
    use crate::formats::{Format, Numbers, described, numbers};
    use time_parsing::{Iso8601, Parsable, Rfc2822, Rfc3339};
    use time_record::Parsed;
    use time_values::Month::{January, March};
    use time_values::error::Parse;

    // The moment at the start of the text over the defaults, and the unread rest, or the error.
    fn front_by<'a, F: Parsable>(
        format: &F,
        text: &'a [u8],
        defaults: Option<Parsed>,
    ) -> Result<(Numbers, &'a [u8]), Parse> {
        let (moment, rest) = format.parse_front(text, defaults)?;
        Ok((numbers(moment), rest))
    }

    // The moment at the start of the text by one of the formats, and the unread rest, or the error.
    fn front(format: Format, text: &[u8]) -> Result<(Numbers, &[u8]), Parse> {
        match format {
            Format::Stamp => front_by(&Rfc3339, text, None),
            Format::StampByReference => front_by(&&Rfc3339, text, None),
            Format::Mail => front_by(&Rfc2822, text, None),
            Format::Iso => front_by(&Iso8601, text, None),
            Format::Described(description) => match described(description) {
                Some(description) => front_by(&description, text, None),
                None => Err(DESCRIPTION),
            },
        }
    }

    // The timestamp of an access log.
    const LOGGED: &[u8] =
        b"[day]/[month repr:short]/[year]:[hour]:[minute]:[second] [offset_hour sign:mandatory][offset_minute]";

    // A line of an access log, from after the bracket that opens its moment.
    const LINE: &[u8] = b"02/Jan/2021:13:55:36 -0730] \"GET /pb.gif HTTP/1.0\" 200 2326";

    // The rest of `LINE` after its moment.
    const LINE_REST: &[u8] = b"] \"GET /pb.gif HTTP/1.0\" 200 2326";

    // The moment of `LINE`.
    const LINE_MOMENT: Numbers = ((2021, January, 2), (13, 55, 36, 0), (-7, -30, 0));

    // A month, a day, an hour and a minute, without a year and an offset.
    const MONTH_TO_MINUTE: &[u8] = b"[month]-[day]T[hour]:[minute]";

    // 2021-01-02T03:04:05+06:07.
    const MOMENT: Numbers = ((2021, January, 2), (3, 4, 5, 0), (6, 7, 0));

    // 2021-01-02T03:04:05Z.
    const MOMENT_IN_UTC: Numbers = ((2021, January, 2), (3, 4, 5, 0), (0, 0, 0));

    // A format, a text, and the moment at its start with the unread rest, or the error.
    type Row = (
        Format,
        &'static [u8],
        Result<(Numbers, &'static [u8]), Parse>,
    );

    static FRONTS: [Row; 12] = [
        (
            Format::Described(LOGGED),
            LINE,
            Ok((LINE_MOMENT, LINE_REST)),
        ),
        (
            Format::Described(LOGGED),
            b"02/Jan/2021:24:55:36 -0730] x",
            Err(HOUR),
        ),
        (
            Format::Described(LOGGED),
            b"02-Jan-2021 13:55:36",
            Err(LITERAL),
        ),
        (
            Format::Described(MONTH_TO_MINUTE),
            b"01-02T03:04 start",
            Err(MISSING),
        ),
        (
            Format::Stamp,
            b"2021-01-02T03:04:05+06:07",
            Ok((MOMENT, b"")),
        ),
        (
            Format::Stamp,
            b"2021-01-02T03:04:05+06:07 start",
            Ok((MOMENT, b" start")),
        ),
        (
            Format::Stamp,
            b"2021-01-02T03:04:05+06:078",
            Ok((MOMENT, b"8")),
        ),
        (Format::Stamp, b"2021-13-02T03:04:05Z start", Err(MONTH)),
        // February 2021 has 28 days.
        (Format::Stamp, b"2021-02-29T03:04:05Z start", Err(NO_DAY)),
        // The start of an interval, whose end follows a solidus.
        (
            Format::Iso,
            b"2021-01-02T03:04:05Z/PT1H",
            Ok((MOMENT_IN_UTC, b"/PT1H")),
        ),
        (
            Format::Iso,
            b"20210102T030405Z/PT1H",
            Ok((MOMENT_IN_UTC, b"/PT1H")),
        ),
        // A date alone, without a time.
        (Format::Iso, b"2021-01-02/PT1H", Err(MISSING)),
    ];

    #[test]
    fn fronts(rt: HostRuntime) {
        for (format, text, expected) in &FRONTS {
            assert!(rt; front(*format, text) == *expected, "{text:?}");
        }
    }

    // A mail date at the start of a text, and the moment with the unread rest, or the error. By RFC 2822, section 3.3,
    // blanks and comments after the zone are part of the date.
    static MAIL_DATES: [(&[u8], Result<(Numbers, &[u8]), Parse>); 3] = [
        (
            b"Sat, 02 (the second) Jan 2021 03:04:05 +0607 (morning) of a note",
            Ok((MOMENT, b"of a note")),
        ),
        (b"2 Jan 2021 03:04:05 +0607;", Ok((MOMENT, b";"))),
        (b"Sat, 02 Jan 2021 03.04 +0607", Err(LITERAL)),
    ];

    #[test]
    fn mail_dates(rt: HostRuntime) {
        for (text, expected) in &MAIL_DATES {
            assert!(rt; front(Format::Mail, text) == *expected, "{text:?}");
        }
    }

    // A reference to a format parses as the format does.
    #[test]
    fn front_by_reference(rt: HostRuntime) {
        let format = described(LOGGED).expect(&rt, "a description");
        assert!(rt; front_by(&&format, LINE, None) == Ok((LINE_MOMENT, LINE_REST)));
    }

    // Defaults of March 2021, and of an offset of minus five hours.
    fn march_in_2021() -> Option<Parsed> {
        let mut record = Parsed::new();
        record.set_year(2021)?;
        record.set_month(March)?;
        record.set_offset_hour(-5)?;
        Some(record)
    }

    // A component that the text omits is that of the defaults, and any other is the text's.
    #[test]
    fn front_over_defaults(rt: HostRuntime) {
        let format = described(MONTH_TO_MINUTE).expect(&rt, "a description");
        let found = front_by(&format, b"01-02T03:04 start", march_in_2021());
        let expected = ((2021, January, 2), (3, 4, 0, 0), (-5, 0, 0));
        assert!(rt; found == Ok((expected, b" start".as_slice())));
    }
}
