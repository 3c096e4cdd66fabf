//! Malicious texts: long runs, deep comments, changed bytes, and defaults that a text leaves unchanged.
use std::alloc::{AllocError, Global};

// The bytes of `front`, then `part` repeated `times` times, and then `end`.
fn repeated(
    alloc: Global,
    front: &[u8],
    part: &[u8],
    times: usize,
    end: &[u8],
) -> Result<Vec<u8>, AllocError> {
    let mut text = Vec::new(alloc);
    text.extend_from_slice(front)?;
    for _ in 0..times {
        text.extend_from_slice(part)?;
    }
    text.extend_from_slice(end)?;
    Ok(text)
}

// Texts that repeat a part a hundred thousand times.
mod long_texts {
    use super::repeated;
    use crate::errors::{HOUR, LITERAL, MONTH, YEAR};
    use crate::formats::Format::{self, Iso, Mail, Stamp};
    use crate::formats::{NO_DATE, NO_OFFSET, Part, parse_part};
    use crate::paths::Answer::{self, Moment, Refused};
    use crate::paths::is_answered;
    use std::alloc::{AllocError, Global};
    use time_values::Month::January;
    use time_values::error::Parse;

    // A format, the bytes before the repeated part, the part, the bytes after it, and the result.
    type Row = (Format, &'static [u8], &'static [u8], &'static [u8], Answer);

    // Whether the row's text, with its part repeated 100,000 times, has the row's result.
    fn is_row_answered(alloc: Global, row: &Row) -> Result<bool, AllocError> {
        let (format, front, part, end, answer) = *row;
        let text = repeated(alloc, front, part, 100_000, end)?;
        Ok(is_answered(format, &text, answer))
    }

    static STAMPS: [Row; 2] = [
        (
            Stamp,
            b"2021-01-02T03:04:05.",
            b"9",
            b"Z",
            Moment((2021, January, 2), (3, 4, 5, 999_999_999), (0, 0)),
        ),
        (Stamp, b"", b"9", b"", Refused(LITERAL, LITERAL)),
    ];

    #[test]
    fn hostile_digits(rt: HostRuntime) {
        for row in &STAMPS {
            assert!(rt; is_row_answered(rt.alloc(), row) == Ok(true), "{:?}", row.1);
        }
    }

    const MOMENT: Answer = Moment((2021, January, 1), (3, 4, 0, 0), (0, 0));

    // Parts between the year and the hour of a mail date.
    static MAIL_DATES: [Row; 3] = [
        (Mail, b"1 Jan 21 ", b"\r\n ", b"03:04 GMT", MOMENT),
        (Mail, b"1 Jan 21 ", b"(a)", b"03:04 GMT", MOMENT),
        (Mail, b"1 Jan 21 ", b"(", b"03:04 GMT", Refused(HOUR, HOUR)),
    ];

    #[test]
    fn long_mail_dates(rt: HostRuntime) {
        for row in &MAIL_DATES {
            assert!(rt; is_row_answered(rt.alloc(), row) == Ok(true), "{:?}", row.2);
        }
    }

    // Comments without an end, after a blank and without one.
    static OPEN_COMMENTS: [Row; 2] = [
        (Mail, b"02 ", b"(", b"", Refused(MONTH, MONTH)),
        (Mail, b"02", b"(", b"", Refused(LITERAL, LITERAL)),
    ];

    #[test]
    fn hostile_comments_without_an_end(rt: HostRuntime) {
        for row in &OPEN_COMMENTS {
            assert!(rt; is_row_answered(rt.alloc(), row) == Ok(true), "{:?}", row.1);
        }
    }

    // The hour, the minute, the second and the nanosecond.
    type Clock = (u8, u8, u8, u32);

    // The bytes before 100,000 digits in a time of ISO 8601, the digit, and the result.
    static TIMES: [(&[u8], &[u8], Result<Clock, Parse>); 3] = [
        (b"03.", b"9", Ok((3, 59, 59, 999_999_999))),
        (b"03:04:05,", b"4", Ok((3, 4, 5, 444_444_444))),
        (b"12:34:56.", b"9", Err(YEAR)),
    ];

    // Whether a time of ISO 8601 of those bytes and 100,000 times the digit has that result.
    fn time_is_answered(
        alloc: Global,
        front: &[u8],
        digit: &[u8],
        answer: Result<Clock, Parse>,
    ) -> Result<bool, AllocError> {
        let text = repeated(alloc, front, digit, 100_000, b"")?;
        let expected = match answer {
            Ok(time) => Ok((NO_DATE, time, NO_OFFSET)),
            Err(refusal) => Err(refusal),
        };
        Ok(parse_part(Iso, Part::Time, &text, None) == expected)
    }

    #[test]
    fn hostile_digits_of_times(rt: HostRuntime) {
        for (front, digit, answer) in &TIMES {
            assert!(rt;
                time_is_answered(rt.alloc(), front, digit, *answer) == Ok(true),
                "{front:?}"
            );
        }
    }
}

// Comments of mail dates, nested as deep as is allowed, and deeper.
mod comments {
    use super::repeated;
    use crate::errors::{DAY, LITERAL, MINUTE, SECOND, TRAILING};
    use crate::formats::Format::Mail;
    use crate::paths::Answer::{self, Moment, Refused};
    use crate::paths::is_answered;
    use std::alloc::{AllocError, Global};
    use time_values::Month::January;
    use time_values::error::Parse;

    // A comment, nested `levels` deep, between a start and an end.
    fn commented(
        alloc: Global,
        front: &[u8],
        levels: usize,
        end: &[u8],
    ) -> Result<Vec<u8>, AllocError> {
        let opened = repeated(alloc, front, b"(", levels, b"")?;
        repeated(alloc, &opened, b")", levels, end)
    }

    // The bytes before and after each place of a mail date that allows comments, and the error of a comment there that
    // is nested too deep.
    static PLACES: [(&[u8], &[u8], Parse); 12] = [
        (b"", b"Sat, 02 Jan 21 03:04:05 +0000", DAY),
        (b"", b"02 Jan 21 03:04:05 +0000", DAY),
        (b"Sat,", b"02 Jan 21 03:04:05 +0000", DAY),
        (b"02", b"Jan 21 03:04:05 +0000", LITERAL),
        (b"02 Jan", b"21 03:04:05 +0000", LITERAL),
        (b"02 Jan 21", b"03:04:05 +0000", LITERAL),
        (b"02 Jan 21 03", b":04:05 +0000", LITERAL),
        (b"02 Jan 21 03:", b"04:05 +0000", MINUTE),
        (b"02 Jan 21 03:04", b":05 +0000", LITERAL),
        (b"02 Jan 21 03:04:", b"05 +0000", SECOND),
        (b"02 Jan 21 03:04:05", b"+0000", LITERAL),
        (b"02 Jan 21 03:04:05 +0000", b"", TRAILING),
    ];

    // Whether a mail date with a comment, nested `levels` deep, between those bytes has that result.
    fn comment_is_answered(
        alloc: Global,
        (front, end): (&[u8], &[u8]),
        levels: usize,
        answer: Answer,
    ) -> Result<bool, AllocError> {
        let text = commented(alloc, front, levels, end)?;
        Ok(is_answered(Mail, &text, answer))
    }

    const SECOND_OF_JANUARY: Answer = Moment((2021, January, 2), (3, 4, 5, 0), (0, 0));

    #[test]
    fn hostile_comments(rt: HostRuntime) {
        for (front, end, refusal) in &PLACES {
            let deep = comment_is_answered(rt.alloc(), (front, end), 31, SECOND_OF_JANUARY);
            assert!(rt; deep == Ok(true), "{front:?}");
            let refused = Refused(*refusal, *refusal);
            let deeper = comment_is_answered(rt.alloc(), (front, end), 32, refused);
            assert!(rt; deeper == Ok(true), "{front:?}");
        }
    }
}

// Texts of the two RFC formats with each byte replaced by each other, and truncated at each place.
mod changed_bytes {
    use crate::formats::{Part, parse_part_by};
    use std::alloc::{AllocError, Global};
    use std::num::NonZero;
    use std::ops::Range;
    use time_parsing::{Parsable, Rfc2822, Rfc3339};
    use time_record::Parsed;
    use time_tests_records::fields::{full_record, negative_hour};
    use time_tests_records::same::same_record;

    // Texts of RFC 3339, some of which are rejected.
    static STAMPS: [&[u8]; 10] = [
        b"1985-04-12T23:20:50.52Z",
        b"1990-12-31T15:59:60-08:00",
        b"1990-12-30T23:59:60Z",
        b"2021-13-01T00:00:00Z",
        b"2021-13-01T00:00:00Zx",
        b"9999-12-31T23:59:59.999999999-23:59",
        b"1990-12-31T23:59:60Z",
        b"2021-01-02T03:04:05.1234567899Z",
        b"2021-01-02\xc3\xa903:04:05Z",
        b"",
    ];

    // Texts of RFC 2822, some of which are rejected.
    static MAIL_DATES: [&[u8]; 8] = [
        b"Mon, 02 Jan 2021 03:04:05 +0607",
        b"02 Jan 49 03:04 EST",
        b"02 Jan 2021 03:04 -0030",
        b"02 Jan 2021 03:04 GMT (x)",
        b"02 (a(b\\)c)) Jan 2021 03:04 +0000",
        b"02 Jan 2021\r03:04 +0000",
        b"02 Jan 1899 03:04 +0000",
        b"1 Jan 99 00:00 Z",
    ];

    // Whether the text has equal moments without defaults and over an empty record, or none.
    fn has_one_moment<F: Parsable>(format: &F, text: &[u8]) -> bool {
        let direct = parse_part_by(format, Part::Moment, text, None);
        direct.ok() == parse_part_by(format, Part::Moment, text, Some(Parsed::new())).ok()
    }

    // Whether a text that doesn't parse has an equal error for each type of value.
    fn has_equal_errors<F: Parsable>(format: &F, text: &[u8]) -> bool {
        let answers = (
            format.parse_date(text, None),
            format.parse_time(text, None),
            format.parse_offset(text, None),
            format.parse_plain_date_time(text, None),
            format.parse_utc_date_time(text, None),
            format.parse_timestamp(text, None),
        );
        match (format.parse_internal(text, None), answers) {
            (Ok(_), _) => true,
            (Err(e), (Err(date), Err(time), Err(offset), Err(plain), Err(utc), Err(timestamp))) => {
                [date, time, offset, plain, utc, timestamp] == [e; 6]
            }
            _ => false,
        }
    }

    // A record with a number in each field.
    fn known_record() -> Option<Parsed> {
        let mut record = Parsed::new();
        let date = b"Thu, 11 May 1905 11:12:13 -0814";
        Rfc2822.parse_into(date, &mut record).ok()?;
        let years = record
            .with_year_century(-99, true)?
            .with_year_last_two(99)?
            .with_iso_year(999_999)?
            .with_iso_year_century(-99, true)?
            .with_iso_year_last_two(99)?;
        let days = years
            .with_sunday_week_number(53)?
            .with_monday_week_number(53)?
            .with_iso_week_number(NonZero::<u8>::new(53)?)?
            .with_ordinal(NonZero::<u16>::new(366)?)?;
        days.with_hour_12(NonZero::<u8>::new(12)?)?
            .with_hour_12_is_pm(true)?
            .with_subsecond(999_999_999)?
            .with_offset_second_signed(-59)?
            .with_unix_timestamp_nanos(-1)
    }

    // A record with a timestamp, in which a leap second is allowed; one without, in which a leap second isn't allowed,
    // and the flag of a negative offset is set; and one with this flag and no minute of an offset.
    fn known_records() -> Option<[Parsed; 3]> {
        Some([known_record()?, full_record()?, negative_hour()?])
    }

    // Whether each record is unchanged unless a prefix of the text is parsed into it.
    fn keeps_the_records<F: Parsable>(format: &F, text: &[u8], before: &[Parsed; 3]) -> bool {
        let mut all_kept = true;
        for before in before {
            let mut record = *before;
            all_kept = all_kept
                && (format.parse_into(text, &mut record).is_ok() || same_record(&record, before));
        }
        all_kept
    }

    // Whether the text passes the checks of `has_one_moment`, `has_equal_errors` and, with the records `known`,
    // `keeps_the_records`.
    fn is_right<F: Parsable>(format: &F, text: &[u8], known: &[Parsed; 3]) -> bool {
        has_one_moment(format, text)
            && has_equal_errors(format, text)
            && keeps_the_records(format, text, known)
    }

    // Whether the text passes the checks of `is_right` with each other byte at the index `place`. The text is restored.
    // `false` if it has no such index.
    fn is_right_with_each_byte<F: Parsable>(
        format: &F,
        text: &mut [u8],
        place: usize,
        known: &[Parsed; 3],
    ) -> bool {
        let Some(kept) = text.get(place).copied() else {
            return false;
        };
        let mut all_right = true;
        for difference in 1..=u8::MAX {
            if let Some(it) = text.get_mut(place) {
                *it = kept.wrapping_add(difference);
            }
            all_right = all_right && is_right(format, text, known);
        }
        if let Some(it) = text.get_mut(place) {
            *it = kept;
        }
        all_right
    }

    // Whether the text passes the checks of `is_right` as it is, with each other byte at each of these indices, and
    // truncated at each.
    pub(super) fn is_right_if_changed_at<F: Parsable>(
        alloc: Global,
        format: &F,
        text: &[u8],
        places: Range<usize>,
    ) -> Result<bool, AllocError> {
        let Some(known) = known_records() else {
            return Ok(false);
        };
        let mut changed = Vec::new(alloc);
        changed.extend_from_slice(text)?;
        let mut all_right = is_right(format, text, &known);
        for place in places {
            if let Some(front) = text.get(..place) {
                all_right = all_right
                    && is_right(format, front, &known)
                    && is_right_with_each_byte(format, &mut changed, place, &known);
            }
        }
        Ok(all_right)
    }

    // Whether the text passes the checks of `is_right` as it is, with each other byte at each index, and truncated at
    // each.
    fn is_right_if_changed<F: Parsable>(
        alloc: Global,
        format: &F,
        text: &[u8],
    ) -> Result<bool, AllocError> {
        is_right_if_changed_at(alloc, format, text, 0..text.len())
    }

    // Whether each of the texts passes the checks of `is_right_if_changed`.
    fn all_are_right_if_changed<F: Parsable>(alloc: Global, format: &F, texts: &[&[u8]]) -> bool {
        let mut all_right = true;
        for text in texts {
            all_right = all_right && is_right_if_changed(alloc, format, text) == Ok(true);
        }
        all_right
    }

    #[test]
    fn changed_bytes(rt: HostRuntime) {
        assert!(rt; all_are_right_if_changed(rt.alloc(), &Rfc3339, &STAMPS[..5]));
    }

    #[test]
    fn changed_bytes_of_more_stamps(rt: HostRuntime) {
        assert!(rt; all_are_right_if_changed(rt.alloc(), &Rfc3339, &STAMPS[5..]));
    }

    #[test]
    fn changed_bytes_of_mail_dates(rt: HostRuntime) {
        assert!(rt; all_are_right_if_changed(rt.alloc(), &Rfc2822, &MAIL_DATES[..2]));
    }

    #[test]
    fn changed_bytes_of_mail_dates_with_signs(rt: HostRuntime) {
        assert!(rt; all_are_right_if_changed(rt.alloc(), &Rfc2822, &MAIL_DATES[2..4]));
    }

    #[test]
    fn changed_bytes_of_mail_dates_with_blanks(rt: HostRuntime) {
        assert!(rt; all_are_right_if_changed(rt.alloc(), &Rfc2822, &MAIL_DATES[4..6]));
    }

    #[test]
    fn changed_bytes_of_short_mail_dates(rt: HostRuntime) {
        assert!(rt; all_are_right_if_changed(rt.alloc(), &Rfc2822, &MAIL_DATES[6..]));
    }
}

// Mail dates with the deepest comment that is allowed, and with a deeper one, with each byte replaced by each other. A
// test has some fifteen places, so that each ends in time on any machine.
mod deep_comments {
    use super::changed_bytes::is_right_if_changed_at;
    use time_parsing::Rfc2822;

    // A comment nested 31 deep, which is parsed.
    const LEVELS_31: &[u8] =
        b"02 ((((((((((((((((((((((((((((((())))))))))))))))))))))))))))))) Jan 2021 03:04 +0000";

    // A comment nested 32 deep, which is rejected.
    const LEVELS_32: &[u8] =
        b"02 (((((((((((((((((((((((((((((((()))))))))))))))))))))))))))))))) Jan 2021 03:04 +0000";

    #[test]
    fn levels_31_from_0(rt: HostRuntime) {
        assert!(rt; is_right_if_changed_at(rt.alloc(), &Rfc2822, LEVELS_31, 0..15) == Ok(true));
    }

    #[test]
    fn levels_31_from_15(rt: HostRuntime) {
        assert!(rt; is_right_if_changed_at(rt.alloc(), &Rfc2822, LEVELS_31, 15..30) == Ok(true));
    }

    #[test]
    fn levels_31_from_30(rt: HostRuntime) {
        assert!(rt; is_right_if_changed_at(rt.alloc(), &Rfc2822, LEVELS_31, 30..45) == Ok(true));
    }

    #[test]
    fn levels_31_from_45(rt: HostRuntime) {
        assert!(rt; is_right_if_changed_at(rt.alloc(), &Rfc2822, LEVELS_31, 45..60) == Ok(true));
    }

    #[test]
    fn levels_31_from_60(rt: HostRuntime) {
        assert!(rt; is_right_if_changed_at(rt.alloc(), &Rfc2822, LEVELS_31, 60..75) == Ok(true));
    }

    #[test]
    fn levels_31_from_75(rt: HostRuntime) {
        assert!(rt; is_right_if_changed_at(rt.alloc(), &Rfc2822, LEVELS_31, 75..86) == Ok(true));
    }

    #[test]
    fn levels_32_from_0(rt: HostRuntime) {
        assert!(rt; is_right_if_changed_at(rt.alloc(), &Rfc2822, LEVELS_32, 0..15) == Ok(true));
    }

    #[test]
    fn levels_32_from_15(rt: HostRuntime) {
        assert!(rt; is_right_if_changed_at(rt.alloc(), &Rfc2822, LEVELS_32, 15..30) == Ok(true));
    }

    #[test]
    fn levels_32_from_30(rt: HostRuntime) {
        assert!(rt; is_right_if_changed_at(rt.alloc(), &Rfc2822, LEVELS_32, 30..45) == Ok(true));
    }

    #[test]
    fn levels_32_from_45(rt: HostRuntime) {
        assert!(rt; is_right_if_changed_at(rt.alloc(), &Rfc2822, LEVELS_32, 45..60) == Ok(true));
    }

    #[test]
    fn levels_32_from_60(rt: HostRuntime) {
        assert!(rt; is_right_if_changed_at(rt.alloc(), &Rfc2822, LEVELS_32, 60..75) == Ok(true));
    }

    #[test]
    fn levels_32_from_75(rt: HostRuntime) {
        assert!(rt; is_right_if_changed_at(rt.alloc(), &Rfc2822, LEVELS_32, 75..88) == Ok(true));
    }
}
