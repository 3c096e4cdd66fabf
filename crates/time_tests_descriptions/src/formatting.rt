//! Tests of the texts of moments by descriptions, of the errors, and the example of their page.
ghost use Rattle.std.specs.Prelude.{◌≡◌, Ok, IfSome, IfNone, IsErr};
ghost use Rattle.time_components.specs.Tree.{steps_shape};
ghost use Rattle.time_formatting.specs.Texts.{text_of};
ghost use Rattle.time_values.specs.Calendar.{greatest_year};

use arrayvec::ArrayVec;
use std::test::Fail;
use time_components::{Component, Step, modifier};
use time_formatting::format;
use time_values::{Date, OffsetDateTime, Time, UtcOffset};

/// The text of a moment by a description, if it has one.
pub fn text_by(value: OffsetDateTime, steps: &[Step]) -> Option<ArrayVec<u8, 35>>
    ensures some { IfSome result (λ text. text_of 35 greatest_year value (steps_shape steps.now) ≡ Ok text.items) }
    ensures none { IfNone result (IsErr (text_of 35 greatest_year value (steps_shape steps.now))) }
{
    match format(value, steps) {
        Ok(text) => Some(text),
        Err(_) => None,
    }
}

#[test]
fn day_and_hour(rt: HostRuntime) -> Result<(), Fail> {
    let day = Step::Component(Component::Day(modifier::Day::default()));
    let hour = Step::Component(Component::Hour24(modifier::Hour24::default()));
    let date = Date::from_ordinal_date(2021, 2)?;
    let time = Time::from_hms_nano(3, 4, 5, 0)?;
    let value = OffsetDateTime::new_in_offset(date, time, UtcOffset::UTC);
    let Some(text) = text_by(value, &[day, Step::Literal(b' '), hour]) else {
        return Err("no text".into());
    };
    assert!(rt; text.as_slice() == b"02 03".as_slice());
    Ok(())
}

// Moments by descriptions, as text or as an error.
mod moments {
    use arrayvec::ArrayVec;
    use time_components::Step;
    use time_descriptions::parse_borrowed;
    use time_formatting::{Unformattable, format};
    use time_values::error::ComponentRange;
    use time_values::{Date, OffsetDateTime, Time, UtcOffset};

    /// The moment of a day of a year, the parts of a time, and the parts of an offset.
    pub fn moment(
        day: (i32, u16),
        clock: (u8, u8, u8, u32),
        offset: (i8, i8, i8),
    ) -> Result<OffsetDateTime, ComponentRange> {
        let date = Date::from_ordinal_date(day.0, day.1)?;
        let time = Time::from_hms_nano(clock.0, clock.1, clock.2, clock.3)?;
        let offset = UtcOffset::from_hms(offset.0, offset.1, offset.2)?;
        Ok(OffsetDateTime::new_in_offset(date, time, offset))
    }

    /// Whether the text was written, or rejected for that reason.
    pub fn is_answer(
        answer: Result<ArrayVec<u8, 35>, Unformattable>,
        expected: Result<&[u8], Unformattable>,
    ) -> bool {
        match (answer, expected) {
            (Ok(text), Ok(bytes)) => text.as_slice() == bytes,
            (Err(why), Err(reason)) => why == reason,
            _ => false,
        }
    }

    /// Whether the moment has that text by a description as text.
    pub fn is_text(value: OffsetDateTime, description: &[u8], expected: &[u8]) -> bool {
        match parse_borrowed::<2, 64>(description) {
            Ok(steps) => is_answer(format(value, steps.steps()), Ok(expected)),
            Err(_) => false,
        }
    }

    /// Whether the moment is rejected for that reason by a description as text.
    pub fn is_refused(value: OffsetDateTime, description: &[u8], why: Unformattable) -> bool {
        match parse_borrowed::<2, 64>(description) {
            Ok(steps) => is_answer(format(value, steps.steps()), Err(why)),
            Err(_) => false,
        }
    }

    /// Whether the moment has that text by a row of steps.
    pub fn is_row(value: OffsetDateTime, steps: &[Step], expected: &[u8]) -> bool {
        is_answer(format(value, steps), Ok(expected))
    }

    // Texts of single components, and of dates and times.
    mod texts {
        use super::{is_text, moment};
        use std::test::Fail;

        // 2019-12-31, a Tuesday in the first ISO week of 2020. These are texts of the tests of the crate `time`.
        static DATE: [(&[u8], &[u8]); 24] = [
            (b"[day]", b"31"),
            (b"[month]", b"12"),
            (b"[month repr:short]", b"Dec"),
            (b"[month repr:long]", b"December"),
            (b"[ordinal]", b"365"),
            (b"[weekday]", b"Tuesday"),
            (b"[weekday repr:short]", b"Tue"),
            (b"[weekday repr:sunday]", b"3"),
            (b"[weekday repr:sunday one_indexed:false]", b"2"),
            (b"[weekday repr:monday]", b"2"),
            (b"[weekday repr:monday one_indexed:false]", b"1"),
            (b"[week_number]", b"01"),
            (b"[week_number padding:none]", b"1"),
            (b"[week_number padding:space]", b" 1"),
            (b"[week_number repr:sunday]", b"52"),
            (b"[week_number repr:monday]", b"52"),
            (b"[year]", b"2019"),
            (b"[year base:iso_week]", b"2020"),
            (b"[year sign:mandatory]", b"+2019"),
            (b"[year base:iso_week sign:mandatory]", b"+2020"),
            (b"[year repr:century]", b"20"),
            (b"[year repr:last_two]", b"19"),
            (b"[year base:iso_week repr:last_two]", b"20"),
            (b"[year base:iso_week repr:century range:standard]", b"20"),
        ];

        #[test]
        fn dates(rt: HostRuntime) -> Result<(), Fail> {
            let value = moment((2019, 365), (0, 0, 0, 0), (0, 0, 0))?;
            for (description, text) in &DATE {
                assert!(rt;
                    is_text(value, description, text),
                    "{}",
                    description.escape_ascii()
                );
            }
            Ok(())
        }

        // 13:02:03.456789012, as in the tests of the crate `time`.
        static TIME: [(&[u8], &[u8]); 19] = [
            (b"[hour]", b"13"),
            (b"[hour repr:12]", b"01"),
            (b"[hour repr:12 padding:none]", b"1"),
            (b"[hour repr:12 padding:space]", b" 1"),
            (b"[minute]", b"02"),
            (b"[minute padding:none]", b"2"),
            (b"[minute padding:space]", b" 2"),
            (b"[second]", b"03"),
            (b"[second padding:none]", b"3"),
            (b"[second padding:space]", b" 3"),
            (b"[period]", b"PM"),
            (b"[period case:lower]", b"pm"),
            (b"[subsecond]", b"456789012"),
            (b"[subsecond digits:1]", b"4"),
            (b"[subsecond digits:3]", b"456"),
            (b"[subsecond digits:6]", b"456789"),
            (b"[subsecond digits:9]", b"456789012"),
            (
                b"[hour]:[minute]:[second].[subsecond]",
                b"13:02:03.456789012",
            ),
            (b"[end]", b""),
        ];

        #[test]
        fn times(rt: HostRuntime) -> Result<(), Fail> {
            let value = moment((2021, 1), (13, 2, 3, 456_789_012), (0, 0, 0))?;
            for (description, text) in &TIME {
                assert!(rt;
                    is_text(value, description, text),
                    "{}",
                    description.escape_ascii()
                );
            }
            Ok(())
        }

        // The moment in the documentation of `OffsetDateTime::format`, and offsets of less than an hour.
        static OFFSET: [(&[u8], &[u8]); 4] = [
            (
                b"[year]-[month]-[day] [hour]:[minute]:[second]",
                b"2020-01-02 03:04:05",
            ),
            (
                b"[offset_hour sign:mandatory]:[offset_minute]:[offset_second]",
                b"+06:07:08",
            ),
            (b"[offset_hour]", b"06"),
            (b"[offset_hour padding:none]", b"6"),
        ];

        // Half an hour behind UTC.
        static BEHIND: [(&[u8], &[u8]); 4] = [
            (b"[offset_hour]:[offset_minute]", b"-00:30"),
            (b"[offset_hour padding:space]", b"- 0"),
            (b"[offset_hour padding:none sign:mandatory]", b"-0"),
            (b"[offset_second padding:none]", b"0"),
        ];

        #[test]
        fn offsets(rt: HostRuntime) -> Result<(), Fail> {
            let value = moment((2020, 2), (3, 4, 5, 0), (6, 7, 8))?;
            for (description, text) in &OFFSET {
                assert!(rt;
                    is_text(value, description, text),
                    "{}",
                    description.escape_ascii()
                );
            }
            let value = moment((2020, 2), (3, 4, 5, 0), (0, -30, 0))?;
            for (description, text) in &BEHIND {
                assert!(rt;
                    is_text(value, description, text),
                    "{}",
                    description.escape_ascii()
                );
            }
            Ok(())
        }

        // Midnight of 2021-01-03, the first Sunday of a year whose first Monday is the next day.
        static MIDNIGHT: [(&[u8], &[u8]); 12] = [
            (b"[hour repr:12]", b"12"),
            (b"[hour padding:none]", b"0"),
            (b"[period]", b"AM"),
            (b"[period case:lower case_sensitive:false]", b"am"),
            (b"[subsecond]", b"0"),
            (b"[subsecond digits:2]", b"00"),
            (b"[ordinal padding:space]", b"  3"),
            (b"[ordinal padding:none]", b"3"),
            (b"[week_number repr:sunday padding:none]", b"1"),
            (b"[week_number repr:monday padding:none]", b"0"),
            (b"[week_number]", b"53"),
            (b"[weekday repr:sunday one_indexed:false]", b"0"),
        ];

        #[test]
        fn midnight(rt: HostRuntime) -> Result<(), Fail> {
            let value = moment((2021, 3), (0, 0, 0, 0), (0, 0, 0))?;
            for (description, text) in &MIDNIGHT {
                assert!(rt;
                    is_text(value, description, text),
                    "{}",
                    description.escape_ascii()
                );
            }
            Ok(())
        }

        // The years -5, 9999 and 123456.
        static YEARS: [(i32, &[u8], &[u8]); 17] = [
            (-5, b"[year]", b"-0005"),
            (-5, b"[year padding:space]", b"-   5"),
            (-5, b"[year padding:none]", b"-5"),
            (-5, b"[year range:standard]", b"-0005"),
            (-5, b"[year repr:century]", b"-00"),
            (-5, b"[year repr:last_two]", b"05"),
            (9999, b"[year]", b"9999"),
            (9999, b"[year range:standard sign:mandatory]", b"+9999"),
            (9999, b"[year repr:century range:standard]", b"99"),
            (10_000, b"[year]", b"+10000"),
            (10_000, b"[year repr:century]", b"+100"),
            (123_456, b"[year]", b"+123456"),
            (123_456, b"[year repr:century]", b"+1234"),
            (123_456, b"[year repr:last_two padding:none]", b"56"),
            (-99_999, b"[year]", b"-99999"),
            (-99_999, b"[year repr:century]", b"-999"),
            (7, b"[year repr:century padding:space]", b" 0"),
        ];

        #[test]
        fn years(rt: HostRuntime) -> Result<(), Fail> {
            for (year, description, text) in &YEARS {
                let value = moment((*year, 100), (12, 0, 0, 0), (0, 0, 0))?;
                assert!(rt;
                    is_text(value, description, text),
                    "{}",
                    description.escape_ascii()
                );
            }
            Ok(())
        }

        // A second and a half before 1970, and the billionth second after it started.
        static BEFORE: [(&[u8], &[u8]); 4] = [
            (b"[unix_timestamp]", b"-2"),
            (b"[unix_timestamp precision:millisecond]", b"-1500"),
            (b"[unix_timestamp precision:microsecond]", b"-1500000"),
            (
                b"[unix_timestamp precision:nanosecond sign:mandatory]",
                b"-1500000000",
            ),
        ];

        static AFTER: [(&[u8], &[u8]); 4] = [
            (b"[unix_timestamp]", b"1000000000"),
            (b"[unix_timestamp sign:mandatory]", b"+1000000000"),
            (b"[unix_timestamp precision:millisecond]", b"1000000000000"),
            (
                b"[unix_timestamp precision:nanosecond]",
                b"1000000000000000000",
            ),
        ];

        #[test]
        fn timestamps(rt: HostRuntime) -> Result<(), Fail> {
            let value = moment((1969, 365), (23, 59, 58, 500_000_000), (0, 0, 0))?;
            for (description, text) in &BEFORE {
                assert!(rt;
                    is_text(value, description, text),
                    "{}",
                    description.escape_ascii()
                );
            }
            // 2001-09-09T01:46:40Z at +01:00.
            let value = moment((2001, 252), (2, 46, 40, 0), (1, 0, 0))?;
            for (description, text) in &AFTER {
                assert!(rt;
                    is_text(value, description, text),
                    "{}",
                    description.escape_ascii()
                );
            }
            Ok(())
        }

        // Noon of 1994-11-06 by descriptions with literals and groups.
        static GROUPS: [(&[u8], &[u8]); 7] = [
            (
                b"[weekday repr:short], [day] [month repr:short] [year]",
                b"Sun, 06 Nov 1994",
            ),
            (b"[year]/[month]/[day]T[hour]h", b"1994/11/06T12h"),
            (b"[day][optional [.[month]]]", b"06.11"),
            (b"[first [[day padding:none]] [[day]]]", b"6"),
            (b"[first [ab] [c]]d", b"abd"),
            (b"[first [] [c]]d", b"d"),
            (b"a[optional [b[first [[hour]][x]]c]]d", b"ab12cd"),
        ];

        #[test]
        fn groups(rt: HostRuntime) -> Result<(), Fail> {
            let value = moment((1994, 310), (12, 0, 0, 0), (0, 0, 0))?;
            for (description, text) in &GROUPS {
                assert!(rt;
                    is_text(value, description, text),
                    "{}",
                    description.escape_ascii()
                );
            }
            Ok(())
        }
    }

    // Rows of steps that no text describes.
    mod rows {
        use super::{is_row, moment};
        use std::test::Fail;
        use time_components::{Component, Group, Step, modifier};

        // A group that is longer than the remaining steps has those that remain, and a byte of `More` after no literal
        // is a literal.
        #[test]
        fn rows(rt: HostRuntime) -> Result<(), Fail> {
            let value = moment((2021, 100), (0, 0, 0, 0), (0, 0, 0))?;
            let day = Step::Component(Component::Day(modifier::Day::default()));
            assert!(rt; is_row(value, &[], b""));
            assert!(rt; is_row(value, &[Step::More(b'a'), Step::More(b'b'), day], b"ab10"));
            assert!(rt; is_row(value, &[Step::Group(Group::First, usize::MAX)], b""));
            assert!(rt; is_row(value, &[Step::Group(Group::First, 9), day, day], b"10"));
            assert!(rt; is_row(value, &[Step::Group(Group::Optional, 9), day, day], b"1010"));
            assert!(rt;
                is_row(
                    value,
                    &[
                        Step::Group(Group::First, 3),
                        Step::Group(Group::List, 9),
                        day,
                        Step::Literal(b'x'),
                        Step::Literal(b'y')
                    ],
                    b"10xy"
                )
            );
            assert!(rt;
                is_row(
                    value,
                    &[
                        Step::Group(Group::First, 3),
                        Step::Literal(b'x'),
                        Step::More(b'y'),
                        day,
                        Step::Literal(b'z')
                    ],
                    b"xyz"
                )
            );
            Ok(())
        }
    }

    // What has no text, and the texts of the reasons.
    mod refused {
        use super::{is_refused, is_text, moment};
        use std::test::Fail;
        use time_formatting::Unformattable;

        // Of the year 10000.
        static REFUSED: [(&[u8], Unformattable); 9] = [
            (b"[year range:standard]", Unformattable::Year),
            (b"[year repr:century range:standard]", Unformattable::Year),
            (b"[year base:iso_week range:standard]", Unformattable::Year),
            (b"[day][ignore count:2]", Unformattable::Ignore),
            (
                b"[ignore count:2][year range:standard]",
                Unformattable::Ignore,
            ),
            (
                b"[year range:standard][ignore count:2]",
                Unformattable::Year,
            ),
            (
                b"123456789012345678901234567890123456[ignore count:2]",
                Unformattable::TooLong,
            ),
            (
                b"[ignore count:2]123456789012345678901234567890123456",
                Unformattable::Ignore,
            ),
            (
                b"1234567890123456789012345678901234[day]",
                Unformattable::TooLong,
            ),
        ];

        #[test]
        fn refusals(rt: HostRuntime) -> Result<(), Fail> {
            let value = moment((10_000, 100), (0, 0, 0, 0), (0, 0, 0))?;
            for (description, why) in &REFUSED {
                assert!(rt;
                    is_refused(value, description, *why),
                    "{}",
                    description.escape_ascii()
                );
            }
            Ok(())
        }

        // A text has at most as many bytes as the caller allows: 35.
        #[test]
        fn lengths(rt: HostRuntime) -> Result<(), Fail> {
            let value = moment((2021, 100), (0, 0, 0, 0), (0, 0, 0))?;
            assert!(rt;
                is_text(
                    value,
                    b"123456789012345678901234567890123[day]",
                    b"12345678901234567890123456789012310"
                )
            );
            assert!(rt;
                is_text(
                    value,
                    b"12345678901234567890123456789012345",
                    b"12345678901234567890123456789012345"
                )
            );
            assert!(rt;
                is_refused(
                    value,
                    b"123456789012345678901234567890123456",
                    Unformattable::TooLong
                )
            );
            Ok(())
        }

        #[test]
        fn printed(rt: HostRuntime) -> Result<(), Fail> {
            let text = format!(in rt.alloc(); "{}", Unformattable::Year)?;
            assert_eq!(rt;
                text.as_str(),
                "The year component cannot be formatted into the requested format."
            );
            let text = format!(in rt.alloc(); "{}", Unformattable::Ignore)?;
            assert_eq!(rt;
                text.as_str(),
                "The ignore component cannot be formatted into the requested format."
            );
            let text = format!(in rt.alloc(); "{}", Unformattable::TooLong)?;
            assert_eq!(rt; text.as_str(), "The text is too long.");
            Ok(())
        }
    }
}
