//! The conversions of a record to the seven types of value.
use crate::fields::{Field, record_of};
use std::convert::TryFrom;
use time_record::Parsed;
use time_values::error::{ComponentRange, TryFromParsed};
use time_values::{
    Date, Month, OffsetDateTime, PlainDateTime, Time, Timestamp, UtcDateTime, UtcOffset,
};

// The error of a component, whose range may depend on others.
macro_rules! out {
    ($name:expr, $conditional:expr) => {
        TryFromParsed::ComponentRange(ComponentRange {
            name: $name,
            conditional: $conditional,
        })
    };
}

const UNKNOWN: TryFromParsed = TryFromParsed::InsufficientInformation;

const NO_DAY: TryFromParsed = out!("day", true);

const NO_ORDINAL: TryFromParsed = out!("ordinal", true);

const NO_SECOND: TryFromParsed = out!("second", false);

const NO_LEAP_SECOND: TryFromParsed = out!("second", true);

// The fields of a record, and what it converts to.
type Row<T> = (&'static [(Field, i128)], Result<T, TryFromParsed>);

// A year, a month and a day.
type Day = (i32, Month, u8);

// The hour, the minute, the second and the nanosecond.
type Clock = (u8, u8, u8, u32);

static DATES: [Row<Day>; 15] = [
    (
        &[(Field::Year, 2020), (Field::Month, 2), (Field::Day, 29)],
        Ok((2020, Month::February, 29)),
    ),
    (
        &[(Field::Year, 2021), (Field::Month, 2), (Field::Day, 29)],
        Err(NO_DAY),
    ),
    (&[(Field::Year, 2021)], Err(UNKNOWN)),
    // A Sunday that ends a year, weeks from Sunday and from Monday, and days that no year has.
    (
        &[
            (Field::Year, 2023),
            (Field::SundayWeekNumber, 53),
            (Field::Weekday, 6),
        ],
        Ok((2023, Month::December, 31)),
    ),
    (
        &[
            (Field::Year, 2023),
            (Field::SundayWeekNumber, 53),
            (Field::Weekday, 0),
        ],
        Err(NO_ORDINAL),
    ),
    (
        &[
            (Field::Year, 2018),
            (Field::SundayWeekNumber, 1),
            (Field::Weekday, 0),
        ],
        Ok((2018, Month::January, 8)),
    ),
    (
        &[
            (Field::Year, 2018),
            (Field::MondayWeekNumber, 0),
            (Field::Weekday, 0),
        ],
        Err(NO_ORDINAL),
    ),
    (
        &[
            (Field::Year, 2018),
            (Field::MondayWeekNumber, 1),
            (Field::Weekday, 0),
        ],
        Ok((2018, Month::January, 1)),
    ),
    // ISO 8601 weeks, with a whole year, or with a century and two digits.
    (
        &[
            (Field::IsoYear, 2020),
            (Field::IsoWeekNumber, 53),
            (Field::Weekday, 5),
        ],
        Ok((2021, Month::January, 2)),
    ),
    (
        &[
            (Field::IsoYear, 2021),
            (Field::IsoWeekNumber, 53),
            (Field::Weekday, 0),
        ],
        Err(out!("week", true)),
    ),
    (
        &[
            (Field::IsoYearCentury, 20),
            (Field::IsoYearLastTwo, 20),
            (Field::IsoWeekNumber, 53),
            (Field::Weekday, 5),
        ],
        Ok((2021, Month::January, 2)),
    ),
    (
        &[
            (Field::IsoYearCentury, 20),
            (Field::IsoYearLastTwo, 21),
            (Field::IsoWeekNumber, 53),
            (Field::Weekday, 0),
        ],
        Err(out!("week", true)),
    ),
    (
        &[
            (Field::IsoYearCentury, 9999),
            (Field::IsoYearLastTwo, 99),
            (Field::IsoWeekNumber, 52),
            (Field::Weekday, 5),
        ],
        Err(out!("weekday", true)),
    ),
    // A 31 December, and the day of the year of another date.
    (
        &[
            (Field::Year, 2021),
            (Field::Month, 12),
            (Field::Day, 31),
            (Field::Ordinal, 1),
        ],
        Ok((2021, Month::January, 1)),
    ),
    (
        &[
            (Field::Year, 2021),
            (Field::Month, 12),
            (Field::Day, 31),
            (Field::Ordinal, 366),
        ],
        Err(NO_ORDINAL),
    ),
];

fn dated(parsed: Parsed) -> Result<Day, TryFromParsed> {
    let date = Date::try_from(parsed)?;
    Ok(date.to_calendar_date())
}

#[test]
fn conversions(rt: HostRuntime) {
    for (numbers, expected) in &DATES {
        assert!(rt;
            record_of(numbers).map(dated) == Some(*expected),
            "{expected:?}"
        );
    }
}

// The first day of a year that is given as a century, its sign and two digits.
fn dated_by_century(
    century: i16,
    is_negative: bool,
    last_two: i128,
) -> Option<Result<Day, TryFromParsed>> {
    let mut parsed = record_of(&[(Field::YearLastTwo, last_two), (Field::Ordinal, 1)])?;
    parsed.set_year_century(century, is_negative)?;
    Some(dated(parsed))
}

static CENTURIES: [(i16, bool, i128, i32); 4] = [
    (0, true, 5, -5),
    (0, false, 5, 5),
    (-9999, true, 99, -999_999),
    (9999, false, 99, 999_999),
];

#[test]
fn conversions_of_centuries(rt: HostRuntime) {
    for (century, is_negative, last_two, year) in &CENTURIES {
        let found = dated_by_century(*century, *is_negative, *last_two);
        assert!(rt; found == Some(Ok((*year, Month::January, 1))), "{year}");
    }
}

static TIMES: [Row<Clock>; 12] = [
    (
        &[(Field::Hour12, 12), (Field::Hour12IsPm, 0)],
        Ok((0, 0, 0, 0)),
    ),
    (
        &[(Field::Hour12, 12), (Field::Hour12IsPm, 1)],
        Ok((12, 0, 0, 0)),
    ),
    (
        &[(Field::Hour12, 3), (Field::Hour12IsPm, 0)],
        Ok((3, 0, 0, 0)),
    ),
    (
        &[(Field::Hour12, 11), (Field::Hour12IsPm, 1)],
        Ok((23, 0, 0, 0)),
    ),
    (&[(Field::Hour12, 3)], Err(UNKNOWN)),
    (&[(Field::Hour24, 5)], Ok((5, 0, 0, 0))),
    (&[(Field::Hour24, 5), (Field::Second, 10)], Err(UNKNOWN)),
    (
        &[(Field::Hour24, 5), (Field::Minute, 30)],
        Ok((5, 30, 0, 0)),
    ),
    (
        &[
            (Field::Hour24, 5),
            (Field::Minute, 30),
            (Field::Subsecond, 1),
        ],
        Err(UNKNOWN),
    ),
    (
        &[(Field::Hour24, 5), (Field::Minute, 30), (Field::Second, 10)],
        Ok((5, 30, 10, 0)),
    ),
    (
        &[
            (Field::Hour24, 5),
            (Field::Minute, 30),
            (Field::Second, 10),
            (Field::Subsecond, 7),
        ],
        Ok((5, 30, 10, 7)),
    ),
    (
        &[(Field::Hour24, 5), (Field::Minute, 30), (Field::Second, 60)],
        Err(NO_SECOND),
    ),
];

fn timed(parsed: Parsed) -> Result<Clock, TryFromParsed> {
    let time = Time::try_from(parsed)?;
    Ok(time.as_hms_nano())
}

#[test]
fn conversions_to_times(rt: HostRuntime) {
    for (numbers, expected) in &TIMES {
        assert!(rt;
            record_of(numbers).map(timed) == Some(*expected),
            "{expected:?}"
        );
    }
}

// The hours, minutes and seconds of an offset.
type Offset = (i8, i8, i8);

static OFFSETS: [Row<Offset>; 5] = [
    (
        &[(Field::OffsetHour, 5), (Field::OffsetMinuteSigned, -30)],
        Ok((5, 30, 0)),
    ),
    (
        &[(Field::OffsetHour, 5), (Field::OffsetSecondSigned, 10)],
        Ok((5, 0, 0)),
    ),
    (
        &[
            (Field::OffsetHour, -5),
            (Field::OffsetMinuteSigned, 30),
            (Field::OffsetSecondSigned, 10),
        ],
        Ok((-5, -30, -10)),
    ),
    (
        &[(Field::OffsetHour, 0), (Field::OffsetMinuteSigned, -30)],
        Ok((0, -30, 0)),
    ),
    (&[(Field::OffsetMinuteSigned, 30)], Err(UNKNOWN)),
];

fn offset_by(parsed: Parsed) -> Result<Offset, TryFromParsed> {
    let offset = UtcOffset::try_from(parsed)?;
    Ok(offset.as_hms())
}

#[test]
fn conversions_to_offsets(rt: HostRuntime) {
    for (numbers, expected) in &OFFSETS {
        assert!(rt;
            record_of(numbers).map(offset_by) == Some(*expected),
            "{expected:?}"
        );
    }
}

const STAMP: &[(Field, i128)] = &[(Field::UnixTimestampNanos, -1), (Field::Subsecond, 5)];

// The first midnight, at an offset in whole hours if one is given.
macro_rules! first_midnight {
    ($($offset:expr),*) => {
        &[
            (Field::Year, -999_999),
            (Field::Ordinal, 1),
            (Field::Hour24, 0),
            $((Field::OffsetHour, $offset)),*
        ]
    };
}

const EAST: &[(Field, i128)] = first_midnight!(1);

// A midnight that is on the last day of the year before in UTC.
const NEW_YEAR: &[(Field, i128)] = &[
    (Field::Year, -9999),
    (Field::Ordinal, 1),
    (Field::Hour24, 0),
    (Field::OffsetHour, 1),
];

static STAMPS: [Row<i128>; 4] = [
    (STAMP, Ok(-1)),
    (EAST, Err(UNKNOWN)),
    (first_midnight!(-1), Ok(-31_619_087_593_200_000_000_000)),
    (NEW_YEAR, Ok(-377_705_120_400_000_000_000)),
];

fn stamped(parsed: Parsed) -> Result<i128, TryFromParsed> {
    let stamp = Timestamp::try_from(parsed)?;
    Ok(stamp.nanoseconds())
}

#[test]
fn conversions_to_timestamps(rt: HostRuntime) {
    for (numbers, expected) in &STAMPS {
        assert!(rt;
            record_of(numbers).map(stamped) == Some(*expected),
            "{expected:?}"
        );
    }
}

// A day and a time of day.
type Moment = (Day, Clock);

fn plain(parsed: Parsed) -> Result<Moment, TryFromParsed> {
    let moment = PlainDateTime::try_from(parsed)?;
    Ok((
        moment.date().to_calendar_date(),
        moment.time().as_hms_nano(),
    ))
}

fn in_utc(parsed: Parsed) -> Result<Moment, TryFromParsed> {
    let moment = UtcDateTime::try_from(parsed)?;
    Ok((
        moment.date().to_calendar_date(),
        moment.time().as_hms_nano(),
    ))
}

fn at_offset(parsed: Parsed) -> Result<(Moment, Offset), TryFromParsed> {
    let moment = OffsetDateTime::try_from(parsed)?;
    let day = moment.date().to_calendar_date();
    Ok(((day, moment.time().as_hms_nano()), moment.offset().as_hms()))
}

const FIRST: Moment = ((-999_999, Month::January, 1), (0, 0, 0, 0));

const BEFORE_1970: Moment = ((1969, Month::December, 31), (23, 59, 59, 5));

// The last moment of 2016, which is also the value of the leap second after it.
const LAST: Moment = ((2016, Month::December, 31), (23, 59, 59, 999_999_999));

const UTC: Offset = (0, 0, 0);

// A second 60 in the hour before a midnight of 2016, at offset 0.
macro_rules! second_60 {
    ($day:expr, $minute:expr) => {
        &[
            (Field::Year, 2016),
            (Field::Month, 12),
            (Field::Day, $day),
            (Field::Hour24, 23),
            (Field::Minute, $minute),
            (Field::Second, 60),
            (Field::Subsecond, 5),
            (Field::OffsetHour, 0),
        ]
    };
}

// A record's moments: without an offset, in UTC and with an offset.
type Moments = (
    Result<Moment, TryFromParsed>,
    Result<Moment, TryFromParsed>,
    Result<(Moment, Offset), TryFromParsed>,
);

// The fields of a record, whether it allows leap seconds, and its moments.
static MOMENTS: [(&[(Field, i128)], bool, Moments); 8] = [
    (
        STAMP,
        false,
        (Err(UNKNOWN), Ok(BEFORE_1970), Ok((BEFORE_1970, UTC))),
    ),
    (
        EAST,
        false,
        (Ok(FIRST), Err(out!("year", true)), Ok((FIRST, (1, 0, 0)))),
    ),
    (
        first_midnight!(),
        false,
        (Ok(FIRST), Ok(FIRST), Err(UNKNOWN)),
    ),
    (
        NEW_YEAR,
        false,
        (
            Ok(((-9999, Month::January, 1), (0, 0, 0, 0))),
            Ok(((-10_000, Month::December, 31), (23, 0, 0, 0))),
            Ok((((-9999, Month::January, 1), (0, 0, 0, 0)), (1, 0, 0))),
        ),
    ),
    (
        second_60!(31, 59),
        true,
        (Err(NO_SECOND), Ok(LAST), Ok((LAST, UTC))),
    ),
    (
        second_60!(31, 59),
        false,
        (Err(NO_SECOND), Err(NO_SECOND), Err(NO_SECOND)),
    ),
    (
        second_60!(31, 58),
        true,
        (Err(NO_SECOND), Err(NO_LEAP_SECOND), Err(NO_LEAP_SECOND)),
    ),
    (
        second_60!(30, 59),
        true,
        (Err(NO_SECOND), Err(NO_LEAP_SECOND), Err(NO_LEAP_SECOND)),
    ),
];

fn moments(numbers: &[(Field, i128)], allows_leap_seconds: bool) -> Option<Moments> {
    let mut parsed = record_of(numbers)?;
    if allows_leap_seconds {
        parsed.allow_leap_second();
    }
    Some((plain(parsed), in_utc(parsed), at_offset(parsed)))
}

#[test]
fn conversions_to_moments(rt: HostRuntime) {
    for (numbers, allows_leap_seconds, expected) in &MOMENTS {
        assert!(rt;
            moments(numbers, *allows_leap_seconds) == Some(*expected),
            "{expected:?}"
        );
    }
}
