//! Writes values as text.
ghost use Rattle.std.specs.Prelude.{◌≡◌, ℕ, ◌<◌, List, ◌++◌, ◌∷◌, codes, OnOk};
ghost use Rattle.std.specs.Io.KnownBytes.{Appends};
ghost use Rattle.byte_streams.specs.Faults.{HasCause};
ghost use Rattle.programs_answers.specs.Output.{minus_if, is_negative, date_text, time_text, offset_text, date_time_text, plain_text, utc_text, offset_date_time_text, timestamp_text};
ghost use Rattle.programs_answers.specs.Pieces.{leading_digits, year_front};
ghost use Rattle.time_values.specs.Dates as Dates;
ghost use Rattle.time_values.specs.Moments.{offset_date};
ghost use Rattle.time_values.specs.DisplayTexts.{fixed};

use byte_streams::{Sink, Unwritten};
use time_values::digits::{four, nine, pair};
use time_values::{Date, OffsetDateTime, PlainDateTime, Time, Timestamp, UtcDateTime, UtcOffset};

// `YYYY-MM-DD`, of these numbers in decimal digits.
#[inline]
fn date_bytes(year: u32, month: u8, day: u8) -> [u8; 10]
    requires year_in { year < 10000 }
    requires month_in { month < 100 }
    requires day_in { day < 100 }
    ensures { result ≡ fixed 4 year ++ codes "-" ++ fixed 2 month ++ codes "-" ++ fixed 2 day }
{
    let [y1, y2, y3, y4] = four(year);
    let [m1, m2] = pair(month);
    let [d1, d2] = pair(day);
    [y1, y2, y3, y4, b'-', m1, m2, b'-', d1, d2]
}

// `HH:MM:SS.nnnnnnnnn`, of these numbers in decimal digits.
#[inline]
fn time_bytes(hour: u8, minute: u8, second: u8, nanosecond: u32) -> [u8; 18]
    requires hour_in { hour < 100 }
    requires minute_in { minute < 100 }
    requires second_in { second < 100 }
    requires nanosecond_in { nanosecond < 1_000_000_000 }
    ensures { result ≡ fixed 2 hour ++ codes ":" ++ fixed 2 minute ++ codes ":" ++ fixed 2 second
        ++ codes "." ++ fixed 9 nanosecond }
{
    let [h1, h2] = pair(hour);
    let [m1, m2] = pair(minute);
    let [s1, s2] = pair(second);
    let [n1, n2, n3, n4, n5, n6, n7, n8, n9] = nine(nanosecond);
    [
        h1, h2, b':', m1, m2, b':', s1, s2, b'.', n1, n2, n3, n4, n5, n6, n7, n8, n9,
    ]
}

// The given sign byte, and then `HH:MM:SS`.
#[inline]
fn offset_bytes(sign: u8, hours: u8, minutes: u8, seconds: u8) -> [u8; 9]
    requires hours_in { hours < 100 }
    requires minutes_in { minutes < 100 }
    requires seconds_in { seconds < 100 }
    ensures { result ≡ sign ∷ fixed 2 hours ++ codes ":" ++ fixed 2 minutes ++ codes ":" ++ fixed 2 seconds }
{
    let [h1, h2] = pair(hours);
    let [m1, m2] = pair(minutes);
    let [s1, s2] = pair(seconds);
    [sign, h1, h2, b':', m1, m2, b':', s1, s2]
}

// `YYYY-MM-DD`, with only the last four digits of the year, and without its sign.
#[inline(always)]
fn lay_date(date: Date) -> [u8; 10]
    ensures { year_front (Dates.year date) ++ result ≡ date_text date }
{
    date_bytes(
        date.year().unsigned_abs() % 10_000,
        date.month().number(),
        date.day(),
    )
}

// `HH:MM:SS.nnnnnnnnn`.
#[inline(always)]
fn lay_time(time: Time) -> [u8; 18]
    ensures { result ≡ time_text time }
{
    time_bytes(time.hour(), time.minute(), time.second(), time.nanosecond())
}

// `+HH:MM:SS`, or with `-` if the hours, minutes or seconds are negative.
#[inline(always)]
fn lay_offset(offset: UtcOffset) -> [u8; 9]
    ensures { result ≡ offset_text offset }
{
    let (hours, minutes, seconds) = offset.as_hms();
    let sign = if hours < 0 || minutes < 0 || seconds < 0 {
        b'-'
    } else {
        b'+'
    };
    offset_bytes(
        sign,
        hours.unsigned_abs(),
        minutes.unsigned_abs(),
        seconds.unsigned_abs(),
    )
}

// Date and time with a space between them, with only the last four digits of the year, and without its sign.
#[inline(always)]
fn lay_date_time(date: Date, time: Time) -> [u8; 29]
    ensures { year_front (Dates.year date) ++ result ≡ date_time_text date time }
{
    let mut text = [b' '; 29];
    text[..10].copy_from_slice(&lay_date(date));
    text[11..].copy_from_slice(&lay_time(time));
    text
}

// Local date, local time and offset with spaces between them, with only the last four digits of the year, and without
// its sign.
#[inline(always)]
fn lay_moment(moment: OffsetDateTime) -> [u8; 39]
    ensures { year_front (Dates.year (offset_date moment)) ++ result ≡ offset_date_time_text moment }
{
    let mut text = [b' '; 39];
    text[..29].copy_from_slice(&lay_date_time(moment.date(), moment.time()));
    text[30..].copy_from_slice(&lay_offset(moment.offset()));
    text
}

// Writes a minus if the date's year is negative, and else nothing.
fn write_sign<W: Sink>(date: Date, out: &mut W) -> Result<(), Unwritten>
    ensures bytes { OnOk result (Appends (W.contents out.old) (W.contents out.new) (minus_if (is_negative (Dates.year date)))) }
    ensures cause { HasCause result (W.faults out.old) (W.faults out.new) }
    ensures through { W.through out.new ≡ W.through out.old }
{
    if date.year() < 0 {
        out.write_all(b"-")
    } else {
        Ok(())
    }
}

// Writes the decimal digits of a year before its last four, or nothing if the year is below 10000.
fn write_leading_digits<W: Sink>(year: u32, out: &mut W) -> Result<(), Unwritten>
    ensures bytes { OnOk result (Appends (W.contents out.old) (W.contents out.new) (leading_digits year)) }
    ensures cause { HasCause result (W.faults out.old) (W.faults out.new) }
    ensures through { W.through out.new ≡ W.through out.old }
{
    if year < 10_000 {
        return Ok(());
    }
    let mut buffer = itoa::Buffer::new();
    out.write_all(buffer.format(year / 10_000).as_bytes())
}

// Writes what precedes the last four digits of a date's year: a minus if it is negative, and then any further digits.
#[inline(always)]
fn write_year_front<W: Sink>(date: Date, out: &mut W) -> Result<(), Unwritten>
    ensures bytes { OnOk result (Appends (W.contents out.old) (W.contents out.new) (year_front (Dates.year date))) }
    ensures cause { HasCause result (W.faults out.old) (W.faults out.new) }
    ensures through { W.through out.new ≡ W.through out.old }
{
    if date.year() >= 0 && date.year() < 10_000 {
        return Ok(());
    }
    write_sign(date, out)?;
    write_leading_digits(date.year().unsigned_abs(), out)
}

/// A value that is written as text, in one form for each type.
pub trait Layout {
    // The text that is written for a value.
    ghost text: { Self → List ℕ };

    /// Writes the value's text, without LF. `Err` if a write failed, after which a part may have been written.
    fn write_to<W: Sink>(self, out: &mut W) -> Result<(), Unwritten>
        ensures bytes { OnOk result (Appends (W.contents out.old) (W.contents out.new) (text self)) }
        ensures cause { HasCause result (W.faults out.old) (W.faults out.new) }
        ensures through { W.through out.new ≡ W.through out.old };
}

/// `YYYY-MM-DD`, after a minus if the year is negative, and with all digits of a year that has more than four.
impl Layout for Date {
    ghost text = { date_text };

    #[inline(always)]
    fn write_to<W: Sink>(self, out: &mut W) -> Result<(), Unwritten> {
        write_year_front(self, out)?;
        out.write_all(&lay_date(self))
    }
}

/// `HH:MM:SS.nnnnnnnnn`.
impl Layout for Time {
    ghost text = { time_text };

    #[inline(always)]
    fn write_to<W: Sink>(self, out: &mut W) -> Result<(), Unwritten> {
        out.write_all(&lay_time(self))
    }
}

/// `+HH:MM:SS`, or with `-` if the hours, minutes or seconds are negative.
impl Layout for UtcOffset {
    ghost text = { offset_text };

    #[inline(always)]
    fn write_to<W: Sink>(self, out: &mut W) -> Result<(), Unwritten> {
        out.write_all(&lay_offset(self))
    }
}

// Writes date and time with a space between them. The year has all its digits, at least four, after a minus if it is
// negative.
#[inline(always)]
fn write_date_time<W: Sink>(date: Date, time: Time, out: &mut W) -> Result<(), Unwritten>
    ensures bytes { OnOk result (Appends (W.contents out.old) (W.contents out.new) (date_time_text date time)) }
    ensures cause { HasCause result (W.faults out.old) (W.faults out.new) }
    ensures through { W.through out.new ≡ W.through out.old }
{
    write_year_front(date, out)?;
    out.write_all(&lay_date_time(date, time))
}

/// Date, space and time, as `2021-01-02 03:04:05.000000000`.
impl Layout for PlainDateTime {
    ghost text = { plain_text };

    #[inline(always)]
    fn write_to<W: Sink>(self, out: &mut W) -> Result<(), Unwritten> {
        write_date_time(self.date(), self.time(), out)
    }
}

/// Date, space, time and ` +00:00:00`, as `2021-01-02 03:04:05.000000000 +00:00:00`.
impl Layout for UtcDateTime {
    ghost text = { utc_text };

    #[inline(always)]
    fn write_to<W: Sink>(self, out: &mut W) -> Result<(), Unwritten> {
        write_date_time(self.date(), self.time(), out)?;
        out.write_all(b" +00:00:00")
    }
}

/// Local date, space, local time, space and offset, as `2021-01-02 03:04:05.000000000 -00:30:00`.
impl Layout for OffsetDateTime {
    ghost text = { offset_date_time_text };

    #[inline(always)]
    fn write_to<W: Sink>(self, out: &mut W) -> Result<(), Unwritten> {
        write_year_front(self.date(), out)?;
        out.write_all(&lay_moment(self))
    }
}

/// Nanoseconds since 1970-01-01T00:00:00Z in decimal digits, with a minus first if the instant is earlier.
impl Layout for Timestamp {
    ghost text = { timestamp_text };

    #[inline(always)]
    fn write_to<W: Sink>(self, out: &mut W) -> Result<(), Unwritten> {
        let mut buffer = itoa::Buffer::new();
        out.write_all(buffer.format(self.nanoseconds()).as_bytes())
    }
}
