//! Prints values by `Display`.
ghost use Rattle.std.specs.Prelude.{◌≡◌, ◌+◌, ◌<◌, ◌≤◌, ◌∷◌, ◌++◌, length, Some};
ghost use Rattle.std.specs.Fmt.{signed_decimal};
ghost use Rattle.time_values.specs.Moments.{nanoseconds};
ghost use Rattle.time_values.specs.DisplayTexts as DisplayTexts;

use crate::digits::{append_fraction, count_significant, five, four, pair, six};
use crate::text::Text;
use crate::{Date, OffsetDateTime, PlainDateTime, Time, Timestamp, UtcDateTime, UtcOffset};
use std::{fmt, str};

// Appends `-` for a year below 0, `+` for a year above 9999, and nothing for another year.
fn append_year_sign(text: &mut Text, year: i32)
    requires { length text.old.items ≤ 0 }
    ensures text { text.new.items ≡ text.old.items ++ DisplayTexts.year_sign_display year }
    ensures room { length text.new.items ≤ 1 }
{
    if year < 0 {
        text.append(b"-");
        return;
    }
    if year > 9999 {
        text.append(b"+");
    }
}

// Appends the digits of `n`, a year without its sign, with leading zeros up to four digits.
fn append_magnitude(text: &mut Text, n: u32)
    requires n { n < 1_000_000 }
    requires room { length text.old.items ≤ 1 }
    ensures text { text.new.items ≡ text.old.items ++ DisplayTexts.magnitude_display n }
    ensures room { length text.new.items ≤ 7 }
{
    if n < 10_000 {
        text.append(&four(n));
        return;
    }
    if n < 100_000 {
        text.append(&five(n));
    } else {
        text.append(&six(n));
    }
}

// The two ASCII digits of each number, each pair after the byte `mark`.
fn marked_pairs(mark: u8, first: u8, second: u8) -> [u8; 6]
    requires first { first < 100 }
    requires second { second < 100 }
    ensures { result ≡ (mark ∷ DisplayTexts.fixed 2 first) ++ (mark ∷ DisplayTexts.fixed 2 second) }
{
    let [a1, a2] = pair(first);
    let [b1, b2] = pair(second);
    [mark, a1, a2, mark, b1, b2]
}

/// Prints `YYYY-MM-DD`. A year outside 0 to 9999 has a sign, and four to six digits.
impl fmt::Display for Date {
    ghost output = { λ d. Some (DisplayTexts.date_display d) };

    fn fmt<W: fmt::Write>(&self, f: &mut fmt::Formatter<W>) -> fmt::Result {
        let mut text = Text::new();
        append_year_sign(&mut text, self.year());
        append_magnitude(&mut text, self.year().unsigned_abs());
        text.append(&marked_pairs(b'-', self.month().number(), self.day()));
        f.write_str(str::from_utf8(text.as_bytes()).map_err(|_| fmt::Error)?)
    }
}

// Appends the hour without a leading zero.
fn append_hour(text: &mut Text, hour: u8)
    requires hour { hour < 24 }
    requires room { length text.old.items ≤ 0 }
    ensures text { text.new.items ≡ text.old.items ++ DisplayTexts.hour_display hour }
    ensures room { length text.new.items ≤ 2 }
{
    if hour < 10 {
        text.append(&[b'0' + hour]);
    } else {
        text.append(&pair(hour));
    }
}

/// Prints `H:MM:SS.n`. The hour has no leading zero. The fraction has no zeros at its end, but a fraction of 0 is `.0`.
impl fmt::Display for Time {
    ghost output = { λ t. Some (DisplayTexts.time_display t) };

    fn fmt<W: fmt::Write>(&self, f: &mut fmt::Formatter<W>) -> fmt::Result {
        let mut text = Text::new();
        append_hour(&mut text, self.hour());
        text.append(&marked_pairs(b':', self.minute(), self.second()));
        let digits = count_significant(self.nanosecond()).max(1);
        append_fraction(&mut text, digits, self.nanosecond());
        f.write_str(str::from_utf8(text.as_bytes()).map_err(|_| fmt::Error)?)
    }
}

// `-` if a part is below 0, and else `+`.
fn sign_of(offset: UtcOffset) -> u8
    ensures { result ≡ DisplayTexts.offset_sign_display offset }
{
    let (hours, minutes, seconds) = offset.as_hms();
    if hours < 0 || minutes < 0 || seconds < 0 {
        b'-'
    } else {
        b'+'
    }
}

// `+HH:MM:SS`, with `-` if a part is below 0.
#[tactic(auto, using(crate::proofs::NumberLemmas::two))]
fn offset_bytes(offset: UtcOffset) -> [u8; 9]
    ensures { result ≡ DisplayTexts.offset_display offset }
{
    let (hours, minutes, seconds) = offset.as_hms();
    let [h1, h2] = pair(hours.unsigned_abs());
    let [m1, m2] = pair(minutes.unsigned_abs());
    let [s1, s2] = pair(seconds.unsigned_abs());
    [sign_of(offset), h1, h2, b':', m1, m2, b':', s1, s2]
}

/// Prints `+HH:MM:SS`, with `-` if a part is below 0.
impl fmt::Display for UtcOffset {
    ghost output = { λ o. Some (DisplayTexts.offset_display o) };

    fn fmt<W: fmt::Write>(&self, f: &mut fmt::Formatter<W>) -> fmt::Result {
        let bytes = offset_bytes(*self);
        f.write_str(str::from_utf8(&bytes).map_err(|_| fmt::Error)?)
    }
}

/// Prints the date, a space, and the time.
impl fmt::Display for PlainDateTime {
    ghost output = { λ p. Some (DisplayTexts.plain_display p) };

    fn fmt<W: fmt::Write>(&self, f: &mut fmt::Formatter<W>) -> fmt::Result {
        let (date, time) = (self.date(), self.time());
        write!(f, "{date} {time}")
    }
}

/// Prints the date, a space, the time, and ` +00`.
impl fmt::Display for UtcDateTime {
    ghost output = { λ u. Some (DisplayTexts.utc_display u) };

    fn fmt<W: fmt::Write>(&self, f: &mut fmt::Formatter<W>) -> fmt::Result {
        let (date, time) = (self.date(), self.time());
        write!(f, "{date} {time} +00")
    }
}

/// Prints the date, the time and the offset, with a space between them.
impl fmt::Display for OffsetDateTime {
    ghost output = { λ v. Some (DisplayTexts.moment_display v) };

    fn fmt<W: fmt::Write>(&self, f: &mut fmt::Formatter<W>) -> fmt::Result {
        let (date, time, offset) = (self.date(), self.time(), self.offset());
        write!(f, "{date} {time} {offset}")
    }
}

/// Prints the nanoseconds since 1970-01-01T00:00:00Z, as a decimal number.
impl fmt::Display for Timestamp {
    ghost output = { λ t. Some (signed_decimal (nanoseconds t)) };

    fn fmt<W: fmt::Write>(&self, f: &mut fmt::Formatter<W>) -> fmt::Result {
        let nanoseconds = self.nanoseconds();
        write!(f, "{nanoseconds}")
    }
}
