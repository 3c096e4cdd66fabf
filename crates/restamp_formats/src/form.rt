//! How a moment is written.
ghost use Rattle.std.specs.Fmt.{signed_decimal};
ghost use Rattle.std.specs.Prelude.{◌≡◌, ◌≤◌};
ghost use Rattle.restamp_formats.specs.Common.{length, MatchOption, IfSome, Ok, greatest_year, IsInstant, nanoseconds, offset_instant, Named, Seconds, Milliseconds, Microseconds, Nanoseconds, Writing};
ghost use Rattle.restamp_formats.specs.Form as spec;
ghost use Rattle.restamp_formats.specs.Reason.{Stores};

use crate::brief::FromReason;
use crate::clock::Clock;
use crate::reading::MOST_STEPS;
use crate::reason::Reason;
use time_descriptions::Description;
use time_formatting::{FractionDigits, Text, Unwritable, format, text_2822, text_3339, text_8601};
use time_values::{OffsetDateTime, Timestamp};

// -999999-01-01T00:00:00Z, the first second that has a date in UTC, in seconds from 1970-01-01T00:00:00Z.
const FIRST_SECOND: i64 = -31_619_087_596_800;

// 999999-12-31T23:59:59Z, the last second that has a date in UTC, in seconds from 1970-01-01T00:00:00Z.
const LAST_SECOND: i64 = 31_494_784_780_799;

/// The unit of a count from 1970-01-01T00:00:00Z.
#[derive(Clone, Copy, Debug, PartialEq, Eq)]
pub enum Unit {
    /// Whole seconds, rounded down.
    Seconds,
    /// Whole milliseconds, rounded down.
    Milliseconds,
    /// Whole microseconds, rounded down.
    Microseconds,
    /// Nanoseconds.
    Nanoseconds,
}

/// An output format that has a name: RFC 3339, RFC 2822, ISO 8601, or a count from 1970-01-01T00:00:00Z.
#[derive(Clone, Copy, Debug, PartialEq, Eq)]
pub enum Named {
    /// RFC 3339, with the fraction that [`Form::digits`] selects.
    Rfc3339,
    /// A mail date, RFC 2822, without a fraction.
    Rfc2822,
    /// ISO 8601 in its extended form, always with nine digits of the fraction.
    Iso8601,
    /// The decimal number of whole units from 1970-01-01T00:00:00Z to the moment, rounded down: negative for an earlier
    /// moment.
    Count(Unit),
}

/// The format that a moment is written in: a format with a name, or a description.
#[derive(Drop)]
pub enum Writing {
    /// A format with a name.
    Named(Named),
    /// A description, with all optional items and the first item of each choice. A text of over 35 bytes is an error.
    Described(Description<MOST_STEPS>),
}

/// How a moment is written: the format, the digits of its fraction, and the offset or zone it is converted to.
#[derive(Clone, Copy)]
pub struct Form<'a> {
    /// The format.
    pub writing: &'a Writing,
    /// How many digits the fraction has if `writing` is RFC 3339. Other formats ignore it.
    pub digits: FractionDigits,
    /// The offset or zone that the moment is converted to before it is written.
    pub clock: Clock<'a>,
}

// Replaces `text` by the text in `written`; or returns the error in it as the reason `Unwritable`, as an `E`.
#[inline(always)]
fn store<E: FromReason>(written: Result<Text, Unwritable>, text: &mut Text) -> Result<(), E>
    ensures { Stores E.is_of (λ given. given ≡ spec.written written) result text.new }
{
    match written {
        Ok(found) => {
            *text = found;
            Ok(())
        }
        Err(why) => Err(E::from_reason(Reason::Unwritable(why))),
    }
}

// Replaces `text` by the count in decimal, with a `-` if it is negative; for `None` returns the reason `OutOfRange`, as
// an `E`.
#[inline(always)]
fn store_count<E: FromReason>(count: Option<i64>, text: &mut Text) -> Result<(), E>
    ensures { Stores E.is_of (λ given. given ≡ spec.counted count) result text.new }
{
    let Some(count) = count else {
        return Err(E::from_reason(Reason::OutOfRange));
    };
    let mut buffer = itoa::Buffer::new();
    text.clear();
    text.append(buffer.format(count).as_bytes());
    Ok(())
}

// Replaces `text` by the count in decimal, of at most 35 bytes, with a `-` if it is negative; for `None` returns the
// reason `OutOfRange`, as an `E`. Not inlined, so that seconds and milliseconds need no stack for it.
#[inline(never)]
fn store_wide_count<E: FromReason>(count: Option<i128>, text: &mut Text) -> Result<(), E>
    requires { IfSome count (λ z. length (signed_decimal z) ≤ 35) }
    ensures { Stores E.is_of (λ given. given ≡ spec.counted count) result text.new }
{
    let Some(count) = count else {
        return Err(E::from_reason(Reason::OutOfRange));
    };
    let mut buffer = itoa::Buffer::new();
    text.clear();
    text.append(buffer.format(count).as_bytes());
    Ok(())
}

// The whole seconds from 1970-01-01T00:00:00Z to the moment, rounded down; `None` if its year in UTC is outside -999999
// to 999999. They cost much less to compute than its nanoseconds.
#[inline(always)]
fn seconds_of(moment: OffsetDateTime) -> Option<i64>
    ensures { spec.IsCount Seconds moment result }
{
    let seconds = moment.unix_timestamp();
    if seconds < FIRST_SECOND {
        return None;
    }
    if LAST_SECOND < seconds {
        return None;
    }
    Some(seconds)
}

// The whole milliseconds from 1970-01-01T00:00:00Z to the moment, rounded down and computed in 64 bits; `None` if its
// year in UTC is outside -999999 to 999999.
#[inline(always)]
fn milliseconds_of(moment: OffsetDateTime) -> Option<i64>
    ensures { spec.IsCount Milliseconds moment result }
{
    let seconds = seconds_of(moment)?;
    Some(seconds * 1_000 + i64::from(moment.time().nanosecond() / 1_000_000))
}

// The moment as a `Timestamp`; `None` if its year in UTC is outside -999999 to 999999.
fn stamp_of(moment: OffsetDateTime) -> Option<Timestamp>
    ensures { MatchOption result (¬ IsInstant greatest_year (offset_instant greatest_year moment))
        (λ stamp. IsInstant greatest_year (offset_instant greatest_year moment)
        × (nanoseconds stamp ≡ offset_instant greatest_year moment)) }
{
    Some(Timestamp::from(moment.checked_to_utc()?))
}

// The whole microseconds from 1970-01-01T00:00:00Z to the moment, rounded down; `None` if its year in UTC is outside
// -999999 to 999999.
fn microseconds_of(moment: OffsetDateTime) -> Option<i128>
    ensures count { spec.IsCount Microseconds moment result }
    ensures short { IfSome result (λ z. length (signed_decimal z) ≤ 35) }
{
    Some(stamp_of(moment)?.as_microseconds())
}

// The nanoseconds from 1970-01-01T00:00:00Z to the moment; `None` if its year in UTC is outside -999999 to 999999.
fn nanoseconds_of(moment: OffsetDateTime) -> Option<i128>
    ensures count { spec.IsCount Nanoseconds moment result }
    ensures short { IfSome result (λ z. length (signed_decimal z) ≤ 35) }
{
    Some(stamp_of(moment)?.nanoseconds())
}

// Replaces `text` by the decimal number of whole units from 1970-01-01T00:00:00Z to the moment, rounded down; or
// returns the reason `OutOfRange`, as an `E`, if its year in UTC is outside -999999 to 999999.
#[inline(always)]
fn write_count<E: FromReason>(moment: OffsetDateTime, unit: Unit, text: &mut Text) -> Result<(), E>
    ensures { Stores E.is_of (spec.IsCounted unit moment) result text.new }
{
    match unit {
        Unit::Seconds => store_count(seconds_of(moment), text),
        Unit::Milliseconds => store_count(milliseconds_of(moment), text),
        Unit::Microseconds => store_wide_count(microseconds_of(moment), text),
        Unit::Nanoseconds => store_wide_count(nanoseconds_of(moment), text),
    }
}

// Replaces `text` by the mail date of the moment, RFC 2822, or returns the reason `Unwritable`, as an `E`. `digits` has
// no effect. This and the next function aren't inlined, so that their texts need no stack when RFC 3339 is written.
#[inline(never)]
fn write_mail<E: FromReason>(
    moment: OffsetDateTime,
    digits: FractionDigits,
    text: &mut Text,
) -> Result<(), E>
    ensures { Stores E.is_of (spec.IsNamedText Named.Rfc2822 digits moment) result text.new }
{
    store(text_2822(moment), text)
}

// Replaces `text` by the moment in ISO 8601 with nine digits of the fraction, or returns the reason `Unwritable`, as an
// `E`. `digits` has no effect.
#[inline(never)]
fn write_8601<E: FromReason>(
    moment: OffsetDateTime,
    digits: FractionDigits,
    text: &mut Text,
) -> Result<(), E>
    ensures { Stores E.is_of (spec.IsNamedText Named.Iso8601 digits moment) result text.new }
{
    store(text_8601(moment), text)
}

// Replaces `text` by the text of the moment by a named format; or returns the reason why it has no text, as an `E`:
// `OutOfRange` for a count, otherwise `Unwritable`. Only RFC 3339 uses `digits`.
#[inline(always)]
fn write_named_text<E: FromReason>(
    moment: OffsetDateTime,
    named: Named,
    digits: FractionDigits,
    text: &mut Text,
) -> Result<(), E>
    ensures { Stores E.is_of (spec.IsNamedText named digits moment) result text.new }
{
    match named {
        Named::Rfc3339 => store(text_3339(moment, digits), text),
        Named::Rfc2822 => write_mail(moment, digits, text),
        Named::Iso8601 => write_8601(moment, digits, text),
        Named::Count(unit) => write_count(moment, unit, text),
    }
}

// Converts the moment to the clock, and replaces `text` by what a named format writes of it; or returns the reason why
// it can't be converted or has no text, as an `E`.
#[inline(always)]
fn write_named<E: FromReason>(
    moment: OffsetDateTime,
    named: Named,
    digits: FractionDigits,
    clock: &Clock<'_>,
    text: &mut Text,
) -> Result<(), E>
    ensures { Stores E.is_of (spec.IsWrittenOn (Writing.Named named) digits clock.now moment) result text.new }
{
    match clock.show(moment) {
        Some(shown) => write_named_text(shown, named, digits, text),
        None => Err(E::from_reason(clock.conversion_error())),
    }
}

// Converts the moment to the clock, and replaces `text` by what a description writes of it; or returns the reason why
// it can't be converted, or `Unformattable`, as an `E`. `digits` has no effect. Not inlined, so that other formats need
// no stack for it.
#[inline(never)]
fn write_described<E: FromReason>(
    moment: OffsetDateTime,
    description: &Description<MOST_STEPS>,
    digits: FractionDigits,
    clock: &Clock<'_>,
    text: &mut Text,
) -> Result<(), E>
    ensures { Stores E.is_of (spec.IsWrittenOn (Writing.Described description.now) digits clock.now moment) result
        text.new }
{
    let Some(shown) = clock.show(moment) else {
        return Err(E::from_reason(clock.conversion_error()));
    };
    match format::<35>(shown, description.steps()) {
        Ok(found) => {
            text.clear();
            text.append(found.as_slice());
            Ok(())
        }
        Err(why) => Err(E::from_reason(Reason::Unformattable(why))),
    }
}

/// Converts the moment to the form's offset or zone, and replaces `text` by its text. The error, as an `E`: if it can't
/// be converted, `OutOfRange` (offset) or `OutsideZoneRange` (zone); or else `OutOfRange` for a count if its year in
/// UTC is outside -999999 to 999999, [`Reason::Unformattable`] for a description, otherwise [`Reason::Unwritable`].
#[inline(always)]
pub fn write_to<E: FromReason>(
    moment: OffsetDateTime,
    form: &Form<'_>,
    text: &mut Text,
) -> Result<(), E>
    ensures { Stores E.is_of (spec.IsWritten form.now moment) result text.new }
{
    match form.writing {
        Writing::Named(named) => write_named(moment, *named, form.digits, &form.clock, text),
        Writing::Described(description) => {
            write_described(moment, description, form.digits, &form.clock, text)
        }
    }
}
