//! Parses the values of options.
ghost use Rattle.std.specs.Prelude.{◌≡◌, map};
ghost use Rattle.time_components.specs.Tree.{borrowed_shape, sequence, trees};
ghost use Rattle.restamp_command.specs.Values as spec;

use restamp_formats::Fold;
use time_components::{BorrowedFormatItem, Padding, item};
use time_formatting::FractionDigits;
use time_parsing::Parsable;
use time_values::UtcOffset;

/// Parses a number from 0 to 18446744073709551615 in ASCII digits, which may start with zeros, after an optional `+`.
/// Returns `None` for any other text.
pub fn find_number(text: &str) -> Option<u64>
    ensures { spec.IsNumber text.now result }
{
    text.parse::<u64>().ok()
}

/// Parses a number from 1 to 18446744073709551615 in ASCII digits, which may start with zeros, after an optional `+`.
/// Returns `None` for any other text.
pub fn find_positive(text: &str) -> Option<usize>
    ensures { spec.IsPositive text.now result }
{
    text.parse::<usize>().ok().filter(|number| *number != 0)
}

/// A year from -999999 to 999999 in ASCII digits, maybe with leading zeros, after an optional `+` or `-`; else `None`.
pub fn find_year(text: &str) -> Option<i32>
    ensures { spec.IsYear text.now result }
{
    let year = text.parse::<i32>().ok();
    year.filter(|year| year.unsigned_abs() <= 999_999)
}

/// The byte that ends a field: TAB for a backslash and `t`, or the byte of a text of one byte. `None` for any other
/// text.
pub fn find_delimiter(text: &str) -> Option<u8>
    ensures { result ≡ spec.delimiter_of text.now }
{
    if text == "\\t" {
        return Some(b'\t');
    }
    match text.as_bytes() {
        [byte] => Some(*byte),
        _ => None,
    }
}

/// How many digits of a fraction are written: for `auto` those up to the last that isn't 0 (`Auto`), or exactly 0 to 9
/// for one ASCII digit. `None` for any other text.
pub fn find_digits(text: &str) -> Option<FractionDigits>
    ensures { result ≡ spec.digits_of text.now }
{
    if text == "auto" {
        return Some(FractionDigits::Auto);
    }
    match text.as_bytes() {
        [digit] if digit.is_ascii_digit() => Some(FractionDigits::Exactly(*digit - b'0')),
        _ => None,
    }
}

/// Whether to use colours: true for `always`, false for `never`, and `is_terminal` for `auto`. `None` for any other
/// text.
pub fn find_shows(text: &str, is_terminal: bool) -> Option<bool>
    ensures { result ≡ spec.shows_of text.now is_terminal }
{
    match text {
        "auto" => Some(is_terminal),
        "always" => Some(true),
        "never" => Some(false),
        _ => None,
    }
}

/// What an ambiguous local time means: an error for `refuse`, its earlier moment for `earlier`, or the later one for
/// `later`. `None` for any other text.
pub fn find_fold(text: &str) -> Option<Fold>
    ensures { result ≡ spec.fold_of text.now }
{
    match text {
        "refuse" => Some(Fold::Refuse),
        "earlier" => Some(Fold::Earlier),
        "later" => Some(Fold::Later),
        _ => None,
    }
}

// The items of the description of an offset such as `+05:30`.
fn offset_items() -> [BorrowedFormatItem<'static>; 3]
    ensures { map borrowed_shape result ≡ spec.offset_parts }
{
    [
        item!(OffsetHour {
            padding: Padding::Zero,
            sign_is_mandatory: true
        }),
        item!(":"),
        item!(OffsetMinute {
            padding: Padding::Zero
        }),
    ]
}

// The description that is these items in sequence.
fn compound<'a>(items: &'a [BorrowedFormatItem<'a>]) -> BorrowedFormatItem<'a>
    ensures { borrowed_shape result ≡ sequence (trees (map borrowed_shape items.now)) }
{
    BorrowedFormatItem::Compound(items)
}

/// Parses an offset from -25:59 to +25:59: a sign, two digits of hours, a colon and two digits of minutes, at most 59.
/// `None` for any other text.
pub fn find_offset(text: &str) -> Option<UtcOffset>
    ensures { spec.IsOffsetText text.now result }
{
    let items = offset_items();
    let description = compound(&items);
    description.parse_offset(text.as_bytes(), None).ok()
}
