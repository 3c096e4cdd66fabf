//! The caller that the page `CALLING.md` of records shows, and its contract.
ghost use Rattle.std.specs.Prelude.{[], Ok, IfOk};
ghost use Rattle.time_values.specs.Calendar.{greatest_year};
ghost use Rattle.time_components.specs.Tree.{borrowed_shape};
ghost use Rattle.time_record.specs.Reading.{Reads};
ghost use Rattle.time_record.specs.Record.{Record, empty};
ghost use Rattle.time_record.specs.Resolution.{IsDated};

use std::convert::TryFrom;
use time_components::{BorrowedFormatItem, Component, Padding, modifier};
use time_record::Parsed;
use time_values::error::{Parse, ParseFromDescription};
use time_values::{Date, Month};

// The date of a text that the description parses whole.
fn date_of(text: &[u8], description: &BorrowedFormatItem<'_>) -> Result<Date, Parse>
    ensures { IfOk result (λ date. (r : Record)
        × Reads greatest_year (borrowed_shape description.now) text.now empty [] r
        × IsDated greatest_year r (Ok date)) }
{
    let mut parsed = Parsed::new();
    let rest = parsed.parse_item(text, description)?;
    if !rest.is_empty() {
        return Err(ParseFromDescription::UnexpectedTrailingCharacters.into());
    }
    Ok(Date::try_from(parsed)?)
}

const YEAR: BorrowedFormatItem<'static> = BorrowedFormatItem::Component(
    Component::CalendarYearFullStandardRange(modifier::CalendarYearFullStandardRange {
        padding: Padding::Zero,
        sign_is_mandatory: false,
    }),
);

const MONTH: BorrowedFormatItem<'static> = BorrowedFormatItem::Component(
    Component::MonthNumerical(modifier::MonthNumerical {
        padding: Padding::Zero,
    }),
);

const DAY: BorrowedFormatItem<'static> = BorrowedFormatItem::Component(Component::Day(
    modifier::Day {
        padding: Padding::Zero,
    },
));

const HYPHEN: BorrowedFormatItem<'static> = BorrowedFormatItem::StringLiteral("-");

const MARCH: (i32, Month, u8) = (2021, Month::March, 4);

// The year, the month and the day of a text such as `2021-03-04`.
fn calendar_date(text: &[u8]) -> Option<(i32, Month, u8)> {
    let items = [YEAR, HYPHEN, MONTH, HYPHEN, DAY];
    let date = date_of(text, &BorrowedFormatItem::Compound(&items)).ok()?;
    Some(date.to_calendar_date())
}

#[test]
fn callers_of_records(rt: HostRuntime) {
    for (text, expected) in [
        (b"2021-03-04".as_slice(), Some(MARCH)),
        (b"2021-03-32", None),
        (b"2021-03-04x", None),
    ] {
        assert!(rt; calendar_date(text) == expected, "{text:?}");
    }
}
