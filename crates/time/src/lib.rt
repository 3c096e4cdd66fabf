//! Parses, formats and computes with dates and times. Many items have the path that they have in the Rust crate `time`.
//!
//! Each item but `item!` is defined in the crate that its `use` line names, and keeps the contract that it has there.
#![tactic(auto)]

pub use time_values::{
    Date, Duration, MAX_YEAR, Month, OffsetDateTime, PlainDateTime, Time, Timestamp, UtcDateTime,
    UtcOffset, Weekday,
};

/// An item of a description: a literal as `item!("-")`, a component with default modifiers as `item!(Day)`, or one with
/// some modifiers set as `item!(Hour24 { padding: Padding::None })`. An `Ignore`, which has no default modifiers, can't
/// be written so.
///
/// It is the macro of `time_components`, which a crate that names only this one can't call.
#[macro_export]
macro_rules! item {
    ($text:literal) => {
        $crate::format_description::BorrowedFormatItem::StringLiteral($text)
    };
    ($name:ident) => {
        $crate::format_description::BorrowedFormatItem::Component(
            $crate::format_description::Component::$name(
                $crate::format_description::modifier::$name::default(),
            ),
        )
    };
    ($name:ident { $($field:ident: $value:expr),+ }) => {
        $crate::format_description::BorrowedFormatItem::Component(
            $crate::format_description::Component::$name(
                $crate::format_description::modifier::$name {
                    $($field: $value,)+
                    ..$crate::format_description::modifier::$name::default()
                },
            ),
        )
    };
}

/// The traits whose methods parse texts, locate errors and inspect items.
pub mod prelude {
    pub use time_components::Inspect;
    pub use time_locating::Locate;
    pub use time_parsing::{Parsable, Target};
    pub use time_record::AnyFormatItem;
}

/// The types of errors, except those that `describing` and `zones` export.
pub mod error {
    pub use time_descriptions::{InvalidFormatDescription, OwnedError};
    pub use time_formatting::{Unformattable, Unwritable};
    pub use time_preparing::Unprepared;
    pub use time_values::error::{
        ComponentRange, DifferentVariant, Error, Parse, ParseFromDescription, TryFromParsed,
    };
}

/// Descriptions of how a date, a time or an offset is written, and the well-known formats.
pub mod format_description {
    pub use time_components::{
        BorrowedFormatItem, Component, FormatDescriptionV3, FormatDescriptionV3Inner, Group,
        Inspect, Node, OwnedFormatItem, Period, Step, item_len, steps_after,
    };
    pub use time_descriptions::{Description, parse_borrowed, parse_owned, parse_strftime};

    /// The modifiers of components.
    pub mod modifier {
        pub use time_components::modifier::{
            CalendarYearCenturyExtendedRange, CalendarYearCenturyStandardRange,
            CalendarYearFullExtendedRange, CalendarYearFullStandardRange, CalendarYearLastTwo, Day,
            End, Hour12, Hour24, Ignore, IsoYearCenturyExtendedRange, IsoYearCenturyStandardRange,
            IsoYearFullExtendedRange, IsoYearFullStandardRange, IsoYearLastTwo, Minute, MonthLong,
            MonthNumerical, MonthShort, OffsetHour, OffsetMinute, OffsetSecond, Ordinal, Period,
            Second, Subsecond, SubsecondDigits, TrailingInput, UnixTimestampMicrosecond,
            UnixTimestampMillisecond, UnixTimestampNanosecond, UnixTimestampSecond, WeekNumberIso,
            WeekNumberMonday, WeekNumberSunday, WeekdayLong, WeekdayMonday, WeekdayShort,
            WeekdaySunday,
        };
        pub use time_digits::Padding;
    }

    /// The formats of standards.
    pub mod well_known {
        pub use time_parsing::{Iso8601, Rfc2822, Rfc3339, Rfc3339Strict, iso8601};
    }
}

/// Texts of descriptions.
pub mod describing {
    pub use time_descriptions::{DescriptionText, NoText, description_of, is_described, text_of};
}

/// Texts of moments. None allocates: a text is an array and a length.
pub mod formatting {
    pub use time_formatting::{
        FractionDigits, format, text_2822, text_3339, text_8601, text_8601_basic,
    };
    pub use time_values::text::Text;
}

/// Traits and functions that parse texts, and `Parsed`, the record of the components that were parsed.
pub mod parsing {
    pub use time_components::component;
    pub use time_digits::{Integer, Padding, ParsedItem, Sign};
    pub use time_parsing::{
        Items, Parsable, Target, begin, has_separator, strict_text, value_before,
    };
    pub use time_record::{AnyFormatItem, Parsed, Tries, fault};

    /// Parsers of digits, signs and single bytes.
    pub mod combinator {
        pub use time_digits::combinator::{
            any_digit, ascii_char, ascii_char_ignore_case, exactly_n_digits,
            exactly_n_digits_padded, fraction, leading_digits, n_to_m_digits, n_to_m_digits_padded,
            nine_digits, one_or_two_digits, sign, two_digits,
        };

        /// Parsers of the parts of well-known formats.
        pub mod rfc {
            pub use time_readers::{block, direct, iso8601, rfc2822, rfc3339};
        }
    }
}

/// Descriptions that are prepared once for many texts.
pub mod preparing {
    pub use time_preparing::{Prepared, Unprepared, whole};
}

/// The byte index at which a rejected text fails, and what was expected there.
pub mod locating {
    pub use time_locating::{
        Expected, Locate, Located, has_day, has_full_date, has_hour, has_iso_day, locate_error,
        skips_minute, skips_second,
    };
}

/// Moments in named time zones, and the suffixes of times that name one.
pub mod zones {
    pub use time_zones::{
        NamedZone, NotOne, ReadFault, SuffixFault, Suffixed, TimeZone, ZoneFault, ZoneFiles,
        ZoneTag, ZoneText, Zones, assume_zone, check_suffix, checked_to_zone, find_zone,
        find_zone_in, find_zones, find_zones_in, has_zone_offset, offset_at, read_suffix,
        write_suffix,
    };
}

/// Digits, names, signs and texts of values.
pub mod util {
    pub use time_values::{digits, names, sign, text};
}

/// Functions whose contracts are laws, by the crate that proves them.
pub mod laws {
    pub use time_components::laws as components;
    pub use time_descriptions::laws as descriptions;
    pub use time_digits::laws as digits;
    pub use time_formatting::laws as formatting;
    pub use time_locating::laws as locating;
    pub use time_parsing::laws as parsing;
    pub use time_preparing::laws as preparing;
    pub use time_readers::laws as readers;
    pub use time_record::laws as records;
    pub use time_values::laws as values;

    /// The laws of `time_zones`.
    pub mod zones {
        pub use time_zones::{
            law_left_as_it_is, law_names_in_folder, law_one_answer, law_one_check, law_one_suffix,
            law_read_back, law_written_suffix,
        };
    }
}

#[cfg(test)]
mod surface;
