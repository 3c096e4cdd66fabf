//! Items by their path here and by that of their own crate. Where such a path is missing or leads to another item, this
//! doesn't compile. Some items are left out: a module such as `modifier` is named by some of its items only.
use crate as here;

// Compiles only if the types of values that this crate exports are those of `time_values`.
fn values(
    its: (
        here::Date,
        here::Duration,
        here::Month,
        here::OffsetDateTime,
        here::PlainDateTime,
        here::Time,
        here::Timestamp,
        here::UtcDateTime,
        here::UtcOffset,
        here::Weekday,
    ),
) -> (
    time_values::Date,
    time_values::Duration,
    time_values::Month,
    time_values::OffsetDateTime,
    time_values::PlainDateTime,
    time_values::Time,
    time_values::Timestamp,
    time_values::UtcDateTime,
    time_values::UtcOffset,
    time_values::Weekday,
) {
    its
}

// Compiles only if the types of errors of values and of parsing that this crate exports are those of `time_values`.
fn errors(
    its: (
        here::error::ComponentRange,
        here::error::DifferentVariant,
        here::error::Error,
        here::error::Parse,
        here::error::ParseFromDescription,
        here::error::TryFromParsed,
    ),
) -> (
    time_values::error::ComponentRange,
    time_values::error::DifferentVariant,
    time_values::error::Error,
    time_values::error::Parse,
    time_values::error::ParseFromDescription,
    time_values::error::TryFromParsed,
) {
    its
}

// Compiles only if the types of errors of descriptions, of preparing and of formatting here are those of their crates.
fn refusals<'a>(
    its: (
        here::error::InvalidFormatDescription<'a>,
        here::describing::NoText,
        here::error::Unformattable,
        here::error::Unprepared,
        here::error::Unwritable,
    ),
) -> (
    time_descriptions::InvalidFormatDescription<'a>,
    time_descriptions::NoText,
    time_formatting::Unformattable,
    time_preparing::Unprepared,
    time_formatting::Unwritable,
) {
    its
}

// Compiles only if the type of the error of an owned description here is that of `time_descriptions`.
fn owned_error(its: here::error::OwnedError<'_>) -> time_descriptions::OwnedError<'_> {
    its
}

// Compiles only if these types of parts of descriptions here are those of `time_components`; of modifiers only `Day`.
fn parts<'a>(
    its: (
        here::format_description::BorrowedFormatItem<'a>,
        here::format_description::Component,
        here::format_description::Group,
        here::format_description::Period,
        here::format_description::Step,
        here::format_description::modifier::Day,
    ),
) -> (
    time_components::BorrowedFormatItem<'a>,
    time_components::Component,
    time_components::Group,
    time_components::Period,
    time_components::Step,
    time_components::modifier::Day,
) {
    its
}

// Compiles only if the type of a description's node is that of `time_components`. A function with a parameter of this
// type gets no proof, so the trait is implemented for it by its path here, and required by its other path.
trait IsNode {}

impl IsNode for here::format_description::Node<'_, u8> {}

fn is_node<T: IsNode>() {}

// Compiles only if the type of an owned description that this crate exports is that of `time_components`.
fn owned(its: here::format_description::OwnedFormatItem) -> time_components::OwnedFormatItem {
    its
}

// Compiles only if the type of a description of version 3 that this crate exports is that of `time_components`.
fn third_version(
    its: here::format_description::FormatDescriptionV3<'_>,
) -> time_components::FormatDescriptionV3<'_> {
    its
}

// Compiles only if the type of the items of a description of version 3 here is that of `time_components`.
fn third_items(
    its: here::format_description::FormatDescriptionV3Inner<'_>,
) -> time_components::FormatDescriptionV3Inner<'_> {
    its
}

// Compiles only if the type of a parsed description that this crate exports is that of `time_descriptions`.
fn description(its: here::format_description::Description<8>) -> time_descriptions::Description<8> {
    its
}

// Compiles only if the type of a description's text that this crate exports is that of `time_descriptions`.
fn description_text(
    its: here::describing::DescriptionText<8>,
) -> time_descriptions::DescriptionText<8> {
    its
}

// Compiles only if the types of formats that this crate exports are those of `time_parsing`.
fn formats(
    its: (
        here::format_description::well_known::Iso8601,
        here::format_description::well_known::Rfc2822,
        here::format_description::well_known::Rfc3339,
        here::format_description::well_known::Rfc3339Strict,
    ),
) -> (
    time_parsing::Iso8601,
    time_parsing::Rfc2822,
    time_parsing::Rfc3339,
    time_parsing::Rfc3339Strict,
) {
    its
}

// Compiles only if the types for texts of moments here are those of `time_formatting` and `time_values`.
fn writing(
    its: (here::formatting::FractionDigits, here::formatting::Text),
) -> (time_formatting::FractionDigits, time_values::text::Text) {
    its
}

// Compiles only if the types that parsers use, as this crate exports them, are those of their own crates.
fn parsing<'a>(
    its: (
        here::parsing::Items<'a, u8>,
        here::parsing::Padding,
        here::parsing::ParsedItem<'a, u8>,
        here::parsing::Sign,
        here::format_description::modifier::SubsecondDigits,
        here::format_description::modifier::TrailingInput,
    ),
) -> (
    time_parsing::Items<'a, u8>,
    time_digits::Padding,
    time_digits::ParsedItem<'a, u8>,
    time_digits::Sign,
    time_components::SubsecondDigits,
    time_components::TrailingInput,
) {
    its
}

// Compiles only if the type of the record of parsed components that this crate exports is that of `time_record`.
fn record(its: here::parsing::Parsed) -> time_record::Parsed {
    its
}

// Compiles only if the type of the counter of visited items that this crate exports is that of `time_record`.
fn tries(its: here::parsing::Tries) -> time_record::Tries {
    its
}

// Compiles only if the type of a prepared description that this crate exports is that of `time_preparing`.
fn prepared(its: here::preparing::Prepared<8>) -> time_preparing::Prepared<8> {
    its
}

// Compiles only if the types of the locations of errors that this crate exports are those of `time_locating`.
fn places<'a>(
    its: (here::locating::Expected<'a>, here::locating::Located<'a>),
) -> (time_locating::Expected<'a>, time_locating::Located<'a>) {
    its
}

// Compiles only if the type of a time zone that this crate exports is that of `time_zones`.
fn zone(its: here::zones::TimeZone<'_>) -> time_zones::TimeZone<'_> {
    its
}

// Compiles only if the types of suffixes, and of the error of a local time, here are those of `time_zones`.
fn suffixes<'a>(
    its: (
        here::zones::NotOne,
        here::zones::Suffixed<'a>,
        here::zones::ZoneTag<'a>,
        here::zones::ZoneText<'a>,
    ),
) -> (
    time_zones::NotOne,
    time_zones::Suffixed<'a>,
    time_zones::ZoneTag<'a>,
    time_zones::ZoneText<'a>,
) {
    its
}

// Traits: a type that implements one by its path here implements it by the path of its crate.
mod traits {
    use crate as here;

    fn format<T: time_parsing::Parsable>(_its: &T) {}

    fn format_here<T: here::parsing::Parsable>(its: &T) {
        format(its)
    }

    fn locating<T: time_locating::Locate>(_its: &T) {}

    fn locating_here<T: here::locating::Locate>(its: &T) {
        locating(its)
    }

    fn item<T: time_record::AnyFormatItem>(_its: &T) {}

    fn item_here<T: here::parsing::AnyFormatItem>(its: &T) {
        item(its)
    }

    fn inspected<T: time_components::Inspect>(_its: &T) {}

    fn inspected_here<T: here::format_description::Inspect>(its: &T) {
        inspected(its)
    }

    fn target<T: time_parsing::Target>(_its: &T) {}

    fn target_here<T: here::parsing::Target>(its: &T) {
        target(its)
    }

    fn integer<T: time_digits::Integer>(_its: &T) {}

    fn integer_here<T: here::parsing::Integer>(its: &T) {
        integer(its)
    }

    #[test]
    fn traits() {
        super::is_node::<time_components::Node<'_, u8>>();
        format_here(&here::format_description::well_known::Rfc3339);
        locating_here(&here::format_description::well_known::Rfc3339);
        item_here(&here::item!("-"));
        inspected_here(&here::item!(Day));
        target_here(&here::UtcOffset::UTC);
        integer_here(&0u8);
    }
}

// Functions. Each has a type of its own, so `are_one` compiles only if both paths lead to one function.
mod functions {
    use crate as here;

    fn are_one<F: Copy>(_here: F, _there: F) {}

    #[test]
    fn descriptions() {
        are_one(
            here::format_description::parse_borrowed::<2, 8>,
            time_descriptions::parse_borrowed::<2, 8>,
        );
        are_one(
            here::format_description::parse_strftime::<8>,
            time_descriptions::parse_strftime::<8>,
        );
        are_one(
            here::format_description::parse_owned::<2>,
            time_descriptions::parse_owned::<2>,
        );
        are_one(
            here::format_description::item_len,
            time_components::item_len,
        );
        are_one(
            here::format_description::steps_after,
            time_components::steps_after,
        );
    }

    #[test]
    fn texts() {
        are_one(
            here::formatting::format::<35>,
            time_formatting::format::<35>,
        );
        are_one(here::formatting::text_3339, time_formatting::text_3339);
        are_one(here::formatting::text_2822, time_formatting::text_2822);
        are_one(here::formatting::text_8601, time_formatting::text_8601);
        are_one(
            here::formatting::text_8601_basic,
            time_formatting::text_8601_basic,
        );
    }

    #[test]
    fn zones() {
        are_one(here::zones::assume_zone, time_zones::assume_zone);
        are_one(here::zones::check_suffix, time_zones::check_suffix);
        are_one(here::zones::checked_to_zone, time_zones::checked_to_zone);
        are_one(here::zones::has_zone_offset, time_zones::has_zone_offset);
        are_one(here::zones::offset_at, time_zones::offset_at);
        are_one(here::zones::read_suffix, time_zones::read_suffix);
        are_one(here::zones::write_suffix, time_zones::write_suffix);
    }

    #[test]
    fn parsers() {
        are_one(here::parsing::begin, time_parsing::begin);
        are_one(here::parsing::has_separator, time_parsing::has_separator);
        are_one(here::parsing::strict_text, time_parsing::strict_text);
        are_one(here::parsing::fault, time_record::fault);
        are_one(
            here::parsing::component::parse_day,
            time_components::component::parse_day,
        );
        are_one(
            here::parsing::combinator::two_digits,
            time_digits::combinator::two_digits,
        );
        are_one(
            here::parsing::combinator::exactly_n_digits::<9>,
            time_digits::combinator::exactly_n_digits::<9>,
        );
        are_one(
            here::parsing::combinator::rfc::rfc3339::read::<true>,
            time_readers::rfc3339::read::<true>,
        );
        are_one(
            here::parsing::combinator::rfc::rfc2822::read::<true>,
            time_readers::rfc2822::read::<true>,
        );
        are_one(
            here::parsing::combinator::rfc::iso8601::date,
            time_readers::iso8601::date,
        );
    }

    #[test]
    fn laws_of_values_and_descriptions() {
        are_one(
            here::laws::components::law_one_spelling,
            time_components::laws::law_one_spelling,
        );
        are_one(
            here::laws::descriptions::law_one_tree,
            time_descriptions::laws::law_one_tree,
        );
        are_one(
            here::laws::descriptions::law_one_outcome,
            time_descriptions::laws::law_one_outcome,
        );
        are_one(
            here::laws::digits::law_one_digit_run,
            time_digits::laws::law_one_digit_run,
        );
        are_one(
            here::laws::formatting::law_component_spelled,
            time_formatting::laws::law_component_spelled,
        );
    }

    #[test]
    fn laws_of_parsing() {
        are_one(
            here::laws::locating::law_misses,
            time_locating::laws::law_misses,
        );
        are_one(
            here::laws::parsing::law_read_back,
            time_parsing::laws::law_read_back,
        );
        are_one(
            here::laws::readers::law_one_form,
            time_readers::laws::law_one_form,
        );
        are_one(
            here::laws::records::law_one_reading,
            time_record::laws::law_one_reading,
        );
        are_one(
            here::laws::values::law_first_date,
            time_values::laws::law_first_date,
        );
        are_one(
            here::laws::formatting::law_injective_display,
            time_formatting::laws::law_injective_display,
        );
        are_one(
            here::laws::zones::law_one_answer,
            time_zones::law_one_answer,
        );
    }
}
