//! The variants of items, and parses by them into a record.
use super::{are_copied, are_printed};
use time_components::{
    BorrowedFormatItem, Component, FormatDescriptionV3, FormatDescriptionV3Inner, OwnedFormatItem,
    Padding, ParsedItem, Sign, modifier,
};
use time_record::{AnyFormatItem, Parsed, Tries};
use time_values::error::ParseFromDescription;

// The variants of an item that borrows its parts.
fn borrowed<'a>(
    bytes: &'a [u8],
    text: &'a str,
    component: Component,
    items: &'a [BorrowedFormatItem<'a>],
    item: &'a BorrowedFormatItem<'a>,
) -> [BorrowedFormatItem<'a>; 6] {
    [
        BorrowedFormatItem::Literal(bytes),
        BorrowedFormatItem::StringLiteral(text),
        BorrowedFormatItem::Component(component),
        BorrowedFormatItem::Compound(items),
        BorrowedFormatItem::Optional(item),
        BorrowedFormatItem::First(items),
    ]
}

// The variants of an item that owns its parts.
fn owned(
    bytes: Vec<u8>,
    text: String,
    component: Component,
    items: Vec<OwnedFormatItem>,
    item: Box<OwnedFormatItem>,
    choice: Vec<OwnedFormatItem>,
) -> [OwnedFormatItem; 6] {
    [
        OwnedFormatItem::Literal(bytes),
        OwnedFormatItem::StringLiteral(text),
        OwnedFormatItem::Component(component),
        OwnedFormatItem::Compound(items),
        OwnedFormatItem::Optional(item),
        OwnedFormatItem::First(choice),
    ]
}

// Whether the item parses the empty text.
fn reads_nothing<I: AnyFormatItem>(item: &I) -> bool {
    Parsed::new().parse_item(b"", item).is_ok()
}

#[test]
fn items(rt: HostRuntime) {
    are_printed::<OwnedFormatItem, FormatDescriptionV3, FormatDescriptionV3Inner>();
    assert!(rt; reads_nothing(&BorrowedFormatItem::Literal(b"")));
    assert!(rt; reads_nothing(&OwnedFormatItem::First(Vec::new(rt.alloc()))));
}

// The variants of version 3 that borrow their parts.
fn v3_borrowed<'a>(
    component: Component,
    text: &'a str,
    items: &'a [FormatDescriptionV3Inner<'a>],
    format: bool,
    item: &'a FormatDescriptionV3Inner<'a>,
) -> [FormatDescriptionV3Inner<'a>; 5] {
    [
        FormatDescriptionV3Inner::Component(component),
        FormatDescriptionV3Inner::BorrowedLiteral(text),
        FormatDescriptionV3Inner::BorrowedCompound(items),
        FormatDescriptionV3Inner::BorrowedOptional { format, item },
        FormatDescriptionV3Inner::BorrowedFirst(items),
    ]
}

// The variants of version 3 that own their parts.
fn v3_owned<'a>(
    text: String,
    items: Vec<FormatDescriptionV3Inner<'a>>,
    format: bool,
    item: Box<FormatDescriptionV3Inner<'a>>,
    choice: Vec<FormatDescriptionV3Inner<'a>>,
) -> [FormatDescriptionV3Inner<'a>; 4] {
    [
        FormatDescriptionV3Inner::OwnedLiteral(text),
        FormatDescriptionV3Inner::OwnedCompound(items),
        FormatDescriptionV3Inner::OwnedOptional { format, item },
        FormatDescriptionV3Inner::OwnedFirst(choice),
    ]
}

#[test]
fn version_3(rt: HostRuntime) {
    let inner = FormatDescriptionV3Inner::BorrowedLiteral("-");
    let description = FormatDescriptionV3 { inner };
    let inner: FormatDescriptionV3Inner<'_> = description.inner;
    assert!(rt; Parsed::new().parse_v3(b"-", &inner).is_ok());
}

const HOUR: Component = Component::OffsetHour(modifier::OffsetHour {
    padding: Padding::Zero,
    sign_is_mandatory: true,
});

const ITEM: BorrowedFormatItem<'static> = BorrowedFormatItem::Component(HOUR);

#[test]
fn copied_types(rt: HostRuntime) {
    are_copied::<Parsed, Tries, BorrowedFormatItem<'_>, Sign>();
    are_copied::<ParsedItem<'_, u8>, (), (), ()>();
    let tries: Tries = Tries::new();
    let count: u64 = tries.count();
    assert!(rt; count == 0);
}

// Whether a literal, a component and a description of version 3 parse the input.
fn answers(parsed: &mut Parsed, input: &[u8]) -> [bool; 3] {
    let literal: Result<&[u8], ParseFromDescription> = Parsed::parse_literal(input, b"-");
    let component: Result<&[u8], ParseFromDescription> = parsed.parse_component(input, HOUR);
    let v3: Result<&[u8], ParseFromDescription> = parsed.parse_v3(
        input,
        &FormatDescriptionV3Inner::Component(HOUR),
    );
    [literal.is_ok(), component.is_ok(), v3.is_ok()]
}

// Whether an item, the item's own method, and a list parse the input.
fn item_answers<I: AnyFormatItem>(
    parsed: &mut Parsed,
    input: &[u8],
    item: &I,
    items: &[I],
) -> [bool; 3] {
    let of_record: Result<&[u8], ParseFromDescription> = parsed.parse_item(input, item);
    let of_item: Result<&[u8], ParseFromDescription> = item.parse_item(parsed, input);
    let of_list: Result<&[u8], ParseFromDescription> = parsed.parse_items(input, items);
    [of_record.is_ok(), of_item.is_ok(), of_list.is_ok()]
}

#[test]
fn rests(rt: HostRuntime) {
    let mut parsed = Parsed::new();
    assert!(rt; answers(&mut parsed, b"-05") == [true; 3]);
    assert!(rt; item_answers(&mut parsed, b"-05", &ITEM, &[ITEM]) == [true; 3]);
}

// How many items are visited by a parse of an item, and by one of the item and a list.
fn counts<I: AnyFormatItem>(parsed: &mut Parsed, input: &[u8], item: &I, items: &[I]) -> [u64; 2] {
    let mut tries = Tries::new();
    let _: Result<&[u8], ParseFromDescription> = item.parse_item_counted(parsed, input, &mut tries);
    let once = tries.count();
    let _: Result<&[u8], ParseFromDescription> = parsed.parse_items_counted(
        input, items, &mut tries,
    );
    [once, tries.count()]
}

#[test]
fn tries(rt: HostRuntime) {
    let mut parsed = Parsed::new();
    assert!(rt; counts(&mut parsed, b"-05", &ITEM, &[ITEM]) == [1, 2]);
}

#[test]
fn flags(rt: HostRuntime) {
    let mut parsed = Parsed::new();
    let _ = parsed.parse_component(b"-00", HOUR);
    let _ = parsed.set_offset_minute_signed(30);
    assert!(rt; parsed.offset_minute_signed() == Some(-30));
    parsed.forget_offset_sign();
    parsed.allow_leap_second();
    assert!(rt; parsed.offset_minute_signed() == Some(30));
}
