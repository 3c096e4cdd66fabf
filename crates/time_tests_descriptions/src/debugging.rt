//! The debug output of items.
use std::alloc::Global;
use std::fmt::Debug;
use time_components::{
    BorrowedFormatItem, Component, FormatDescriptionV3, FormatDescriptionV3Inner, Padding, modifier,
};

const DAY: Component = Component::Day(modifier::Day {
    padding: Padding::Zero,
});

// Whether this is the value's debug output.
fn prints<T: Debug>(alloc: Global, value: &T, expected: &str) -> bool {
    match format!(in alloc; "{value:?}") {
        Ok(text) => text.as_str() == expected,
        Err(_) => false,
    }
}

#[test]
fn borrowed_items_as_derived(rt: HostRuntime) {
    let parts = [
        BorrowedFormatItem::Literal(b"-"),
        BorrowedFormatItem::StringLiteral("T"),
        BorrowedFormatItem::Component(DAY),
    ];
    let list = BorrowedFormatItem::Compound(&parts);
    let item = BorrowedFormatItem::Optional(&list);
    let expected = "Optional(Compound([Literal([45]), StringLiteral(\"T\"), \
                  Component(Day(Day { padding: Zero }))]))";
    assert!(rt; prints(rt.alloc(), &item, expected));
}

// A text, followed by an optional day.
fn version_three(alloc: Global) -> Option<FormatDescriptionV3<'static>> {
    let item = Box::new(alloc, FormatDescriptionV3Inner::Component(DAY)).ok()?;
    let items = vec![in alloc;
        FormatDescriptionV3Inner::BorrowedLiteral("T"),
        FormatDescriptionV3Inner::OwnedOptional { format: true, item },
    ]
    .ok()?;
    let inner = FormatDescriptionV3Inner::OwnedCompound(items);
    Some(FormatDescriptionV3 { inner })
}

#[test]
fn version_three_as_derived(rt: HostRuntime) {
    let expected = "FormatDescriptionV3 { inner: OwnedCompound([BorrowedLiteral(\"T\"), \
                  OwnedOptional { format: true, item: Component(Day(Day { padding: Zero })) }]) }";
    let is_printed = match version_three(rt.alloc()) {
        Some(description) => prints(rt.alloc(), &description, expected),
        None => false,
    };
    assert!(rt; is_printed);
}
