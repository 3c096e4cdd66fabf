//! The walk over items: how many it visits, how often each is inspected, and the laws of lists.
use crate::inspected::Inspected;
use std::alloc::{AllocError, Global};
use std::cell::Cell;
use time_components::modifier::{Hour24, Minute};
use time_components::{BorrowedFormatItem, Component, OwnedFormatItem, Padding};
use time_record::{AnyFormatItem, Parsed, Tries};
use time_values::error::ParseFromDescription;

const HOUR: BorrowedFormatItem<'static> = BorrowedFormatItem::Component(Component::Hour24(
    Hour24 {
        padding: Padding::Zero,
    },
));

const COLON: BorrowedFormatItem<'static> = BorrowedFormatItem::StringLiteral(":");

const MINUTE: BorrowedFormatItem<'static> = BorrowedFormatItem::Component(Component::Minute(
    Minute {
        padding: Padding::Zero,
    },
));

// The unread rest, or the error.
type Read<'a> = Result<&'a [u8], ParseFromDescription>;

// The result, how many items were visited, and the hour and the minute of the record afterwards.
type Counted<'a> = (Read<'a>, u64, Option<u8>, Option<u8>);

// The items that parse a text.
enum Items {
    // An hour, a colon and a minute, or else an hour.
    Choice,
    // An optional minute.
    Option,
    Colon,
}

// Parses by the items over a record with the hour 7.
fn read<'a>(input: &'a [u8], items: &[BorrowedFormatItem<'_>]) -> Counted<'a> {
    let mut parsed = Parsed::new();
    let _ = parsed.set_hour_24(7);
    let mut tries = Tries::new();
    let answer = parsed.parse_items_counted(input, items, &mut tries);
    (answer, tries.count(), parsed.hour_24(), parsed.minute())
}

fn counted_parse<'a>(input: &'a [u8], items: &Items) -> Counted<'a> {
    match items {
        Items::Choice => {
            let whole = [HOUR, COLON, MINUTE];
            let choice = [BorrowedFormatItem::Compound(&whole), HOUR];
            read(input, &[BorrowedFormatItem::First(&choice)])
        }
        Items::Option => read(input, &[BorrowedFormatItem::Optional(&MINUTE)]),
        Items::Colon => read(input, &[COLON]),
    }
}

const NO_HOUR: ParseFromDescription = ParseFromDescription::InvalidComponent("hour");

const NO_COLON: ParseFromDescription = ParseFromDescription::InvalidLiteral;

static COUNTED: [(Items, &[u8], Counted<'static>); 5] = [
    (Items::Choice, b"12x", (Ok(b"x"), 5, Some(12), None)),
    (Items::Choice, b"1x", (Err(NO_HOUR), 4, Some(7), None)),
    (Items::Choice, b"12:34", (Ok(b""), 5, Some(12), Some(34))),
    (Items::Option, b"x", (Ok(b"x"), 2, Some(7), None)),
    (Items::Colon, b"x", (Err(NO_COLON), 1, Some(7), None)),
];

#[test]
fn counted(rt: HostRuntime) {
    for (items, input, answer) in &COUNTED {
        assert!(rt; counted_parse(input, items) == *answer, "{input:?}");
    }
}

// The count continues from call to call, and a call that doesn't count has an equal result.
#[test]
fn counted_on(rt: HostRuntime) {
    let mut parsed = Parsed::new();
    let mut tries = Tries::new();
    for visited in [1, 2] {
        let answer = COLON.parse_item_counted(&mut parsed, b"x", &mut tries);
        assert!(rt; answer == Err(ParseFromDescription::InvalidLiteral));
        assert!(rt; tries.count() == visited);
    }
    let option = [BorrowedFormatItem::Optional(&MINUTE)];
    assert!(rt; parsed.parse_items(b"x", &option) == Ok(b"x".as_slice()));
}

// An item that passes each parse on to a borrowed one, and counts the parses.
#[derive(Drop)]
struct Watched<'b> {
    item: BorrowedFormatItem<'b>,
    calls: &'b Cell<u32>,
}

impl AnyFormatItem for Watched<'_> {
    ghost use Rattle.time_components.specs.Tree.{borrowed_shape};

    ghost shape = { λ w. borrowed_shape w.item };

    fn parse_item_counted<'a>(
        &self,
        parsed: &mut Parsed,
        input: &'a [u8],
        tries: &mut Tries,
    ) -> Result<&'a [u8], ParseFromDescription> {
        self.calls.set(self.calls.get().saturating_add(1));
        self.item.parse_item_counted(parsed, input, tries)
    }
}

// A list of an hour, a colon and a minute, whose items count their parses.
fn clock_of(input: &[u8], calls: &[Cell<u32>; 3]) -> (bool, u64) {
    let [hour, colon, minute] = calls;
    let items = [
        Watched {
            item: HOUR,
            calls: hour,
        },
        Watched {
            item: COLON,
            calls: colon,
        },
        Watched {
            item: MINUTE,
            calls: minute,
        },
    ];
    let mut tries = Tries::new();
    let answer = Parsed::new().parse_items_counted(input, &items, &mut tries);
    (
        answer == Err(ParseFromDescription::InvalidLiteral),
        tries.count(),
    )
}

#[test]
fn begun_once(rt: HostRuntime) {
    let calls = [Cell::new(0), Cell::new(0), Cell::new(0)];
    assert!(rt; clock_of(b"12x", &calls) == (true, 2));
    let [hour, colon, minute] = &calls;
    assert!(rt; (hour.get(), colon.get(), minute.get()) == (1, 1, 0));
}

// Parses by a list of an hour, a colon and a minute inside a list. Returns how often the inner list and each of its
// items are inspected, and how many items are visited.
fn inspection_counts(input: &[u8]) -> ([u32; 4], u64) {
    let counts = [Cell::new(0), Cell::new(0), Cell::new(0), Cell::new(0)];
    let [list, hour, colon, minute] = &counts;
    let zero = Padding::Zero;
    let inside = [
        Inspected::Component(hour, Component::Hour24(Hour24 { padding: zero })),
        Inspected::Literal(colon, b":"),
        Inspected::Component(minute, Component::Minute(Minute { padding: zero })),
    ];
    let items = [Inspected::List(list, &inside)];
    let mut tries = Tries::new();
    let _ = Parsed::new().parse_items_counted(input, &items, &mut tries);
    let inspections = [list.get(), hour.get(), colon.get(), minute.get()];
    (inspections, tries.count())
}

// Texts, and how often the items of that list are inspected: once each, up to the one that fails.
static INSPECTED: [(&[u8], [u32; 4], u64); 4] = [
    (b"x", [1, 1, 0, 0], 2),
    (b"12x", [1, 1, 1, 0], 3),
    (b"12:x", [1, 1, 1, 1], 4),
    (b"12:34", [1, 1, 1, 1], 4),
];

#[test]
fn inspected_once(rt: HostRuntime) {
    for (input, counts, visited) in &INSPECTED {
        assert!(rt;
            inspection_counts(input) == (*counts, *visited),
            "{input:?}"
        );
    }
}

// The result of items over an empty record, and the hour and the minute afterwards.
fn parse_result<'a>(
    input: &'a [u8],
    items: &[BorrowedFormatItem<'_>],
) -> (Read<'a>, Option<u8>, Option<u8>) {
    let mut parsed = Parsed::new();
    let answer = parsed.parse_items(input, items);
    (answer, parsed.hour_24(), parsed.minute())
}

// Whether a concatenation of two lists parses as the first, and then as the second.
fn is_joined(input: &[u8]) -> bool {
    let mut parsed = Parsed::new();
    let joined = match parsed.parse_items(input, &[HOUR, COLON]) {
        Ok(rest) => parsed.parse_items(rest, &[MINUTE]),
        Err(fault) => Err(fault),
    };
    parse_result(input, &[HOUR, COLON, MINUTE]).0 == joined
}

// Whether a list inside a list parses as its items do.
fn is_flattened(input: &[u8]) -> bool {
    let inside = [COLON, MINUTE];
    parse_result(input, &[HOUR, BorrowedFormatItem::Compound(&inside)])
        == parse_result(input, &[HOUR, COLON, MINUTE])
}

// Whether items of equal shape have equal results, and what they leave is a suffix.
fn has_equal_results(input: &[u8]) -> bool {
    let bytes = [HOUR, BorrowedFormatItem::Literal(b":"), MINUTE];
    let answer = parse_result(input, &[HOUR, COLON, MINUTE]);
    let is_suffix = match answer.0 {
        Ok(rest) => input.ends_with(rest),
        Err(_) => true,
    };
    is_suffix && parse_result(input, &bytes) == answer
}

static CLOCKS: [&[u8]; 6] = [b"12:34", b"12:34x", b"12:x", b"12x", b"x", b""];

#[test]
fn laws(rt: HostRuntime) {
    for input in &CLOCKS {
        assert!(rt; is_joined(input), "{input:?}");
        assert!(rt; is_flattened(input), "{input:?}");
        assert!(rt; has_equal_results(input), "{input:?}");
    }
}

// The result of an item over an empty record, and how many items were visited.
fn counted_item<'a, I: AnyFormatItem>(
    item: &I,
    text: &'a [u8],
) -> (Result<&'a [u8], ParseFromDescription>, u64) {
    let mut tries = Tries::new();
    let answer = item.parse_item_counted(&mut Parsed::new(), text, &mut tries);
    (answer, tries.count())
}

#[test]
fn hostile_trees(rt: HostRuntime) {
    let literals = [BorrowedFormatItem::StringLiteral("a"); 1000];
    let refused = (Err(ParseFromDescription::InvalidLiteral), 1001);
    assert!(rt; counted_item(&BorrowedFormatItem::First(&literals), b"b") == refused);
}

// A minute in nested options.
fn nested(alloc: Global, levels: usize) -> Result<OwnedFormatItem, AllocError> {
    let padding = Padding::Zero;
    let mut item = OwnedFormatItem::Component(Component::Minute(Minute { padding }));
    for _ in 0..levels {
        item = OwnedFormatItem::Optional(Box::new(alloc, item)?);
    }
    Ok(item)
}

// Whether nested options leave an `x` unread, after this many visited items.
fn leaves_an_x(alloc: Global, levels: usize, tries: u64) -> Result<bool, AllocError> {
    let item = nested(alloc, levels)?;
    Ok(counted_item(&item, b"x") == (Ok(b"x".as_slice()), tries))
}

#[test]
fn hostile_trees_of_options(rt: HostRuntime) {
    assert!(rt; leaves_an_x(rt.alloc(), 200, 201) == Ok(true));
}
