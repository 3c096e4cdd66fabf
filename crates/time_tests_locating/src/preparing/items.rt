//! Items that were built by hand: their steps, and results that are equal to those of the items themselves.
use super::fused_steps::values_of;
use super::parts::{DAY, HOUR, MINUTE, MONTH, SECOND, SUBSECOND, YEAR};
use super::read;
use std::process::Abort;
use std::test::Fail;
use time_components::BorrowedFormatItem::{self, Component, Compound, First, Literal, Optional};
use time_components::{Group, Step, item};
use time_parsing::Parsable;
use time_preparing::{Prepared, Unprepared};
use time_record::Parsed;
use time_tests_records::same::same_record;

type Item = BorrowedFormatItem<'static>;

// A year, a month and a day, with a dash between each two.
const DATE: [Item; 5] = [
    Component(YEAR),
    item!("-"),
    Component(MONTH),
    item!("-"),
    Component(DAY),
];

// A day, a month and a year, with a dot between each two.
const DOTTED: [Item; 5] = [
    Component(DAY),
    item!("."),
    Component(MONTH),
    item!("."),
    Component(YEAR),
];

const PLUS: [Item; 1] = [item!("+")];

// A dot, and a fraction of one or more digits.
const FRACTION: [Item; 2] = [item!("."), Component(SUBSECOND)];

// Whether the items, as one compound item, and the prepared description parse the text equally: the values of the whole
// text, and the rest and record of a prefix, or the error.
fn has_equal_results<'a>(
    items: &'a [BorrowedFormatItem<'a>],
    prepared: &Prepared<64>,
    text: &[u8],
) -> bool {
    let format = Compound(items);
    let mut by_items = Parsed::new();
    let mut at_once = Parsed::new();
    let walked = format.parse_into(text, &mut by_items);
    let read = prepared.parse_into(text, &mut at_once);
    walked == read
        && same_record(&by_items, &at_once)
        && values_of(&format, text) == values_of(prepared, text)
}

// Whether the items are prepared as these steps, and both parse each text equally. `false` if preparing them for 64
// steps fails.
fn are_prepared<'a>(items: &'a [BorrowedFormatItem<'a>], steps: &[Step], texts: &[&[u8]]) -> bool {
    let Ok(prepared) = Prepared::<64>::from_items(items) else {
        return false;
    };
    prepared.steps() == steps
        && texts
            .iter()
            .all(|text| has_equal_results(items, &prepared, text))
}

// Asserts that the items are prepared as the steps of the description `text`, and that the items and the prepared steps
// parse each of the `texts` equally.
fn assert_described<'a>(
    rt: &impl Abort,
    items: &'a [BorrowedFormatItem<'a>],
    text: &[u8],
    texts: &[&[u8]],
) {
    let Some(both) = read(text) else {
        panic!(rt; "no description: {text:?}");
    };
    let steps = both.description.steps();
    assert!(rt; are_prepared(items, steps, texts), "{text:?}");
}

// Asserts that the items, for which there is no description as text, are prepared as these steps, and that both parse
// each text equally.
fn assert_steps<'a>(
    rt: &impl Abort,
    items: &'a [BorrowedFormatItem<'a>],
    steps: &[Step],
    texts: &[&[u8]],
) {
    assert!(rt; are_prepared(items, steps, texts), "{steps:?}");
}

#[test]
fn dates(rt: HostRuntime) {
    assert_described(&rt, &[], b"", &[b"", b"x"]);
    assert_described(
        &rt,
        &DATE,
        b"[year]-[month]-[day]",
        &[b"2021-03-04", b"+2021-03-04", b"2021-3-04", b"2021-02-29"],
    );
}

// `:` and a second, with an optional fraction.
fn second_items<'a>(fraction: &'a BorrowedFormatItem<'a>) -> [BorrowedFormatItem<'a>; 3] {
    [item!(":"), Component(SECOND), Optional(fraction)]
}

// An hour, `:` and a minute, with an optional second.
fn clock_items<'a>(seconds: &'a BorrowedFormatItem<'a>) -> [BorrowedFormatItem<'a>; 4] {
    [
        Component(HOUR),
        item!(":"),
        Component(MINUTE),
        Optional(seconds),
    ]
}

#[test]
fn groups(rt: HostRuntime) {
    let fraction = Compound(&FRACTION);
    let second = second_items(&fraction);
    let seconds = Compound(&second);
    assert_described(
        &rt,
        &clock_items(&seconds),
        b"[hour]:[minute][optional [:[second][optional [.[subsecond]]]]]",
        &[
            b"05:06",
            b"05:06:07",
            b"05:06:07.25",
            b"05:06:7",
            b"05:06:07.",
        ],
    );
}

// The first of these that parses, and nothing else.
fn choice_items<'a>(items: &'a [BorrowedFormatItem<'a>]) -> [BorrowedFormatItem<'a>; 1] {
    [First(items)]
}

// The first of these that parses, and a comma with a blank.
fn before_comma<'a>(items: &'a [BorrowedFormatItem<'a>]) -> [BorrowedFormatItem<'a>; 2] {
    [First(items), Literal(b", ")]
}

// An optional item, and an hour.
fn before_hour<'a>(perhaps: &'a BorrowedFormatItem<'a>) -> [BorrowedFormatItem<'a>; 2] {
    [Optional(perhaps), Component(HOUR)]
}

#[test]
fn choices(rt: HostRuntime) {
    let dates = [Compound(&DATE), Compound(&DOTTED)];
    assert_described(
        &rt,
        &choice_items(&dates),
        b"[first [[year]-[month]-[day]] [[day].[month].[year]]]",
        &[b"2021-03-04", b"04.03.2021", b"04-03-2021", b""],
    );
}

#[test]
fn optional_choices(rt: HostRuntime) {
    let dates = [Compound(&DATE), Compound(&DOTTED)];
    let list = before_comma(&dates);
    let perhaps = Compound(&list);
    assert_described(
        &rt,
        &before_hour(&perhaps),
        b"[optional [[first [[year]-[month]-[day]] [[day].[month].[year]]], ]][hour]",
        &[
            b"2021-03-04, 05",
            b"04.03.2021, 24",
            b"05",
            b"04.03.2021 05",
        ],
    );
}

// Two literals stay two, and the bytes of one stay one literal.
#[test]
fn literals(rt: HostRuntime) {
    assert_steps(
        &rt,
        &[item!("at"), Literal(&[0xff]), Component(HOUR)],
        &[
            Step::Literal(b'a'),
            Step::More(b't'),
            Step::Literal(0xff),
            Step::Component(HOUR),
        ],
        &[&[b'a', b't', 0xff, b'0', b'5'], b"at05", b"a"],
    );
}

#[test]
fn lists(rt: HostRuntime) {
    let nothing = Compound(&[]);
    let inner = [nothing, Component(HOUR)];
    assert_steps(
        &rt,
        &[Compound(&inner), item!("h")],
        &[
            Step::Group(Group::List, 2),
            Step::Group(Group::List, 0),
            Step::Component(HOUR),
            Step::Literal(b'h'),
        ],
        &[b"05h", b"5h", b"05"],
    );
    assert_steps(
        &rt,
        &[First(&[]), Component(HOUR), Optional(&nothing)],
        &[
            Step::Group(Group::First, 0),
            Step::Component(HOUR),
            Step::Group(Group::Optional, 0),
        ],
        &[b"05", b"5"],
    );
}

// The items of a choice needn't be lists.
#[test]
fn choices_of_no_lists(rt: HostRuntime) {
    let times = [item!("noon"), Component(HOUR)];
    assert_steps(
        &rt,
        &choice_items(&times),
        &[
            Step::Group(Group::First, 5),
            Step::Literal(b'n'),
            Step::More(b'o'),
            Step::More(b'o'),
            Step::More(b'n'),
            Step::Component(HOUR),
        ],
        &[b"noon", b"05", b"", b"24"],
    );
}

// A sign: an optional plus, or a minus.
fn sign_items<'a>(plus: &'a BorrowedFormatItem<'a>) -> [BorrowedFormatItem<'a>; 2] {
    [Optional(plus), item!("-")]
}

// The first of these that parses, and an hour.
fn choice_before_hour<'a>(items: &'a [BorrowedFormatItem<'a>]) -> [BorrowedFormatItem<'a>; 2] {
    [First(items), Component(HOUR)]
}

// A choice whose first item is optional parses no other.
#[test]
fn optional_in_a_choice(rt: HostRuntime) {
    let plus = Compound(&PLUS);
    let signs = sign_items(&plus);
    assert_steps(
        &rt,
        &choice_before_hour(&signs),
        &[
            Step::Group(Group::First, 3),
            Step::Group(Group::Optional, 1),
            Step::Literal(b'+'),
            Step::Literal(b'-'),
            Step::Component(HOUR),
        ],
        &[b"+05", b"05", b"-05"],
    );
}

// Asserts that preparing the items for at most four steps fails for that reason, or succeeds if it is `None`.
fn assert_reason(rt: &impl Abort, items: &[BorrowedFormatItem<'_>], reason: Option<Unprepared>) {
    assert!(rt;
        Prepared::<4>::from_items(items).err() == reason,
        "{items:?}"
    );
}

#[test]
fn empty_literals(rt: HostRuntime) {
    let reason = Some(Unprepared::EmptyLiteral);
    assert_reason(&rt, &[item!("")], reason);
    assert_reason(&rt, &[Literal(&[])], reason);
    // The fourth step fits, and then the literal is rejected.
    assert_reason(&rt, &[item!("abcd"), item!(""), Component(DAY)], reason);
    let list = [item!("a"), item!(""), item!("bcd")];
    let inner = Compound(&list);
    assert_reason(&rt, &[Optional(&inner)], reason);
    assert_reason(&rt, &[First(&list)], reason);
}

// An optional item, and nothing else.
fn optional_item<'a>(item: &'a BorrowedFormatItem<'a>) -> [BorrowedFormatItem<'a>; 1] {
    [Optional(item)]
}

// An optional item, and an empty literal.
fn before_nothing<'a>(perhaps: &'a BorrowedFormatItem<'a>) -> [BorrowedFormatItem<'a>; 2] {
    [Optional(perhaps), item!("")]
}

#[test]
fn optional_items(rt: HostRuntime) {
    let reason = Some(Unprepared::OptionalNotCompound);
    let nothing = Compound(&[]);
    assert_reason(&rt, &[Optional(&nothing)], None);
    assert_reason(&rt, &optional_item(&First(&[])), reason);
    assert_reason(&rt, &optional_item(&Component(DAY)), reason);
    // The optional item starts before the literal in it.
    assert_reason(&rt, &optional_item(&item!("")), reason);
    let day = Component(DAY);
    let inner = optional_item(&day);
    assert_reason(&rt, &optional_item(&inner[0]), reason);
    let list = before_nothing(&day);
    let inner = Compound(&list);
    assert_reason(&rt, &optional_item(&inner), reason);
}

#[test]
fn room(rt: HostRuntime) {
    let reason = Some(Unprepared::TooLong);
    let four = [item!("abcd")];
    assert_reason(&rt, &four, None);
    assert_reason(&rt, &[item!("abc"), Compound(&[])], None);
    assert_reason(&rt, &[item!("abcde")], reason);
    assert_reason(&rt, &[item!("abcd"), Compound(&[])], reason);
    assert_reason(&rt, &[Compound(&four)], reason);
    // The fifth step comes before the empty literal.
    assert_reason(&rt, &[item!("abcde"), item!("")], reason);
    assert_reason(&rt, &DATE, reason);
    assert!(rt; Prepared::<5>::from_items(&DATE).is_ok());
}

// A reason, and how it is displayed.
static TEXTS: [(Unprepared, &str); 3] = [
    (Unprepared::EmptyLiteral, "a literal is empty"),
    (
        Unprepared::OptionalNotCompound,
        "an optional item is no compound",
    ),
    (Unprepared::TooLong, "the description is too long"),
];

#[test]
fn texts(rt: HostRuntime) -> Result<(), Fail> {
    for (reason, text) in &TEXTS {
        let printed = format!(in rt.alloc(); "{reason}")?;
        assert!(rt; printed.as_str() == *text);
    }
    Ok(())
}
