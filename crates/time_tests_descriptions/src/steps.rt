//! Steps of descriptions in both versions and in strftime's syntax, each error with its index, and texts as items that
//! own their parts.
use time_components::{Component, Padding, modifier};
use time_descriptions::{Description, Group, InvalidFormatDescription, Step, parse_borrowed};

/// An expected step, in plain form.
#[derive(Clone, Copy)]
pub enum ExpectedStep {
    /// A byte of a literal.
    Byte(u8),
    /// A further byte of the literal before it.
    More(u8),
    /// An optional item of this many steps.
    Optional(usize),
    /// A choice of this many steps.
    First(usize),
    /// A list of a choice, of this many steps.
    List(usize),
    /// `[day]` with that padding.
    Day(Padding),
    /// `[hour]`.
    Hour,
    /// `[minute]`.
    Minute,
    /// `[offset_hour sign:mandatory]`.
    OffsetHour,
    /// `[offset_minute]`.
    OffsetMinute,
}

impl ExpectedStep {
    fn step(self) -> Step {
        let padding = Padding::Zero;
        let component = match self {
            Self::Byte(byte) => return Step::Literal(byte),
            Self::More(byte) => return Step::More(byte),
            Self::Optional(steps) => return Step::Group(Group::Optional, steps),
            Self::First(steps) => return Step::Group(Group::First, steps),
            Self::List(steps) => return Step::Group(Group::List, steps),
            Self::Day(padding) => Component::Day(modifier::Day { padding }),
            Self::Hour => Component::Hour24(modifier::Hour24 { padding }),
            Self::Minute => Component::Minute(modifier::Minute { padding }),
            Self::OffsetHour => Component::OffsetHour(modifier::OffsetHour {
                padding,
                sign_is_mandatory: true,
            }),
            Self::OffsetMinute => Component::OffsetMinute(modifier::OffsetMinute { padding }),
        };
        Step::Component(component)
    }
}

fn are_steps(steps: &[Step], expected: &[ExpectedStep]) -> bool {
    for (step, expected) in steps.iter().zip(expected) {
        if *step != expected.step() {
            return false;
        }
    }
    steps.len() == expected.len()
}

/// Whether a description was parsed, and has these steps.
pub fn has_steps(
    answer: Result<Description<64>, InvalidFormatDescription<'_>>,
    expected: &[ExpectedStep],
) -> bool {
    match answer {
        Ok(description) => are_steps(description.steps(), expected),
        Err(_) => false,
    }
}

const DAY: ExpectedStep = ExpectedStep::Day(Padding::Zero);

// Texts of version 2, each with its steps.
static TEXTS: [(&[u8], &[ExpectedStep]); 6] = [
    (b"", &[]),
    (b"[day]", &[DAY]),
    (b"[ DAY  Padding:NONE padding:zero ]", &[DAY]),
    (
        b"a][day]\\[",
        &[
            ExpectedStep::Byte(b'a'),
            ExpectedStep::More(b']'),
            DAY,
            ExpectedStep::Byte(b'['),
        ],
    ),
    (
        b"[optional [/[day]]]",
        &[ExpectedStep::Optional(2), ExpectedStep::Byte(b'/'), DAY],
    ),
    (
        b"[first [[day]] [-]]",
        &[
            ExpectedStep::First(4),
            ExpectedStep::List(1),
            DAY,
            ExpectedStep::List(1),
            ExpectedStep::Byte(b'-'),
        ],
    ),
];

// Texts of version 1, each with its steps.
static TEXTS_OF_VERSION_1: [(&[u8], &[ExpectedStep]); 2] = [
    (
        b"[[[day]\\",
        &[ExpectedStep::Byte(b'['), DAY, ExpectedStep::Byte(b'\\')],
    ),
    (b"[optional [[day]]]", &[ExpectedStep::Optional(1), DAY]),
];

#[test]
fn steps_of_texts(rt: HostRuntime) {
    for (text, expected) in &TEXTS {
        assert!(rt;
            has_steps(parse_borrowed::<2, 64>(text), expected),
            "{}",
            text.escape_ascii()
        );
    }
    for (text, expected) in &TEXTS_OF_VERSION_1 {
        assert!(rt;
            has_steps(parse_borrowed::<1, 64>(text), expected),
            "{}",
            text.escape_ascii()
        );
    }
}

// Texts of version 2, each with its first error.
static FAULTS: [(&[u8], Option<InvalidFormatDescription<'static>>); 18] = [
    (
        b"ab[day",
        Some(InvalidFormatDescription::UnclosedOpeningBracket { index: 2 }),
    ),
    (
        b"ab[optional [[day]]",
        Some(InvalidFormatDescription::UnclosedOpeningBracket { index: 2 }),
    ),
    (
        b"ab[first [[day]] x]",
        Some(InvalidFormatDescription::UnclosedOpeningBracket { index: 2 }),
    ),
    (
        b"a[ yeer",
        Some(InvalidFormatDescription::InvalidComponentName {
            name: b"yeer",
            index: 3,
        }),
    ),
    (
        b"[day padding:nine]",
        Some(InvalidFormatDescription::InvalidModifier {
            value: b"nine",
            index: 13,
        }),
    ),
    (
        b"[day repr:long]",
        Some(InvalidFormatDescription::InvalidModifier {
            value: b"repr",
            index: 5,
        }),
    ),
    (
        b"[month long]",
        Some(InvalidFormatDescription::InvalidModifier {
            value: b"long",
            index: 7,
        }),
    ),
    (
        b"[]",
        Some(InvalidFormatDescription::MissingComponentName { index: 0 }),
    ),
    (
        b"[ ]",
        Some(InvalidFormatDescription::MissingComponentName { index: 1 }),
    ),
    (
        b"[ignore]",
        Some(InvalidFormatDescription::MissingRequiredModifier {
            name: "count",
            index: 1,
        }),
    ),
    (
        b"[ignore count:0]",
        Some(InvalidFormatDescription::InvalidModifier {
            value: b"0",
            index: 14,
        }),
    ),
    (
        b"a\\b",
        Some(InvalidFormatDescription::Expected {
            what: "an escaped `[`, `]` or `\\`",
            index: 2,
        }),
    ),
    (
        b"[optional[day]]",
        Some(InvalidFormatDescription::Expected {
            what: "whitespace after `optional`",
            index: 9,
        }),
    ),
    (
        b"[first]",
        Some(InvalidFormatDescription::Expected {
            what: "whitespace after `first`",
            index: 6,
        }),
    ),
    (
        b"[optional day]",
        Some(InvalidFormatDescription::Expected {
            what: "an opening bracket",
            index: 10,
        }),
    ),
    (
        b"[day [",
        Some(InvalidFormatDescription::Expected {
            what: "a modifier or a closing bracket",
            index: 5,
        }),
    ),
    // Lists may be nested eight deep, and not nine.
    (
        b"[optional [[optional [[optional [[optional [[optional [[optional [[optional [[optional [x]]]]]]]]]]]]]]]]",
        None,
    ),
    (
        b"[optional [[optional [[optional [[optional [[optional [[optional [[optional [[optional [[optional [x]]",
        Some(InvalidFormatDescription::NotSupported {
            what: "a list in more than seven others",
            context: "a description",
            index: 88,
        }),
    ),
];

#[test]
fn each_fault(rt: HostRuntime) {
    for (text, fault) in &FAULTS {
        assert!(rt;
            parse_borrowed::<2, 64>(text).err() == *fault,
            "{}",
            text.escape_ascii()
        );
    }
}

// Descriptions in strftime's syntax, and each error with its index.
mod strftime {
    use super::{ExpectedStep, has_steps};
    use time_components::Padding;
    use time_descriptions::{InvalidFormatDescription, parse_borrowed, parse_strftime};

    // Texts, each with its steps.
    static STEPS: [(&[u8], &[ExpectedStep]); 5] = [
        (b"", &[]),
        (
            b"a%%",
            &[ExpectedStep::Byte(b'a'), ExpectedStep::Byte(b'%')],
        ),
        (
            b"%_d.d",
            &[
                ExpectedStep::Day(Padding::Space),
                ExpectedStep::Byte(b'.'),
                ExpectedStep::Byte(b'd'),
            ],
        ),
        (
            b"%R",
            &[
                ExpectedStep::Hour,
                ExpectedStep::Byte(b':'),
                ExpectedStep::Minute,
            ],
        ),
        (
            b"%z",
            &[ExpectedStep::OffsetHour, ExpectedStep::OffsetMinute],
        ),
    ];

    #[test]
    fn steps_of_texts(rt: HostRuntime) {
        for (text, expected) in &STEPS {
            assert!(rt;
                has_steps(parse_strftime::<64>(text), expected),
                "{}",
                text.escape_ascii()
            );
        }
    }

    // Texts, each with a description of version 2 that has the same steps.
    static DESCRIPTIONS: [(&[u8], &[u8]); 51] = [
        (b"%a", b"[weekday repr:short]"),
        (b"%A", b"[weekday]"),
        (b"%b", b"[month repr:short]"),
        (b"%h", b"[month repr:short]"),
        (b"%B", b"[month repr:long]"),
        (b"%C", b"[year repr:century]"),
        (b"%g", b"[year repr:last_two base:iso_week]"),
        (b"%G", b"[year base:iso_week]"),
        (b"%y", b"[year repr:last_two]"),
        (b"%Y", b"[year]"),
        (b"%d", b"[day]"),
        (b"%e", b"[day padding:space]"),
        (b"%j", b"[ordinal]"),
        (b"%H", b"[hour]"),
        (b"%k", b"[hour padding:space]"),
        (b"%I", b"[hour repr:12]"),
        (b"%l", b"[hour repr:12 padding:space]"),
        (b"%m", b"[month]"),
        (b"%M", b"[minute]"),
        (b"%S", b"[second]"),
        (b"%f", b"[subsecond]"),
        (b"%3f", b"[subsecond digits:3]"),
        (b"%6f", b"[subsecond digits:6]"),
        (b"%9f", b"[subsecond digits:9]"),
        (b"%.f", b"[optional [.[subsecond]]]"),
        (b"%N", b"[subsecond digits:9]"),
        (b"%p", b"[period]"),
        (b"%P", b"[period case:lower]"),
        (b"%s", b"[unix_timestamp]"),
        (b"%u", b"[weekday repr:monday]"),
        (b"%w", b"[weekday repr:sunday one_indexed:false]"),
        (b"%U", b"[week_number repr:sunday]"),
        (b"%V", b"[week_number]"),
        (b"%W", b"[week_number repr:monday]"),
        (b"%z", b"[offset_hour sign:mandatory][offset_minute]"),
        (b"%:z", b"[offset_hour sign:mandatory]:[offset_minute]"),
        (b"%n", b"\n"),
        (b"%t", b"\t"),
        (b"%%", b"%"),
        (b"%D", b"[month]/[day]/[year repr:last_two]"),
        (b"%x", b"[month]/[day]/[year repr:last_two]"),
        (b"%F", b"[year]-[month]-[day]"),
        (b"%R", b"[hour]:[minute]"),
        (b"%T", b"[hour]:[minute]:[second]"),
        (b"%X", b"[hour]:[minute]:[second]"),
        (b"%r", b"[hour repr:12]:[minute]:[second] [period]"),
        (
            b"%c",
            b"[weekday repr:short] [month repr:short] [day padding:space] [hour]:[minute]:[second] [year]",
        ),
        (b"%FT%T", b"[year]-[month]-[day]T[hour]:[minute]:[second]"),
        (
            b"%d/%b/%Y:%H:%M:%S %z",
            b"[day]/[month repr:short]/[year]:[hour]:[minute]:[second] [offset_hour sign:mandatory][offset_minute]",
        ),
        (
            b"%b %e %H:%M:%S",
            b"[month repr:short] [day padding:space] [hour]:[minute]:[second]",
        ),
        (
            b"%-d%_d%0e",
            b"[day padding:none][day padding:space][day padding:zero]",
        ),
    ];

    // Whether the text has the steps of the description.
    fn is_described_as(text: &[u8], description: &[u8]) -> bool {
        match (
            parse_strftime::<64>(text),
            parse_borrowed::<2, 64>(description),
        ) {
            (Ok(left), Ok(right)) => left.steps() == right.steps(),
            _ => false,
        }
    }

    #[test]
    fn letters_and_shorthands(rt: HostRuntime) {
        for (text, description) in &DESCRIPTIONS {
            assert!(rt;
                is_described_as(text, description),
                "{}",
                text.escape_ascii()
            );
        }
    }

    // Texts, each with its first error.
    static FAULTS: [(&[u8], InvalidFormatDescription<'static>); 14] = [
        (
            b"ab%",
            InvalidFormatDescription::InvalidComponentName {
                name: b"",
                index: 3,
            },
        ),
        (
            b"ab%-",
            InvalidFormatDescription::InvalidComponentName {
                name: b"",
                index: 4,
            },
        ),
        (
            b"ab%q%Z",
            InvalidFormatDescription::InvalidComponentName {
                name: b"q",
                index: 3,
            },
        ),
        (
            b"ab%-_d",
            InvalidFormatDescription::InvalidComponentName {
                name: b"_",
                index: 4,
            },
        ),
        (
            b"a%Z",
            InvalidFormatDescription::NotSupported {
                what: "this conversion",
                context: "a strftime description",
                index: 1,
            },
        ),
        (
            b"a%Ey",
            InvalidFormatDescription::NotSupported {
                what: "this conversion",
                context: "a strftime description",
                index: 1,
            },
        ),
        (
            b"a%-Od",
            InvalidFormatDescription::NotSupported {
                what: "this conversion",
                context: "a strftime description",
                index: 1,
            },
        ),
        (
            b"a%-b",
            InvalidFormatDescription::InvalidModifier {
                value: b"-",
                index: 2,
            },
        ),
        (
            b"%_F",
            InvalidFormatDescription::InvalidModifier {
                value: b"_",
                index: 1,
            },
        ),
        (
            b"%0z",
            InvalidFormatDescription::InvalidModifier {
                value: b"0",
                index: 1,
            },
        ),
        // `.` and the digits are flags of `f` alone, and `:` of `z` alone.
        (
            b"a%.d",
            InvalidFormatDescription::InvalidModifier {
                value: b".",
                index: 2,
            },
        ),
        (
            b"a%3N",
            InvalidFormatDescription::InvalidModifier {
                value: b"3",
                index: 2,
            },
        ),
        (
            b"a%:H",
            InvalidFormatDescription::InvalidModifier {
                value: b":",
                index: 2,
            },
        ),
        (
            b"a%_f",
            InvalidFormatDescription::InvalidModifier {
                value: b"_",
                index: 2,
            },
        ),
    ];

    #[test]
    fn faults(rt: HostRuntime) {
        for (text, fault) in &FAULTS {
            assert!(rt;
                parse_strftime::<64>(text).err() == Some(*fault),
                "{}",
                text.escape_ascii()
            );
        }
    }

    #[test]
    fn room_of_shorthands(rt: HostRuntime) {
        assert!(rt; parse_strftime::<4>(b"%F").err() == Some(InvalidFormatDescription::TooLong));
        assert!(rt; parse_strftime::<5>(b"%F").is_ok());
    }
}

// Texts as items that own their parts.
mod owned {
    use std::alloc::{AllocError, Global};
    use time_descriptions::{InvalidFormatDescription, OwnedError, parse_owned};

    // Whether the text was written, and is this one.
    fn is_text(text: Result<String, AllocError>, expected: &str) -> bool {
        match text {
            Ok(text) => text.as_str() == expected,
            Err(_) => false,
        }
    }

    // Texts, and the debug output of the items of each.
    static ITEMS: [(&[u8], &str); 5] = [
        (b"", "Compound([])"),
        (
            b"[day]ab",
            "Compound([Component(Day(Day { padding: Zero })), Literal([97, 98])])",
        ),
        (b"\\[]", "Compound([Literal([91]), Literal([93])])"),
        (
            b"[optional [-[day padding:none]]]",
            "Compound([Optional(Compound([Literal([45]), Component(Day(Day { padding: None }))]))])",
        ),
        (
            b"[first [[minute]] [] [x]]",
            "Compound([First([Compound([Component(Minute(Minute { padding: Zero }))]), Compound([]), Compound([Literal([120])])])])",
        ),
    ];

    // Whether this is the debug output of the items.
    fn has_items(alloc: Global, text: &[u8], expected: &str) -> bool {
        match parse_owned::<2>(alloc, text) {
            Ok(item) => is_text(format!(in alloc; "{item:?}"), expected),
            Err(_) => false,
        }
    }

    #[test]
    fn owned_items(rt: HostRuntime) {
        for (text, expected) in &ITEMS {
            assert!(rt; has_items(rt.alloc(), text, expected), "{expected}");
        }
    }

    // The bytes after a literal that is longer than the room of a usual `Description`, and the error.
    static ENDS: [(&[u8], Option<OwnedError<'static>>); 2] = [
        (b"", None),
        (
            b"[x]",
            Some(OwnedError::Invalid(InvalidFormatDescription::InvalidComponentName {
                name: b"x",
                index: 10_001,
            })),
        ),
    ];

    // A literal of ten thousand bytes, and those after it.
    fn long_text(alloc: Global, end: &[u8]) -> Result<Vec<u8>, AllocError> {
        let mut text = vec![in alloc; b'x'; 10_000]?;
        text.extend_from_slice(end)?;
        Ok(text)
    }

    // Whether the long text with that end has this error, or none.
    fn ends_in(alloc: Global, end: &[u8], error: Option<OwnedError<'_>>) -> bool {
        match long_text(alloc, end) {
            Ok(text) => parse_owned::<1>(alloc, &text).err() == error,
            Err(_) => false,
        }
    }

    #[test]
    fn long_texts(rt: HostRuntime) {
        for (end, error) in &ENDS {
            assert!(rt; ends_in(rt.alloc(), end, *error));
        }
    }

    static ERRORS: [(OwnedError<'static>, &str); 2] = [
        (
            OwnedError::Invalid(InvalidFormatDescription::UnclosedOpeningBracket { index: 2 }),
            "unclosed opening bracket at byte index 2",
        ),
        (OwnedError::Memory(AllocError), "out of memory"),
    ];

    #[test]
    fn displayed_errors(rt: HostRuntime) {
        for (error, expected) in &ERRORS {
            assert!(rt; is_text(format!(in rt.alloc(); "{error}"), expected));
        }
    }
}

// Texts with room for the steps that they start, and for one step less.
mod room {
    use time_descriptions::{InvalidFormatDescription, parse_borrowed};

    // Texts, how many steps each starts up to its end or its first error, and that error.
    static TEXTS: [(&[u8], usize, Option<InvalidFormatDescription<'static>>); 9] = [
        // A component is one step, as is each byte of a literal, each group, and each list of a choice.
        (b"[ year  padding:space sign:mandatory ]", 1, None),
        (b"[day]abc[month]", 5, None),
        (b"abc", 3, None),
        (b"\\[\\]\\\\", 3, None),
        // The group, a byte and a component.
        (b"[optional [ [second]]]", 3, None),
        // The group, and two lists of one component and of none.
        (b"[first [[day]] []]", 4, None),
        // One component, and no step after the first error.
        (
            b"[day][x][year]-[month]",
            1,
            Some(InvalidFormatDescription::InvalidComponentName {
                name: b"x",
                index: 6,
            }),
        ),
        // The open group, two of its lists, a component and a byte.
        (
            b"[first [[day]] [a]",
            5,
            Some(InvalidFormatDescription::UnclosedOpeningBracket { index: 0 }),
        ),
        // A group that doesn't open has no step.
        (
            b"[day][optional day]",
            1,
            Some(InvalidFormatDescription::Expected {
                what: "an opening bracket",
                index: 15,
            }),
        ),
    ];

    // The error of the text in room for this many steps, which are at most five.
    fn error_in(text: &[u8], room: usize) -> Option<InvalidFormatDescription<'_>> {
        match room {
            0 => parse_borrowed::<2, 0>(text).err(),
            1 => parse_borrowed::<2, 1>(text).err(),
            2 => parse_borrowed::<2, 2>(text).err(),
            3 => parse_borrowed::<2, 3>(text).err(),
            4 => parse_borrowed::<2, 4>(text).err(),
            _ => parse_borrowed::<2, 5>(text).err(),
        }
    }

    #[test]
    fn room_of_texts(rt: HostRuntime) {
        for (text, steps, fault) in &TEXTS {
            let less = steps.saturating_sub(1);
            assert!(rt; error_in(text, *steps) == *fault, "{}", text.escape_ascii());
            assert!(rt;
                error_in(text, less) == Some(InvalidFormatDescription::TooLong),
                "{}",
                text.escape_ascii()
            );
        }
        assert!(rt; error_in(b"", 0).is_none());
    }
}
