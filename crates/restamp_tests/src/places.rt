//! The places of timestamps, and timestamps anywhere in a line or before a text.
use restamp_place::{Fields, Place, Span, body_of, find_span};

// A place, a line, and the parts of the line before, at and after the place. Fields are counted from 1.
type Row = (
    Place<'static>,
    &'static [u8],
    &'static [u8],
    &'static [u8],
    &'static [u8],
);

// Lines that have the place. A CR at the end of the line is in the part after it.
static FOUND: [Row; 28] = [
    (Place::Whole, b"now", b"", b"now", b""),
    (Place::Whole, b"now\r", b"", b"now", b"\r"),
    (Place::Whole, b"", b"", b"", b""),
    (Place::Whole, b"\r\r", b"", b"\r", b"\r"),
    (Place::Front, b"now x", b"", b"now x", b""),
    (Place::Front, b"now x\r", b"", b"now x", b"\r"),
    (Place::Front, b"\r\r", b"", b"\r", b"\r"),
    (
        Place::Field(Fields::Delimited(b','), 1),
        b"a,b,c",
        b"",
        b"a",
        b",b,c",
    ),
    (
        Place::Field(Fields::Delimited(b','), 2),
        b"a,b,c",
        b"a,",
        b"b",
        b",c",
    ),
    (
        Place::Field(Fields::Delimited(b','), 3),
        b"a,b,c\r",
        b"a,b,",
        b"c",
        b"\r",
    ),
    (
        Place::Field(Fields::Delimited(b','), 3),
        b"a,b,",
        b"a,b,",
        b"",
        b"",
    ),
    (
        Place::Field(Fields::Delimited(b'\t'), 2),
        b"a\t\tb",
        b"a\t",
        b"",
        b"\tb",
    ),
    (Place::Field(Fields::Blank, 1), b"  a b", b"  ", b"a", b" b"),
    (
        Place::Field(Fields::Blank, 2),
        b"a \t b",
        b"a \t ",
        b"b",
        b"",
    ),
    (Place::Field(Fields::Blank, 2), b"a b\r", b"a ", b"b", b"\r"),
    (
        Place::Field(Fields::Quoted(b','), 2),
        b"\"a,b\",c",
        b"\"a,b\",",
        b"c",
        b"",
    ),
    (
        Place::Field(Fields::Quoted(b','), 1),
        b"\"a,b\",c",
        b"\"",
        b"a,b",
        b"\",c",
    ),
    (
        Place::Field(Fields::Quoted(b','), 1),
        b"\"a\"\"b\",c",
        b"\"",
        b"a\"\"b",
        b"\",c",
    ),
    (
        Place::Field(Fields::Quoted(b';'), 2),
        b"a;\"b\"",
        b"a;\"",
        b"b",
        b"\"",
    ),
    (
        Place::Between(b"[", b"]"),
        b"x [a] [b]",
        b"x [",
        b"a",
        b"] [b]",
    ),
    (
        Place::Between(b"<t>", b"</t>"),
        b"<t>a</t>",
        b"<t>",
        b"a",
        b"</t>",
    ),
    (Place::Between(b"", b"|"), b"a|b", b"", b"a", b"|b"),
    // A place between two texts ends at the start of the second one.
    (Place::Between(b"[", b"\r"), b"[a\r", b"[", b"a", b"\r"),
    (Place::Between(b"[", b"]"), b"[a\r]\r", b"[", b"a\r", b"]\r"),
    (Place::After(b"Date: "), b"Date: a", b"Date: ", b"a", b""),
    (
        Place::After(b"Date: "),
        b"Date: a\r",
        b"Date: ",
        b"a",
        b"\r",
    ),
    (Place::After(b"t="), b"at=t=b", b"at=", b"t=b", b""),
    (Place::After(b"\r"), b"a\rb\r", b"a\r", b"b", b"\r"),
];

// Whether the line has the place, which splits it into those parts.
fn is_cut(place: Place<'_>, line: &[u8], before: &[u8], time: &[u8], after: &[u8]) -> bool {
    let Some(span) = find_span(place, line) else {
        return false;
    };
    line.get(..span.start) == Some(before)
        && line.get(span.start..span.stop) == Some(time)
        && line.get(span.stop..) == Some(after)
}

#[test]
fn found(rt: HostRuntime) {
    for (place, line, before, time, after) in &FOUND {
        assert!(rt; is_cut(*place, line, before, time, after), "{line:?}");
    }
}

// A place that is missing in a line: field 0, too few fields, no such text before a CR at the end, an unclosed quote,
// or text after a closing quote.
static MISSING: [(Place<'static>, &[u8]); 13] = [
    (Place::Field(Fields::Delimited(b','), 0), b"a"),
    (Place::Field(Fields::Delimited(b','), 2), b"a"),
    (Place::Field(Fields::Delimited(b','), 2), b""),
    (Place::Field(Fields::Blank, 1), b" \t"),
    (Place::Field(Fields::Blank, 3), b"a b "),
    (Place::Field(Fields::Quoted(b','), 1), b"\"a"),
    (Place::Field(Fields::Quoted(b','), 1), b"\"a\"\""),
    (Place::Field(Fields::Quoted(b','), 2), b"\"a\"x,b"),
    (Place::Between(b"[", b"]"), b"x a]"),
    (Place::Between(b"[", b"]"), b"] [a"),
    (Place::Between(b"||", b"||"), b"|| a |"),
    (Place::After(b"Date:"), b"date: a"),
    (Place::After(b"Date:\r"), b"Date:\r"),
];

#[test]
fn missing(rt: HostRuntime) {
    for (place, line) in &MISSING {
        assert!(rt; find_span(*place, line).is_none(), "{line:?}");
    }
}

#[test]
fn open(rt: HostRuntime) {
    assert!(rt; Place::Front.is_prefix() && !Place::Between(b"a", b"b").is_prefix());
}

// A line with words longer and shorter than sixteen bytes, and a text whose parts also occur elsewhere.
const CHANGED: [u8; 64] = *b"level=info\tmsg=\"a long request\"  at id=7 at 2021-01-02T03:04:05Z";

// The word with `number` words before it, found byte by byte; `None` if there are fewer words. Blanks and tabs separate
// words.
fn plain_word(line: &[u8], number: usize) -> Option<Span> {
    let mut left = number;
    let mut begun = None;
    for (at, byte) in line.iter().enumerate() {
        let blank = *byte == b' ' || *byte == b'\t';
        match begun {
            None if !blank => begun = Some(at),
            Some(start) if blank => {
                if left == 0 {
                    return Some(Span { start, stop: at });
                }
                left -= 1;
                begun = None;
            }
            _ => {}
        }
    }
    match begun {
        Some(start) if left == 0 => Some(Span {
            start,
            stop: line.len(),
        }),
        _ => None,
    }
}

// What follows the first occurrence of the text, which is searched at each byte; `None` if it doesn't occur.
fn plain_rest(text: &[u8], line: &[u8]) -> Option<Span> {
    for at in 0..line.len() {
        if line[at..].starts_with(text) {
            return Some(Span {
                start: at + text.len(),
                stop: line.len(),
            });
        }
    }
    None
}

// Whether `find_span` finds the words and texts that `plain_word` and `plain_rest` find in the line.
fn is_plain(line: &[u8]) -> bool {
    let body = body_of(line);
    for number in 0..9 {
        let word = find_span(Place::Field(Fields::Blank, number + 1), line);
        if word != plain_word(body, number) {
            return false;
        }
    }
    for text in [
        b" at 2".as_slice(),
        b"id=",
        b"5Z",
        b"a long request\"  at id=7 at 2021-01",
    ] {
        if find_span(Place::After(text), line) != plain_rest(text, body) {
            return false;
        }
    }
    true
}

// Changes each byte of a line to each other byte, and tries each prefix of the line.
#[test]
fn changed(rt: HostRuntime) {
    for at in 0..CHANGED.len() {
        for byte in 0..=255 {
            let mut line = CHANGED;
            line[at] = byte;
            assert!(rt; is_plain(&line), "{at} {byte}");
        }
        assert!(rt; is_plain(&CHANGED[..at]), "{at}");
    }
}

// Timestamps anywhere in a line. They consist of whole words and numbers.
mod anywhere {
    use restamp_formats::{
        Clock, Defaults, Form, Reading, Reason, Writing, find_reading, find_writing, parse_dated,
    };
    use restamp_lines::{Job, REACH, Refusal};
    use restamp_place::Place;
    use restamp_stream::LineAction;
    use std::test::Fail;
    use time_formatting::FractionDigits;
    use time_values::text::Text;

    // A timestamp that starts with a day of one or two digits.
    const DAY: &[u8] =
        b"[day padding:none] [month repr:long] [year] [hour]:[minute] [offset_hour sign:mandatory]";

    // No place: the timestamp may be anywhere in the line.
    const ANYWHERE: Option<Place<'static>> = None;

    // The verdict on a line whose timestamp may be anywhere, and its new text.
    fn verdict_on<'a>(
        line: &[u8],
        first: &'a Reading,
        writing: &'a Writing,
    ) -> (LineAction<Refusal<Reason>>, Text) {
        let job = Job {
            place: ANYWHERE,
            first,
            others: &[],
            defaults: Defaults {
                year: None,
                offset: None,
                clocks: None,
                latest: None,
            },
            form: Form {
                writing,
                digits: FractionDigits::Auto,
                clock: Clock::Own,
            },
            since: None,
            until: None,
            requires_timestamp: false,
        };
        let mut text = Text::new();
        let action = job.judge(line, &mut text);
        (action, text)
    }

    // Whether the first timestamp of a line, by a format, starts at `start` and has `many` bytes, and `seconds` is the
    // text of its seconds since 1970. If `many` is 0: whether the line has no timestamp.
    fn is_found(format: &[u8], line: &[u8], start: usize, many: usize, seconds: &[u8]) -> bool {
        let Ok(first) = find_reading(format) else {
            return false;
        };
        let Ok(writing) = find_writing(b"unix") else {
            return false;
        };
        let (action, text) = verdict_on(line, &first, &writing);
        match action {
            LineAction::Rewritten { begin, end } => {
                begin == start && end.checked_sub(begin) == Some(many) && text.as_bytes() == seconds
            }
            LineAction::Without => many == 0,
            LineAction::Dropped | LineAction::Refused(_) => false,
        }
    }

    // A format, a line, the start of its timestamp, how many bytes the timestamp has (0 without one), and its seconds
    // since 1970.
    type Row = (&'static [u8], &'static [u8], usize, usize, &'static [u8]);

    static ROWS: [Row; 12] = [
        (
            b"common",
            b"203.0.113.7 - - [10/Oct/2000:13:55:36 -0700] \"GET /a1b2?id=12021 HTTP/1.1\" 200 7",
            17,
            26,
            b"971211336",
        ),
        (DAY, b"8 March 1999 03:04 +00", 0, 22, b"920862240"),
        (DAY, b"29 February 1999 03:04 +00", 0, 0, b""),
        (b"rfc3339", b"12021-01-02T03:04:05Z", 0, 0, b""),
        (b"rfc3339", b"2021-01-02T03:04:05Zulu", 0, 0, b""),
        (b"rfc3339", b"T1970-01-01T00:00:09Z", 0, 0, b""),
        (b"rfc3339", b"_1970-01-01T00:00:09Z_", 1, 20, b"9"),
        (b"unix", b"x90 90y 0x90z", 0, 0, b""),
        (b"unix", b"a1b2 id=60;", 8, 2, b"60"),
        (
            b"rfc2822",
            b"[x]  Thu, 01 Jan 1970 00:00:09 +0000\tx",
            5,
            31,
            b"9",
        ),
        (b"rfc2822", b" Thu, 01 Jan 1970 00:00:09 +0000x", 0, 0, b""),
        (b"rfc2822", b"Thu, 01 Jan 1970 00:00:09 UT\r", 0, 28, b"9"),
    ];

    #[test]
    fn found(rt: HostRuntime) {
        for (format, line, begin, many, seconds) in &ROWS {
            assert!(rt; is_found(format, line, *begin, *many, seconds), "{line:?}");
        }
    }

    // A format, and a line with a timestamp of that format among bytes that might start one.
    type Sample = (&'static [u8], &'static [u8]);

    static SAMPLES: [Sample; 7] = [
        (b"rfc3339", b"5 -2021-01-02T03:04:05Z x"),
        (b"rfc3339", b"20 2021-01-02T03:04:05.25+01:00 "),
        (b"rfc2822", b"m Fri, 2 Jan 1970 00:00:09 UT"),
        (b"rfc2822", b"at 12 (c) 2 Jan 1970 00:00:09 UT"),
        (b"common", b"1/Oct 10/Oct/2000:13:55:36 -0700"),
        (b"%Y-%m-%d %H:%M %z", b"7 -2021-01-02 03:04 +0000"),
        (b"unix", b"x1 -60 +7 9y"),
    ];

    // No defaults: a timestamp needs its own year and offset.
    const NOTHING_GIVEN: Defaults = Defaults {
        year: None,
        offset: None,
        clocks: None,
        latest: None,
    };

    // Whether the byte before an index and the byte at it are both letters or digits. `false` at either end of the
    // line.
    fn is_inside(line: &[u8], place: usize) -> bool {
        0 < place
            && place < line.len()
            && line[place - 1].is_ascii_alphanumeric()
            && line[place].is_ascii_alphanumeric()
    }

    // The start and the end of the first timestamp of the line, found by trying the format at each byte; `None` without
    // one. It neither starts nor ends between two letters or digits.
    fn plain_first(line: &[u8], format: &Reading) -> Option<(usize, usize)> {
        for start in 0..line.len() {
            if is_inside(line, start) {
                continue;
            }
            let rest = &line[start..];
            let near = &rest[..REACH.min(rest.len())];
            if let Ok(said) = parse_dated::<Reason>(format, true, near, &NOTHING_GIVEN) {
                let begin = start + said.start;
                let end = begin + said.length;
                if !is_inside(line, end) {
                    return Some((begin, end));
                }
            }
        }
        None
    }

    // Whether the verdict rewrites the timestamp that `plain_first` finds, or finds none either.
    fn is_plain(line: &[u8], format: &Reading, writing: &Writing) -> bool {
        match verdict_on(line, format, writing).0 {
            LineAction::Rewritten { begin, end } => {
                plain_first(line, format) == Some((begin, end))
            }
            LineAction::Without => plain_first(line, format).is_none(),
            LineAction::Dropped | LineAction::Refused(_) => false,
        }
    }

    // Changes each of the first 32 bytes of a line to each other byte.
    #[test]
    fn changed(rt: HostRuntime) -> Result<(), Fail> {
        let Ok(writing) = find_writing(b"unix") else {
            return Err("no format".into());
        };
        for (name, sample) in &SAMPLES {
            let Ok(format) = find_reading(name) else {
                return Err("no format".into());
            };
            for at in 0..sample.len().min(32) {
                for byte in 0..=255 {
                    let mut line = [0; 32];
                    let many = sample.len().min(32);
                    line[..many].copy_from_slice(&sample[..many]);
                    line[at] = byte;
                    assert!(rt;
                        is_plain(&line[..many], &format, &writing),
                        "{name:?} {at} {byte}"
                    );
                }
            }
        }
        Ok(())
    }
}

// Timestamps of RFC 3339 before a text.
mod fronts {
    use restamp_formats::{Defaults, Reading, read};
    use time_values::OffsetDateTime;

    // Texts that are changed. The last one is no timestamp before its change.
    static SAMPLES: [&[u8]; 4] = [
        b"2021-01-02T03:04:05Z x",
        b"2016-12-31t23:59:60.5+00:007",
        b"2021-01-02 03:04:05.25-08:00",
        b"0000-02-29_00:00:00.zZ+23:59",
    ];

    // No defaults: a timestamp needs its own year and offset.
    const NOTHING_GIVEN: Defaults = Defaults {
        year: None,
        offset: None,
        clocks: None,
        latest: None,
    };

    // The moment that the text parses as, and how many bytes match: all, or a prefix if `is_prefix`. `None` if it is
    // rejected.
    fn parse_by(is_prefix: bool, text: &[u8]) -> Option<(OffsetDateTime, usize)> {
        match read(&Reading::Rfc3339, is_prefix, text, &NOTHING_GIVEN) {
            Ok(said) => Some((said.moment, said.start + said.length)),
            Err(_) => None,
        }
    }

    // The moment of the shortest prefix that is a timestamp by itself, and the length of that prefix; `None` without
    // one.
    fn plain_front(text: &[u8]) -> Option<(OffsetDateTime, usize)> {
        for many in 0..text.len() {
            if let Some(said) = parse_by(false, &text[..many]) {
                return Some(said);
            }
        }
        parse_by(false, text)
    }

    // Changes each of the first 32 bytes of a text to each other byte. The prefix that is parsed is the shortest
    // timestamp.
    #[test]
    fn changed(rt: HostRuntime) {
        for sample in &SAMPLES {
            for at in 0..sample.len().min(32) {
                for byte in 0..=255 {
                    let mut text = [0; 32];
                    let many = sample.len().min(32);
                    text[..many].copy_from_slice(&sample[..many]);
                    text[at] = byte;
                    let text = &text[..many];
                    assert!(rt; parse_by(true, text) == plain_front(text), "{at} {byte}");
                }
            }
        }
    }
}
