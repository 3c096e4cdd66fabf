//! Whole texts, by each format for each target.
use super::{Row, are_answered};

const INSUFFICIENT: &str =
    "error: the `Parsed` struct did not include enough information to construct the type\n";

const MONTH: &str = "error: the 'month' component could not be parsed\n";

const LITERAL: &str = "error: a character literal was not valid\n";

const SECOND_OF_JANUARY: &str = "2021-01-02 03:04:00.000000000 +00:00:00\n";

const TRAILING: &str = "error: unexpected trailing characters; the end of input was expected\n";

const YEAR: &str = "error: the 'year' component could not be parsed\n";

static RFC3339: [Row; 10] = [
    (
        "rfc3339\tdate\t2021-01-02T03:04:05.25-00:30",
        "2021-01-02\n",
    ),
    (
        "rfc3339\ttime\t2021-01-02T03:04:05.25-00:30",
        "03:04:05.250000000\n",
    ),
    (
        "rfc3339\toffset\t2021-01-02T03:04:05.25-00:30",
        "-00:30:00\n",
    ),
    (
        "rfc3339\tplain\t2021-01-02T03:04:05.25-00:30",
        "2021-01-02 03:04:05.250000000\n",
    ),
    (
        "rfc3339\tutc\t2021-01-02T03:04:05.25-00:30",
        "2021-01-02 03:34:05.250000000 +00:00:00\n",
    ),
    (
        "rfc3339\tstaged\t2021-01-02T03:04:05.25-00:30",
        "2021-01-02 03:04:05.250000000 -00:30:00\n",
    ),
    ("rfc3339\ttimestamp\t1970-01-01T00:00:00.000000001Z", "1\n"),
    ("rfc3339\ttimestamp\t1969-12-31T23:59:59Z", "-1000000000\n"),
    (
        "rfc3339\tdatetime\t2021-01-02T03:04:05Z",
        "2021-01-02 03:04:05.000000000 +00:00:00\n",
    ),
    (
        "rfc3339\ttime\t1990-12-31T23:59:60Z",
        "error: second is out of range\n",
    ),
];

static RFC2822: [Row; 15] = [
    (
        "rfc2822\tstaged\tMon, 02 Jan 2021 03:04:05 +0607",
        "2021-01-02 03:04:05.000000000 +06:07:00\n",
    ),
    (
        "rfc2822\tstaged\t02 Jan 49 03:04 EST",
        "2049-01-02 03:04:00.000000000 -05:00:00\n",
    ),
    (
        "rfc2822\tstaged\t02 Jan 2021 03:04 -0030",
        "2021-01-02 03:04:00.000000000 -00:30:00\n",
    ),
    ("rfc2822\tutc\t02 Jan 2021 03:04 GMT (x)", SECOND_OF_JANUARY),
    ("rfc2822\tdate\t02 Jan 2021 03:04 GMT", "2021-01-02\n"),
    (
        "rfc2822\ttime\t02 Jan 2021 03:04:05 GMT",
        "03:04:05.000000000\n",
    ),
    ("rfc2822\toffset\t02 Jan 2021 03:04 PDT", "-07:00:00\n"),
    (
        "rfc2822\tplain\t02 Jan 2021 03:04 +0030",
        "2021-01-02 03:04:00.000000000\n",
    ),
    (
        "rfc2822\ttimestamp\t1 Jan 1970 00:01 -0001",
        "120000000000\n",
    ),
    (
        "rfc2822\tdatetime\t02 Jan 2021 03:04 GMT",
        "2021-01-02 03:04:00.000000000 +00:00:00\n",
    ),
    ("rfc2822\tstaged\t02 Jan 2021\r03:04 +0000", LITERAL),
    (
        "rfc2822\tstaged\t02 Jan 1899 03:04 +0000",
        "error: the 'year' component could not be parsed\n",
    ),
    (
        "rfc2822\tstaged\t02 (a(b\\)c)) Jan 2021 03:04 +0000",
        SECOND_OF_JANUARY,
    ),
    (
        "rfc2822\tstaged\t02 ((((((((((((((((((((((((((((((())))))))))))))))))))))))))))))) Jan 2021 03:04 +0000",
        SECOND_OF_JANUARY,
    ),
    (
        "rfc2822\tstaged\t02 (((((((((((((((((((((((((((((((()))))))))))))))))))))))))))))))) Jan 2021 03:04 +0000",
        MONTH,
    ),
];

static ISO8601: [Row; 31] = [
    ("iso8601\ttime\t03,5", "03:30:00.000000000\n"),
    ("iso8601\ttime\t03:04.5", "03:04:30.000000000\n"),
    ("iso8601\ttime\t0304.25", "03:04:15.000000000\n"),
    ("iso8601\ttime\t12:34:60", "error: second is out of range\n"),
    ("iso8601\ttime\t0360", MONTH),
    ("iso8601\ttime\t030461", MONTH),
    ("iso8601\toffset\t+0160", YEAR),
    (
        "iso8601\tutc\t2016-12-31T23:59:60Z",
        "2016-12-31 23:59:59.999999999 +00:00:00\n",
    ),
    ("iso8601\toffset\t-05", "-05:00:00\n"),
    ("iso8601\toffset\t05:30Z", "+00:00:00\n"),
    ("iso8601\tdate\t+002021-01-02", "2021-01-02\n"),
    ("iso8601\tplain\t2021-W01-1T24", TRAILING),
    (
        "iso8601\tdatetime\t2021-01-02T03:04:05,25-00:30",
        "2021-01-02 03:04:05.250000000 -00:30:00\n",
    ),
    (
        "iso8601\tstaged\t20210102T030405Z",
        "2021-01-02 03:04:05.000000000 +00:00:00\n",
    ),
    ("iso8601\ttimestamp\t1970-W01-4T00:00:01Z", "1000000000\n"),
    ("iso8601\ttimestamp\t1970-001", INSUFFICIENT),
    ("iso8601\tdatetime\t2021-01-02T03:04:05", INSUFFICIENT),
    ("iso8601\tdate\t9999-12x", LITERAL),
    ("iso8601\ttime\t2021-01", "20:21:00.000000000\n"),
    ("iso8601\toffset\t2021-01", "-01:00:00\n"),
    ("iso8601\tdate\t20211234", TRAILING),
    ("iso8601\tdate\t202101", INSUFFICIENT),
    ("iso8601\tdate\t2020-W53-6", "2021-01-02\n"),
    (
        "iso8601\tplain\t2021-01-02T03",
        "2021-01-02 03:00:00.000000000\n",
    ),
    (
        "iso8601\tplain\t2021-01-02T0304",
        "2021-01-02 03:04:00.000000000\n",
    ),
    ("iso8601\tplain\t2021-01-02T030405", TRAILING),
    ("iso8601\tplain\t2021-01-02T03:04+05:", TRAILING),
    ("iso8601\ttime\t1234-05:30", TRAILING),
    ("iso8601\ttime\t12:34:56.9999999994", "12:34:56.999999999\n"),
    ("iso8601\ttime\t12:34:56.9999999995", YEAR),
    ("iso8601\ttime\t03.0001", "03:00:00.360000000\n"),
];

/// Lines of the formats `ymd`, `clock`, `unix` and `local`, which are descriptions.
pub(super) static DESCRIBED: [Row; 30] = [
    ("ymd\tdate\t-0044-03-15", "-0044-03-15\n"),
    ("ymd\tdate\t+2021-03-04", "2021-03-04\n"),
    ("ymd\tdatetime\t2021-03-04", INSUFFICIENT),
    ("ymd\ttimestamp\t2021-03-04", INSUFFICIENT),
    ("ymd\toffset\t2021-03-04", INSUFFICIENT),
    (
        "ymd\tdate\t2021-3-04",
        "error: the 'month' component could not be parsed\n",
    ),
    ("clock\ttime\t12:05 am", "00:05:00.000000000\n"),
    ("clock\ttime\t1:05:09.25 PM", "13:05:09.250000000\n"),
    ("clock\ttime\t11:59:59 pM", "23:59:59.000000000\n"),
    (
        "clock\ttime\t12:05:xx am",
        "error: a character literal was not valid\n",
    ),
    (
        "clock\ttime\t12:05:09. am",
        "error: a character literal was not valid\n",
    ),
    (
        "clock\ttime\t12:05 xm",
        "error: the 'period' component could not be parsed\n",
    ),
    ("clock\tdate\t12:05 am", INSUFFICIENT),
    ("unix\ttimestamp\t-1", "-1000000000\n"),
    ("unix\ttimestamp\t+5", "5000000000\n"),
    (
        "unix\tdatetime\t-1",
        "1969-12-31 23:59:59.000000000 +00:00:00\n",
    ),
    (
        "unix\tdatetime\t253402300799",
        "9999-12-31 23:59:59.000000000 +00:00:00\n",
    ),
    ("unix\tutc\t0", "1970-01-01 00:00:00.000000000 +00:00:00\n"),
    (
        "unix\tstaged\t0",
        "1970-01-01 00:00:00.000000000 +00:00:00\n",
    ),
    ("unix\tdate\t0", INSUFFICIENT),
    ("unix\tplain\t0", INSUFFICIENT),
    (
        "local\tdatetime\t2021-01-02 03:04:05 -00:30",
        "2021-01-02 03:04:05.000000000 -00:30:00\n",
    ),
    ("local\toffset\t2021-01-02 03:04:05 -00:30", "-00:30:00\n"),
    (
        "local\ttimestamp\t1970-01-01 00:00:01 +00:00",
        "1000000000\n",
    ),
    ("local\tdate\t2020-366", "2020-12-31\n"),
    (
        "local\tdate\t2021-366",
        "error: ordinal is out of range for the other components\n",
    ),
    (
        "local\tdate\tx",
        "error: the 'year' component could not be parsed\n",
    ),
    (
        "local\tdate\t2020-366 ",
        "error: unexpected trailing characters; the end of input was expected\n",
    ),
    ("local\ttime\t2020-366", INSUFFICIENT),
    (
        "local\tdatetime\t2021-01-02 03:04:05 00:30",
        "error: the 'offset hour' component could not be parsed\n",
    ),
];

#[test]
fn whole_parses(rt: HostRuntime) {
    are_answered(&rt, &RFC3339);
    are_answered(&rt, &RFC2822);
    are_answered(&rt, &ISO8601);
    are_answered(&rt, &DESCRIBED);
}

// Texts of RFC 3339 and RFC 2822 as `datetime`, which is parsed on a direct path without a record, and as `staged`,
// which is parsed over an empty record.
mod two_paths {
    use crate::serving::run;
    use crate::tests::{Row as Line, are_answered, joined};
    use std::alloc::{AllocError, Global};

    /// A format, a text, and its answers as `datetime` and as `staged`.
    type Row = (&'static [u8], &'static [u8], &'static [u8], &'static [u8]);

    /// Whether `run` writes both answers of the row. `Err` if memory for its lines or answers runs out.
    fn are_both_answered(alloc: Global, row: &Row) -> Result<bool, AllocError> {
        let (format, text, without_record, over_record) = *row;
        let lines: [&[u8]; 7] = [
            format,
            b"\tdatetime\t",
            text,
            b"\n",
            format,
            b"\tstaged\t",
            text,
        ];
        let input = joined(alloc, &[(&lines, 1)])?;
        let answers: [&[u8]; 4] = [without_record, b"\n", over_record, b"\n"];
        let output = joined(alloc, &[(&answers, 1)])?;
        let mut found = Vec::new(alloc);
        Ok(run(input.as_slice(), &mut found).is_ok() && found.as_slice() == output.as_slice())
    }

    const LITERAL: &[u8] = b"error: a character literal was not valid";

    const TRAILING: &[u8] = b"error: unexpected trailing characters; the end of input was expected";

    const YEAR: &[u8] = b"error: the 'year' component could not be parsed";

    const MONTH: &[u8] = b"error: the 'month' component could not be parsed";

    const DAY: &[u8] = b"error: the 'day' component could not be parsed";

    const HOUR: &[u8] = b"error: the 'hour' component could not be parsed";

    const SECOND: &[u8] = b"error: the 'second' component could not be parsed";

    const OFFSET_HOUR: &[u8] = b"error: the 'offset hour' component could not be parsed";

    const OFFSET_MINUTE: &[u8] = b"error: the 'offset minute' component could not be parsed";

    const NO_LEAP_SECOND: &[u8] = b"error: second is out of range for the other components";

    const NO_DAY: &[u8] = b"error: day is out of range for the other components";

    static STAMPS: [Row; 13] = [
        (
            b"rfc3339",
            b"1985-04-12T23:20:50.52Z",
            b"1985-04-12 23:20:50.520000000 +00:00:00",
            b"1985-04-12 23:20:50.520000000 +00:00:00",
        ),
        (
            b"rfc3339",
            b"1990-12-31T15:59:60-08:00",
            b"1990-12-31 15:59:59.999999999 -08:00:00",
            b"1990-12-31 15:59:59.999999999 -08:00:00",
        ),
        (
            b"rfc3339",
            b"1990-12-30T23:59:60Z",
            NO_LEAP_SECOND,
            NO_LEAP_SECOND,
        ),
        (
            b"rfc3339",
            b"2021-13-01T00:00:00Z",
            b"error: month is out of range",
            MONTH,
        ),
        (b"rfc3339", b"2021-13-01T00:00:00Zx", TRAILING, MONTH),
        (
            b"rfc3339",
            b"9999-12-31T23:59:59.999999999-23:59",
            b"9999-12-31 23:59:59.999999999 -23:59:00",
            b"9999-12-31 23:59:59.999999999 -23:59:00",
        ),
        (
            b"rfc3339",
            b"2021-01-02T03:04:05.1234567899Z",
            b"2021-01-02 03:04:05.123456789 +00:00:00",
            b"2021-01-02 03:04:05.123456789 +00:00:00",
        ),
        (b"rfc3339", b"2021-01-02\xc3\xa903:04:05Z", HOUR, HOUR),
        (b"rfc3339", b"", YEAR, YEAR),
        (
            b"rfc3339",
            b"2021-01-02T03:04:05+05:60x",
            b"error: minutes is out of range",
            OFFSET_MINUTE,
        ),
        (b"rfc3339", b"2021-01-32T25:00:00Z", NO_DAY, DAY),
        (b"rfc3339", b"2021-00-01T00:00:00Z", MONTH, MONTH),
        (b"rfc3339", b"2021-01-00T00:00:00Z", NO_DAY, DAY),
    ];

    const SECOND_OF_JANUARY: &[u8] = b"2021-01-02 03:04:00.000000000 +00:00:00";

    static MAIL_DATES: [Row; 12] = [
        (
            b"rfc2822",
            b"Mon, 02 Jan 2021 03:04:05 +0607",
            b"2021-01-02 03:04:05.000000000 +06:07:00",
            b"2021-01-02 03:04:05.000000000 +06:07:00",
        ),
        (
            b"rfc2822",
            b"02 Jan 49 03:04 EST",
            b"2049-01-02 03:04:00.000000000 -05:00:00",
            b"2049-01-02 03:04:00.000000000 -05:00:00",
        ),
        (
            b"rfc2822",
            b"02 Jan 2021 03:04 -0030",
            b"2021-01-02 03:04:00.000000000 -00:30:00",
            b"2021-01-02 03:04:00.000000000 -00:30:00",
        ),
        (
            b"rfc2822",
            b"02 Jan 2021 03:04 GMT (x)",
            SECOND_OF_JANUARY,
            SECOND_OF_JANUARY,
        ),
        (
            b"rfc2822",
            b"02 (a(b\\)c)) Jan 2021 03:04 +0000",
            SECOND_OF_JANUARY,
            SECOND_OF_JANUARY,
        ),
        // A comment of 31 levels, the most that are parsed, and one of 32.
        (
            b"rfc2822",
            b"02 ((((((((((((((((((((((((((((((())))))))))))))))))))))))))))))) Jan 2021 03:04 +0000",
            SECOND_OF_JANUARY,
            SECOND_OF_JANUARY,
        ),
        (
            b"rfc2822",
            b"02 (((((((((((((((((((((((((((((((()))))))))))))))))))))))))))))))) Jan 2021 03:04 +0000",
            MONTH,
            MONTH,
        ),
        (b"rfc2822", b"02 Jan 2021\r03:04 +0000", LITERAL, LITERAL),
        (b"rfc2822", b"02 Jan 1899 03:04 +0000", YEAR, YEAR),
        (
            b"rfc2822",
            b"1 Jan 2021 24:00 GMT",
            b"error: hour is out of range",
            HOUR,
        ),
        (
            b"rfc2822",
            b"1 Jan 2021 03:04:61 GMT",
            b"error: second is out of range",
            SECOND,
        ),
        (
            b"rfc2822",
            b"1 Jan 2021 03:04 -2600",
            b"error: hours is out of range",
            OFFSET_HOUR,
        ),
    ];

    /// Texts of RFC 3339 and RFC 2822 for other targets, which are parsed over a record.
    static OTHER_TARGETS: [Line; 4] = [
        (
            "rfc3339\tutc\t9999-12-31T23:59:59.999999999-23:59",
            "10000-01-01 23:58:59.999999999 +00:00:00\n",
        ),
        (
            "rfc3339\ttimestamp\t9999-12-31T23:59:59.999999999-23:59",
            "253402387139999999999\n",
        ),
        (
            "rfc3339\ttime\t1990-12-31T23:59:60Z",
            "error: second is out of range\n",
        ),
        (
            "rfc2822\tutc\t02 Jan 2021 03:04 GMT (x)",
            "2021-01-02 03:04:00.000000000 +00:00:00\n",
        ),
    ];

    #[test]
    fn two_paths(rt: HostRuntime) {
        for row in &STAMPS {
            assert!(rt;
                are_both_answered(rt.alloc(), row) == Ok(true),
                "{:?}",
                row.1
            );
        }
        for row in &MAIL_DATES {
            assert!(rt;
                are_both_answered(rt.alloc(), row) == Ok(true),
                "{:?}",
                row.1
            );
        }
        are_answered(&rt, &OTHER_TARGETS);
    }
}

// Lines of the described formats, parsed by the trees of their items instead of the prepared descriptions.
mod walks {
    use super::DESCRIBED;
    use crate::serving::split_at_tab;
    use crate::tests::hostile::RANGE_ENDS;
    use crate::tests::hostile::wide_years::DESCRIBED_YEARS;
    use crate::tests::{Row, are_answered};
    use byte_streams::{Lent, Sink, Unwritten};
    use programs_answers::formats::{
        Target, clock_items, compound, date_items, find_target, first, fraction_items, local_items,
        second_items, unix,
    };
    use programs_answers::write_value;
    use std::alloc::Global;
    use std::process::Abort;

    /// Writes the answer by the format `clock`, without LF.
    fn write_clock<W: Sink>(target: Target, text: &[u8], out: &mut W) -> Result<(), Unwritten> {
        let fraction = fraction_items();
        let fraction = compound(&fraction);
        let seconds = second_items(&fraction);
        let seconds = compound(&seconds);
        write_value(&compound(&clock_items(&seconds)), target, text, out)
    }

    /// Writes the answer by the format `local`, without LF.
    fn write_local<W: Sink>(target: Target, text: &[u8], out: &mut W) -> Result<(), Unwritten> {
        let items = local_items();
        let (date_time, ordinal) = items.split_at(15);
        let lists = [compound(date_time), compound(ordinal)];
        write_value(&first(&lists), target, text, out)
    }

    /// Writes the answer to a line, parsed by the tree of its format, without LF. `None` if the format isn't a
    /// description, the target is unknown, a TAB is missing, or a write failed.
    fn write_walked<W: Sink>(line: &[u8], out: &mut W) -> Option<()> {
        let (format, rest) = split_at_tab(line)?;
        let (target, text) = split_at_tab(rest)?;
        let target = find_target(target)?;
        let written = match format {
            b"ymd" => write_value(&compound(&date_items()), target, text, out),
            b"clock" => write_clock(target, text, out),
            b"unix" => write_value(&unix(), target, text, out),
            b"local" => write_local(target, text, out),
            _ => return None,
        };
        written.ok()
    }

    /// Whether the tree of the line's format produces the output without its LF.
    fn is_walked(alloc: Global, line: &str, output: &str) -> bool {
        let mut text = Vec::new(alloc);
        let written = write_walked(line.as_bytes(), &mut Lent::new(&mut text));
        written == Some(()) && output.as_bytes().strip_suffix(b"\n") == Some(text.as_slice())
    }

    /// Checks the output of each row, by the tree and by the program.
    fn are_walked(rt: &(impl Abort + AllocGlobal), rows: &[Row]) {
        for (line, output) in rows {
            assert!(rt; is_walked(rt.alloc(), line, output), "{line:?}");
        }
        are_answered(rt, rows);
    }

    #[test]
    fn trees_of_described_formats(rt: HostRuntime) {
        are_walked(&rt, &DESCRIBED);
        are_walked(&rt, &DESCRIBED_YEARS);
        // The other rows are lines of ISO 8601, which has no tree.
        are_walked(&rt, &RANGE_ENDS[..4]);
    }
}
