//! Lines at the ends of the range of years, and every error that the program may meet.
use super::{Row, are_answered, fills, joined, try_allocations, try_parts, try_reads, try_sizes};

/// Rows for the first instants of the years -9999 and -999999, and for instants before the latter.
pub(super) static RANGE_ENDS: [Row; 7] = [
    (
        "unix\tdatetime\t-377705116800",
        "-9999-01-01 00:00:00.000000000 +00:00:00\n",
    ),
    (
        "local\tdatetime\t-9999-01-01 00:00:00 +00:01",
        "-9999-01-01 00:00:00.000000000 +00:01:00\n",
    ),
    (
        "unix\tdatetime\t-31619087596800",
        "-999999-01-01 00:00:00.000000000 +00:00:00\n",
    ),
    (
        "unix\tdatetime\t-31619087596801",
        "error: the 'unix_timestamp' component could not be parsed\n",
    ),
    (
        "iso8601\tdatetime\t-999999-01-01T00:00:00+00:01",
        "-999999-01-01 00:00:00.000000000 +00:01:00\n",
    ),
    (
        "iso8601\tutc\t-999999-01-01T00:00:00+00:01",
        "error: year is out of range for the other components\n",
    ),
    (
        "iso8601\ttimestamp\t-999999-01-01T00:00:00+00:01",
        "error: the `Parsed` struct did not include enough information to construct the type\n",
    ),
];

#[test]
fn range_ends(rt: HostRuntime) {
    are_answered(&rt, &RANGE_ENDS);
}

// Lines whose values, or whose rejected texts, have years of more than four digits.
pub(super) mod wide_years {
    use crate::tests::{Row, are_answered};

    const UNIX_TIMESTAMP: &str = "error: the 'unix_timestamp' component could not be parsed\n";

    static LINES: [Row; 9] = [
        (
            "rfc3339\tutc\t9999-12-31T23:59:59.999999999-23:59",
            "10000-01-01 23:58:59.999999999 +00:00:00\n",
        ),
        (
            "rfc3339\ttimestamp\t9999-12-31T23:59:59.999999999-23:59",
            "253402387139999999999\n",
        ),
        ("iso8601\tdate\t9999-W52-6", "10000-01-01\n"),
        ("iso8601\tdate\t+012345-01-02", "12345-01-02\n"),
        ("iso8601\tdate\t-012345-01-02", "-12345-01-02\n"),
        (
            "iso8601\tplain\t+100000-01-02T03",
            "100000-01-02 03:00:00.000000000\n",
        ),
        (
            "iso8601\tdatetime\t+999999-12-31T23:59:59-00:01",
            "999999-12-31 23:59:59.000000000 -00:01:00\n",
        ),
        (
            "iso8601\tutc\t+999999-12-31T23:59:59-00:01",
            "error: year is out of range for the other components\n",
        ),
        (
            "iso8601\tdate\t+999999-W52-6",
            "error: weekday is out of range for the other components\n",
        ),
    ];

    /// Lines of the formats `unix` and `local`, which are descriptions, with values or rejected texts whose years have
    /// more than four digits.
    pub(in crate::tests) static DESCRIBED_YEARS: [Row; 8] = [
        (
            "unix\tdatetime\t253402300800",
            "10000-01-01 00:00:00.000000000 +00:00:00\n",
        ),
        (
            "unix\tdatetime\t-377705116801",
            "-10000-12-31 23:59:59.000000000 +00:00:00\n",
        ),
        (
            "unix\tdatetime\t31494784780799",
            "999999-12-31 23:59:59.000000000 +00:00:00\n",
        ),
        ("unix\tdatetime\t31494784780800", UNIX_TIMESTAMP),
        (
            "unix\tdatetime\t-31619087596800",
            "-999999-01-01 00:00:00.000000000 +00:00:00\n",
        ),
        ("unix\tdatetime\t-31619087596801", UNIX_TIMESTAMP),
        (
            "local\tutc\t-9999-01-01 00:00:00 +00:01",
            "-10000-12-31 23:59:00.000000000 +00:00:00\n",
        ),
        (
            "local\ttimestamp\t-9999-01-01 00:00:00 +00:01",
            "-377705116860000000000\n",
        ),
    ];

    #[test]
    fn wide_years(rt: HostRuntime) {
        are_answered(&rt, &LINES);
        are_answered(&rt, &DESCRIBED_YEARS);
    }
}

// A line of each format, a rejected one, and an empty one.
const LINES: &[u8] = b"rfc3339\tdatetime\t1985-04-12T23:20:50.52Z
rfc2822\tstaged\tMon, 02 Jan 2021 03:04:05 +0607
iso8601\tdate\t2020-W53-6
ymd\tdate\t-0044-03-15
clock\ttime\t1:05:09.25 PM
unix\ttimestamp\t-1
local\toffset\t2021-01-02 03:04:05 -00:30
rfc3339\tstaged\t2021-13-01T00:00:00Z

";

// The answers to `LINES`.
const ANSWERS: &[u8] = b"1985-04-12 23:20:50.520000000 +00:00:00
2021-01-02 03:04:05.000000000 +06:07:00
2021-01-02
-0044-03-15
13:05:09.250000000
-1000000000
-00:30:00
error: the 'month' component could not be parsed
error: line
";

// Reading the input grows a buffer several times. Each of these allocations fails in turn, and then some of the heaps
// are too small. `run` has no allocator, and writes its output without one.
#[test]
fn hostile_program(rt: HostRuntime) {
    let input = joined(rt.alloc(), &[(&[LINES], 40)]).expect(&rt, "memory");
    let output = joined(rt.alloc(), &[(&[ANSWERS], 40)]).expect(&rt, "memory");
    try_allocations(&rt, input.as_slice(), output.as_slice(), 1024);
    try_sizes(
        &rt,
        input.as_slice(),
        output.as_slice(),
        1024,
        (512, 1..129),
    );
    assert!(rt; fills(LINES, ANSWERS));
}

// The lines have 253 bytes, and one read more finds their end.
#[test]
fn hostile_program_unread(rt: HostRuntime) {
    for most_and_reads in [(1, 254), (7, 38), (100, 4)] {
        try_reads(&rt, LINES, ANSWERS, most_and_reads);
    }
}

// 205000 bytes of answers fill the output buffer of 65536 bytes three times, and part of a fourth.
#[test]
fn hostile_program_unwritten(rt: HostRuntime) {
    try_parts(&rt, &[(&[LINES], 1000)], &[(&[ANSWERS], 1000)], 4);
}
