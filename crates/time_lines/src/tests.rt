//! Lines and their answers, and the handling of failed reads, writes and allocations.
use crate::serving::{run, serve, serve_in};
use linked_list_allocator::LocalHeap;
use programs_answers::Stop;
use refusing::Refusing;
use std::alloc::{AllocError, Global};
use std::io;
use std::io::{ErrorKind, Read, Write};
use std::ops::Range;
use std::process::Abort;

mod hostile;
mod whole_parses;

/// An input and its output.
type Row = (&'static str, &'static str);

/// Whether `run` writes exactly this output for the input.
fn is_answered(alloc: Global, input: &str, output: &str) -> bool {
    let mut text = Vec::new(alloc);
    run(input.as_bytes(), &mut text).is_ok() && text.as_slice() == output.as_bytes()
}

/// Checks that `run` writes the output of each row for its input.
fn are_answered(rt: &(impl Abort + AllocGlobal), rows: &[Row]) {
    for (input, output) in rows {
        assert!(rt; is_answered(rt.alloc(), input, output), "{input:?}");
    }
}

static FIRST_PATH: [Row; 21] = [
    // An empty line, and one whose target is unknown.
    ("\nrfc3339\tx\ty", "error: line\nerror: target\n"),
    (
        "rfc3339\tstaged\t1990-12-31T15:59:60-08:00",
        "1990-12-31 15:59:59.999999999 -08:00:00\n",
    ),
    (
        "rfc3339\tstaged\t1990-12-30T23:59:60Z",
        "error: second is out of range for the other components\n",
    ),
    (
        "rfc3339\tstaged\t1985-04-12T23:20:50.52Z",
        "1985-04-12 23:20:50.520000000 +00:00:00\n",
    ),
    (
        "rfc3339\tstaged\t0000-02-29T23:59:59z",
        "0000-02-29 23:59:59.000000000 +00:00:00\n",
    ),
    (
        "rfc3339\tstaged\t9999-12-31T23:59:59.999999999-23:59",
        "9999-12-31 23:59:59.999999999 -23:59:00\n",
    ),
    (
        "rfc3339\tstaged\t2021-02-29T00:00:00Z",
        "error: day is out of range for the other components\n",
    ),
    (
        "rfc3339\tstaged\t2021-13-01T00:00:00Z",
        "error: the 'month' component could not be parsed\n",
    ),
    (
        "rfc3339\tstaged\t2021-13-01T00:00:00Zx",
        "error: the 'month' component could not be parsed\n",
    ),
    (
        "rfc3339\tstaged\t2021-01-02T03:04:05.1234567899Z",
        "2021-01-02 03:04:05.123456789 +00:00:00\n",
    ),
    (
        "rfc3339\tstaged\t2021-01-02\u{e9}03:04:05Z",
        "error: the 'hour' component could not be parsed\n",
    ),
    (
        "rfc3339\tstaged\t",
        "error: the 'year' component could not be parsed\n",
    ),
    (
        "rfc3339\tstaged\t2021-01-02",
        "error: the 'separator' component could not be parsed\n",
    ),
    (
        "rfc3339\tstaged\t2021-01-02T03:04:05.Z",
        "error: the 'subsecond' component could not be parsed\n",
    ),
    (
        "rfc3339\tstaged\t2021-01-02T03:04:05+24:00",
        "error: the 'offset hour' component could not be parsed\n",
    ),
    (
        "rfc3339\tstaged\t2021-01-02T03:04:05+05:60",
        "error: the 'offset minute' component could not be parsed\n",
    ),
    (
        "rfc3339\tstaged\t2021-01-02T03:04:05-00:30",
        "2021-01-02 03:04:05.000000000 -00:30:00\n",
    ),
    (
        "rfc3339\tstaged\t2021-01-02T03:04:60Z",
        "error: second is out of range for the other components\n",
    ),
    (
        "rfc3339\tstaged\t2021-01-02T03:04:05Zx",
        "error: unexpected trailing characters; the end of input was expected\n",
    ),
    (
        "rfc3339\tstaged\t2021-1-02T03:04:05Z",
        "error: the 'month' component could not be parsed\n",
    ),
    (
        "rfc3339\tstaged\t2021/01-02T03:04:05Z",
        "error: a character literal was not valid\n",
    ),
];

#[test]
fn first_path(rt: HostRuntime) {
    are_answered(&rt, &FIRST_PATH);
}

static UNKNOWN_NAMES: [Row; 9] = [
    ("", ""),
    ("\n", "error: line\n"),
    ("rfc3339\tstaged", "error: line\n"),
    ("x\ty\tz", "error: format\n"),
    ("x\tstaged\tz", "error: format\n"),
    ("rfc3339\tx\tz", "error: target\n"),
    ("rfc3339\tstage\tz", "error: target\n"),
    ("rfc3339 \tstaged\tz\n", "error: format\n"),
    (
        "rfc3339\tstaged\t2021-01-02T03:04:05Z\t\n",
        "error: unexpected trailing characters; the end of input was expected\n",
    ),
];

#[test]
fn unknown_names(rt: HostRuntime) {
    are_answered(&rt, &UNKNOWN_NAMES);
}

/// Yields at most `most` bytes a read. The read at index `fails_at`, and each later one, fails as interrupted.
#[derive(Drop)]
struct Source<'a> {
    bytes: &'a [u8],
    most: usize,
    reads: usize,
    fails_at: usize,
}

impl Read for Source<'_> {
    fn read(&mut self, buf: &mut [u8]) -> io::Result<usize> {
        if self.reads == self.fails_at {
            return Err(io::Error::from(ErrorKind::Interrupted));
        }
        self.reads = self.reads.saturating_add(1);
        let most = self.most.min(buf.len());
        self.bytes.read(&mut buf[..most])
    }
}

/// The result of a call, and the number of its successful writes.
type Report = (Result<(), Stop>, usize);

/// Accepts writes of the expected text only. The write at index `fails_at`, and each later one, fails.
#[derive(Drop)]
struct Page<'a> {
    rest: &'a [u8],
    writes: usize,
    fails_at: usize,
}

impl Page<'_> {
    /// The result with the number of successful writes. `None` if the call succeeded without writing all of the text.
    fn report(&self, answer: Result<(), Stop>) -> Option<Report> {
        if answer.is_ok() && !self.rest.is_empty() {
            return None;
        }
        Some((answer, self.writes))
    }
}

impl Write for Page<'_> {
    fn write(&mut self, buf: &[u8]) -> io::Result<usize> {
        match self.rest.strip_prefix(buf) {
            Some(rest) if self.writes < self.fails_at => {
                self.writes += 1;
                self.rest = rest;
                Ok(buf.len())
            }
            _ => Err(io::Error::from(ErrorKind::Other)),
        }
    }

    fn flush(&mut self) -> io::Result<()> {
        Ok(())
    }
}

// An allocator with one failing allocation.
mod refusing {
    use std::alloc::{AllocError, Allocator};
    use std::cell::Cell;

    /// Passes each call on to another allocator, except for one allocation, which fails.
    pub struct Refusing<B: Allocator> {
        inner: B,
        // The number of allocations before the one that fails, or 18446744073709551615 after that one has failed.
        left: Cell<u64>,
    }

    impl<B: Allocator> Refusing<B> {
        /// An allocator that fails one allocation, after a given number of others.
        pub fn new(inner: B, left: u64) -> Refusing<B> {
            Refusing {
                inner,
                left: Cell::new(left),
            }
        }

        /// Whether it has failed an allocation.
        pub fn has_refused(&self) -> bool {
            self.left.get() == u64::MAX
        }
    }

    impl<B: Allocator> Drop for Refusing<B> {
        fn drop(self) {
            let Self { inner: _, left: _ } = self;
        }
    }

    // Counts an allocation, and returns whether it is the one to fail.
    fn is_due(left: &Cell<u64>) -> bool {
        match left.get() {
            u64::MAX => false,
            0 => {
                left.set(u64::MAX);
                true
            }
            n => {
                left.set(n - 1);
                false
            }
        }
    }

    unsafe impl<B: Allocator> Allocator for Refusing<B> {
        ghost dealloc_token = { λ heap ty ptr. B.dealloc_token heap.inner ty ptr };

        fn allocate(&self, size: usize, align: usize) -> Result<*mut u8, AllocError> {
            if is_due(&self.left) {
                return Err(AllocError);
            }
            self.inner.allocate(size, align)
        }

        unsafe fn deallocate(&self, ptr: *mut u8, size: usize, align: usize) {
            self.inner.deallocate(ptr, size, align);
        }
    }
}

// The index of no read and no write, since the tests make fewer.
const NEVER: usize = 1000000;

/// The result of `run` if the write at this index fails.
fn run_report(input: &[u8], output: &[u8], fails_at: usize) -> Option<Report> {
    let mut page = Page {
        rest: output,
        writes: 0,
        fails_at,
    };
    match run(input, &mut page) {
        Ok(()) => page.report(Ok(())),
        Err(_) => page.report(Err(Stop::Unwritten)),
    }
}

/// The result of `serve` if the write at this index fails.
fn serve_report(
    alloc: Global,
    mut source: Source<'_>,
    output: &[u8],
    fails_at: usize,
) -> Option<Report> {
    let mut page = Page {
        rest: output,
        writes: 0,
        fails_at,
    };
    let answer = serve(alloc, &mut source, &mut page);
    page.report(answer)
}

/// The result of `serve_in` with this many bytes of memory.
fn serve_report_within(
    alloc: Global,
    size: usize,
    mut source: Source<'_>,
    output: &[u8],
) -> Option<Report> {
    let heap = LocalHeap::new(alloc, size).ok()?;
    let mut page = Page {
        rest: output,
        writes: 0,
        fails_at: NEVER,
    };
    let answer = serve_in(&heap, &mut source, &mut page);
    page.report(answer)
}

/// The result of `serve_in` if one allocation fails after a given number of others, and whether it was reached.
fn serve_report_but_for(
    alloc: Global,
    left: u64,
    mut source: Source<'_>,
    output: &[u8],
) -> Option<(Report, bool)> {
    let heap = Refusing::new(alloc, left);
    let mut page = Page {
        rest: output,
        writes: 0,
        fails_at: NEVER,
    };
    let answer = serve_in(&heap, &mut source, &mut page);
    Some((page.report(answer)?, heap.has_refused()))
}

/// Fails the first allocation, then in a new run the second, and so on, until a run meets no failure and writes the
/// output.
fn try_allocations(rt: &(impl Abort + AllocGlobal), input: &[u8], output: &[u8], most: usize) {
    for left in 0..64 {
        let source = Source {
            bytes: input,
            most,
            reads: 0,
            fails_at: NEVER,
        };
        match serve_report_but_for(rt.alloc(), left, source, output) {
            Some(((Err(Stop::Memory), 0), true)) => {}
            Some(((Ok(()), 1), false)) => {
                assert!(rt; left > 0);
                return;
            }
            _ => panic!(rt; "{left}"),
        }
    }
    panic!(rt; "too many allocations");
}

/// Fails each read in turn, in a new run: there are `reads`, of at most `most` bytes. Each failure is reported, and a
/// run without one writes the output.
fn try_reads(
    rt: &(impl Abort + AllocGlobal),
    input: &[u8],
    output: &[u8],
    (most, reads): (usize, usize),
) {
    for fails_at in 0..=reads {
        let source = Source {
            bytes: input,
            most,
            reads: 0,
            fails_at,
        };
        let wanted = if fails_at < reads {
            (Err(Stop::Unread), 0)
        } else {
            (Ok(()), 1)
        };
        assert!(rt;
            serve_report(rt.alloc(), source, output, NEVER) == Some(wanted),
            "{most} {fails_at}"
        );
    }
}

/// Fails each write in turn, in a new run of `run` and of `serve`: there are `writes`. Each failure is reported, and a
/// run without one writes the output.
fn try_writes(
    rt: &(impl Abort + AllocGlobal),
    input: &[u8],
    output: &[u8],
    (most, writes): (usize, usize),
) {
    for fails_at in 0..=writes {
        let source = Source {
            bytes: input,
            most,
            reads: 0,
            fails_at: NEVER,
        };
        let answer = if fails_at < writes {
            Err(Stop::Unwritten)
        } else {
            Ok(())
        };
        let wanted = Some((answer, fails_at));
        assert!(rt; run_report(input, output, fails_at) == wanted, "{fails_at}");
        assert!(rt;
            serve_report(rt.alloc(), source, output, fails_at) == wanted,
            "{most} {fails_at}"
        );
    }
}

/// Tries heaps of these sizes, each a number of units of `unit` bytes. Some are too small, and some suffice.
fn try_sizes(
    rt: &(impl Abort + AllocGlobal),
    input: &[u8],
    output: &[u8],
    most: usize,
    (unit, sizes): (usize, Range<usize>),
) {
    let mut refuses = false;
    let mut serves = false;
    for size in sizes {
        let source = Source {
            bytes: input,
            most,
            reads: 0,
            fails_at: NEVER,
        };
        match serve_report_within(rt.alloc(), unit.saturating_mul(size), source, output) {
            Some((Ok(()), 1)) => serves = true,
            Some((Err(Stop::Memory), 0)) => refuses = true,
            _ => panic!(rt; "{size}"),
        }
    }
    assert!(rt; refuses && serves);
}

// Three lines: one without a TAB, one with an unknown target, and one with a value, without LF at its end.
const INPUT: &[u8] = b"\nrfc3339\tx\ty\nrfc3339\tstaged\t1985-04-12T23:20:50.52Z";

// The answers to `INPUT`.
const OUTPUT: &[u8] = b"error: line\nerror: target\n1985-04-12 23:20:50.520000000 +00:00:00\n";

#[test]
fn statuses(rt: HostRuntime) {
    for (stop, status) in [(Stop::Unread, 2), (Stop::Memory, 2), (Stop::Unwritten, 1)] {
        assert!(rt; stop.status() == status, "{status}");
    }
    try_reads(&rt, INPUT, OUTPUT, (1, INPUT.len() + 1));
    try_writes(&rt, INPUT, OUTPUT, (1, 1));
    try_writes(&rt, INPUT, OUTPUT, (65536, 1));
    try_allocations(&rt, INPUT, OUTPUT, 1);
    try_sizes(&rt, INPUT, OUTPUT, 1, (1, 64..400));
}

/// Whether `run` writes the output into a buffer, and nothing after it.
fn fills(input: &[u8], output: &[u8]) -> bool {
    let mut text = [0_u8; 512];
    let mut out = io::Cursor::new(&mut text[..]);
    let answer = run(input, &mut out);
    answer.is_ok() && text.starts_with(output) && text.get(output.len()) == Some(&0)
}

#[test]
fn allocates_nothing(rt: HostRuntime) {
    assert!(rt; fills(INPUT, OUTPUT));
}

/// Texts that follow one another, and how often the whole is repeated.
type Part<'a> = (&'a [&'a [u8]], usize);

/// The text of all parts, one after another.
fn joined(alloc: Global, parts: &[Part<'_>]) -> Result<Vec<u8>, AllocError> {
    let mut text = Vec::new(alloc);
    for (pieces, times) in parts {
        for _ in 0..*times {
            for piece in *pieces {
                text.extend_from_slice(piece)?;
            }
        }
    }
    Ok(text)
}

/// Fails each write in turn for an input of these parts, as `try_writes` does: there are `writes`.
fn try_parts(
    rt: &(impl Abort + AllocGlobal),
    input: &[Part<'_>],
    output: &[Part<'_>],
    writes: usize,
) {
    let input = joined(rt.alloc(), input).expect(rt, "memory");
    let output = joined(rt.alloc(), output).expect(rt, "memory");
    try_writes(rt, input.as_slice(), output.as_slice(), (BUFFER, writes));
}

#[test]
fn failed_writes(rt: HostRuntime) {
    try_parts(&rt, &[(&[INPUT, b"\n"], 2000)], &[(&[OUTPUT], 2000)], 3);
}

/// How many bytes the program reads at once, and how many bytes of its output it buffers.
const BUFFER: usize = 65536;

// 5459 answers of 12 bytes and two of 14 exactly fill the output buffer.
const _: () = prove!(5459 * 12 + 2 * 14 == BUFFER);

#[test]
fn full_buffer(rt: HostRuntime) {
    for (more, writes) in [(0, 1), (1, 2), (2, 2)] {
        let input: [Part<'_>; 3] = [(&[b"\n"], 5459), (&[b"x\ty\t\n"], 2), (&[b"\n"], more)];
        let output: [Part<'_>; 3] = [
            (&[b"error: line\n"], 5459),
            (&[b"error: format\n"], 2),
            (&[b"error: line\n"], more),
        ];
        try_parts(&rt, &input, &output, writes);
    }
}

// Lengths of a line in bytes, some of them about the size of a buffer.
const LENGTHS: [usize; 10] = [
    0,
    1,
    127,
    128,
    129,
    BUFFER - 1,
    BUFFER,
    BUFFER + 1,
    2 * BUFFER,
    200000,
];

#[test]
fn long_lines(rt: HostRuntime) {
    for length in LENGTHS {
        let input: [Part<'_>; 3] = [
            (&[INPUT, b"\n"], 1),
            (&[b"x"], length),
            (&[b"\n", INPUT], 1),
        ];
        try_parts(&rt, &input, &[(&[OUTPUT, b"error: line\n", OUTPUT], 1)], 1);
    }
}
