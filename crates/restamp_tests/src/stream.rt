//! Streams rewritten line by line. The first byte of a line decides its action, by [`Marks`].
use byte_streams::{Counted, Sink, Unwritten};
use restamp_stream::{
    Block, LineAction, Output, Reports, Rewriting, Settings, Stop, Stream, Tally,
};
use std::alloc::Global;
use std::io;
use std::io::{ErrorKind, Read, Write};
use time_values::text::Text;

/// The first byte of a line decides its action: `@` is replaced by `now`, `#` drops the line, `!` rejects it, and `=`
/// inserts `now` after the front, which is the first `LIMIT` bytes of the line. A line that is empty or starts with
/// another byte has no timestamp. The reason of a rejected line is `bad`, at column 1.
pub struct Marks;

impl Rewriting for Marks {
    type Refusal = ();

    ghost use Rattle.std.specs.Prelude.{◌≡◌, length, slice_index, codes, if◌then◌else◌, ◌==◌};
    ghost use Rattle.std.proofs.Common.{sym, ◌∙◌};
    ghost use Rattle.restamp_stream.specs.Reports.{Without, Rewritten, Dropped, Refused};

    ghost is_action = { λ marks front action. action ≡ (
        let b = slice_index front 0 in
        if b == 64 then Rewritten 0 1 (record { items = codes "now" }) else
        if b == 61 then Rewritten (length front) (length front) (record { items = codes "now" }) else
        if b == 35 then Dropped else
        if b == 33 then Refused else Without) };

    ghost is_reason = { λ marks front column reason. (column ≡ 1) × (reason ≡ codes "bad") };

    ghost one_action = { λ x front a b p q. p ∙ sym q };

    ghost one_reason = { λ x front column other reason why p q. (p.0 ∙ sym q.0, p.1 ∙ sym q.1) };

    fn action(&self, front: &[u8], text: &mut Text) -> LineAction<()> {
        if front.is_empty() {
            return LineAction::Without;
        }
        *text = Text::new();
        text.append(b"now");
        let length = front.len();
        match front[0] {
            b'@' => LineAction::Rewritten { begin: 0, end: 1 },
            b'=' => LineAction::Rewritten {
                begin: length,
                end: length,
            },
            b'#' => LineAction::Dropped,
            b'!' => LineAction::Refused(()),
            _ => LineAction::Without,
        }
    }

    fn write_reason<L: Sink>(&self, _front: &[u8], log: &mut L) -> Result<(), Unwritten> {
        let column = 1u64;
        write!(log, "{column}: bad")
    }
}

/// Bytes that are read at most `most` at a time. Reads are counted from 0 in `reads`. If `interrupts` is true, each
/// read with an odd number is interrupted. The read with the number `fails_at` fails with the text `no read`.
#[derive(Drop)]
pub struct Source<'a> {
    bytes: &'a [u8],
    most: usize,
    reads: usize,
    fails_at: usize,
    interrupts: bool,
}

impl Read for Source<'_> {
    fn read(&mut self, buf: &mut [u8]) -> io::Result<usize> {
        let count = self.reads;
        self.reads = count.saturating_add(1);
        if count == self.fails_at {
            return Err(io::Error::new(ErrorKind::Other, "no read"));
        }
        if self.interrupts && count % 2 == 1 {
            return Err(io::Error::from(ErrorKind::Interrupted));
        }
        let n = self.bytes.len().min(self.most).min(buf.len());
        buf[..n].copy_from_slice(&self.bytes[..n]);
        self.bytes = &self.bytes[n..];
        Ok(n)
    }
}

/// The number of a read or write that is never made. As the most bytes of a read it is no limit.
pub const NEVER: usize = 1000000;

/// A source of these bytes, of which a read returns at most `most`. No read fails or is interrupted.
pub fn make_source(bytes: &[u8], most: usize) -> Source<'_> {
    Source {
        bytes,
        most,
        reads: 0,
        fails_at: NEVER,
        interrupts: false,
    }
}

/// Stores what is written. Writes are counted from 0 in `writes`. The write with the number `fails_at`, and each later
/// one, fails with the text `no write`.
#[derive(Drop)]
pub struct Page {
    text: Vec<u8>,
    writes: usize,
    fails_at: usize,
}

impl Page {
    /// No bytes yet. The write with the number `fails_at`, from 0, is the first that fails.
    pub fn new(alloc: Global, fails_at: usize) -> Page {
        Page {
            text: Vec::new(alloc),
            writes: 0,
            fails_at,
        }
    }
}

impl Write for Page {
    fn write(&mut self, buf: &[u8]) -> io::Result<usize> {
        if self.writes == self.fails_at {
            return Err(io::Error::new(ErrorKind::Other, "no write"));
        }
        self.writes = self.writes.saturating_add(1);
        self.text.extend_from_slice(buf)?;
        Ok(buf.len())
    }

    fn flush(&mut self) -> io::Result<()> {
        Ok(())
    }
}

/// All lines are written, and each rejected line is reported. Processing doesn't stop at it.
pub const ALL: Settings<'static> = Settings {
    output: Output::AllLines,
    suffix: b"",
    reports: Reports::First(u64::MAX),
    strict: false,
};

/// Only the new timestamps are written, each on a line, and nothing is reported.
pub const TIMES: Settings<'static> = Settings {
    output: Output::Times,
    suffix: b"",
    reports: Reports::Quiet,
    strict: false,
};

/// What was written, logged and counted, and how processing ended.
#[derive(Drop)]
pub struct Answer {
    pub out: Vec<u8>,
    pub log: Vec<u8>,
    pub tally: Tally,
    pub ended: Result<(), Stop>,
}

impl Answer {
    /// The output, the log and the counts of a stream, and how its processing ended.
    pub fn new(stream: Stream<Counted<Page>, Counted<Page>>, ended: Result<(), Stop>) -> Answer {
        let (out, log, tally) = stream.into_parts();
        let (out, _) = out.into_parts();
        let (log, _) = log.into_parts();
        let Page { text: out, .. } = out;
        let Page { text: log, .. } = log;
        Answer {
            out,
            log,
            tally,
            ended,
        }
    }

    /// Whether processing ended with that result, and those bytes were written and logged.
    pub fn is(&self, ended: Result<(), Stop>, out: &[u8], log: &[u8]) -> bool {
        self.ended == ended && self.out.as_slice() == out && self.log.as_slice() == log
    }
}

/// Processes the bytes of a source by [`Marks`] as a file of the name `f`, with those pages for the output and the log.
pub fn answer_on(out: Page, log: Page, settings: Settings<'_>, source: Source<'_>) -> Answer {
    let mut stream = Stream::new(Counted::new(out), Counted::new(log));
    let mut source = Counted::new(source);
    let ended = stream.serve(&Marks, settings, b"f", &mut source, &mut Block::new());
    Answer::new(stream, ended)
}

/// Processes the bytes of a source by [`Marks`] as a file of the name `f`. No write fails.
pub fn answer_to(alloc: Global, settings: Settings<'_>, source: Source<'_>) -> Answer {
    let out = Page::new(alloc, NEVER);
    let log = Page::new(alloc, NEVER);
    answer_on(out, log, settings, source)
}

// Lines of each action, with each setting, also if they are read a byte at a time.
mod lines {
    use crate::stream::{ALL, NEVER, Source, TIMES, answer_to, make_source};
    use restamp_stream::{Output, Reports, Settings, Tally};

    // Only rewritten lines are written, and nothing is reported.
    const REWRITTEN: Settings<'static> = Settings {
        output: Output::RewrittenLines,
        suffix: b"",
        reports: Reports::Quiet,
        strict: false,
    };

    // All lines are written, with the suffix after each new timestamp.
    const WITH_ZONE: Settings<'static> = Settings {
        suffix: b"[+01:00]",
        ..ALL
    };

    // Only the new timestamps are written, with the suffix after each.
    const ZONE_ALONE: Settings<'static> = Settings {
        suffix: b"[+01:00]",
        ..TIMES
    };

    // The settings, an input, the output, and the log.
    type Row = (
        Settings<'static>,
        &'static [u8],
        &'static [u8],
        &'static [u8],
    );

    static ROWS: [Row; 22] = [
        (ALL, b"", b"", b""),
        (ALL, b"\n", b"\n", b""),
        (ALL, b"a", b"a", b""),
        (ALL, b"@", b"now", b""),
        (ALL, b"@\n", b"now\n", b""),
        (ALL, b"@ a\n@ b", b"now a\nnow b", b""),
        (ALL, b"@ a\r\n\r\nb\r\n", b"now a\r\n\r\nb\r\n", b""),
        (ALL, b"a\x00b\n@\x00\n", b"a\x00b\nnow\x00\n", b""),
        (ALL, b"\x00\n\xff", b"\x00\n\xff", b""),
        (ALL, b"#\na\n#b", b"a\n", b""),
        (ALL, b"=ab\n=", b"=abnow\n=now", b""),
        (
            ALL,
            b"a\n!b\n\n!",
            b"a\n!b\n\n!",
            b"f:2:1: bad\nf:4:1: bad\n",
        ),
        (REWRITTEN, b"a\n@b\n!c\n#d\n@e", b"nowb\nnowe", b""),
        (REWRITTEN, b"a", b"", b""),
        (TIMES, b"a\n@b\n!c\n#d\n@e", b"now\nnow\n", b""),
        (TIMES, b"@", b"now\n", b""),
        (
            WITH_ZONE,
            b"@ a\nb\n!c",
            b"now[+01:00] a\nb\n!c",
            b"f:3:1: bad\n",
        ),
        (ZONE_ALONE, b"@ a\nb\n", b"now[+01:00]\n", b""),
        (TIMES, b"a\n\n", b"", b""),
        (TIMES, b"", b"", b""),
        (ALL, b"\n\n\n", b"\n\n\n", b""),
        (ALL, b"@@\n", b"now@\n", b""),
    ];

    // Reads each input at once, and then a byte at a time, with every second read interrupted.
    #[test]
    fn actions(rt: HostRuntime) {
        for (settings, input, out, log) in &ROWS {
            for (most, interrupts) in [(NEVER, false), (1, true)] {
                let source = Source {
                    interrupts,
                    ..make_source(input, most)
                };
                let got = answer_to(rt.alloc(), *settings, source);
                assert!(rt; got.is(Ok(()), out, log), "{most} of {input:?}");
            }
        }
    }

    // The counts of the seven lines of the test `counts`.
    const COUNTS: Tally = Tally {
        line: 7,
        refused_here: 2,
        lines: 7,
        rewritten: 2,
        without: 2,
        dropped: 1,
        refused: 2,
        unread: 0,
    };

    #[test]
    fn counts(rt: HostRuntime) {
        let source = make_source(b"a\n@b\n!c\n#d\n@e\n\n!", 4);
        assert!(rt; answer_to(rt.alloc(), ALL, source).tally == COUNTS);
    }
}

// Lines about as long as the limit, and many lines. `=` shows where the front ended.
mod long_lines {
    use crate::stream::{ALL, NEVER, TIMES, answer_to, make_source};
    use restamp_stream::{LIMIT, Settings, Tally};
    use std::alloc::Global;

    // A text, and how many times it is repeated.
    type Piece = (&'static [u8], usize);

    // The pieces one after the other; `None` if memory is short.
    fn joined(alloc: Global, pieces: &[Piece]) -> Option<Vec<u8>> {
        let mut bytes = Vec::new(alloc);
        for (text, count) in pieces {
            for _ in 0..*count {
                bytes.extend_from_slice(text).ok()?;
            }
        }
        Some(bytes)
    }

    // The counts of an input, read at most `most` bytes at a time; `None` unless the output is `out` and nothing is
    // logged.
    fn counted(
        alloc: Global,
        settings: Settings<'_>,
        input: &[Piece],
        most: usize,
        out: &[Piece],
    ) -> Option<Tally> {
        let input = joined(alloc, input)?;
        let out = joined(alloc, out)?;
        let got = answer_to(alloc, settings, make_source(input.as_slice(), most));
        if got.is(Ok(()), out.as_slice(), b"") {
            Some(got.tally)
        } else {
            None
        }
    }

    // How many `x` are in a front that begins with `=`, and how many after it. The lines have 1, LIMIT - 1, LIMIT,
    // LIMIT + 1 and 2 * LIMIT + 3 bytes.
    static LENGTHS: [(usize, usize); 5] = [
        (0, 0),
        (LIMIT - 2, 0),
        (LIMIT - 1, 0),
        (LIMIT - 1, 1),
        (LIMIT - 1, LIMIT + 3),
    ];

    // What ends the line, the output for that, and how many bytes a read returns at most.
    static ENDINGS: [(&[u8], &[u8], usize); 3] = [
        (b"\n", b"\n", LIMIT),
        (b"", b"", 65536),
        (b"\n@ b\n", b"\nnow b\n", 100003),
    ];

    #[test]
    fn lengths_about_the_limit(rt: HostRuntime) {
        for (front, after) in &LENGTHS {
            for (ending, wanted, most) in &ENDINGS {
                let input: [Piece; 4] = [(b"=", 1), (b"x", *front), (b"x", *after), (*ending, 1)];
                let out: [Piece; 5] = [
                    (b"=", 1),
                    (b"x", *front),
                    (b"now", 1),
                    (b"x", *after),
                    (*wanted, 1),
                ];
                let tally = counted(rt.alloc(), ALL, &input, *most, &out);
                assert!(rt; tally.is_some(), "{front}, {after}, {most}");
            }
        }
    }

    // The settings, an input, the output, how many bytes a read returns at most, how many lines there are, and how many
    // of them are rewritten.
    type Row = (
        Settings<'static>,
        &'static [Piece],
        &'static [Piece],
        usize,
        u64,
        u64,
    );

    // A long line that is dropped, one whose timestamp alone is written, and many lines of 3 bytes, which fill the
    // block twice and the buffered output many times.
    static ROWS: [Row; 3] = [
        (
            ALL,
            &[(b"#", LIMIT + 5), (b"\na\n", 1)],
            &[(b"a\n", 1)],
            LIMIT,
            2,
            0,
        ),
        (TIMES, &[(b"@", 3 * LIMIT)], &[(b"now\n", 1)], LIMIT, 1, 1),
        (
            ALL,
            &[(b"@a\n", 200000)],
            &[(b"nowa\n", 200000)],
            NEVER,
            200000,
            200000,
        ),
    ];

    #[test]
    fn long_and_many_lines(rt: HostRuntime) {
        for (settings, input, out, most, lines, rewritten) in &ROWS {
            let tally = counted(rt.alloc(), *settings, input, *most, out).unwrap_or(Tally::new());
            assert!(rt;
                tally.lines == *lines && tally.rewritten == *rewritten,
                "{tally:?}"
            );
        }
    }
}

// Reads and writes that fail, and the first rejected line if processing stops at it.
mod failures {
    use crate::stream::{ALL, NEVER, Page, Source, answer_on, answer_to, make_source};
    use restamp_stream::{Output, Reports, Settings, Stop};

    // Processing stops at the first rejected line, which is reported and isn't written.
    const STRICT: Settings<'static> = Settings {
        output: Output::AllLines,
        suffix: b"",
        reports: Reports::First(10),
        strict: true,
    };

    // Which read fails, from 0, and the output before it. The reads are `@a`, LF `@`, `b` `!`, LF `#`, `c` LF and `d`:
    // whole lines are processed before the next read.
    static READS: [(usize, &[u8]); 6] = [
        (0, b""),
        (1, b""),
        (2, b"nowa\n"),
        (3, b"nowa\n"),
        (4, b"nowa\nnowb!\n"),
        (5, b"nowa\nnowb!\n"),
    ];

    #[test]
    fn each_read_fails(rt: HostRuntime) {
        for (fails_at, out) in &READS {
            let source = Source {
                fails_at: *fails_at,
                ..make_source(b"@a\n@b!\n#c\nd", 2)
            };
            let got = answer_to(rt.alloc(), ALL, source);
            let is_unread = got.is(Err(Stop::Unread), out, b"f: no read\n");
            assert!(rt; is_unread && got.tally.unread == 1, "{fails_at}");
        }
    }

    // Which write of the output fails, from 0, and which of a report: the name, the line's number, the reason and LF.
    // `NEVER` if none does.
    static WRITES: [(usize, usize); 6] = [
        (0, NEVER),
        (1, NEVER),
        (NEVER, 0),
        (NEVER, 1),
        (NEVER, 2),
        (NEVER, 3),
    ];

    #[test]
    fn each_write_fails(rt: HostRuntime) {
        for (out, log) in &WRITES {
            let out = Page::new(rt.alloc(), *out);
            let log = Page::new(rt.alloc(), *log);
            let got = answer_on(out, log, ALL, make_source(b"@a\n!b\nc", 3));
            assert!(rt; got.ended == Err(Stop::Unwritten), "{:?}", got.out);
        }
    }

    // An input, the output, and the log.
    static REFUSED: [(&[u8], &[u8], &[u8]); 3] = [
        (b"@a\n#\n!b\n@c\n", b"nowa\n", b"f:3:1: bad\n"),
        (b"!", b"", b"f:1:1: bad\n"),
        (b"a\n!", b"a\n", b"f:2:1: bad\n"),
    ];

    #[test]
    fn stops_at_a_refused_line(rt: HostRuntime) {
        for (input, out, log) in &REFUSED {
            for most in [1, 4, NEVER] {
                let got = answer_to(rt.alloc(), STRICT, make_source(input, most));
                let is_refused = got.is(Err(Stop::Refused), out, log);
                assert!(rt; is_refused && got.tally.refused == 1, "{most} of {input:?}");
            }
        }
    }
}

// Several files with one tally.
mod files {
    use crate::stream::{ALL, Answer, Marks, NEVER, Page, Source, make_source};
    use byte_streams::Counted;
    use restamp_stream::{Block, Opening, Stream, Tally, status};
    use std::io;
    use std::io::ErrorKind;

    // The source of a file: `a`, `b`, or `half`, whose second read fails. No other file exists.
    fn source_of(name: &[u8]) -> io::Result<Source<'static>> {
        match name {
            b"a" => Ok(make_source(b"@1\n!2\n", NEVER)),
            b"b" => Ok(make_source(b"3\n!4", NEVER)),
            b"half" => Ok(Source {
                fails_at: 1,
                ..make_source(b"@5\n@6", NEVER)
            }),
            _ => Err(io::Error::from(ErrorKind::NotFound)),
        }
    }

    // Opens the files of `source_of`, and counts in `faults` those that were not opened or not read to their end.
    #[derive(Drop)]
    struct Shelf {
        faults: u64,
    }

    impl Opening for Shelf {
        type Input = Counted<Source<'static>>;

        ghost use Rattle.std.specs.Prelude.{None};

        ghost bytes_of = { λ shelf name. None };

        ghost faults = { λ shelf. shelf.faults };

        fn open(&mut self, name: &[u8]) -> io::Result<Counted<Source<'static>>> {
            match source_of(name) {
                Ok(source) => Ok(Counted::new(source)),
                Err(error) => {
                    self.faults = self.faults.saturating_add(1);
                    Err(error)
                }
            }
        }

        fn close(&mut self, input: Counted<Source<'static>>) {
            self.faults = input.count_cut_off(self.faults);
        }
    }

    // The names of the files in the order in which they are processed. The second one doesn't exist, and contains a
    // control byte.
    const NAMES: [&[u8]; 4] = [b"a", b"no\x1bne", b"half", b"b"];

    // The counts of all files. `line` and `refused_here` are those of the last file.
    const COUNTS: Tally = Tally {
        line: 2,
        refused_here: 1,
        lines: 5,
        rewritten: 2,
        without: 1,
        dropped: 0,
        refused: 2,
        unread: 2,
    };

    #[test]
    fn several_files(rt: HostRuntime) {
        let out = Counted::new(Page::new(rt.alloc(), NEVER));
        let log = Counted::new(Page::new(rt.alloc(), NEVER));
        let mut stream = Stream::new(out, log);
        let mut shelf = Shelf { faults: 0 };
        let ended = stream.serve_files(&Marks, ALL, &NAMES, &mut shelf, &mut Block::new());
        let got = Answer::new(stream, ended);
        let out = b"now1\n!2\nnow5\n3\n!4";
        let log = b"a:2:1: bad\nno\\x1bne: entity not found\nhalf: no read\nb:2:1: bad\n";
        assert!(rt; got.is(Ok(()), out, log));
        assert!(rt; got.tally == COUNTS && status(&got.tally, None, false) == 2);
        assert!(rt; shelf.faults == 2);
    }
}

// How names are displayed.
mod names {
    use crate::stream::{ALL, Answer, Marks, NEVER, Page, make_source};
    use byte_streams::Counted;
    use restamp_stream::{Block, Reports, Settings, Stream, write_escaped, write_name};
    use std::alloc::Global;

    // A name, how the log displays it, and how it is displayed in ASCII.
    static DISPLAYED: [(&[u8], &[u8], &[u8]); 9] = [
        (b"app.log", b"app.log", b"app.log"),
        (b"", b"", b""),
        (b"\x1b[2Ja", b"\\x1b[2Ja", b"\\x1b[2Ja"),
        (b"a\nb", b"a\\x0ab", b"a\\x0ab"),
        (b"\r\t\x00", b"\\x0d\\x09\\x00", b"\\x0d\\x09\\x00"),
        // The first and the last control byte, and their neighbours.
        (
            b"\x1f \x7e\x7f\x80",
            b"\\x1f ~\\x7f\x80",
            b"\\x1f ~\\x7f\\x80",
        ),
        // A backslash is unchanged.
        (b"a\\x1b", b"a\\x1b", b"a\\x1b"),
        // `é` in UTF-8, and in Latin-1.
        (b"caf\xc3\xa9", b"caf\xc3\xa9", b"caf\\xc3\\xa9"),
        (b"caf\xe9\xff", b"caf\xe9\xff", b"caf\\xe9\\xff"),
    ];

    // Whether those bytes were written, without an error.
    fn is_written(text: Counted<Vec<u8>>, expected: &[u8]) -> bool {
        let (text, error) = text.into_parts();
        error.is_none() && text.as_slice() == expected
    }

    // Whether the name is displayed as `shown`, and in ASCII as `ascii`.
    fn is_displayed(alloc: Global, name: &[u8], shown: &[u8], ascii: &[u8]) -> bool {
        let mut all = Counted::new(Vec::new(alloc));
        let mut text = Counted::new(Vec::new(alloc));
        let mut plain = Counted::new(Vec::new(alloc));
        write_name(name, &mut all).is_ok()
            && write_escaped(false, name, &mut text).is_ok()
            && write_escaped(true, name, &mut plain).is_ok()
            && is_written(all, shown)
            && is_written(text, shown)
            && is_written(plain, ascii)
    }

    #[test]
    fn displayed_names(rt: HostRuntime) {
        for (name, shown, ascii) in &DISPLAYED {
            assert!(rt; is_displayed(rt.alloc(), name, shown, ascii), "{name:?}");
        }
    }

    // Each report of a file displays its name as `write_name` does.
    #[test]
    fn reports(rt: HostRuntime) {
        for (most, log) in [
            (
                2,
                b"a\\x1b\\x0a\xff:1:1: bad\na\\x1b\\x0a\xff:2:1: bad\n".as_slice(),
            ),
            (
                1,
                b"a\\x1b\\x0a\xff:1:1: bad\na\\x1b\\x0a\xff: 1 more line was rejected\n".as_slice(),
            ),
            (
                0,
                b"a\\x1b\\x0a\xff: 2 more lines were rejected\n".as_slice(),
            ),
        ] {
            let settings = Settings {
                reports: Reports::First(most),
                ..ALL
            };
            let out = Counted::new(Page::new(rt.alloc(), NEVER));
            let reported = Counted::new(Page::new(rt.alloc(), NEVER));
            let mut stream = Stream::new(out, reported);
            let mut source = Counted::new(make_source(b"!\n!\n", NEVER));
            let ended = stream.serve(
                &Marks,
                settings,
                b"a\x1b\n\xff",
                &mut source,
                &mut Block::new(),
            );
            assert!(rt;
                Answer::new(stream, ended).is(Ok(()), b"!\n!\n", log),
                "{log:?}"
            );
        }
    }
}

// How many rejected lines are reported, and the exit status.
mod reports {
    use crate::stream::{ALL, answer_to, make_source};
    use restamp_stream::{Reports, Settings, Stop, Tally, status};

    // How many rejected lines are reported at most, and the log of an input with rejected lines 1, 3 and 4.
    static LOGS: [(Reports, &[u8]); 6] = [
        (Reports::Quiet, b""),
        (Reports::First(0), b"f: 3 more lines were rejected\n"),
        (
            Reports::First(1),
            b"f:1:1: bad\nf: 2 more lines were rejected\n",
        ),
        (
            Reports::First(2),
            b"f:1:1: bad\nf:3:1: bad\nf: 1 more line was rejected\n",
        ),
        (Reports::First(3), b"f:1:1: bad\nf:3:1: bad\nf:4:1: bad\n"),
        (
            Reports::First(u64::MAX),
            b"f:1:1: bad\nf:3:1: bad\nf:4:1: bad\n",
        ),
    ];

    #[test]
    fn names_the_first(rt: HostRuntime) {
        let input = b"!\na\n!\n!\n";
        for (reports, log) in &LOGS {
            let settings = Settings {
                reports: *reports,
                ..ALL
            };
            let got = answer_to(rt.alloc(), settings, make_source(input, 3));
            assert!(rt;
                got.is(Ok(()), input, log) && got.tally.refused == 3,
                "{log:?}"
            );
        }
    }

    // How many lines were rewritten and rejected, how many files were unread, why processing stopped, whether it was
    // strict, and the exit status.
    static STATUSES: [(u64, u64, u64, Option<Stop>, bool, u8); 7] = [
        (0, 0, 0, None, false, 1),
        (0, 0, 0, None, true, 1),
        (1, 1, 0, None, false, 0),
        (1, 1, 0, None, true, 2),
        (1, 1, 0, Some(Stop::Unwritten), false, 2),
        (0, 0, 0, Some(Stop::Refused), true, 2),
        (1, 0, 1, None, false, 2),
    ];

    #[test]
    fn statuses(rt: HostRuntime) {
        for (rewritten, refused, unread, stop, strict, wanted) in &STATUSES {
            let tally = Tally {
                rewritten: *rewritten,
                refused: *refused,
                unread: *unread,
                ..Tally::new()
            };
            assert!(rt; status(&tally, *stop, *strict) == *wanted, "{tally:?}");
        }
    }
}
