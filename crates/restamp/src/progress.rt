//! Reports on standard error how far a long file was read.
ghost use Rattle.std.specs.Prelude.{◌≡◌, ◌≤◌, ◌+◌, ◌-◌, ◌^◌, ◌↔◌, min, length, IsTrue, IfSome, Some, string_bytes};
ghost use Rattle.std.specs.Time.{instant_nanos};
ghost use Rattle.restamp_stream.specs.Reports.{displayed_name};
ghost use Rattle.restamp.specs.Progress as spec;

use byte_streams::Counted;
use restamp_stream::write_name;
use std::alloc::Global;
use std::cell::Cell;
use std::fmt;
use std::time::{Clock, Duration, Instant};

/// The least number of milliseconds from one report to the next.
const INTERVAL: u64 = 500;

const MEBIBYTE: u64 = 1048576;

/// The most bytes of a name in a line of the terminal, which has 80 columns.
const MOST: usize = 40;

/// How progress is reported on standard error.
#[derive(Clone, Copy)]
pub(crate) enum Reporter {
    /// It isn't reported.
    Nothing,
    /// Each report is a new line.
    Lines,
    /// Each report overwrites one line of the terminal.
    OneLine,
}

// All of a text of at most 40 bytes; of a longer one, the longest end of at most 40 that starts with a whole character.
fn end_of(text: &str) -> &str
    ensures end { spec.IsEnd text.now result.now }
    ensures bound { length result.now ≤ 40 }
{
    &text[text.ceil_char_boundary(text.len().saturating_sub(MOST))..]
}

// A name with each ASCII control byte as `\x` and two hexadecimal digits; `None` if memory is short or the name isn't
// UTF-8. This is not a fast path.
fn displayed_name(alloc: Global, name: &[u8]) -> Option<String>
    ensures { IfSome result (λ shown. string_bytes shown ≡ displayed_name name.now) }
{
    let mut shown = Counted::new(Vec::new(alloc));
    write_name(name, &mut shown).ok()?;
    let (shown, _) = shown.into_parts();
    String::from_utf8(shown).ok()
}

// The displayed name of a file in progress reports, for `OneLine` only its end of at most 40 bytes; `None` if memory is
// short or the name isn't UTF-8: not a fast path.
fn reported_name(alloc: Global, reporter: Reporter, name: &[u8]) -> Option<String>
    ensures { IfSome result (λ reported. spec.IsReported reporter name.now (string_bytes reported)) }
{
    let shown = displayed_name(alloc, name)?;
    match reporter {
        Reporter::OneLine => String::from_str(alloc, end_of(shown.as_str())).ok(),
        Reporter::Nothing | Reporter::Lines => Some(shown),
    }
}

/// How far a file was read, and when that was last reported.
#[derive(Drop)]
pub(crate) struct Meter {
    // The file's name in reports.
    name: String,
    // The file's size in bytes, if known.
    size: Option<u64>,
    // How many bytes were read.
    read: u64,
    // How many bytes had been read at the last report; 0 before the first report.
    reported: u64,
    // When the last report was made, or before the first report, when the meter was made.
    since: Instant,
}

impl Meter {
    /// Adds `n` to the count of bytes that were read, which stops at 2^64 - 1.
    pub(crate) fn count(&mut self, n: usize)
        ensures read { self.new.read ≡ min (self.old.read + n) (2 ^ 64 - 1) }
        ensures reported { self.new.reported ≡ self.old.reported }
        ensures since { self.new.since ≡ self.old.since }
    {
        self.read = self.read.saturating_add(n as u64);
    }

    // Whether at least 1 MiB was read since the last report, or in all before the first report.
    fn has_more(&self) -> bool
        ensures { IsTrue result ↔ 2 ^ 20 ≤ self.now.read - self.now.reported }
    {
        MEBIBYTE <= self.read.saturating_sub(self.reported)
    }

    // Whether at least half a second has passed from the last report, or without one from the meter's start, to `now`.
    fn is_old(&self, now: Instant) -> bool
        ensures { IsTrue result ↔ 500000000 ≤ instant_nanos now - instant_nanos self.now.since }
    {
        Duration::from_millis(INTERVAL) <= now.duration_since(self.since)
    }

    // Records that all bytes read so far were reported at `now`.
    fn renew(&mut self, now: Instant)
        ensures read { self.new.read ≡ self.old.read }
        ensures reported { self.new.reported ≡ self.old.read }
        ensures since { self.new.since ≡ now }
    {
        self.reported = self.read;
        self.since = now;
    }
}

impl fmt::Display for Meter {
    ghost output = { λ m. Some (spec.progress_text (string_bytes m.name) m.read m.size) };

    fn fmt<W: fmt::Write>(&self, f: &mut fmt::Formatter<W>) -> fmt::Result {
        let read = self.read / MEBIBYTE;
        match self.size {
            Some(size) => write!(
                f,
                "restamp: {}: {read} of {} MiB",
                self.name,
                size / MEBIBYTE
            ),
            None => write!(f, "restamp: {}: {read} MiB", self.name),
        }
    }
}

/// Reports how far files were read. It ignores failed writes.
#[derive(Drop)]
pub(crate) struct Progress<'a, R> {
    rt: &'a R,
    reporter: Reporter,
    // Whether a progress line is on the terminal.
    stands: Cell<bool>,
}

impl<'a, R: Clock + Eprint> Progress<'a, R> {
    /// Reports by `reporter`. No progress line is on the terminal yet.
    pub(crate) fn new(rt: &'a R, reporter: Reporter) -> Progress<'a, R> {
        Progress {
            rt,
            reporter,
            stands: Cell::new(false),
        }
    }

    /// Whether progress is reported.
    pub(crate) fn is_enabled(&self) -> bool {
        !matches!(self.reporter, Reporter::Nothing)
    }

    /// The meter of a file of that size in bytes, if known, before its first read; `None` if memory is short, the name
    /// isn't UTF-8, or there is no clock. The file is then read without reports: this is not a fast path.
    pub(crate) fn begin(&self, alloc: Global, name: &[u8], size: Option<u64>) -> Option<Meter>
        ensures { IfSome result (λ meter. spec.IsReported self.now.reporter name.now (string_bytes meter.name)) }
    {
        Some(Meter {
            name: reported_name(alloc, self.reporter, name)?,
            size,
            read: 0,
            reported: 0,
            since: Instant::now(self.rt).ok()?,
        })
    }

    /// Reports how far a file was read, if at least 1 MiB was read and half a second has passed since the last report.
    /// Before the first report, both count from `begin`. Reports nothing if there is no clock.
    #[inline(never)]
    pub(crate) fn report(&self, meter: &mut Meter) {
        if !meter.has_more() {
            return;
        }
        let Ok(now) = Instant::now(self.rt) else {
            return;
        };
        if meter.is_old(now) {
            meter.renew(now);
            self.write(meter);
        }
    }

    // Writes a report by `reporter`: not at all, as a new line, or over the progress line. A failed write is ignored.
    fn write(&self, meter: &Meter) {
        let _ = match self.reporter {
            Reporter::Nothing => Ok(()),
            Reporter::Lines => eprintln!(self.rt; "{meter}"),
            Reporter::OneLine => {
                self.stands.set(true);
                eprint!(self.rt; "\r\x1b[K{meter}")
            }
        };
    }

    /// Erases the progress line, if one is on the terminal.
    #[inline(never)]
    pub(crate) fn erase(&self) {
        if self.stands.replace(false) {
            let _ = eprint!(self.rt; "\r\x1b[K");
        }
    }
}
