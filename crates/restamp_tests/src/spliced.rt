//! Replaces each byte of a line by a text of each length. No byte occurs twice, so that a misplaced byte is detected.
use crate::stream::{ALL, Answer, NEVER, Page, make_source};
use byte_streams::{Counted, Sink, Unwritten};
use restamp_stream::{Block, LineAction, Rewriting, Stream};
use std::alloc::Global;
use time_values::text::Text;

// The line, without an LF.
static LINE: &[u8] = b"abcdefghijklmnopqrstuvwxyz0123456789ABCDEFGHIJ";

// The text, of 35 bytes, which is the most that a `Text` contains.
static TEXT: &[u8] = b"KLMNOPQRSTUVWXYZ+-*/=<>()[]{}!?.,:;";

// Replaces the byte at `place` by the text. A line without that byte has no timestamp. A text of more than 35 bytes
// rejects the line.
#[derive(Clone, Copy)]
struct At {
    place: usize,
    text: &'static [u8],
}

impl Rewriting for At {
    type Refusal = ();

    ghost use Rattle.std.specs.Prelude.{◌≡◌, ◌+◌, codes, length, nat_lt, if◌then◌else◌};
    ghost use Rattle.std.proofs.Common.{sym, ◌∙◌};
    ghost use Rattle.restamp_stream.specs.Reports.{Without, Rewritten, Refused};

    ghost is_action = { λ at front action. action ≡ (
        if nat_lt at.place (length front) then
        if nat_lt (length at.text.now) 36 then Rewritten at.place (at.place + 1) (record { items = at.text.now }) else Refused
        else Without) };

    ghost is_reason = { λ at front column reason. (column ≡ 1) × (reason ≡ codes "bad") };

    ghost one_action = { λ x front a b p q. p ∙ sym q };

    ghost one_reason = { λ x front column other reason why p q. (p.0 ∙ sym q.0, p.1 ∙ sym q.1) };

    fn action(&self, front: &[u8], text: &mut Text) -> LineAction<()> {
        if front.len() <= self.place {
            return LineAction::Without;
        }
        if 35 < self.text.len() {
            return LineAction::Refused(());
        }
        *text = Text::new();
        text.append(self.text);
        LineAction::Rewritten {
            begin: self.place,
            end: self.place + 1,
        }
    }

    fn write_reason<L: Sink>(&self, _front: &[u8], log: &mut L) -> Result<(), Unwritten> {
        let column = 1u64;
        write!(log, "{column}: bad")
    }
}

// The output, the log and the counts of processing `LINE` by `at`.
fn answer(alloc: Global, at: &At) -> Answer {
    let out = Counted::new(Page::new(alloc, NEVER));
    let log = Counted::new(Page::new(alloc, NEVER));
    let mut stream = Stream::new(out, log);
    let mut source = Counted::new(make_source(LINE, NEVER));
    let ended = stream.serve(at, ALL, b"f", &mut source, &mut Block::new());
    Answer::new(stream, ended)
}

// Whether `out` is `LINE` with the byte at `place` replaced by the text.
fn is_spliced(out: &[u8], at: &At) -> bool {
    let (Some(front), Some(behind)) = (LINE.get(..at.place), LINE.get(at.place..)) else {
        return false;
    };
    let Some(rest) = out.strip_prefix(front) else {
        return false;
    };
    match behind.split_first() {
        Some((_, behind)) => rest.strip_prefix(at.text) == Some(behind),
        None => false,
    }
}

#[test]
fn each_length(rt: HostRuntime) {
    for place in 0..LINE.len() {
        for length in 0..TEXT.len() + 1 {
            let at = At {
                place,
                text: &TEXT[..length],
            };
            let got = answer(rt.alloc(), &at);
            assert!(rt; is_spliced(got.out.as_slice(), &at), "{length} at {place}");
        }
    }
}
