//! The answer to a line.
//!
//! `fast` splits lines with known names in one pass, and is tried first. `split_request` handles every line, field by
//! field. It has the same result for the lines that `fast` splits, so without `fast` each line has the same answer, in
//! more steps.
ghost use Rattle.std.specs.Prelude.{ℕ, List, OnOk, MatchResult};
ghost use Rattle.programs_answers.specs.Formats.{AreOfFormats};
ghost use Rattle.programs_answers.specs.Output.{IsParsed, Writes};
ghost use Rattle.time_lines.specs.Output.{IsAnswer};

mod fast;

use crate::serving::split_at_tab;
use byte_streams::{Sink, Unwritten};
use programs_answers::formats::{Format, Target, find_format, find_target};
use programs_answers::{LineHandler, Named};

// The request of a line: a format, a target and a text; or else the answer to a line that makes no request.
type Request<'a> = Result<(Format, Target, &'a [u8]), &'static [u8]>;

// The request of the line, found field by field; or else the answer `error: line` without two TABs, `error: format`
// for an unknown format, or `error: target` for an unknown target, checked in that order.
#[cold]
#[inline(never)]
#[tactic(auto, unfolding(crate::specs::Output::IsAnswer))]
fn split_request(line: &[u8]) -> Request<'_>
    ensures { MatchResult result
        (λ request. (answer : List ℕ) → IsParsed request.0 request.1 request.2.now answer
        → IsAnswer line.now answer)
        (λ error. IsAnswer line.now error.now) }
{
    let Some((format, rest)) = split_at_tab(line) else {
        return Err(b"error: line".as_slice());
    };
    let Some((target, text)) = split_at_tab(rest) else {
        return Err(b"error: line".as_slice());
    };
    let Some(format) = find_format(format) else {
        return Err(b"error: format".as_slice());
    };
    let Some(target) = find_target(target) else {
        return Err(b"error: target".as_slice());
    };
    Ok((format, target, text))
}

/// Answers a line of a format's name, TAB, a target's name, TAB and a text with the value or error of parsing the text.
/// With fewer TABs the answer is `error: line`, else `error: format` for an unknown format, or else `error: target`.
#[derive(Drop)]
pub struct Fields {
    named: Named,
}

impl Fields {
    /// Prepares the descriptions of the formats that lines may name, and allocates nothing.
    pub fn new() -> Fields
        ensures { AreOfFormats result.named }
    {
        Fields {
            named: Named::new(),
        }
    }
}

impl LineHandler for Fields {
    ghost is_answer = { λ _. IsAnswer };

    #[inline(always)]
    fn write_answer<W: Sink>(&self, line: &[u8], out: &mut W) -> Result<(), Unwritten> {
        let (format, target, text) = match fast::request(line) {
            Some(request) => request,
            None => match split_request(line) {
                Ok(request) => request,
                Err(error) => return out.write_all(error),
            },
        };
        self.named.write_parsed(format, target, text, out)
    }
}
