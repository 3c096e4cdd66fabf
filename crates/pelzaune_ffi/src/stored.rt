//! Descriptions that C stores by value: they are parsed once, and then parse many texts.
mod fast;

ghost use Rattle.std.specs.Prelude.{◌≡◌, ◌⊎◌, ◌-◌, ◌<◌, ◌≤◌, [], Ok, Err, MatchResult, true, false, length, map};
ghost use Rattle.time_values.specs.Calendar.{greatest_year};
ghost use Rattle.time_values.specs.Refusal.{refusal_of_parsed};
ghost use Rattle.time_values.specs.declared.error.TryFromParsed.{TryFromParsed as TryFromParsed_};
ghost use Rattle.time_components.specs.Tree.{steps_shape, steps_trees};
ghost use Rattle.time_record.specs.Reading.{Answers, Reads, Refuses};
ghost use Rattle.time_record.specs.Record.{Record};
ghost use Rattle.time_record.specs.WalkSteps.{Resumes};
ghost use Rattle.time_parsing.specs.Outcome.{begun, IsWhole, over_record, seen};
ghost use Rattle.time_parsing.specs.exact.Laws.{tree_exact};
ghost use Rattle.pelzaune_ffi.specs.Described as Described;
ghost use Rattle.pelzaune_ffi.specs.Described.{StoresDescription, stored_tree};

use crate::descriptions::{MOST_STEPS, fault_status, read_description, syntax_of};
use crate::status::{TOO_LONG, UNKNOWN_SYNTAX};
use crate::steps::{StoredStep, step_of, stored_step};
use arrayvec::ArrayVec;
use std::convert::TryFrom;
use time_components::Step;
use time_parsing::{Parsable, begin, value_before};
use time_preparing::Prepared;
use time_record::Parsed;
use time_values::error::{Parse, ParseFromDescription, TryFromParsed};
use time_values::{Date, OffsetDateTime, PlainDateTime, Time};

/// A parsed description of up to [`MOST_STEPS`] steps, in the layout of C.
#[repr(C)]
#[derive(Clone, Copy)]
pub struct StoredDescription {
    /// How many of `steps` are in use, from the first. A number above the array's length counts as that length.
    pub count: usize,
    /// The steps, in the order of the description.
    pub steps: [StoredStep; MOST_STEPS],
}

// The steps that the stored steps encode, in their order.
pub(crate) fn steps_of(stored: &[StoredStep]) -> ArrayVec<Step, MOST_STEPS>
    requires { length stored.now ≤ MOST_STEPS }
    ensures { result.items ≡ map Described.step_of stored.now }
{
    let mut steps = ArrayVec::new();
    for step in stored {
        steps.push(step_of(*step));
    }
    steps
}

// Stores the steps and returns `true`. `false`: there are more than `MOST_STEPS`, and nothing is stored.
fn store_steps(steps: &[Step], stored: &mut StoredDescription) -> bool
    ensures yes { result ≡ true → Described.steps_of stored.new ≡ steps.now }
    ensures no { result ≡ false → (stored.new ≡ stored.old) × (MOST_STEPS < length steps.now) }
{
    if steps.len() > MOST_STEPS {
        return false;
    }
    for (index, step) in steps.iter().enumerate() {
        stored.steps[index] = stored_step(*step);
    }
    stored.count = steps.len();
    true
}

// Parses a prefix of the input into the record, step by step, up to the first step that `fast::read_step` doesn't
// parse. Returns the steps from that one on, which are none if all were parsed, and the unread bytes.
#[inline(always)]
fn read_front<'s, 'a>(
    steps: &'s [StoredStep],
    parsed: &mut Parsed,
    input: &'a [u8],
) -> (&'s [StoredStep], &'a [u8])
    ensures fewer { length result.0.now ≤ length steps.now }
    ensures progress { Resumes greatest_year (steps_trees (map Described.step_of steps.now)) input.now parsed.old
        (length steps.now - length result.0.now) (steps_trees (map Described.step_of result.0.now)) result.1.now parsed.new }
{
    let mut left = steps;
    let mut rest = input;
    while let [step, behind @ ..] = left {
        match fast::read_step(step, behind, parsed, rest) {
            Some(unread) => rest = unread,
            None => return (left, rest),
        }
        left = behind;
    }
    (left, rest)
}

// The stored steps in use: the first `count`, or all if there are fewer.
#[inline(always)]
pub(crate) fn steps_in_use(stored: &StoredDescription) -> &[StoredStep]
    ensures steps { map Described.step_of result.now ≡ Described.steps_of stored.now }
    ensures fits { length result.now ≤ MOST_STEPS }
{
    &stored.steps[..stored.count.min(MOST_STEPS)]
}

/// Prepares a stored description for parsing many texts.
pub fn prepare(stored: &StoredDescription) -> Prepared<MOST_STEPS>
    ensures { result ≡ Described.steps_of stored.now }
{
    match Prepared::from_steps(steps_of(steps_in_use(stored)).as_slice()) {
        Some(prepared) => prepared,
        None => unreachable!(),
    }
}

// Parses a prefix of the input into the record by the remaining steps, and returns the unread rest. An error leaves the
// record unchanged. Not inlined, so that only this call takes the stack for the converted steps.
#[inline(never)]
fn read_left<'a>(
    left: &[StoredStep],
    parsed: &mut Parsed,
    input: &'a [u8],
) -> Result<&'a [u8], ParseFromDescription>
    requires { length left.now ≤ MOST_STEPS }
    ensures { Answers greatest_year (steps_shape (map Described.step_of left.now)) input.now parsed.old result parsed.new }
{
    parsed.parse_steps(input, steps_of(left).as_slice())
}

// Parses a prefix of the input into the record, and returns the unread rest. An error restores the record.
fn read_stored<'a>(
    stored: &StoredDescription,
    parsed: &mut Parsed,
    input: &'a [u8],
) -> Result<&'a [u8], ParseFromDescription>
    ensures { Answers greatest_year (stored_tree stored.now) input.now parsed.old result parsed.new }
{
    let before = *parsed;
    let (left, unread) = read_front(steps_in_use(stored), parsed, input);
    let [_, ..] = left else {
        return Ok(unread);
    };
    match read_left(left, parsed, unread) {
        Ok(rest) => Ok(rest),
        Err(fault) => {
            *parsed = before;
            Err(fault)
        }
    }
}

// The value of the whole input, which is parsed into a record that starts with the defaults, or empty for `None`. An
// error: the input doesn't match, bytes remain, or the record doesn't resolve to a `V`.
#[inline(always)]
fn over_record<V: TryFrom<Parsed, Error = TryFromParsed> + Drop>(
    stored: &StoredDescription,
    input: &[u8],
    defaults: Option<Parsed>,
) -> Result<V, Parse>
    ensures { MatchResult (seen result)
        (λ v. (r : Record) × Reads greatest_year (stored_tree stored.now) input.now (begun defaults) [] r
        × V.try_from_gives r (Ok v))
        (λ e. IsWhole (Reads greatest_year (stored_tree stored.now)) (Refuses greatest_year (stored_tree stored.now))
        input.now (begun defaults) (Err e)
        ⊎ ((r : Record) × Reads greatest_year (stored_tree stored.now) input.now (begun defaults) [] r
        × ((f : TryFromParsed_) × V.try_from_gives r (Err f) × (e ≡ refusal_of_parsed f)))) }
{
    let mut parsed = begin(defaults);
    match read_stored(stored, &mut parsed, input) {
        Ok(rest) => value_before::<V>(rest, &parsed),
        Err(fault) => Err(fault.into()),
    }
}

impl Parsable for StoredDescription {
    ghost reads = { λ s. Reads greatest_year (stored_tree s) };

    ghost refuses = { λ s. Refuses greatest_year (stored_tree s) };

    ghost path = { λ _. over_record };

    fn parse_into<'a>(&self, input: &'a [u8], parsed: &mut Parsed) -> Result<&'a [u8], Parse> {
        match read_stored(self, parsed, input) {
            Ok(rest) => Ok(rest),
            Err(e) => Err(e.into()),
        }
    }

    #[inline(always)]
    fn parse_date(&self, input: &[u8], defaults: Option<Parsed>) -> Result<Date, Parse> {
        if defaults.is_none() {
            if let Some(value) = fast::date(steps_in_use(self), input) {
                return Ok(value);
            }
        }
        over_record::<Date>(self, input, defaults)
    }

    #[inline(always)]
    fn parse_time(&self, input: &[u8], defaults: Option<Parsed>) -> Result<Time, Parse> {
        if defaults.is_none() {
            if let Some(value) = fast::time(steps_in_use(self), input) {
                return Ok(value);
            }
        }
        over_record::<Time>(self, input, defaults)
    }

    #[inline(always)]
    fn parse_plain_date_time(
        &self,
        input: &[u8],
        defaults: Option<Parsed>,
    ) -> Result<PlainDateTime, Parse> {
        if defaults.is_none() {
            if let Some(value) = fast::date_time(steps_in_use(self), input) {
                return Ok(value);
            }
        }
        over_record::<PlainDateTime>(self, input, defaults)
    }

    #[inline(always)]
    fn parse_offset_date_time(
        &self,
        input: &[u8],
        defaults: Option<Parsed>,
    ) -> Result<OffsetDateTime, Parse> {
        if defaults.is_none() {
            if let Some(value) = fast::moment(steps_in_use(self), input) {
                return Ok(value);
            }
        }
        over_record::<OffsetDateTime>(self, input, defaults)
    }

    ghost exact = { λ s. tree_exact greatest_year (stored_tree s) };

    ghost exact_path = { λ _. tt };
}

/// Parses a description in the syntax with this number and stores it in `out`. Returns 0; or the status of an error,
/// and leaves `out` unchanged. Stores the byte index of the description's first fault in `index`; with the status 0,
/// [`TOO_LONG`] for more than [`MOST_STEPS`] steps, or [`UNKNOWN_SYNTAX`] for an unknown syntax, `index` is unchanged.
#[inline(always)]
pub fn describe(syntax: u32, text: &[u8], out: &mut StoredDescription, index: &mut usize) -> u32
    ensures { StoresDescription (Described.syntax_of syntax) text.now result out.old out.new index.old index.new }
{
    match syntax_of(syntax) {
        Some(syntax) => match read_description(syntax, text) {
            Ok(description) => {
                if store_steps(description.steps(), out) {
                    0
                } else {
                    TOO_LONG
                }
            }
            Err(error) => {
                *index = error.index().unwrap_or(*index);
                fault_status(error)
            }
        },
        None => UNKNOWN_SYNTAX,
    }
}
