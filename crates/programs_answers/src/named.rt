//! The formats that a line may name, with their descriptions prepared for many texts.
ghost use Rattle.std.specs.Prelude.{◌≡◌, ◌∷◌, [], OnOk, map};
ghost use Rattle.time_components.specs.Tree.{borrowed_shape, steps_shape, first_of, sequence, trees};
ghost use Rattle.time_preparing.specs.Items.{Prepares};
ghost use Rattle.byte_streams.specs.Faults.{HasCause};
ghost use Rattle.programs_answers.specs.Formats as formats;
ghost use Rattle.programs_answers.specs.Output.{IsDescribed, IsParsed, Writes};

use crate::answers::write_value;
use crate::formats::{
    Format, Target, clock_items, compound, date_items, first, fraction_items, local_items,
    second_items, unix,
};
use byte_streams::{Sink, Unwritten};
use std::marker::Model;
use time_components::BorrowedFormatItem;
use time_parsing::{Iso8601, Rfc2822, Rfc3339};
use time_preparing::{Prepared, Unprepared};

/// The descriptions of the formats `Ymd`, `Clock` and `Local`, prepared for many texts. Other formats aren't prepared.
#[derive(Drop)]
pub struct Named {
    ymd: Prepared<5>,
    clock: Prepared<11>,
    local: Prepared<21>,
}

impl Model for Named {
    ghost use Rattle.std.specs.Prelude.{◌≡◌, ◌∷◌, []};
    ghost use Rattle.time_components.specs.Tree.{steps_shape, sequence, trees};
    ghost use Rattle.programs_answers.specs.Formats as formats;

    ghost Value = { formats.Descriptions };

    ghost view = { λ named. record { ymd = named.ymd; clock = named.clock; local = named.local } };

    ghost invariant = { λ named. (steps_shape named.ymd ≡ formats.ymd) × (steps_shape named.clock ≡ formats.clock)
        × (steps_shape named.local ≡ sequence (trees (formats.local ∷ []))) };
}

// The prepared description of a date, as `2021-03-04`.
fn ymd() -> Prepared<5>
    ensures { steps_shape result ≡ formats.ymd }
{
    match Prepared::from_items(&date_items()) {
        Ok(prepared) => prepared,
        Err(_) => unreachable!(),
    }
}

// The prepared description of a time on a clock of 12 hours, as `1:05:09.25 PM`; the second and its fraction are
// optional.
fn clock() -> Prepared<11>
    ensures { steps_shape result ≡ formats.clock }
{
    let fraction = fraction_items();
    let fraction = compound(&fraction);
    let seconds = second_items(&fraction);
    let seconds = compound(&seconds);
    match Prepared::from_items(&clock_items(&seconds)) {
        Ok(prepared) => prepared,
        Err(_) => unreachable!(),
    }
}

// The prepared description of a choice: it parses by the first of these items that matches. `Err` is the error of
// `Prepared::from_items`, as `TooLong` for more than 21 steps.
fn choice(lists: &[BorrowedFormatItem<'_>]) -> Result<Prepared<21>, Unprepared>
    ensures { Prepares 21 (trees (first_of (trees (map borrowed_shape lists.now)) ∷ [])) result }
{
    Prepared::from_items(&[first(lists)])
}

// The prepared description of a date, time and offset, or of a year and a day of the year.
fn local() -> Prepared<21>
    ensures { steps_shape result ≡ sequence (trees (formats.local ∷ [])) }
{
    let items = local_items();
    let (date_time, ordinal) = items.split_at(15);
    match choice(&[compound(date_time), compound(ordinal)]) {
        Ok(prepared) => prepared,
        Err(_) => unreachable!(),
    }
}

impl Named {
    /// Prepares the descriptions of the formats `Ymd`, `Clock` and `Local`, and allocates nothing.
    pub fn new() -> Named
        ensures { formats.AreOfFormats result }
    {
        Named {
            ymd: ymd(),
            clock: clock(),
            local: local(),
        }
    }

    // Parses the whole text by the format `Local` for the target, as a date, time and offset, or as a year and a day of
    // the year, and writes the value, or `error: ` and the error's text, without LF.
    #[inline(always)]
    fn write_local<W: Sink>(
        &self,
        target: Target,
        text: &[u8],
        out: &mut W,
    ) -> Result<(), Unwritten>
        ensures bytes { OnOk result (Writes (IsDescribed formats.local target text.now)
            (W.contents out.old) (W.contents out.new)) }
        ensures cause { HasCause result (W.faults out.old) (W.faults out.new) }
        ensures through { W.through out.new ≡ W.through out.old }
    {
        write_value(&self.local, target, text, out)
    }

    /// Parses the whole text by the format for the target, and writes the value, or `error: ` and the error's text,
    /// without LF, as [`write_value`] does. `Err` if a write failed, after which a part may have been written.
    #[inline(always)]
    pub fn write_parsed<W: Sink>(
        &self,
        format: Format,
        target: Target,
        text: &[u8],
        out: &mut W,
    ) -> Result<(), Unwritten>
        ensures bytes { OnOk result (Writes (IsParsed format target text.now)
            (W.contents out.old) (W.contents out.new)) }
        ensures cause { HasCause result (W.faults out.old) (W.faults out.new) }
        ensures through { W.through out.new ≡ W.through out.old }
    {
        match format {
            Format::Rfc3339 => write_value(&Rfc3339, target, text, out),
            Format::Rfc2822 => write_value(&Rfc2822, target, text, out),
            Format::Iso8601 => write_value(&Iso8601, target, text, out),
            Format::Ymd => write_value(&self.ymd, target, text, out),
            Format::Clock => write_value(&self.clock, target, text, out),
            Format::Unix => write_value(&unix(), target, text, out),
            Format::Local => self.write_local(target, text, out),
        }
    }
}
