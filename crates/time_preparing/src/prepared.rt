//! Prepared descriptions.
ghost use Rattle.std.specs.Prelude.{◌≡◌, ◌<◌, ◌≤◌, length, map, MatchOption};
ghost use Rattle.time_values.specs.Calendar.{greatest_year};
ghost use Rattle.time_components.specs.Tree.{borrowed_shape, steps_shape, trees};
ghost use Rattle.time_record.specs.Reading.{Answers};
ghost use Rattle.time_preparing.specs.Items.{Prepares};
ghost use Rattle.time_preparing.specs.Forms.{Fits};
ghost use Rattle.time_preparing.specs.Walk.{ParsesTree};
ghost use Rattle.time_preparing.specs.Whole.{Leads};

use crate::items::{Unprepared, put_items};
use crate::joined::{Joined, joined_at};
use crate::walk::walk;
use crate::whole::{Whole, whole_of};
use arrayvec::ArrayVec;
use std::marker::Model;
use time_components::{BorrowedFormatItem, Step};
use time_descriptions::Description;
use time_record::Parsed;
use time_values::error::ParseFromDescription;

/// A description of at most `N` steps that is prepared once and then parses many texts.
///
/// It has the steps of the description, in their order, and stores for each which steps from it on are parsed together.
/// If the steps have a known form, it also stores the form, and parses the commonest whole texts directly as values.
#[derive(Drop)]
pub struct Prepared<const N: usize> {
    steps: ArrayVec<Step, N>,
    joined: ArrayVec<Joined, N>,
    whole: Whole,
}

impl<const N: usize> Model for Prepared<N> {
    ghost use Rattle.std.specs.Prelude.{◌≡◌, List, length};
    ghost use Rattle.time_preparing.specs.Forms.{Fits};
    ghost use Rattle.time_preparing.specs.Whole.{Leads};
    ghost use Rattle.time_components.specs.declared.inspect.Step.{Step};

    ghost Value = { List Step };

    ghost view = { λ p. p.steps.items };

    ghost invariant = { λ p. Fits p.joined.items p.steps.items × (length p.joined.items ≡ length p.steps.items)
        × Leads p.whole p.steps.items };
}

impl<const N: usize> Prepared<N> {
    /// Prepares a description that was parsed from a text.
    pub fn new(description: &Description<N>) -> Prepared<N>
        ensures { result ≡ description.now.steps.items }
    {
        prepare(description.steps())
    }

    /// Prepares the steps of a description, which [`Description::steps`](time_descriptions::Description::steps)
    /// returns. `None` if and only if there are more than `N`.
    pub fn from_steps(steps: &[Step]) -> Option<Prepared<N>>
        ensures { MatchOption result (N < length steps.now) (λ p. p ≡ steps.now) }
    {
        if steps.len() > N {
            return None;
        }
        Some(prepare(steps))
    }

    /// Prepares items in turn, those of a description that was built by hand. There is a step for each component, for
    /// each byte of a literal, and for each `Compound`, `Optional` and `First` in addition to those inside it, but only
    /// one step for an `Optional` with its `Compound`.
    ///
    /// # Errors
    ///
    /// The first failure in the order of the items: [`Unprepared::EmptyLiteral`] at an empty literal,
    /// [`Unprepared::OptionalNotCompound`] at an `Optional` of anything but a `Compound`, and [`Unprepared::TooLong`]
    /// at the item with step `N + 1`. There is an error if and only if no list of at most `N` steps has the tree of the
    /// items.
    pub fn from_items(items: &[BorrowedFormatItem<'_>]) -> Result<Prepared<N>, Unprepared>
        ensures { Prepares N (trees (map borrowed_shape items.now)) result }
    {
        let mut steps = ArrayVec::<Step, N>::new();
        put_items(items, &mut steps)?;
        Ok(prepare(steps.as_slice()))
    }

    /// The steps of the description.
    pub fn steps(&self) -> &[Step]
        ensures { result.now ≡ self.now }
    {
        self.steps.as_slice()
    }

    // The known form of whole texts of the steps, or only of their first alternative. `Whole::Nothing`: no known form.
    #[inline(always)]
    pub(crate) fn whole(&self) -> &Whole
        ensures { Leads result.now self.now }
    {
        &self.whole
    }

    // Parses a prefix of the input into the record, and returns the unread rest. The errors are those of
    // `parse_front_into`. After an error the record may have changed.
    #[inline(always)]
    pub(crate) fn walk_into<'a>(
        &self,
        input: &'a [u8],
        parsed: &mut Parsed,
    ) -> Result<&'a [u8], ParseFromDescription>
        ensures { ParsesTree (steps_shape self.now) input.now parsed.old result parsed.new }
    {
        walk(self.steps.as_slice(), self.joined.as_slice(), parsed, input)
    }

    /// Parses a prefix of the input into the record, and returns the unread rest. An error is `InvalidComponent` with
    /// the component's name, `InvalidLiteral`, or `UnexpectedTrailingCharacters` at an `End` before the end of the
    /// input. After an error the record is unchanged.
    pub fn parse_front_into<'a>(
        &self,
        input: &'a [u8],
        parsed: &mut Parsed,
    ) -> Result<&'a [u8], ParseFromDescription>
        ensures { Answers greatest_year (steps_shape self.now) input.now parsed.old result parsed.new }
    {
        let before = *parsed;
        match self.walk_into(input, parsed) {
            Ok(rest) => Ok(rest),
            Err(fault) => {
                *parsed = before;
                Err(fault)
            }
        }
    }
}

// The prepared description of these steps, at most `N`.
#[tactic(auto, using(crate::proofs::Rows::kept_all, crate::proofs::Rows::room))]
fn prepare<const N: usize>(steps: &[Step]) -> Prepared<N>
    requires { length steps.now ≤ N }
    ensures { result ≡ steps.now }
{
    let mut kept = ArrayVec::new();
    let mut joined = ArrayVec::new();
    let mut left = steps;
    while let [step, behind @ ..] = left {
        kept.push(*step);
        joined.push(joined_at(left));
        left = behind;
    }
    Prepared {
        steps: kept,
        joined,
        whole: whole_of(steps),
    }
}
