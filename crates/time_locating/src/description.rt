//! Locates the errors of texts that are parsed by a description.
ghost use Rattle.std.specs.Prelude.{map};
ghost use Rattle.time_values.specs.Calendar.{greatest_year};
ghost use Rattle.time_components.specs.Tree.{borrowed_shape, owned_shape, v3_shape, steps_shape, sequence, trees};
ghost use Rattle.time_descriptions.specs.Description.{shape};
ghost use Rattle.time_record.specs.Reading.{Reads};
ghost use Rattle.time_parsing.specs.Outcome.{begun};
ghost use Rattle.time_locating.specs.Located.{IsLocated, IsMarked};
ghost use Rattle.time_locating.specs.Marks.{MarksTree};
ghost use Rattle.time_locating.specs.Misses.{LocatesTree, all_bytes, first_byte};
ghost use Rattle.time_locating.specs.exact.PlaceLaws.{tree_exact_mark, tree_exact_place};

use crate::mark::{index_of, place};
use crate::walk::steps::walk_list;
use crate::walk::{walk, walk_all};
use crate::{Locate, Located};
use time_components::{BorrowedFormatItem, FormatDescriptionV3, Inspect, OwnedFormatItem, Step};
use time_descriptions::Description;
use time_parsing::{Items, begin};
use time_preparing::Prepared;
use time_record::Parsed;

// Locates the error of a text that is parsed by an item, or returns `None` if the item reads the whole text.
fn locate_item<'d, I: Inspect>(
    item: &'d I,
    input: &[u8],
    defaults: Option<Parsed>,
) -> Option<Located<'d>>
    ensures { IsLocated (Reads greatest_year (I.shape item.now)) (LocatesTree all_bytes (I.shape item.now))
        input.now (begun defaults) result }
{
    let mut parsed = begin(defaults);
    let walked = walk(item, &mut parsed, input, "");
    place(walked.rest, walked.missed, input)
}

// Locates the error of a text that is parsed by the steps of a description, or returns `None` if they read the whole
// text.
fn locate_steps<'a>(
    steps: &'a [Step],
    input: &[u8],
    defaults: Option<Parsed>,
) -> Option<Located<'a>>
    ensures { IsLocated (Reads greatest_year (steps_shape steps.now))
        (LocatesTree first_byte (steps_shape steps.now)) input.now (begun defaults) result }
{
    let mut parsed = begin(defaults);
    let walked = walk_list(steps, &mut parsed, input, "");
    place(walked.rest, walked.missed, input)
}

// The index at which the last component of this name begins, of those that the steps of a description read. `None` if
// they read none of that name, or if they match no prefix of the input.
fn locate_in_steps(
    steps: &[Step],
    input: &[u8],
    defaults: Option<Parsed>,
    name: &str,
) -> Option<usize>
    ensures { IsMarked (MarksTree (steps_shape steps.now)) name.now input.now (begun defaults) result }
{
    let mut parsed = begin(defaults);
    let walked = walk_list(steps, &mut parsed, input, name);
    index_of(walked.mark, input)
}

// The index at which the last component of this name begins, of those that an item reads. `None` if it reads none of
// that name, or if it matches no prefix of the input.
fn locate_in_item<I: Inspect>(
    item: &I,
    input: &[u8],
    defaults: Option<Parsed>,
    name: &str,
) -> Option<usize>
    ensures { IsMarked (MarksTree (I.shape item.now)) name.now input.now (begun defaults) result }
{
    let mut parsed = begin(defaults);
    let walked = walk(item, &mut parsed, input, name);
    index_of(walked.mark, input)
}

impl Locate for BorrowedFormatItem<'_> {
    ghost locates = { λ s. LocatesTree all_bytes (borrowed_shape s) };

    fn locate<'a>(&'a self, input: &[u8], defaults: Option<Parsed>) -> Option<Located<'a>> {
        locate_item(self, input, defaults)
    }

    ghost exact_place = { λ s. tree_exact_place all_bytes (borrowed_shape s) };

    ghost marks = { λ s. MarksTree (borrowed_shape s) };

    fn locate_component(
        &self,
        input: &[u8],
        defaults: Option<Parsed>,
        name: &str,
    ) -> Option<usize> {
        locate_in_item(self, input, defaults, name)
    }

    ghost exact_mark = { λ s. tree_exact_mark (borrowed_shape s) };
}

impl Locate for OwnedFormatItem {
    ghost locates = { λ s. LocatesTree all_bytes (owned_shape s) };

    fn locate<'a>(&'a self, input: &[u8], defaults: Option<Parsed>) -> Option<Located<'a>> {
        locate_item(self, input, defaults)
    }

    ghost exact_place = { λ s. tree_exact_place all_bytes (owned_shape s) };

    ghost marks = { λ s. MarksTree (owned_shape s) };

    fn locate_component(
        &self,
        input: &[u8],
        defaults: Option<Parsed>,
        name: &str,
    ) -> Option<usize> {
        locate_in_item(self, input, defaults, name)
    }

    ghost exact_mark = { λ s. tree_exact_mark (owned_shape s) };
}

impl Locate for FormatDescriptionV3<'_> {
    ghost locates = { λ s. LocatesTree all_bytes (v3_shape s.inner) };

    fn locate<'a>(&'a self, input: &[u8], defaults: Option<Parsed>) -> Option<Located<'a>> {
        locate_item(&self.inner, input, defaults)
    }

    ghost exact_place = { λ s. tree_exact_place all_bytes (v3_shape s.inner) };

    ghost marks = { λ s. MarksTree (v3_shape s.inner) };

    fn locate_component(
        &self,
        input: &[u8],
        defaults: Option<Parsed>,
        name: &str,
    ) -> Option<usize> {
        locate_in_item(&self.inner, input, defaults, name)
    }

    ghost exact_mark = { λ s. tree_exact_mark (v3_shape s.inner) };
}

impl<const N: usize> Locate for Description<N> {
    ghost locates = { λ s. LocatesTree first_byte (shape s) };

    fn locate<'a>(&'a self, input: &[u8], defaults: Option<Parsed>) -> Option<Located<'a>> {
        locate_steps(self.steps(), input, defaults)
    }

    ghost exact_place = { λ s. tree_exact_place first_byte (shape s) };

    ghost marks = { λ s. MarksTree (shape s) };

    fn locate_component(
        &self,
        input: &[u8],
        defaults: Option<Parsed>,
        name: &str,
    ) -> Option<usize> {
        locate_in_steps(self.steps(), input, defaults, name)
    }

    ghost exact_mark = { λ s. tree_exact_mark (shape s) };
}

impl<const N: usize> Locate for Prepared<N> {
    ghost locates = { λ s. LocatesTree first_byte (steps_shape s) };

    fn locate<'a>(&'a self, input: &[u8], defaults: Option<Parsed>) -> Option<Located<'a>> {
        locate_steps(self.steps(), input, defaults)
    }

    ghost exact_place = { λ s. tree_exact_place first_byte (steps_shape s) };

    ghost marks = { λ s. MarksTree (steps_shape s) };

    fn locate_component(
        &self,
        input: &[u8],
        defaults: Option<Parsed>,
        name: &str,
    ) -> Option<usize> {
        locate_in_steps(self.steps(), input, defaults, name)
    }

    ghost exact_mark = { λ s. tree_exact_mark (steps_shape s) };
}

impl<'i, I: Inspect> Locate for Items<'i, I> {
    ghost locates = { λ s. LocatesTree all_bytes (sequence (trees (map I.Inspect.shape s.0.now))) };

    fn locate<'a>(&'a self, input: &[u8], defaults: Option<Parsed>) -> Option<Located<'a>> {
        let mut parsed = begin(defaults);
        let walked = walk_all(self.0, &mut parsed, input, "");
        place(walked.rest, walked.missed, input)
    }

    ghost exact_place = { λ s. tree_exact_place all_bytes (sequence (trees (map I.Inspect.shape s.0.now))) };

    ghost marks = { λ s. MarksTree (sequence (trees (map I.Inspect.shape s.0.now))) };

    fn locate_component(
        &self,
        input: &[u8],
        defaults: Option<Parsed>,
        name: &str,
    ) -> Option<usize> {
        let mut parsed = begin(defaults);
        let walked = walk_all(self.0, &mut parsed, input, name);
        index_of(walked.mark, input)
    }

    ghost exact_mark = { λ s. tree_exact_mark (sequence (trees (map I.Inspect.shape s.0.now))) };
}
