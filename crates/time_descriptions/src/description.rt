//! Parsed descriptions.
ghost use Rattle.std.specs.Prelude.{◌≡◌, ◌≤◌, ◌⊎◌, length, IfOk, IfErr, OnOk};
ghost use Rattle.time_descriptions.specs.Grammar.{StartsAtMost, Describes};
ghost use Rattle.time_descriptions.specs.Description.{IsRefused, shape, version_of};
ghost use Rattle.time_descriptions.specs.Refusal.{refusal_of};

use crate::error::InvalidFormatDescription;
use crate::items::add_items;
use crate::leaf::{Step, Version};
use arrayvec::ArrayVec;

/// How deep the lists of optional items and choices may nest, with the outermost of them as the first level.
pub(crate) const MOST_LISTS: usize = 8;

/// A description of the text of a date, a time or an offset, of at most `N` steps.
///
/// Each component is one step, and so is each byte of a literal. Each optional item, each choice and each list of a
/// choice is one more step beside those inside it. So a text of up to `N` bytes always fits in version 1 or 2. In
/// strftime's syntax it may not: a conversion of two bytes can be several steps.
#[derive(Debug, Drop)]
pub struct Description<const N: usize> {
    pub(crate) steps: ArrayVec<Step, N>,
}

impl<const N: usize> Description<N> {
    /// The steps, at most `N`, in the order of the text; none for an empty text. A `Step::Group` with the length `len`
    /// contains the `len` steps after it, those of inner groups included.
    pub fn steps(&self) -> &[Step]
        ensures steps { result.now ≡ self.now.steps.items }
        ensures bound { length result.now ≤ N }
    {
        self.steps.as_slice()
    }
}

// Version 1 for the number 1, and version 2 for any other number.
pub(crate) fn version_of(number: usize) -> Version
    ensures { result ≡ version_of number }
{
    if number == 1 {
        Version::One
    } else {
        Version::Two
    }
}

/// Parses a description of version 1 or 2, by `VERSION`: components in brackets, literal bytes, `[optional [..]]`, and
/// `[first [..] [..]]` with one list or more. A literal `[` is `[[` in version 1; in version 2 a backslash escapes a
/// bracket or a backslash. The names of components, and the keys and the values of modifiers, are in any ASCII case,
/// `optional` and `first` in lowercase. Lists nest at most 8 deep. An empty text is a description without steps.
///
/// # Errors
///
/// [`InvalidFormatDescription::TooLong`] if and only if the text, up to its first fault or its end, starts more than
/// `N` steps. A text of at most `N` bytes never does. Otherwise, the fault that parsing meets first, with its index.
pub fn parse_borrowed<const VERSION: usize, const N: usize>(
    text: &[u8],
) -> Result<Description<N>, InvalidFormatDescription<'_>>
    requires { (VERSION ≡ 1) ⊎ (VERSION ≡ 2) }
    ensures ok { IfOk result (λ d. Describes (version_of VERSION) text.now (shape d)) }
    ensures fits { OnOk result (StartsAtMost N (version_of VERSION) text.now) }
    ensures err { IfErr result (λ e. IsRefused N (version_of VERSION) text.now (refusal_of e)) }
{
    let mut steps = ArrayVec::new();
    match add_items(version_of(VERSION), MOST_LISTS, false, text, &mut steps) {
        Ok(_rest) => Ok(Description { steps }),
        Err(fault) => Err(InvalidFormatDescription::at(text, fault)),
    }
}
