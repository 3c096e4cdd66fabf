ghost use Rattle.std.specs.Prelude.{◌≡◌, []};

/// A type of no bytes, aligned to eight.
///
/// In a `Result` it aligns a date or a time to the words of the error, so that LLVM keeps the parts of the date or the
/// time apart. Without it, a parse would join these parts into words and take them apart again.
#[derive(Clone, Copy, Debug, PartialEq, Eq, PartialOrd, Ord, Hash)]
pub(crate) struct Aligned {
    words: [u64; 0],
    pub ghost no_words: { words ≡ [] },
}

impl Aligned {
    pub(crate) const TO_WORDS: Aligned = Aligned { words: [] };
}
