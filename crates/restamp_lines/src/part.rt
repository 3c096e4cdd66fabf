//! The part of a line in which its timestamp lies.
ghost use Rattle.std.specs.Prelude.{◌<◌, ◌+◌, ◌^◌, length};

// The part of a line that is its timestamp, or that starts with it.
#[derive(Clone, Copy)]
pub(crate) struct Part<'a> {
    // How many bytes of the line come before the part.
    pub(crate) start: usize,
    // Whether the format decides where the timestamp ends; otherwise the timestamp is the whole part.
    pub(crate) is_prefix: bool,
    // The bytes of the part.
    pub(crate) text: &'a [u8],
    ghost fits: { start + length text.now + 1 < 2 ^ 64 },
}
