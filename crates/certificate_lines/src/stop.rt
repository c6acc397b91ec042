//! Where a reader stopped.

/// What a reader wanted.
#[derive(Clone, Copy, Debug, PartialEq, Eq)]
pub enum Wanted {
    /// These bytes.
    Bytes(&'static [u8]),
    /// A space, and then a further number or word.
    More,
    /// A number from `least` up to below `limit`.
    Number { least: u16, limit: u16 },
    /// A number above the one before it, and below `limit`.
    Greater { limit: u16 },
    /// An octal or a hexadecimal code.
    Code,
    /// A hexadecimal digit, in lower case.
    Digit,
    /// What these words say.
    Words(&'static str),
    /// The end of the text.
    End,
}

/// What a reader wanted last, and how many bytes were left there. It stopped there if as many are
/// left. No contract speaks of it: that bytes spell nothing is proved, and why is only tested.
#[derive(Clone, Copy, Debug, PartialEq, Eq)]
pub struct Stopped {
    pub left: usize,
    pub wanted: Wanted,
}
