//! What is wrong with a text that is no code, or no position.

/// What is wrong with a text that is no code. Bytes are counted from 1.
#[derive(Clone, Copy, Debug, PartialEq, Eq)]
pub enum WrittenCodeFault {
    /// It has no byte.
    Empty,
    /// At this place it has this byte, which no code has.
    Byte { place: usize, byte: u8 },
    /// The first byte is none of 0, 4, 8 and c.
    First,
    /// The second byte isn't a point, or there is none.
    Point,
    /// No byte stands behind the point.
    NoDigit,
    /// At this place a second point stands.
    SecondPoint { place: usize },
    /// The last digit is 0.
    LastZero,
    /// So many digits stand behind the point, which are more than 16.
    Long { digits: usize },
}

/// What is wrong with a text that is no position. Sizes are counted from 1: they are what stands
/// between the spaces of a text, before the first and behind the last.
#[derive(Clone, Copy, Debug, PartialEq, Eq)]
pub enum WrittenPositionFault {
    /// The text has no byte.
    Empty,
    /// The size has no byte: a space stands at an end of the text, or two stand together.
    NoSize { number: usize },
    /// The size has this byte, which isn't 0 to 9.
    Byte { number: usize, byte: u8 },
    /// The size is 0, and not alone.
    Zero { number: usize },
    /// The size begins with 0, and more digits stand behind it.
    Leading { number: usize },
    /// The size is larger than 10^18.
    Large { number: usize },
    /// There are so many sizes, more than 64.
    Many { sizes: usize },
}
