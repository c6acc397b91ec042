//! Why relations are no basis.

/// Why relations are no basis.
#[derive(Clone, Copy, Debug, PartialEq, Eq)]
pub enum BasisFault {
    /// A left word has more than `MOST_LEFT_LETTERS` letters.
    Long,
    /// A right word doesn't come before its left one.
    Order,
    /// The two sides of a critical pair have different normal forms.
    Pair,
    /// A growth was refused.
    Memory,
}
