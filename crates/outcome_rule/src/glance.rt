//! What a look at options finds.

/// What a look at the options of a position finds.
#[derive(Clone, Copy, PartialEq, Eq)]
pub enum Glance {
    /// There are none.
    Still,
    /// There are some, and none of them is said to be P.
    Out,
    /// One is said to be P.
    In,
    /// Of one it can't be told.
    Unknown,
}
