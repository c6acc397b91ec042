//! The ranges of the numbers of a search, their ends included, and what a number is where none is
//! given. Of orders and of parts of games the theory has the largest.

/// The largest limit of a check. The least is 1.
pub const LARGEST_LIMIT: u32 = 1_000_000;

/// The limit of a check for which none is given.
pub const DEFAULT_LIMIT: u32 = 100_000;

/// The most rounds of a search. The fewest are 1.
pub const MOST_ROUNDS: u32 = 1000;

/// The rounds of a search for which none are given.
pub const DEFAULT_ROUNDS: u32 = 64;

/// The fewest heaps that a search for the whole game looks at.
pub const FEWEST_HEAPS: u32 = 2;

/// The most heaps that it looks at where it isn't a deep one.
pub const MOST_HEAPS: u32 = 64;

/// The heaps that it looks at where none are given.
pub const DEFAULT_HEAPS: u32 = 24;

/// The last heap of a series, or of a search for an infinite quotient, if none is given.
pub const DEFAULT_SERIES: u32 = 64;

/// The least number of elements that may be allowed to a quotient.
pub const LEAST_ORDER: u32 = 2;

/// The number that is allowed where none is given, in a search that isn't deep.
pub const DEFAULT_ORDER: u32 = 64;
