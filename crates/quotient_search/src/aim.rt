//! What a search looks for, and what it comes to.
use crate::quotient::HeapQuotient;
use misere_theory::{LARGEST_PART, MOST_ENTRIES};
use std::alloc::Allocator;

/// How many digits a code has at most after the point.
const MOST_DIGITS: usize = 16;

/// The most heaps that are looked at for a period: with a start and a period of `MOST_ENTRIES` + 1
/// together, and all digits, so many show the pair of every heap where no move leaves three heaps.
pub const DEEPEST: usize = 2 * (MOST_ENTRIES as usize + 1) + MOST_DIGITS;

/// The most heaps of a part of a game.
pub const LONGEST_PART: usize = LARGEST_PART as usize;

/// How far a search goes.
#[derive(Clone, Copy, Debug, PartialEq, Eq)]
pub enum Extent {
    /// Up to the first heap by which a period shows, or up to this one.
    Period(usize),
    /// Up to this heap, whether a period shows or not.
    Part(usize),
}

impl Extent {
    /// The work that is allowed. What has a certificate needs a tenth of it, and a part of a game
    /// may need more.
    pub(crate) fn work(self) -> u64 {
        match self {
            Extent::Period(_) => 600_000_000,
            Extent::Part(_) => 1_000_000_000,
        }
    }

    /// The last heap that is looked at.
    pub(crate) fn last(self) -> usize {
        match self {
            Extent::Period(most) => most.min(DEEPEST),
            Extent::Part(last) => last.min(LONGEST_PART),
        }
    }
}

/// Why a search came to no certificate. Nothing is claimed of the game.
///
/// A search for a quotient ends by one of the first three; of a quotient that is found, drafts of
/// certificates come to nothing by the others.
#[derive(Clone, Copy, Debug, PartialEq, Eq)]
pub enum Reason {
    /// The quotient of the heaps up to this one was found to have more elements than are allowed.
    TooLarge { heap: usize },
    /// With this heap the rule failed, and no repair came to something better. Before it there were
    /// `order` elements.
    Repairs { heap: usize, order: usize },
    /// At this heap the work that is allowed was done, or there was more to keep than is allowed.
    /// Before it there were `order` elements.
    Work { heap: usize, order: usize },
    /// So many heaps, with so many elements, show no period that goes on.
    NoPeriod { heaps: usize, order: usize },
    /// There is no more than one element, and a certificate has two at least.
    OneElement,
    /// The check of the likeliest draft reached the limit on the members of its closure.
    Members,
    /// The likeliest draft was refused otherwise.
    Refused,
}

/// What a search comes to.
#[derive(Drop)]
pub struct Found<A: Allocator> {
    /// How many of the first heaps it came through.
    pub heaps: usize,
    /// Their quotient, which may be wrong, or what ended the search early.
    pub quotient: Result<HeapQuotient<A>, Reason>,
}
