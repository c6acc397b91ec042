//! The pairs of all positions, closed under sums, as a minimal cover.
//!
//! A pair covers another of the same value where its options' values are among the other's, and it
//! has one where the other has one. Products respect this: what covers a pair, times a third,
//! covers the pair times the third. So a list that covers the empty position and is closed covers
//! every position. Of the rule this says two things. A position has an option whose value is in the
//! portion, if the pair that covers it has one; and it has an option at all, if that pair has one.
//! Since a cover leaves options' values out, it doesn't say that none of a position's is in the
//! portion.
//!
//! The first member is the pair of the empty position. Then the heaps are tried in turn. A heap
//! whose own pair a member covers makes no products: that member is the pair of a word of earlier
//! heaps, and beside any position the word covers what the heap would make. Any other heap is a
//! generator, by which each member is multiplied, old and new. A product is kept where no member
//! covers it, and members that it covers are given up.
//!
//! The members ever kept stay in one list, where those of one value are chained: a test for
//! covering looks at these alone. Members that were given up stay in the chain too, since what they
//! cover is covered by one that is held. No hash set numbers the members, since a product is looked
//! up by covering and not by equality.
//!
//! A unit is a turn, and what a closure is after so many turns is one function of plain data,
//! `specs/Turns.antt`. A call takes a turn for each of its units until it has ended,
//! `specs/Calls.antt`. So the number of its turns in all is said by the table, the pairs and the
//! limit: at most the limit times the pairs, plus 2.
#![tactic(auto)]

mod closure;
mod covering;
mod covering_all;
mod laws;
mod members;
mod settle;

pub use closure::{Closure, Grown};
pub use covering_all::done_closures_cover;
pub use laws::{
    calls_decide, closures_cost, closures_end, closures_go_on, closures_show_pairs, units_add,
};
pub use members::Member;
pub use settle::{Generator, Held};
