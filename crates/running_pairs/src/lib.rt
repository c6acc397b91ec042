//! Two heaps that run against each other, found by a wrong quotient, and a monoid of the others that
//! is learned beside them.
//!
//! Nothing is promised of what is found: it may be wrong. What is proved is that the search is safe,
//! ends, and tells want of memory. A certificate that is made of it is checked by others.
//!
//! # The method
//!
//! 1. A wrong quotient has *letters*: heaps whose elements aren't products of lighter ones'. The other
//!    heaps are words of letters. Two letters *run against each other* if outcomes depend on each of
//!    their counts, however large, but on the difference alone. A table of outcomes shows this, for each
//!    pair, beside each element that the other letters make.
//! 2. A *guess* is a monoid of the letters outside a pair, with a fold of the pair's counts. Each element
//!    and place has a lightest position, and its outcome follows from those of lighter ones.
//! 3. A *step* is one heap more beside such a position. It leads to an element and a place whose outcome
//!    is known. If the rule of misère play says another one, the step *fails*. The lightest step that
//!    fails says what is too coarse: the fold grows where the heap is one of the pair, and if its corner
//!    gets large, both counts are lowered together by twice as much. Elsewhere two words of one element
//!    differ in a letter's count, and the monoid is *split* by this count.
//! 4. Elements that nothing tells apart are one again, unless a lighter step fails then. So the monoid
//!    stays small, and the lightest step that fails gets heavier from round to round, until none fails.
//! 5. If tables show no pair, what all letters do is learned likewise, without a pair, and tables are made
//!    again.
#![tactic(auto)]

mod actions;
mod beginning;
mod boxes;
mod failing;
mod folds;
mod generators;
mod learning;
mod letters;
mod lists;
mod numbers;
mod outcomes;
mod pairs;
mod splitting;

pub use folds::{Fold, Place};
pub use generators::{Cycle, Generators, cycle_of};
pub use lists::Lists;
pub use numbers::{
    NONE, add_up, at, byte, greatest, heap_weight, places_by_size, put, put_byte, rest, share,
};
pub use pairs::{RunningPair, RunningPairs};
