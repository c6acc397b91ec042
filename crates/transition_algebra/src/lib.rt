//! Transition pairs, and the pairs of the heaps.
//!
//! The pair of a position is its value and the set of its options' values. The pairs over a table
//! are a commutative monoid, and the heaps 1 to B show the pair of every heap.
#![tactic(auto)]

mod cut_values;
mod heap_job;
mod heaps;
mod laws;
mod pair;
mod scene;
mod trial;

pub use heap_job::HeapJob;
pub use heaps::heap_pairs;
pub use laws::{cuts_do_not_matter, heap_jobs_end, heap_pairs_are_one_list, pairs_show_every_heap};
pub use pair::{Pair, Pairs};
