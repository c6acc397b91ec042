//! Whether two certified quotients are isomorphic as bipartite monoids, and by which map.
//!
//! An isomorphism keeps how many elements there are, how many are in the portion, and how many are
//! their own squares. It also keeps the colours of elements, which say what an element meets under
//! products. If none of these tells two quotients apart, the images of the heaps' elements are tried.
#![tactic(auto)]

mod checking;
mod colouring;
mod comparing;
mod counting;
mod forcing;
mod searching;

/// Colours are below this prime.
pub const COLOURS: u64 = 2_147_483_647;

/// By how much a first colour weighs beside a second.
pub const FIRST: u64 = 1_000_003;

/// By how much an element's own colour weighs.
pub const SECOND: u64 = 69_061;

/// How often colours are refined.
pub const ROUNDS: u64 = 4;

pub use comparing::{Comparison, Difference, compared};
pub use counting::{idempotents, portion_size};
