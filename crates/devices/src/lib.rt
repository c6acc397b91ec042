//! For tests: sources and sinks that take one byte at a time, or fail at one call, and an allocator that refuses one call
//! (`ration`).
//!
//! How the calls of the allocator are counted is a contract, of `counted`. That `new` and `has_refused` begin and
//! tell that count is tested alone, since no contract says what a cell holds.
#![tactic(auto)]

mod failing;
mod ration;
mod slow;

pub use failing::{FailingSink, FailingSource};
pub use ration::Ration;
pub use slow::{SlowSink, SlowSource};
