//! The search for infinite misère quotients by claims: a monoid, and two heaps that run against each other.
//!
//! Nothing is believed of the search. Each claim is turned into a presentation, and what is handed out was accepted by the
//! check of its bytes.
#![tactic(auto)]

mod base;
mod claiming;
mod counted;
mod elements;
mod finding;
mod fitting;
mod layout;
mod merging;
mod obeying;
mod outcomes;
mod refining;
mod running;
mod shapes;
mod states;
mod trying;

pub use finding::{Unfound, find_by_claims};
