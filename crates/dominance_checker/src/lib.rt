//! The test of a claim by triples: a yes means that the claim is right of each position of the whole game.
#![tactic(auto)]

mod answer;
mod closing;
mod elements;
mod heap;
mod laws;
mod making;
mod numbers;
mod passing;
mod ranges;
mod rank;
mod rulers;
mod saying;
mod settling;
mod shape;
mod side;
mod state;
mod testing;

pub use answer::{is_accepted, is_represented};
pub use laws::claims_are_by_ranks;
pub use rank::Rank;
pub use saying::is_said_p;
pub use shape::Shape;
