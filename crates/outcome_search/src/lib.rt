//! Outcomes of positions under misère play, found by search.
#![tactic(auto)]

mod fault;
mod look;
mod memo;
mod reach;
mod search;
mod settling;

pub use fault::SearchFault;
pub use positions::Outcome;
pub use search::outcome;
