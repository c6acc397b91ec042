//! The search for a certificate: proposers draft, the checker decides.
//!
//! Nothing is believed of a proposer. What `find` hands out is certified for the code and
//! kind that were asked, whatever the proposers do. `Sampler` and `Refiner` are proposers by search;
//! nothing is promised of their drafts.
#![tactic(auto)]

mod either;
mod gave_up;
mod history;
mod limits;
mod proposer;
mod refiner;
mod reply;
mod rounds;
mod sampler;
mod turn;

pub use either::AnyProposer;
pub use gave_up::GaveUp;
pub use guesses::{Reason, furthest};
pub use history::History;
pub use limits::Limits;
pub use proposer::Proposer;
pub use quotient_search::least_period;
pub use refiner::Refiner;
pub use rounds::{ask_rounds, find};
pub use sampler::Sampler;
