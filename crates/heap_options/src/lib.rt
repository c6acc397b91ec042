//! The options of a heap: what a move leaves of it, the list of them all, and a walk over them.
#![tactic(auto)]

mod left;
mod listing;
mod option;
mod walk;

pub use left::{Left, LeftHeaps};
pub use listing::{options, options_are_exact, options_up_to};
pub use option::is_option;
pub use walk::{Options, Untried, Walk};
