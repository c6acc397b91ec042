//! What the program can be asked for, apart from the words that ask for it.
//!
//! Numbers in decimal are read here, too (`decimals`).
#![tactic(auto)]

mod decimals;
mod plans;
mod ranges;

pub use decimals::number_between;
pub use plans::{Aim, CatalogueTask, Layout, Output, PartsBounds, Plan, SolveBounds};
pub use ranges::{
    DEFAULT_HEAPS, DEFAULT_LIMIT, DEFAULT_ORDER, DEFAULT_ROUNDS, DEFAULT_SERIES, FEWEST_HEAPS,
    LARGEST_LIMIT, LEAST_ORDER, MOST_HEAPS, MOST_ROUNDS,
};
