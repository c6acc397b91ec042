//! Positions of octal and hexadecimal games, moves, and what an outcome is.
#![tactic(auto)]

mod fault;
mod moves;
mod outcome;
mod position;
mod reading;
mod survey;
mod writing;

pub use fault::PositionFault;
pub use heap_options::{
    Left, LeftHeaps, Options, Untried, Walk, is_option, options, options_are_exact, options_up_to,
};
pub use moves::{Move, MoveFault, apply};
pub use outcome::Outcome;
pub use position::{INLINE, LARGEST_HEAP, MOST_SIZES, Position};
