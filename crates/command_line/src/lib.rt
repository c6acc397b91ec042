//! What a command line asks of the program.
#![tactic(auto)]

mod arguments;
mod asking;
mod commands;
pub mod faults;
mod keeping;
pub mod numbers;
mod solving;
mod wanted;
mod words;

pub use commands::VERSION;
pub use faults::{Exclusion, UsageFault};
pub use numbers::{Bounds, Quantity};
pub use wanted::{Asked, ExplainedWord};
pub use words::asked;
