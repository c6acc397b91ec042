//! `desk`: the steps of a script, one after another at one desk, and a line for each.
#![tactic(auto)]

mod lines;
mod running;
mod stepping;
mod stop;
mod whole;

pub use running::run_script;
pub use stop::DeskStop;
pub use whole::{LARGEST_SCRIPT, run_file};
