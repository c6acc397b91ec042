//! Octal and hexadecimal codes, the rule books of heap games: what a player may take away from a
//! heap, and what may stay of it.
#![tactic(auto)]

mod code;
mod fault;
mod laws;
mod leaving;

pub use code::{Code, is_code};
pub use fault::CodeFault;
pub use laws::digits_say_what_stays;
pub use leaving::Leaving;
