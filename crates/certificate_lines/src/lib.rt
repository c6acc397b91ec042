//! The lines of certificates, read from bytes: numbers, keys, rows, the portion and the lines in front.
//!
//! Which bytes give what is said in the crate certificate_text.
#![tactic(auto)]

mod fault;
mod front;
mod key;
mod keys;
mod lines;
mod numbers;
mod reader;
mod stop;

pub use fault::TextFault;
pub use front::{Front, code_line, number_lines};
pub use key::Key;
pub use keys::{firsts, key_line, keys_fall};
pub use lines::{field, line, portion, rows};
pub use reader::Reader;
pub use stop::{Stopped, Wanted};
