//! What commands give: a text that is printed, or why they stop before anything is; and how either
//! goes out.
#![tactic(auto)]

mod files;
mod lines;
mod noted;
mod printing;
mod said;
mod starting;
mod stop;
mod telling;

pub use files::{read_file, read_front};
pub use lines::{LARGEST_INPUT, first_line, input_lines};
pub use noted::Noted;
pub use printing::print;
pub use said::Said;
pub use starting::{stopped, words_of};
pub use stop::Stop;
pub use telling::tell;
