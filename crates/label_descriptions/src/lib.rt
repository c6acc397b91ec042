//! What a text of a whole game says, and what a presentation says: in a text for readers, for LaTeX and as JSON.
#![tactic(auto)]

mod json;
mod lines;
mod lists;
mod whole;
mod whole_describing;
mod words;

pub use whole_describing::{Output, presented_text, whole_text};
