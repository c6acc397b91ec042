//! Guesses of the misère quotients of octal and hexadecimal games, by a search heap by heap and by
//! samples of positions, and the drafts of certificates that are written from them.
//!
//! Nothing is promised of a guess but its shape, nor of a draft: the checker decides.
#![tactic(auto)]

mod candidates;
mod canonical_form;
mod draft;
mod drafts;
mod format;
mod groups;
mod guess;
mod guesser;
mod lines;
mod numbering;
mod sample;
mod words;

pub use drafts::Drafts;
pub use guess::Guess;
pub use guesser::{Guesser, furthest};
pub use quotient_search::Reason;
pub use sample::sampled;
