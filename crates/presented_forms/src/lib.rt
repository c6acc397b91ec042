//! The form that a presentation is asked to have, and whether it has it: letters that are named by their heaps,
//! standard words, a reduced basis in order, and a portion in order.
//!
//! A code and its heaps have one presentation at most (`one_presentation`).
#![tactic(auto)]

mod basis;
mod cycles;
mod form;
mod least;
mod letters;
mod list;
mod one_presentation;
mod order;
mod portion;
mod within;

pub use form::is_in_form;
pub use least::is_least;
pub use one_presentation::{
    closed_words_show_new_letters, presentations_are_unique, reduced_bases_are_unique,
};
