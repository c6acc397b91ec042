//! What a certified quotient is, as the literature prints it: generators and relations, the portion
//! and the pretending function in words, and the standard invariants.
#![tactic(auto)]

mod arrays;
mod choosing;
mod components;
mod describing;
mod finding;
mod indices;
mod invariants;
mod joining;
mod laws;
mod lines;
mod multiplication;
mod presenting;
mod rows;
mod structure;
mod systems;
mod tame;

pub use describing::{description_text, ideal_text};
pub use indices::tame_index;
pub use laws::tame_quotients_are_unique;
pub use multiplication::table_text;
pub use presenting::{PresentBound, RelationsWord, relations_word};
pub use relations::{Bound, Form, MetBound, Notation, Undescribed};
pub use structure::structure_text;
pub use systems::System;
