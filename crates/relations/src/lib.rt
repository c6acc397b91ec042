//! Relations that present the monoid of a table: rewriting by them, and a check that they do.
#![tactic(auto)]

/// The most elements of a table of which no relation of a short list follows from the others.
pub const LARGEST_IRREDUNDANT: usize = 128;

mod basis;
mod checking;
mod dividing;
mod fault;
mod finding;
mod generating;
mod laws;
mod least;
mod listing;
mod powers;
mod relating;
mod rewriting;
mod separating;
mod shortening;
mod text;

pub use checking::{is_shown, value};
pub use fault::{Bound, MetBound, Undescribed};
pub use finding::{Description, Form, described};
pub use laws::{texts_spell, words_present};
pub use powers::presentable;
pub use rewriting::{Rules, completed, is_same, reduced};
pub use text::{Notation, factor_text, relation_text, relations_text, word_text, words_text};
