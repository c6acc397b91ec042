//! Words of a commutative monoid that relations present, and their normal forms.
//!
//! A relation is used from its left word to its right one, which comes first. Where the critical pairs
//! join, each word has one normal form, and the normal forms are the monoid.
//!
//! Each element of a monoid of words is the label of a position, if each letter is a heap's word (`letter_heaps`).
#![tactic(auto)]

mod basis;
mod fault;
mod laws;
mod letter_heaps;
mod letters;
mod listing;
mod pairs;
mod reducing;
mod remembering;
mod rule;
mod table;

pub use basis::Basis;
pub use fault::BasisFault;
pub use laws::{elements_are_a_monoid, forms_are_unique, powers_bound, words_have_forms};
pub use letter_heaps::letters_reach_elements;
pub use letters::{is_word, with_letter};
pub use reducing::letter_count;
pub use rule::{Exponents, Rule};

/// The most letters of a word that is reduced, in all.
pub const MOST_LETTERS: u32 = 65535;

/// The most letters of a left word.
pub const MOST_LEFT_LETTERS: u32 = 32767;
