//! Presentations of commutative monoids, and the tables of their least congruences.
#![tactic(auto)]

/// How many letters there are: a to z.
pub const LETTERS: usize = 26;

/// The largest exponent of a letter in a word of a text.
pub const LARGEST_EXPONENT: u8 = 64;

/// The most relations of a text.
pub const MOST_RELATIONS: usize = 64;

/// The most exponent vectors of a box that the program merges.
pub const LARGEST_BOX: u32 = 65536;

/// A word as the exponents of a to z.
pub type Word = [u8; LETTERS];

mod axes;
mod bounds;
mod classes;
mod fault;
mod laws;
mod merging;
mod named;
mod numbering;
mod read;

pub use fault::PresFault;
pub use laws::{VectorRelation, classes_are_exact, related_is_least, rows_are_a_table};
pub use named::{Named, NamedElement, table_of};
pub use read::{Presentation, Relation};
