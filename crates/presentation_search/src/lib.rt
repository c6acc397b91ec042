//! A search for generators, relations and portion of a misère quotient.
//!
//! Nothing is believed of the search. What it finds is a text, which the check of its bytes accepts or refuses; only a text
//! that was accepted is handed out.
//!
//! # The method
//!
//! 1. A claim, right or wrong, tells the outcome of each position by its *value*: an element, and the downs and ups of two
//!    heaps that run against each other, which are left when steps are taken from both. Values are multiplied. So two
//!    values are indistinguishable exactly if no value of a position, their *context*, tells them apart. Contexts
//!    whose downs and ups are far apart repeat those that are nearer, so a *window* of them is tried. The values of a
//!    finite quotient are its elements, and all of them are contexts.
//! 2. Words are taken by their order, letter by letter. One that no left word divides goes down a tree of contexts to
//!    the one standard word that it may be (Kearns and Vazirani's discrimination tree). If no context tells the two
//!    apart, it is the left word of a relation (Buchberger and Möller); else it is a new standard word, and the tree
//!    grows.
//! 3. The heaps are taken as they rise: one whose value is no product of letters is the next letter. Then, from the
//!    last letter on, each is left out that the others make.
//! 4. The portion is that of the standard words up to where outcomes surely repeat along each letter. Its cycles are
//!    then made as short as they can be.
//!
//! Each attempt looks at words and contexts further out than the one before.
#![tactic(auto)]

mod contexts;
mod counts;
mod found;
mod judging;
mod learning;
mod letters;
mod portion;
mod reach;
mod searching;
mod sources;
mod telling;
mod values;

pub use counts::{Counts, reduced};
pub use found::{FoundPresentation, Unpresented, accepted};
pub use judging::present_claim;
pub use sources::{ClaimValues, of_certified};
pub use values::{Value, ValueTable};
