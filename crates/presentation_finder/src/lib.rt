//! The search for the presentation of a misère quotient.
//!
//! It goes by a quotient that is certified, or finds an infinite quotient from a code alone. Nothing is believed of the
//! search: what it hands out was accepted by the check of its bytes. If the check refuses a text, the next attempt looks at
//! words and contexts further out.
#![tactic(auto)]

mod certified;
mod finding;
mod fitting;
mod learned;

pub use certified::present_certified;
pub use finding::find_presentation;
pub use learned::present_code;
