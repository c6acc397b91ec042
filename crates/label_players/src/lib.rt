//! Playing by triples and by normal forms: the outcome of a position, a winning move, the label of a position, and what
//! tells two positions apart.
//!
//! Whole games in which one heap may rule all others have triples as labels (`whole`, `triples`, `value`), and quotients
//! that generators and relations present have normal forms (`play`, `forms`, `text`).
#![tactic(auto)]

mod forms;
mod guessing;
mod labelling;
mod play;
mod portion;
mod reducing;
mod telling;
mod text;
mod triples;
mod value;
mod whole;
mod whole_guessing;
mod whole_telling;
mod wide;

pub use play::{
    presented_answer, presented_answer_at, presented_fits, presented_form, presented_outcome,
    presented_outcome_at, speaks_of,
};
pub use telling::presented_apart;
pub use text::form_text;
pub use triples::LARGEST_SUM;
pub use value::{WholeValue, whole_value};
pub use whole::{whole_answer, whole_answer_at, whole_outcome, whole_outcome_at};
pub use whole_telling::{Separation, whole_apart};
pub use wide::WideWord;
