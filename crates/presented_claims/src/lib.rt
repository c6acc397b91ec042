//! What a presentation claims of a game, and when it is the misère quotient of its heaps: definitions, and laws, each the
//! contract of a function that does nothing.
//!
//! | File | What stands there |
//! |---|---|
//! | `specs/Claims` | the word of each heap, the elements, the P-portion, and the claim over labels |
//! | `specs/Presents` | when all of it is right |
//! | `src/word_cells` | finitely many words stand for all standard ones |
//! | `src/told_cells` | when the words of cells are told apart, though there are infinitely many |
//! | `src/finite_presentations` | finite presentations are finite quotients |
#![tactic(auto)]

mod finite_presentations;
mod told_cells;
mod word_cells;

pub use finite_presentations::finite_presentations_are_quotients;
pub use told_cells::{led_cells_have_one_fold, separated_cells_are_told};
pub use word_cells::{classes_come_letter_by_letter, folds_are_elements};
