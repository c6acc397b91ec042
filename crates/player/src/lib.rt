//! Playing by labels of positions: the outcome of a position, and the first winning move.
//!
//! A `Labelling` gives positions labels by which outcomes are known; the search of winning moves is
//! written once, over it. The quotient of a certificate is one, whose labels are its elements: its value
//! and outcome of a position, and the first winning move.
//!
//! `numbers` and `heaps` have the numbers, structs and rooms in which calls from C are told what they ask.
#![tactic(auto)]

mod answering;
mod heaps;
mod labelling;
mod laws;
mod numbers;
mod play;
mod quotient;
mod wins;

pub use answering::{Answer, answer_by, outcome_by};
pub use heaps::{are_ends, are_sizes, heaps_at, position_of, put};
pub use labelling::{LONGEST_POSITION, Labelling};
pub use laws::{plays_stay_inside, right_answers_are_one};
pub use numbers::{
    BEYOND, DONE, MEMORY, MisereAnswer, NO_ROOM, NOT_A_HEAP, NOT_ENDS, NOT_IN_RANGE, NOT_OPEN,
    OUTCOME, number, told,
};
pub use play::{answer, answer_at, fits, looks, outcome, value};
pub use positions::{Options as Looks, Outcome};
