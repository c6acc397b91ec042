//! The check of certificates: which bytes are an accepted certificate, and why others are not.
//!
//! `check` answers at once, and a `Job` in pieces. A check is a row of stages, one file each:
//! `reading`, `laws`, `keys`, `products`, `periods`, `separating`, `heaps`, `elements`, `closing`.
//! A unit is one turn of one stage, and `Stage::advance` drives both.
#![tactic(auto)]

mod any_paired;
mod checking;
mod closing;
mod contexts;
mod elements;
mod heaps;
mod job;
mod keys;
mod lawful_certificate;
mod laws;
mod lines;
mod paired;
mod periods;
mod products;
mod reading;
mod rule;
mod separating;
mod stage;

pub use answers::{Certified, Refusal, one_text_for_a_code, true_answers};
pub use check_machine::{checks_end, turns_decide, verdicts_are_true};
pub use checking::{Checker, check};
pub use job::{Job, Progress};
pub use positions::Outcome;
