//! The machine of a check: what its turns do, what they cost, and that its verdicts are true.
//!
//! A check is seen as a phase, and a unit as one turn from a phase to the next. Nothing here runs;
//! `checker` has the code, stage by stage, and proves that it does these turns.
#![tactic(auto)]

mod turns;

pub use turns::{checks_end, turns_decide, verdicts_are_true};
