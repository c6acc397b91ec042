//! What is asked of a whole game, or of a quotient that generators and relations present, as it is asked from C: outcomes,
//! moves, words of positions and descriptions, by the bytes of a text or once it was opened. The static library
//! `infinite_library` hands it out.
//!
//! What is opened was checked once, and keeps the checker's theorem. The caller owns all other memory.
#![tactic(auto)]

mod asking;
mod bytes;
mod describing;
mod kinds;
mod many;
mod opening;
mod queries;
mod valuing;

pub use bytes::{check, failure};
pub use describing::{code, describe, hand_over};
pub use opening::{close, open, share};
pub use queries::{answer, answers, kind, order, outcome, outcomes};
pub use valuing::value;
