//! The text of a verdict, and checks of bytes and streams by whatever checks.
#![tactic(auto)]

mod lines;
mod stream;

pub use lines::{OUTCOME_BUDGET, VerdictText, verdict_line, verdict_text};
pub use stream::{MOST_BYTES, check_stream, checked_bytes, checked_stream};
