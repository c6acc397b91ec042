//! The commands that judge texts: `verify`, `infinite`, `tail` and `explain`.
//!
//! | File | What stands there |
//! |---|---|
//! | `verifying` | the verdict on a text of any kind |
//! | `quotients` | the lines of quotients |
//! | `endless`, `showing`, `playing` | what is said of a text of a whole game, or of an infinite quotient, and the answers in positions by each |
//! | `tails` | whether the whole game of a partial certificate is normal play beyond some heap |
//! | `explaining`, `stops`, `lines` | what kind of text a file has, or why it is none |
//! | `words`, `faults`, `codes`, `sizes` | why a text is no code, or no position |
#![tactic(auto)]

mod codes;
mod endless;
mod explaining;
mod faults;
mod kinds;
mod laws;
mod lines;
mod playing;
mod quotients;
mod showing;
mod sizes;
mod stops;
mod tails;
mod verifying;
mod words;

pub use codes::code_fault;
pub use endless::infinite;
pub use explaining::explain;
pub use faults::{WrittenCodeFault, WrittenPositionFault};
pub use kinds::Kind;
pub use laws::{faults_refuse_codes, faults_refuse_positions};
pub use playing::{play_infinite, play_infinite_lines};
pub use quotients::yes_text;
pub use showing::show_infinite;
pub use sizes::position_fault;
pub use tails::tail;
pub use verifying::verify;
pub use words::{explain_code, explain_position};
