//! What a check answers: an accepted certificate, or why the bytes of a certificate, of a whole game or of a presentation
//! are refused.
#![tactic(auto)]

mod certified;
mod checks;
mod infinite_refusal;
mod laws;
mod refusal;
mod spelling;
mod values;

pub use certified::Certified;
pub use checks::Checks;
pub use infinite_refusal::InfiniteRefusal;
pub use laws::{one_text_for_a_code, spelled_sizes_are_positions, true_answers};
pub use refusal::Refusal;
pub use spelling::position_of;
