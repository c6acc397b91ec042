//! The quotients that files and standard input give, by their first word: finite ones, those of whole games, and those that
//! generators and relations present; and `check`, which says what is judged of a certificate.
#![tactic(auto)]

mod bytes;
mod certifying;
mod checking;
mod giving;
mod laws;
mod presented;
mod refusals;
mod whole;

pub use bytes::given_bytes;
pub use certifying::certified;
pub use checking::check;
pub use giving::{Quotient, quotient_of};
pub use laws::fronts_decide;
pub use presented::{begins_presented, judged_presented};
pub use refusals::refusal_text;
pub use whole::{begins_whole, judged_whole};
