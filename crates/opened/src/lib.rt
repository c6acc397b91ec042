//! Quotients that were opened: a text that a check has accepted, kept for many questions, and as a handle
//! for whoever isn't written in this language.
//!
//! A handle that goes out to C is a pointer. What it owns stands in its type, and what it owns keeps
//! the checker's theorem. C takes no generic struct, so certificates, and texts of whole games and presentations, each
//! declare a `Handle` of their own; the walks of its functions are proved once for each kept type (`handle_owns`).
#![tactic(auto)]

mod handle;
mod infinite;
mod infinite_handle;
mod loose;
mod opened;
mod owner;
mod quotient;
mod text;

pub use handle::Handle;
pub use infinite::InfiniteQuotient;
pub use infinite_handle::InfiniteHandle;
pub use loose::Loose;
pub use opened::Opened;
pub use owner::OpenedInfinite;
pub use quotient::Quotient;
pub use text::AcceptedText;
