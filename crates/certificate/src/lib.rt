//! Certificates: what their lines hold, and how they are read from bytes and written to a sink.
//!
//! Which bytes spell which certificate is said in the crate certificate_text.
#![tactic(auto)]

mod cert;
mod expanding;
mod fault;
mod fields;
mod firsts;
mod format;
mod front;
mod laws;
mod lists;
mod putting;
mod reading;
mod writing;

pub use cert::{Cert, in_ranges};
pub use certificate_lines::{Key, Reader, TextFault};
pub use fault::WriteFault;
pub use fields::Fields;
pub use laws::claims_agree;
pub use reading::{read, read_from};
pub use streams::{Sink, Source};
pub use writing::write;
