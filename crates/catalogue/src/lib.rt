//! Catalogues: certified quotients in a JSON file, one for a code and a kind, each checked anew
//! when the file is loaded.
#![tactic(auto)]

mod entry;
mod fault;
mod fields;
mod file;
mod frame;
mod key;
mod laws;
mod loading;
mod members;
mod number;
mod passing;
mod salvaging;
mod store;
mod text;

pub use fault::{AddFault, LoadFault, StoreFault};
pub use laws::texts_of_the_same_codes_are_equal;
pub use store::Catalogue;
pub use text::certificate_text;
