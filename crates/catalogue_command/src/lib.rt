//! What the program does with a catalogue file: its entries are listed, or printed as a table, one is
//! printed, one is added, what stands of a damaged file is kept, and a file of an older version is
//! written anew.
//!
//! Each action reads all that it needs, makes the text that is to be printed, and then writes the
//! file where it changes it. So the file has changed exactly where the action ends well, and what
//! stops it says why.
#![tactic(auto)]

mod adding;
mod counting;
mod files;
mod finding;
mod lines;
mod listing;
mod migrating;
mod objects;
mod rows;
mod salvaging;
mod tabling;
mod tasks;

pub use adding::{add, create};
pub use finding::get;
pub use listing::list;
pub use migrating::migrate;
pub use salvaging::salvage;
pub use tabling::table;
pub use tasks::act;
