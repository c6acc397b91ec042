//! Certificates of quotients that somebody brings: by a table in a numbering of their own, or by generators and relations.
//!
//! A table is read from bytes, and what is wrong with it is told. It is numbered by least keys, and the certificate that
//! this makes is checked. Nothing is believed of how it was numbered: what is found is compared with the table. The
//! elements of a finite presentation are put into numbers, and a draft of the certificate of the same heaps is made of
//! them, which is checked as well (`presented`).
#![tactic(auto)]

mod associating;
mod carrying;
mod certifying;
mod commuting;
mod draft;
mod elements;
mod fault;
mod identities;
mod laws;
mod likeness;
mod numbering;
mod presented;
mod presented_draft;
mod reaching;
mod reading;
mod table;

pub use associating::not_associating;
pub use carrying::is_carried;
pub use certifying::{Numbered, certify};
pub use commuting::not_commuting;
pub use fault::CertifyFault;
pub use identities::identity;
pub use laws::reading_tables_is_spelling;
pub use likeness::alike;
pub use presented::certified_presentation;
pub use reaching::unreached;
pub use reading::{TableFault, read_table, read_table_from};
pub use table::OwnTable;
