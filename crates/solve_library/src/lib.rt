//! The finder, the descriptions and the certifier for C: a static library of calls, to be linked with
//! those of the checker.
#![tactic(auto)]

mod causes;
mod certifying;
mod describing;
mod exports;
mod handing;
mod opened_texts;
mod solving;
