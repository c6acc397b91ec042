//! Infinite quotients and presentations for C: a static library of calls, to be linked with those of the checker, and the
//! search for them. What the others do stands in `infinite_queries`.
#![tactic(auto)]

mod exports;
mod solving;
