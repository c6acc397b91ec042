//! The checker for C, and for whatever calls C: a static library of calls on numbers and bytes.
//!
//! It keeps nothing between calls but what is opened. Whatever is asked of a certificate is asked
//! with its bytes, which are checked anew, or of an opened quotient, which was checked once. So each
//! answer has the checker's theorem behind it. A caller owns all memory that he hands over or gets.
#![tactic(auto)]

mod asking;
mod bytes;
mod exports;
mod heaps;
mod many;
mod opened_exports;
mod opening;
