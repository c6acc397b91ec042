//! The text of whole games in which one heap may rule all others: which bytes spell which claim, as
//! definitions, their laws, and the reader.
//!
//! `SpellsDominance` (specs/Spelling.antt) is the one text of what is said (`DominanceSaid`,
//! specs/Said.antt), and `label_of` (specs/Labels.antt) the triple that it gives to each heap;
//! `said_at` (specs/Reading.antt) reads from left to right.
#![tactic(auto)]

mod reading;
mod text;

pub use certificate_lines::{Reader, TextFault};
pub use reading::{read, read_from};
pub use text::DominanceText;

/// How many heaps have numbers of their own at most, in front of those that repeat them.
pub const MOST_LABELS: u16 = 1024;

/// The largest rise, weight and lead.
pub const LARGEST_WEIGHT: u16 = 60000;

ghost use Rattle.std.specs.Prelude.{◌≡◌, ◌+◌, ◌<◌, ◌≤◌, ℕ, List, [], Some};
ghost use Rattle.dominance.specs.Finite.{IsRaised};
ghost use Rattle.dominance_text.specs.Said.{DominanceSaid, IsInRanges};
ghost use Rattle.dominance_text.specs.Labels.{listed_triple, label_of};
ghost use Rattle.dominance_text.specs.Spelling.{SpellsDominance};
ghost use Rattle.dominance_text.specs.Reading.{said_at};

/// Bytes say one thing at most, and one thing has one spelling.
pub fn texts_say_one()
    ensures value { (b : List ℕ) (c d : DominanceSaid) → SpellsDominance b c → SpellsDominance b d
        → c ≡ d }
    ensures bytes { (a b : List ℕ) (c : DominanceSaid) → SpellsDominance a c → SpellsDominance b c
        → a ≡ b }
{}

/// What is read from left to right to the end is spelled so, and what is spelled so is read.
pub fn reading_is_spelling()
    ensures ranges { (b : List ℕ) (c : DominanceSaid) (rest : List ℕ) → said_at b ≡ Some (c, rest)
        → IsInRanges c }
    ensures takes { (b : List ℕ) (c : DominanceSaid) → said_at b ≡ Some (c, [])
        → SpellsDominance b c }
    ensures again { (b : List ℕ) (c : DominanceSaid) → SpellsDominance b c
        → said_at b ≡ Some (c, []) }
{}

/// Up to the end of the first period the lists have each heap's triple. From the start on it repeats
/// with the period, up to the rise.
pub fn labels_repeat()
    ensures listed { (c : DominanceSaid) (n : ℕ) → n < c.start + c.period
        → label_of c n ≡ listed_triple c n }
    ensures raised { (c : DominanceSaid) (n : ℕ) → IsInRanges c → c.start ≤ n
        → IsRaised c.rise (label_of c n) (label_of c (c.period + n)) }
{}
