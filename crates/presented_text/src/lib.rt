//! The text of a presentation of a misère quotient: which bytes spell which one, as definitions, their
//! laws, and the reader.
//!
//! `SpellsPresented` (specs/Spelling.antt) is the one text of what is said (`PresentedSaid`,
//! specs/Said.antt); `said_at` (specs/Reading.antt) reads from left to right. `LetterCycle` is a part of it in memory.
//! A word in commuting letters is its letters in order, each with its exponent if that is above 1, and 1 for the empty
//! word (`words`).
#![tactic(auto)]

mod items;
mod laws;
mod letter_cycle;
mod lists;
mod reading;
mod text;
mod words;

pub use certificate_lines::TextFault;
pub use laws::words_are_read;
pub use letter_cycle::LetterCycle;
pub use reading::{read, read_from};
pub use text::PresentedText;
pub use words::word;

/// How many heaps have words of their own at most.
pub const MOST_HEAPS: u16 = 16384;

/// The most relations, and the most words of the portion.
pub const MOST_ITEMS: u16 = 60000;

/// The largest start and the largest period of a cycle.
pub const LARGEST_CYCLE: u16 = 1000;

/// The most letters.
pub const MOST_GENERATORS: u16 = 26;

ghost use Rattle.std.specs.Prelude.{◌≡◌, ℕ, List, [], Some};
ghost use Rattle.presented_text.specs.Said.{PresentedSaid, IsInRanges};
ghost use Rattle.presented_text.specs.Spelling.{SpellsPresented};
ghost use Rattle.presented_text.specs.Reading.{said_at};

/// Bytes say one thing at most, and one thing has one spelling.
pub fn texts_say_one()
    ensures value { (b : List ℕ) (c d : PresentedSaid) → SpellsPresented b c → SpellsPresented b d
        → c ≡ d }
    ensures bytes { (a b : List ℕ) (c : PresentedSaid) → SpellsPresented a c → SpellsPresented b c
        → a ≡ b }
{}

/// What is read from left to right to the end is spelled so, and what is spelled so is read.
pub fn reading_is_spelling()
    ensures takes { (b : List ℕ) (c : PresentedSaid) → said_at b ≡ Some (c, [])
        → SpellsPresented b c }
    ensures again { (b : List ℕ) (c : PresentedSaid) → SpellsPresented b c
        → said_at b ≡ Some (c, []) }
{}

/// The largest exponent of a word that is read.
pub const LARGEST_POWER: u16 = 1000;
