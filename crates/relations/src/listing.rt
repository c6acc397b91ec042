//! Whether lists are what is printed: each element once, relations that lead to the elements' words, and
//! words that `present` reads.
ghost use Rattle.std.specs.Prelude.{◌≡◌, ◌<◌, ◌≤◌, ◌↔◌, ℕ, IsTrue, All, Contains};
ghost use Rattle.relations.specs.Presented.{IsListing, LeadTo};
ghost use Rattle.relations.specs.Printed.{ArePrintable, IsPrintable};

use presentations::{LARGEST_EXPONENT, LETTERS, Relation, Word};

/// Whether the element is in the list.
fn has(listing: &[u16], x: u16) -> bool
    ensures { IsTrue result → Contains listing.now x }
{
    for e in listing {
        if *e == x {
            return true;
        }
    }
    false
}

/// Whether each element below the order is in the list.
fn has_all(order: u16, listing: &[u16]) -> bool
    ensures { IsTrue result → (x : ℕ) → x < order → Contains listing.now x }
{
    for x in 0..order {
        if !has(listing, x) {
            return false;
        }
    }
    true
}

/// Whether the list has elements below the order alone.
pub fn are_below(order: u16, listing: &[u16]) -> bool
    ensures { IsTrue result → All (λ e. e < order) listing.now }
{
    for e in listing {
        if *e >= order {
            return false;
        }
    }
    true
}

/// Whether the list has each element below the order once.
pub fn is_listing(order: u16, listing: &[u16]) -> bool
    ensures { IsTrue result → IsListing order listing.now }
{
    listing.len() == order as usize && are_below(order, listing) && has_all(order, listing)
}

/// Whether the word is in the list.
pub fn has_word(words: &[Word], word: &Word) -> bool
    ensures { IsTrue result ↔ Contains words.now word.now }
{
    for other in words {
        if *other == *word {
            return true;
        }
    }
    false
}

/// Whether each relation leads from a word that is not in the list to one that is.
pub fn lead_to(words: &[Word], relations: &[Relation]) -> bool
    ensures { IsTrue result → LeadTo words.now relations.now }
{
    for relation in relations {
        if has_word(words, &relation.left) || !has_word(words, &relation.right) {
            return false;
        }
    }
    true
}

/// Whether the exponents are at most `LARGEST_EXPONENT`, and those after the first letters 0.
fn is_printable(letters: usize, word: &Word) -> bool
    ensures { IsTrue result → IsPrintable letters word.now }
{
    for i in 0..LETTERS {
        if word[i] > LARGEST_EXPONENT || i >= letters && word[i] > 0 {
            return false;
        }
    }
    true
}

/// Whether `present` reads the relations as they are printed.
pub fn are_printable(letters: usize, relations: &[Relation]) -> bool
    ensures { IsTrue result → ArePrintable letters relations.now }
{
    for relation in relations {
        if !is_printable(letters, &relation.left) || !is_printable(letters, &relation.right) {
            return false;
        }
    }
    true
}
