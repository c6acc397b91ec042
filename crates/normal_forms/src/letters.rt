//! Words by themselves: whether two are the same, and one with a letter more.
ghost use Rattle.std.specs.Prelude.{◌≡◌, ◌↔◌, IsTrue, IfSome};
ghost use Rattle.presentations.specs.declared.TheConstants.{LETTERS};
ghost use Rattle.presentations.specs.Vectors.{plus, only};

use crate::rule::Exponents;
use presentations::LETTERS;

/// Whether the words are the same.
pub fn is_word(v: &Exponents, w: &Exponents) -> bool
    ensures { IsTrue result ↔ (v.now ≡ w.now) }
{
    for i in 0..LETTERS {
        if v[i] != w[i] {
            return false;
        }
    }
    true
}

/// The word with letter `i` once more, if there is room.
pub fn with_letter(word: &Exponents, i: usize) -> Option<Exponents>
    ensures { IfSome result (λ w. w ≡ plus word.now (only LETTERS i 1)) }
{
    if i >= LETTERS {
        return None;
    }
    let mut more = *word;
    more[i] = word[i].checked_add(1)?;
    Some(more)
}
