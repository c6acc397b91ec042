//! Normal forms of positions.
ghost use Rattle.std.specs.Prelude.{◌≡◌, ◌+◌, ◌≤◌, ◌<◌, ℕ, slice_index};
ghost use Rattle.misere_theory.specs.Games.{IsPosition};
ghost use Rattle.presentations.specs.declared.TheConstants.{LETTERS};
ghost use Rattle.presentations.specs.Vectors.{plus};
ghost use Rattle.relations.specs.Bases.{letter_count};
ghost use Rattle.normal_forms.specs.Forms.{IsNormalForm};
ghost use Rattle.presented_claims.specs.Claims.{heap_word};
ghost use Rattle.presented_tables.specs.Tested.{HasWord};
ghost use Rattle.label_players.specs.Forms.{IsFormIfShort};
ghost use Rattle.label_players.specs.Wide.{AreSmall};

use crate::reducing::reduced;
use crate::wide::{WideWord, are_small, product, widened};
use presentations::LETTERS;
use presented_checker::PresentedQuotient;
use presented_tables::Presented;
use std::alloc::Allocator;

/// The normal form of the product of two words, if they have no larger exponents than 2^96.
pub(crate) fn times<A: Allocator>(p: &Presented<A>, x: &WideWord, y: &WideWord) -> WideWord
    ensures form { AreSmall x.now → AreSmall y.now
        → IsNormalForm LETTERS p.now.relations (plus x.now y.now) result }
    ensures few { AreSmall x.now → AreSmall y.now
        → letter_count LETTERS result ≤ letter_count LETTERS x.now + letter_count LETTERS y.now }
{
    if !are_small(x) || !are_small(y) {
        return *x;
    }
    reduced(p.basis.rules(), &product(x, y))
}

/// The word of the heap n, or the empty one.
fn heap_word<A: Allocator>(p: &Presented<A>, n: u64) -> WideWord
    ensures same { result ≡ heap_word p.now n }
    ensures small { (i : ℕ) → i < LETTERS → slice_index result i ≤ 65535 }
{
    match p.word(n) {
        Some(word) => widened(&word),
        None => widened(&[0u16; LETTERS]),
    }
}

/// The normal form of the position of these heaps.
pub(crate) fn form_of<A: Allocator>(quotient: &PresentedQuotient<A>, heaps: &[u64]) -> WideWord
    requires { IsPosition (HasWord quotient.now.said) heaps.now }
    ensures { IsFormIfShort quotient.now.said heaps.now result }
{
    let said = quotient.said();
    let mut all = [0u128; LETTERS];
    for i in 0..heaps.len() {
        let word = heap_word(said, heaps[heaps.len() - 1 - i]);
        all = times(said, &word, &all);
    }
    all
}
