//! A presentation in memory, its relations a basis.
ghost use Rattle.std.specs.Prelude.{◌≡◌, IfSome, is_some, true, IsTrue};
ghost use Rattle.presented_claims.specs.Claims.{listed_heap, listed_word, has_word, heap_word};

use normal_forms::{Basis, Exponents};
use octal_code::Code;
use presented_text::LetterCycle;
use std::alloc::{Allocator, Global};
use std::marker::Model;

/// What a text of a presentation says, its relations being a basis: `PresentedSaid`.
#[derive(Drop)]
pub struct Presented<A: Allocator = Global> {
    pub code: Code,
    pub heaps: u16,
    pub period: u16,
    pub letters: Vec<u16, A>,
    pub words: Vec<Option<Exponents>, A>,
    pub basis: Basis<A>,
    pub cycles: Vec<LetterCycle, A>,
    pub portion: Vec<Exponents, A>,
}

impl<A: Allocator> Model for Presented<A> {
    ghost use Rattle.presented_text.specs.Said.{PresentedSaid};

    ghost Value = { PresentedSaid };

    ghost view = { λ p.
        record {
          code = p.code;
          heaps = p.heaps;
          period = p.period;
          letters = p.letters.items;
          words = p.words.items;
          relations = p.basis;
          cycles = p.cycles.items;
          portion = p.portion.items;
        } };
}

impl<A: Allocator> Presented<A> {
    /// The heap of the list whose word this heap has, or 0.
    fn listed_heap(&self, n: u64) -> u64
        ensures { result ≡ listed_heap self.now n }
    {
        if n <= self.heaps as u64 {
            return n;
        }
        if self.period == 0 {
            return 0;
        }
        let start = (self.heaps.saturating_sub(self.period)) as u64 + 1;
        start + (n.saturating_sub(start)) % (self.period as u64)
    }

    /// What the list has for its heap `n`.
    fn listed_word(&self, n: u64) -> Option<Exponents>
        ensures { result ≡ listed_word self.now n }
    {
        if n == 0 {
            return None;
        }
        match self.words.get((n - 1) as usize) {
            Some(word) => *word,
            None => None,
        }
    }

    /// The word of heap `n`, if it has one.
    pub fn word(&self, n: u64) -> Option<Exponents>
        ensures { result ≡ listed_word self.now (listed_heap self.now n) }
    {
        self.listed_word(self.listed_heap(n))
    }

    /// Whether heap `n` has a word.
    pub fn has_word(&self, n: u64) -> bool
        ensures { result ≡ has_word self.now n }
    {
        match self.word(n) {
            Some(_) => true,
            None => false,
        }
    }
}
