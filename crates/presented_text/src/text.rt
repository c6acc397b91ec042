//! What a text of a presentation says, in memory.
use crate::LetterCycle;
use normal_forms::{Exponents, Rule};
use octal_code::Code;
use std::alloc::{Allocator, Global};
use std::marker::Model;

/// The code; how many heaps have words of their own, and after how many these repeat, 0 if no other heap
/// counts; for each letter the heap whose word it is; for each heap its word, or none if it is left out;
/// the relations; for each letter its cycle; and the words of the portion.
#[derive(Drop)]
pub struct PresentedText<A: Allocator = Global> {
    pub code: Code,
    pub heaps: u16,
    pub period: u16,
    pub letters: Vec<u16, A>,
    pub words: Vec<Option<Exponents>, A>,
    pub relations: Vec<Rule, A>,
    pub cycles: Vec<LetterCycle, A>,
    pub portion: Vec<Exponents, A>,
}

impl<A: Allocator> Model for PresentedText<A> {
    ghost use Rattle.presented_text.specs.Said.{PresentedSaid};

    ghost Value = { PresentedSaid };

    ghost view = { λ t.
        record {
          code = t.code;
          heaps = t.heaps;
          period = t.period;
          letters = t.letters.items;
          words = t.words.items;
          relations = t.relations.items;
          cycles = t.cycles.items;
          portion = t.portion.items;
        } };
}
