//! The elements that a presentation has, in numbers.
ghost use Rattle.std.specs.Prelude.{◌≡◌, ◌<◌, IfSome, length};
ghost use Rattle.presented_tables.specs.Elements.{element};

use normal_forms::Exponents;
use std::alloc::{Allocator, Global};
use std::marker::Model;

/// Standard words, the first of which is that of nothing; a row for each, which has the number of its product with
/// each letter; and a mark for each that is in the portion.
#[derive(Drop)]
pub struct ListedElements<A: Allocator = Global> {
    pub words: Vec<Exponents, A>,
    pub steps: Vec<u32, A>,
    pub bits: Vec<bool, A>,
}

impl<A: Allocator> Model for ListedElements<A> {
    ghost use Rattle.presented_tables.specs.Elements as elements;

    ghost Value = { elements.ListedElements };

    ghost view = { λ e. record {
      words = e.words.items;
      steps = e.steps.items;
      bits = e.bits.items;
    } };
}

/// Word `x`.
pub(crate) fn word_at<A: Allocator>(e: &ListedElements<A>, x: usize) -> Option<Exponents>
    ensures { IfSome result (λ w. (x < length e.now.words) × (w ≡ element e.now x)) }
{
    match e.words.get(x) {
        Some(word) => Some(*word),
        None => None,
    }
}
