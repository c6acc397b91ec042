//! What a text of a whole game with a ruling heap says, in memory.
use octal_code::Code;
use std::alloc::{Allocator, Global};
use std::marker::Model;

/// The code; from which heap on the numbers repeat, after how many heaps, and by how much weights and
/// leads rise each time; and for each of the heaps 1 to start + period - 1 whether it is odd, which is
/// 1 or 0, its weight, and its lead, which is 0 if it never rules.
#[derive(Drop)]
pub struct DominanceText<A: Allocator = Global> {
    pub code: Code,
    pub start: u16,
    pub period: u16,
    pub rise: u16,
    pub odd: Vec<u16, A>,
    pub weights: Vec<u16, A>,
    pub leads: Vec<u16, A>,
}

impl<A: Allocator> Model for DominanceText<A> {
    ghost use Rattle.dominance_text.specs.Said.{DominanceSaid};

    ghost Value = { DominanceSaid };

    ghost view = { λ t.
        record {
          code = t.code;
          start = t.start;
          period = t.period;
          rise = t.rise;
          odd = t.odd.items;
          weights = t.weights.items;
          leads = t.leads.items;
        } };
}
