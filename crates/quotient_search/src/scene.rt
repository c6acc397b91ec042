//! Contexts beside which positions are compared.
use crate::cells::{bit, clear, set_bit, word};
use crate::work::Halt;
use std::alloc::Allocator;

/// Contexts, each known by its options alone, which are contexts that come before it. Context 0 is
/// the empty position, and each other one has an option.
#[derive(Drop)]
pub struct Scene<A: Allocator> {
    /// How many contexts there are.
    pub count: usize,
    /// How many words a row of bits has, one bit for each context.
    pub words: usize,
    /// For each context the row of its options.
    pub masks: Vec<u64, A>,
    /// The row of the contexts that tell elements apart.
    pub kept: Vec<u64, A>,
}

impl<A: Allocator + Copy> Scene<A> {
    /// The empty position alone.
    pub fn plain(alloc: A) -> Result<Scene<A>, Halt> {
        Ok(Scene {
            count: 1,
            words: 1,
            masks: vec![in alloc; 0u64; 1]?,
            kept: vec![in alloc; 1u64; 1]?,
        })
    }
}

impl<A: Allocator> Scene<A> {
    /// Whether it is the empty position alone.
    pub fn is_plain(&self) -> bool {
        self.count == 1 && self.words == 1
    }

    /// Writes the row of a position: beside which contexts it is a P-position. `covered` has the
    /// contexts beside which some option of it is a P-position, and `movable` says whether it has
    /// an option.
    pub fn settle(&self, covered: &[u64], movable: bool, row: &mut Vec<u64, A>) {
        clear(row);
        if movable && !bit(covered, 0) {
            set_bit(row, 0);
        }
        for context in 1..self.count {
            if !bit(covered, context) && !self.meets(context, row) {
                set_bit(row, context);
            }
        }
    }

    /// Whether an option of the context is in the row.
    pub fn meets(&self, context: usize, row: &[u64]) -> bool {
        let from = context.wrapping_mul(self.words);
        for (place, bits) in row.iter().enumerate() {
            if word(&self.masks, from.wrapping_add(place)) & *bits != 0 {
                return true;
            }
        }
        false
    }

    /// About how many steps a row takes.
    pub fn cost(&self) -> usize {
        self.count.saturating_mul(self.words)
    }

    /// Whether two rows agree in every context that tells elements apart.
    pub fn agree(&self, one: &[u64], other: &[u64]) -> bool {
        for place in 0..self.words {
            if (word(one, place) ^ word(other, place)) & word(&self.kept, place) != 0 {
                return false;
            }
        }
        true
    }
}
