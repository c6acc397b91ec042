//! The contexts that a failing position asks for: the elements of the wrong guess, and the proper
//! summands of the position.
use crate::cells::{WORD_BITS, clear, index, part, put_index, set_bit, words_for};
use crate::dead::{is_empty, is_within};
use crate::quotient::HeapQuotient;
use crate::scene::Scene;
use crate::work::{Halt, Means};
use std::alloc::Allocator;

/// The most summands of a position that are looked at.
const MOST_SUMMANDS: usize = 1000;

/// Which contexts tell elements apart.
#[derive(Clone, Copy, PartialEq, Eq)]
pub enum Kept {
    /// All of them.
    All,
    /// The empty one and the summands.
    Summands,
    /// The empty one and one of the summands that no element stands for.
    Summand(usize),
}

/// A summand of a position: how many heaps of each size it has of those that the position has.
#[derive(Drop)]
struct Summand<A: Allocator> {
    sizes: Vec<usize, A>,
    counts: Vec<usize, A>,
    taken: Vec<usize, A>,
}

/// Heaps by their sizes.
fn sorted<A: Allocator + Copy>(alloc: A, heaps: &[usize]) -> Result<Vec<usize, A>, Halt> {
    let mut sorted: Vec<usize, A> = Vec::new(alloc);
    sorted.extend_from_slice(heaps)?;
    sorted.sort_unstable();
    Ok(sorted)
}

impl<A: Allocator + Copy> Summand<A> {
    /// The empty summand.
    fn of(alloc: A, heaps: &[usize]) -> Result<Summand<A>, Halt> {
        let sorted = sorted(alloc, heaps)?;
        let mut summand = Summand {
            sizes: Vec::new(alloc),
            counts: Vec::new(alloc),
            taken: Vec::new(alloc),
        };
        summand.count_all(&sorted)?;
        Ok(summand)
    }
}

impl<A: Allocator> Summand<A> {
    /// Adds heaps to the position, by their sizes.
    fn count_all(&mut self, sorted: &[usize]) -> Result<(), Halt> {
        for size in sorted {
            self.count(*size)?;
        }
        Ok(())
    }

    /// Adds a heap to the position, no smaller than the others.
    fn count(&mut self, size: usize) -> Result<(), Halt> {
        let last = self.sizes.len().wrapping_sub(1);
        if index(&self.sizes, last) == size {
            let count = index(&self.counts, last).wrapping_add(1);
            put_index(&mut self.counts, last, count);
        } else {
            self.sizes.push(size)?;
            self.counts.push(1)?;
            self.taken.push(0)?;
        }
        Ok(())
    }

    /// About how many summands there are.
    fn variety(&self) -> usize {
        let mut summands = 1usize;
        for count in self.counts.iter() {
            summands = summands.saturating_mul(count.saturating_add(1));
        }
        if summands < MOST_SUMMANDS {
            summands
        } else {
            MOST_SUMMANDS
        }
    }

    /// Goes to the next proper summand. Answers whether there is one.
    fn advance(&mut self) -> bool {
        for place in 0..self.counts.len() {
            let have = index(&self.taken, place);
            if have < index(&self.counts, place) {
                put_index(&mut self.taken, place, have.wrapping_add(1));
                return !self.is_whole();
            }
            put_index(&mut self.taken, place, 0);
        }
        false
    }

    /// About how many steps its options take.
    fn cost(&self, quotient: &HeapQuotient<A>) -> usize {
        let mut heaps = 0usize;
        for taken in self.taken.iter() {
            heaps = heaps.saturating_add(*taken);
        }
        let one = heaps.saturating_add(quotient.order);
        one.saturating_mul(self.sizes.len())
    }

    fn is_whole(&self) -> bool {
        for (place, count) in self.counts.iter().enumerate() {
            if index(&self.taken, place) != *count {
                return false;
            }
        }
        true
    }

    /// The value without one of the heaps at a place.
    fn value_without(&self, quotient: &HeapQuotient<A>, without: usize) -> usize {
        let mut value = 0;
        for (place, size) in self.sizes.iter().enumerate() {
            let taken = index(&self.taken, place);
            let count = if place == without {
                taken.saturating_sub(1)
            } else {
                taken
            };
            for _ in 0..count {
                value = quotient.times(value, quotient.heap(*size));
            }
        }
        value
    }

    /// Sets the bits of the values of the summand's options. Answers whether there is one and all are
    /// below `elements`.
    fn mask(&self, quotient: &HeapQuotient<A>, elements: usize, mask: &mut Vec<u64, A>) -> bool {
        for (place, size) in self.sizes.iter().enumerate() {
            if index(&self.taken, place) == 0 {
                continue;
            }
            let rest = self.value_without(quotient, place);
            for option in quotient.heap_moves(*size) {
                let value = quotient.times(rest, *option as usize);
                if value >= elements {
                    return false;
                }
                set_bit(mask, value);
            }
        }
        !is_empty(mask)
    }
}

/// The context with these options.
fn context_with<A: Allocator>(scene: &Scene<A>, mask: &[u64]) -> Option<usize> {
    for context in 0..scene.count {
        let own = part(&scene.masks, context.wrapping_mul(scene.words), scene.words);
        if is_within(own, mask) && is_within(mask, own) {
            return Some(context);
        }
    }
    None
}

/// The first elements of a quotient, each by the values of its representative's options.
fn scene_of_elements<A: Allocator + Copy>(
    means: &mut Means<'_, A>,
    quotient: &HeapQuotient<A>,
    elements: usize,
    words: usize,
) -> Result<Scene<A>, Halt> {
    let steps = words
        .saturating_mul(WORD_BITS)
        .saturating_mul(words.saturating_add(1));
    means.work.spend(steps)?;
    let mut kept: Vec<u64, A> = vec![in means.alloc; 0u64; words]?;
    set_bit(&mut kept, 0);
    let mut scene = Scene {
        count: elements,
        words,
        masks: Vec::new(means.alloc),
        kept,
    };
    add_elements(means.alloc, quotient, &mut scene)?;
    Ok(scene)
}

/// Adds the rows of the elements.
fn add_elements<A: Allocator + Copy>(
    alloc: A,
    quotient: &HeapQuotient<A>,
    scene: &mut Scene<A>,
) -> Result<(), Halt> {
    let mut mask: Vec<u64, A> = vec![in alloc; 0u64; scene.words]?;
    for element in 0..scene.count {
        write_options(quotient, element, &mut mask);
        scene.masks.extend_from_slice(&mask)?;
    }
    Ok(())
}

/// Writes the row of the options of an element's representative.
fn write_options<A: Allocator>(quotient: &HeapQuotient<A>, element: usize, mask: &mut Vec<u64, A>) {
    clear(mask);
    for option in quotient.options.list(element) {
        set_bit(mask, *option as usize);
    }
}

/// Adds a summand with a row of options, unless it is there, and notes whether it is kept. Answers how
/// many no element stands for, where it was so many.
fn add_summand<A: Allocator>(
    mask: &[u64],
    kept: Kept,
    added: usize,
    scene: &mut Scene<A>,
) -> Result<usize, Halt> {
    if let Some(context) = context_with(scene, mask) {
        if kept == Kept::Summands {
            set_bit(&mut scene.kept, context);
        }
        return Ok(added);
    }
    if kept == Kept::Summands || kept == Kept::Summand(added) {
        set_bit(&mut scene.kept, scene.count);
    }
    scene.masks.extend_from_slice(mask)?;
    scene.count = scene.count.wrapping_add(1);
    Ok(added.wrapping_add(1))
}

/// Adds the summands, and notes those that are kept. Answers how many no element stands for.
fn add_summands<A: Allocator + Copy>(
    means: &mut Means<'_, A>,
    quotient: &HeapQuotient<A>,
    summand: &mut Summand<A>,
    kept: Kept,
    scene: &mut Scene<A>,
) -> Result<usize, Halt> {
    let elements = scene.count;
    let mut mask: Vec<u64, A> = vec![in means.alloc; 0u64; scene.words]?;
    let mut added = 0usize;
    for _ in 0..MOST_SUMMANDS {
        if !summand.advance() {
            break;
        }
        means
            .work
            .spend(summand.cost(quotient).saturating_add(scene.cost()))?;
        clear(&mut mask);
        if summand.mask(quotient, elements, &mut mask) {
            added = add_summand(&mask, kept, added, scene)?;
        }
    }
    Ok(added)
}

/// Keeps all contexts where all are to be kept. Answers whether there is such a summand as is to
/// be kept, with so many that no element stands for.
fn keep<A: Allocator>(kept: Kept, added: usize, scene: &mut Scene<A>) -> bool {
    if kept == Kept::All {
        for context in 0..scene.count {
            set_bit(&mut scene.kept, context);
        }
    }
    match kept {
        Kept::Summand(number) => number < added,
        _ => true,
    }
}

/// The contexts for a failing position, with the first elements of the wrong guess. `None` where
/// there is no such summand as is to be kept.
pub fn contexts<A: Allocator + Copy>(
    means: &mut Means<'_, A>,
    quotient: &HeapQuotient<A>,
    heaps: &[usize],
    elements: usize,
    kept: Kept,
) -> Result<Option<Scene<A>>, Halt> {
    let mut summand = Summand::of(means.alloc, heaps)?;
    let words = words_for(elements.saturating_add(summand.variety()));
    let mut scene = scene_of_elements(means, quotient, elements, words)?;
    let added = add_summands(means, quotient, &mut summand, kept, &mut scene)?;
    if keep(kept, added, &mut scene) {
        Ok(Some(scene))
    } else {
        Ok(None)
    }
}
