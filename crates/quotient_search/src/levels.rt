//! Levels: how so many heaps of one size do beside each element.
use crate::cells::{clear, part, put_word, word};
use crate::quotient::HeapQuotient;
use crate::scene::Scene;
use crate::work::{Halt, Means, Work};
use std::alloc::Allocator;

/// The most pairs of a level and an element.
const MOST_PAIRS: usize = 40_000;

/// Level k has the row of k heaps beside each element's representative. From `lead` on the levels
/// come round, and those up to the last one before they do are `count`.
#[derive(Drop)]
pub struct Levels<A: Allocator> {
    pub rows: Vec<u64, A>,
    pub count: usize,
    pub lead: usize,
}

impl<A: Allocator + Copy> Levels<A> {
    /// Level 0 alone.
    pub fn only(alloc: A, quotient: &HeapQuotient<A>) -> Result<Levels<A>, Halt> {
        let mut rows = Vec::new(alloc);
        rows.extend_from_slice(&quotient.rows)?;
        Ok(Levels {
            rows,
            count: 1,
            lead: 0,
        })
    }
}

impl<A: Allocator> Levels<A> {
    /// The first level that is level k.
    pub fn cut(&self, k: usize) -> usize {
        let period = self.count.saturating_sub(self.lead);
        if k < self.count || period == 0 {
            k
        } else {
            self.lead.wrapping_add(k.wrapping_sub(self.lead) % period)
        }
    }
}

/// Where the row of k heaps beside an element begins.
fn row_at<A: Allocator>(quotient: &HeapQuotient<A>, k: usize, element: usize) -> usize {
    k.wrapping_mul(quotient.order)
        .wrapping_add(element)
        .wrapping_mul(quotient.words)
}

/// Adds a row to what is covered.
fn cover<A: Allocator>(covered: &mut Vec<u64, A>, rows: &[u64], from: usize) {
    for place in 0..covered.len() {
        let bits = word(covered, place) | word(rows, from.wrapping_add(place));
        put_word(covered, place, bits);
    }
}

/// Covers what the options of k heaps beside an element cover.
fn cover_options<A: Allocator>(
    quotient: &HeapQuotient<A>,
    moves: &[u16],
    rows: &[u64],
    k: usize,
    element: usize,
    covered: &mut Vec<u64, A>,
) {
    clear(covered);
    for option in moves {
        let beside = quotient.times(element, *option as usize);
        cover(covered, rows, row_at(quotient, k.wrapping_sub(1), beside));
    }
    for option in quotient.options.list(element) {
        cover(covered, rows, row_at(quotient, k, *option as usize));
    }
}

/// Adds level k, the next one, of a heap whose options have the values `moves`.
pub fn raise<A: Allocator + Copy>(
    means: &mut Means<'_, A>,
    scene: &Scene<A>,
    quotient: &HeapQuotient<A>,
    moves: &[u16],
    levels: &mut Levels<A>,
    k: usize,
) -> Result<(), Halt> {
    if scene.is_plain() {
        return raise_alone(quotient, moves, levels, k, &mut means.work);
    }
    let covered: Vec<u64, A> = vec![in means.alloc; 0u64; quotient.words]?;
    let row: Vec<u64, A> = vec![in means.alloc; 0u64; quotient.words]?;
    let mut scratch = Scratch { covered, row };
    raise_with(
        scene,
        quotient,
        moves,
        levels,
        k,
        &mut scratch,
        &mut means.work,
    )
}

/// Rows that are written anew for each element.
#[derive(Drop)]
struct Scratch<A: Allocator> {
    covered: Vec<u64, A>,
    row: Vec<u64, A>,
}

/// Whether some option of k heaps beside an element is a P-position, where rows have a word.
fn is_covered<A: Allocator>(
    quotient: &HeapQuotient<A>,
    moves: &[u16],
    rows: &[u64],
    k: usize,
    element: usize,
) -> bool {
    let below = row_at(quotient, k.wrapping_sub(1), 0);
    for option in moves {
        let beside = quotient.times(element, *option as usize);
        if word(rows, below.wrapping_add(beside)) & 1 == 1 {
            return true;
        }
    }
    let level = row_at(quotient, k, 0);
    for option in quotient.options.list(element) {
        if word(rows, level.wrapping_add(*option as usize)) & 1 == 1 {
            return true;
        }
    }
    false
}

/// The same of a plain scene, where a row has a bit.
fn raise_alone<A: Allocator>(
    quotient: &HeapQuotient<A>,
    moves: &[u16],
    levels: &mut Levels<A>,
    k: usize,
    work: &mut Work,
) -> Result<(), Halt> {
    for element in 0..quotient.order {
        let options = moves
            .len()
            .saturating_add(quotient.options.list(element).len());
        work.spend(options.saturating_add(1))?;
        let is_lost = options > 0 && !is_covered(quotient, moves, &levels.rows, k, element);
        levels.rows.push(is_lost as u64)?;
    }
    Ok(())
}

fn raise_with<A: Allocator>(
    scene: &Scene<A>,
    quotient: &HeapQuotient<A>,
    moves: &[u16],
    levels: &mut Levels<A>,
    k: usize,
    scratch: &mut Scratch<A>,
    work: &mut Work,
) -> Result<(), Halt> {
    for element in 0..quotient.order {
        cover_options(
            quotient,
            moves,
            &levels.rows,
            k,
            element,
            &mut scratch.covered,
        );
        let options = moves
            .len()
            .saturating_add(quotient.options.list(element).len());
        scene.settle(&scratch.covered, options > 0, &mut scratch.row);
        levels.rows.extend_from_slice(&scratch.row)?;
        work.spend(options.saturating_mul(quotient.words))?;
        work.spend(scene.cost())?;
    }
    Ok(())
}

/// How many of the first words of two levels of so many words are the same.
fn agreeing(rows: &[u64], words: usize, j: usize, k: usize) -> usize {
    let one = part(rows, j.wrapping_mul(words), words);
    let other = part(rows, k.wrapping_mul(words), words);
    for place in 0..words {
        if word(one, place) != word(other, place) {
            return place;
        }
    }
    words
}

/// The first level before k that is the same as level k.
fn same_before(
    rows: &[u64],
    words: usize,
    k: usize,
    work: &mut Work,
) -> Result<Option<usize>, Halt> {
    for j in 0..k {
        let agreeing = agreeing(rows, words, j, k);
        work.spend(agreeing.saturating_add(1))?;
        if agreeing >= words {
            return Ok(Some(j));
        }
    }
    Ok(None)
}

/// Adds levels behind level 1 until they come round.
pub fn finish<A: Allocator + Copy>(
    means: &mut Means<'_, A>,
    scene: &Scene<A>,
    quotient: &HeapQuotient<A>,
    moves: &[u16],
    levels: &mut Levels<A>,
) -> Result<(), Halt> {
    let words = quotient.order.saturating_mul(quotient.words);
    for k in 1..MOST_PAIRS {
        if k > 1 {
            raise(means, scene, quotient, moves, levels, k)?;
        }
        if let Some(lead) = same_before(&levels.rows, words, k, &mut means.work)? {
            levels.count = k;
            levels.lead = lead;
            return Ok(());
        }
        if k.saturating_add(1).saturating_mul(quotient.order) > MOST_PAIRS {
            return Err(Halt::Work);
        }
    }
    Err(Halt::Work)
}

/// Whether level 1 is what the element x does.
fn shows<A: Allocator>(
    scene: &Scene<A>,
    quotient: &HeapQuotient<A>,
    levels: &Levels<A>,
    x: usize,
    work: &mut Work,
) -> Result<bool, Halt> {
    for y in 0..quotient.order {
        work.spend(quotient.words)?;
        let shown = part(&levels.rows, row_at(quotient, 1, y), quotient.words);
        if !scene.agree(shown, quotient.row(quotient.times(x, y))) {
            return Ok(false);
        }
    }
    Ok(true)
}

/// The element that level 1 shows.
pub fn identify<A: Allocator>(
    scene: &Scene<A>,
    quotient: &HeapQuotient<A>,
    levels: &Levels<A>,
    work: &mut Work,
) -> Result<Option<usize>, Halt> {
    for x in 0..quotient.order {
        if shows(scene, quotient, levels, x, work)? {
            return Ok(Some(x));
        }
    }
    Ok(None)
}
