//! The coarsest congruence of pairs of a level and an element.
use crate::cells::{bit, index, put_word, set_bit, word, words_for};
use crate::levels::Levels;
use crate::partition::Partition;
use crate::quotient::HeapQuotient;
use crate::work::{Halt, Means, Work};
use std::alloc::Allocator;

/// The elements of the heaps but the identity, each once.
pub fn generators<A: Allocator + Copy>(
    means: &mut Means<'_, A>,
    quotient: &HeapQuotient<A>,
) -> Result<Vec<usize, A>, Halt> {
    let mut found: Vec<usize, A> = Vec::new(means.alloc);
    let mut seen: Vec<u64, A> = vec![in means.alloc; 0u64; words_for(quotient.order)]?;
    means.work.spend(quotient.heaps.len())?;
    for heap in quotient.heaps.iter() {
        let x = *heap as usize;
        if x != 0 && !bit(&seen, x) {
            set_bit(&mut seen, x);
            found.push(x)?;
        }
    }
    Ok(found)
}

/// Parts the pairs by their rows.
fn part_by_rows<A: Allocator>(
    partition: &mut Partition<A>,
    words: usize,
    rows: &[u64],
    kept: &[u64],
    work: &mut Work,
) -> Result<(), Halt> {
    for place in 0..words {
        for z in 0..partition.keys.len() {
            let bits = word(rows, z.wrapping_mul(words).wrapping_add(place)) & word(kept, place);
            put_word(&mut partition.keys, z, bits);
        }
        partition.split(work)?;
    }
    Ok(())
}

/// Takes the classes of the products with an element for keys.
fn key_by_element<A: Allocator>(
    partition: &mut Partition<A>,
    quotient: &HeapQuotient<A>,
    levels: usize,
    element: usize,
) {
    let order = quotient.order;
    for k in 0..levels {
        let from = k.wrapping_mul(order);
        for y in 0..order {
            let image = from.wrapping_add(quotient.times(element, y));
            let class = index(&partition.classes, image) as u64;
            put_word(&mut partition.keys, from.wrapping_add(y), class);
        }
    }
}

/// Takes the classes one level higher for keys.
fn key_by_level<A: Allocator>(partition: &mut Partition<A>, order: usize, levels: &Levels<A>) {
    for k in 0..levels.count {
        let from = k.wrapping_mul(order);
        let above = levels.cut(k.wrapping_add(1)).wrapping_mul(order);
        for y in 0..order {
            let class = index(&partition.classes, above.wrapping_add(y)) as u64;
            put_word(&mut partition.keys, from.wrapping_add(y), class);
        }
    }
}

/// The coarsest congruence that keeps the rows, as far as the mask `kept` shows them.
pub fn congruence<A: Allocator + Copy>(
    means: &mut Means<'_, A>,
    quotient: &HeapQuotient<A>,
    levels: &Levels<A>,
    kept: &[u64],
) -> Result<Partition<A>, Halt> {
    let size = quotient.order.saturating_mul(levels.count);
    let elements = generators(means, quotient)?;
    let mut partition = Partition::new(means.alloc, size)?;
    part_by_rows(
        &mut partition,
        quotient.words,
        &levels.rows,
        kept,
        &mut means.work,
    )?;
    loop_until_quiet(&mut partition, quotient, levels, &elements, &mut means.work)?;
    Ok(partition)
}

/// Splits by each generator in turn, until none splits a class.
fn loop_until_quiet<A: Allocator>(
    partition: &mut Partition<A>,
    quotient: &HeapQuotient<A>,
    levels: &Levels<A>,
    elements: &[usize],
    work: &mut Work,
) -> Result<(), Halt> {
    let mut turn = 0usize;
    let mut quiet = 0usize;
    for _ in 0..u64::MAX {
        let before = partition.count;
        match elements.get(turn) {
            Some(element) => {
                key_by_element(partition, quotient, levels.count, *element);
                turn = turn.wrapping_add(1);
            }
            None => {
                key_by_level(partition, quotient.order, levels);
                turn = 0;
            }
        }
        partition.split(work)?;
        quiet = if partition.count == before {
            quiet.wrapping_add(1)
        } else {
            0
        };
        if quiet > elements.len() {
            return Ok(());
        }
    }
    Err(Halt::Work)
}
