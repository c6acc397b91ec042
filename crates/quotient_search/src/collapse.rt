//! The next quotient: the pairs of a level and an element by their coarsest congruence.
use crate::cells::{at, clear, index, put, put_index, set_bit, small, word, words_for};
use crate::congruence::congruence;
use crate::levels::Levels;
use crate::lists::ElementLists;
use crate::partition::Partition;
use crate::quotient::{HeapQuotient, heap_weight};
use crate::work::{Halt, Means, Work};
use std::alloc::Allocator;

/// The most elements of a quotient on the way, unless twice as many as before are more.
const MOST_CLASSES: usize = 2048;

/// The lightest member of a class.
#[derive(Clone, Copy, PartialEq, Eq, PartialOrd, Ord)]
struct First {
    weight: u64,
    level: usize,
    element: usize,
}

impl First {
    /// Heavier than all members.
    const HEAVIEST: First = First {
        weight: u64::MAX,
        level: 0,
        element: 0,
    };

    /// The place of its pair, where there are so many elements.
    fn place(self, order: usize) -> usize {
        self.level.wrapping_mul(order).wrapping_add(self.element)
    }
}

/// The classes of pairs, numbered by their lightest members.
#[derive(Drop)]
struct Merged<A: Allocator> {
    order: usize,
    names: Vec<u16, A>,
    firsts: Vec<First, A>,
}

/// What is merged: the pairs of a level and an element, and the values of the options of the heap
/// that the levels count.
#[derive(Drop)]
pub struct LevelPairs<'a, A: Allocator> {
    pub quotient: &'a HeapQuotient<A>,
    pub levels: &'a Levels<A>,
    /// The heap that is added, or 0 where none is.
    pub heap: usize,
    /// The mask of the contexts that tell elements apart.
    pub kept: &'a [u64],
    /// How many words the new rows have.
    pub words: usize,
}

impl<A: Allocator> Merged<A> {
    /// The class of level k beside an element.
    fn name(&self, levels: &Levels<A>, k: usize, element: usize) -> usize {
        let level = levels.cut(k);
        at(
            &self.names,
            level.wrapping_mul(self.order).wrapping_add(element),
        )
    }
}

/// The lightest member of each class, by weights.
fn firsts_of<A: Allocator + Copy>(
    alloc: A,
    pairs: &LevelPairs<'_, A>,
    partition: &Partition<A>,
) -> Result<Vec<First, A>, Halt> {
    let mut firsts: Vec<First, A> = vec![in alloc; First::HEAVIEST; partition.count]?;
    for k in 0..pairs.levels.count {
        lighten_level(pairs, partition, k, &mut firsts);
    }
    firsts.sort_unstable();
    Ok(firsts)
}

/// Takes the pairs of a level for the lightest members of their classes, where they are.
fn lighten_level<A: Allocator>(
    pairs: &LevelPairs<'_, A>,
    partition: &Partition<A>,
    k: usize,
    firsts: &mut Vec<First, A>,
) {
    let order = pairs.quotient.order;
    let heaps = heap_weight(pairs.heap).saturating_mul(k as u64);
    for element in 0..order {
        let member = First {
            weight: word(&pairs.quotient.weights, element).saturating_add(heaps),
            level: k,
            element,
        };
        lighten_first(
            firsts,
            index(&partition.classes, member.place(order)),
            member,
        );
    }
}

/// Takes a member for the lightest one of a class, where it is.
fn lighten_first<A: Allocator>(firsts: &mut Vec<First, A>, class: usize, member: First) {
    if class < firsts.len() && member.weight < firsts[class].weight {
        firsts[class] = member;
    }
}

/// The place of each class in the list of their lightest members.
fn places_of<A: Allocator + Copy>(
    alloc: A,
    order: usize,
    partition: &Partition<A>,
    firsts: &[First],
) -> Result<Vec<usize, A>, Halt> {
    let mut places: Vec<usize, A> = vec![in alloc; 0usize; partition.count]?;
    for (place, first) in firsts.iter().enumerate() {
        put_index(
            &mut places,
            index(&partition.classes, first.place(order)),
            place,
        );
    }
    Ok(places)
}

/// The number of each pair's class.
fn names_of<A: Allocator + Copy>(
    alloc: A,
    partition: &Partition<A>,
    places: &[usize],
) -> Result<Vec<u16, A>, Halt> {
    let mut names: Vec<u16, A> = Vec::new(alloc);
    for class in partition.classes.iter() {
        names.push(small(index(places, *class)))?;
    }
    Ok(names)
}

/// Numbers the classes by the weights of their lightest members.
fn merge<A: Allocator + Copy>(
    alloc: A,
    pairs: &LevelPairs<'_, A>,
    partition: &Partition<A>,
) -> Result<Merged<A>, Halt> {
    let order = pairs.quotient.order;
    let firsts = firsts_of(alloc, pairs, partition)?;
    let places = places_of(alloc, order, partition, &firsts)?;
    let names = names_of(alloc, partition, &places)?;
    Ok(Merged {
        order,
        names,
        firsts,
    })
}

/// The class of the product of two classes' lightest members.
fn product_of<A: Allocator>(
    pairs: &LevelPairs<'_, A>,
    merged: &Merged<A>,
    one: First,
    other: First,
) -> usize {
    let y = pairs.quotient.times(one.element, other.element);
    merged.name(pairs.levels, one.level.wrapping_add(other.level), y)
}

/// Writes the products of the class a with those up to it.
fn write_row_of_products<A: Allocator>(
    pairs: &LevelPairs<'_, A>,
    merged: &Merged<A>,
    a: usize,
    one: First,
    products: &mut Vec<u16, A>,
) {
    let order = merged.firsts.len();
    for (b, other) in merged.firsts.iter().enumerate() {
        if b > a {
            break;
        }
        let product = product_of(pairs, merged, one, *other);
        put(products, a.wrapping_mul(order).wrapping_add(b), product);
        put(products, b.wrapping_mul(order).wrapping_add(a), product);
    }
}

/// Writes the products of the classes.
fn write_products<A: Allocator>(
    pairs: &LevelPairs<'_, A>,
    merged: &Merged<A>,
    products: &mut Vec<u16, A>,
) -> Result<(), Halt> {
    let order = merged.firsts.len();
    products.resize(order.saturating_mul(order), 0)?;
    for (a, one) in merged.firsts.iter().enumerate() {
        write_row_of_products(pairs, merged, a, *one, products);
    }
    Ok(())
}

/// Adds the values of the options of a member's element.
fn add_element_options<A: Allocator>(
    pairs: &LevelPairs<'_, A>,
    merged: &Merged<A>,
    first: First,
    set: &mut Vec<u64, A>,
) {
    for option in pairs.quotient.options.list(first.element) {
        set_bit(
            set,
            merged.name(pairs.levels, first.level, *option as usize),
        );
    }
}

/// Adds the values of the options of a member's heaps, where it has any.
fn add_heap_options<A: Allocator>(
    pairs: &LevelPairs<'_, A>,
    merged: &Merged<A>,
    first: First,
    set: &mut Vec<u64, A>,
) {
    let Some(below) = first.level.checked_sub(1) else {
        return;
    };
    for option in pairs.quotient.heap_moves(pairs.heap) {
        let y = pairs.quotient.times(*option as usize, first.element);
        set_bit(set, merged.name(pairs.levels, below, y));
    }
}

/// Writes the option values of the classes' lightest members.
fn write_options<A: Allocator>(
    pairs: &LevelPairs<'_, A>,
    merged: &Merged<A>,
    set: &mut Vec<u64, A>,
    options: &mut ElementLists<A>,
    work: &mut Work,
) -> Result<(), Halt> {
    for first in merged.firsts.iter() {
        clear(set);
        add_element_options(pairs, merged, *first, set);
        add_heap_options(pairs, merged, *first, set);
        options.push_set(set)?;
        work.spend(pairs.quotient.order.saturating_add(set.len()))?;
    }
    Ok(())
}

/// Writes the weights of the classes, and their rows, cut to so many words.
fn write_rows<A: Allocator>(
    pairs: &LevelPairs<'_, A>,
    merged: &Merged<A>,
    next: &mut HeapQuotient<A>,
) -> Result<(), Halt> {
    for first in merged.firsts.iter() {
        next.weights.push(first.weight)?;
        push_row(pairs, first.place(merged.order), &mut next.rows)?;
    }
    Ok(())
}

/// Adds the row of a pair.
fn push_row<A: Allocator>(
    pairs: &LevelPairs<'_, A>,
    member: usize,
    rows: &mut Vec<u64, A>,
) -> Result<(), Halt> {
    let words = pairs.quotient.words;
    let mask = if pairs.words < words { 1 } else { u64::MAX };
    for place in 0..pairs.words {
        let from = member.wrapping_mul(words).wrapping_add(place);
        rows.push(word(&pairs.levels.rows, from) & mask)?;
    }
    Ok(())
}

/// Writes the elements of the heaps.
fn write_heaps<A: Allocator>(
    pairs: &LevelPairs<'_, A>,
    merged: &Merged<A>,
    heaps: &mut Vec<u16, A>,
) -> Result<(), Halt> {
    for heap in pairs.quotient.heaps.iter() {
        heaps.push(small(merged.name(pairs.levels, 0, *heap as usize)))?;
    }
    if pairs.heap > 0 {
        heaps.push(small(merged.name(pairs.levels, 1, 0)))?;
    }
    Ok(())
}

/// Writes the quotient by the classes into an empty one.
fn write<A: Allocator + Copy>(
    means: &mut Means<'_, A>,
    pairs: &LevelPairs<'_, A>,
    merged: &Merged<A>,
    next: &mut HeapQuotient<A>,
) -> Result<(), Halt> {
    next.order = merged.firsts.len();
    next.words = pairs.words;
    write_rows(pairs, merged, next)?;
    write_products(pairs, merged, &mut next.products)?;
    let mut set: Vec<u64, A> = vec![in means.alloc; 0u64; words_for(next.order)]?;
    write_options(pairs, merged, &mut set, &mut next.options, &mut means.work)?;
    write_heaps(pairs, merged, &mut next.heaps)?;
    next.renew_moves(means)
}

/// Writes the quotient by a partition's classes into an empty one.
fn write_classes<A: Allocator + Copy>(
    means: &mut Means<'_, A>,
    pairs: &LevelPairs<'_, A>,
    partition: &Partition<A>,
    next: &mut HeapQuotient<A>,
) -> Result<(), Halt> {
    let most = MOST_CLASSES.max(pairs.quotient.order.saturating_mul(2));
    if partition.count > most {
        return Err(Halt::Work);
    }
    means
        .work
        .spend(partition.count.saturating_mul(partition.count))?;
    let merged = merge(means.alloc, pairs, partition)?;
    write(means, pairs, &merged, next)
}

/// Writes the quotient of the pairs by the coarsest congruence that keeps their rows into an empty
/// one.
pub fn collapse<A: Allocator + Copy>(
    means: &mut Means<'_, A>,
    pairs: &LevelPairs<'_, A>,
    next: &mut HeapQuotient<A>,
) -> Result<(), Halt> {
    let partition = congruence(means, pairs.quotient, pairs.levels, pairs.kept)?;
    write_classes(means, pairs, &partition, next)
}
