//! Numbers at places that may lie outside of a list: there 0 is read, and nothing is written.
use quotient_search::Halt;
use std::alloc::Allocator;

/// No number.
pub const NONE: usize = usize::MAX;

/// The number at a place.
#[inline]
pub fn at(list: &[usize], place: usize) -> usize {
    match list.get(place) {
        Some(number) => *number,
        None => 0,
    }
}

/// Writes a number at a place.
#[inline]
pub fn put<A: Allocator>(list: &mut Vec<usize, A>, place: usize, number: usize) {
    if place < list.len() {
        list[place] = number;
    }
}

/// The byte at a place.
#[inline]
pub fn byte(list: &[u8], place: usize) -> u8 {
    match list.get(place) {
        Some(number) => *number,
        None => 0,
    }
}

/// Writes a byte at a place.
#[inline]
pub fn put_byte<A: Allocator>(list: &mut Vec<u8, A>, place: usize, number: u8) {
    if place < list.len() {
        list[place] = number;
    }
}

/// How often a number goes into another, and 0 where it is 0.
#[inline]
pub fn share(number: usize, by: usize) -> usize {
    if by == 0 { 0 } else { number / by }
}

/// What is left of a number, and 0 where it is divided by 0.
#[inline]
pub fn rest(number: usize, by: usize) -> usize {
    if by == 0 { 0 } else { number % by }
}

/// The weight of a heap.
#[inline]
pub fn heap_weight(heap: usize) -> usize {
    heap.saturating_mul(2).saturating_sub(1)
}

/// The greatest of some numbers, and 0 of none.
pub fn greatest(list: &[usize]) -> usize {
    let mut most = 0usize;
    for number in list.iter() {
        most = most.max(*number);
    }
    most
}

/// The places of some numbers, the smaller numbers first, and equal ones in the order of the list.
pub fn places_by_size<A: Allocator + Copy>(
    alloc: A,
    list: &[usize],
) -> Result<Vec<usize, A>, Halt> {
    let mut starts: Vec<usize, A> = vec![in alloc; 0usize; greatest(list).saturating_add(2)]?;
    for number in list.iter() {
        let next = number.wrapping_add(1);
        let count = at(&starts, next);
        put(&mut starts, next, count.wrapping_add(1));
    }
    add_up(&mut starts);
    let mut places: Vec<usize, A> = vec![in alloc; 0usize; list.len()]?;
    for (place, number) in list.iter().enumerate() {
        let start = at(&starts, *number);
        put(&mut places, start, place);
        put(&mut starts, *number, start.wrapping_add(1));
    }
    Ok(places)
}

/// Adds to each number all before it.
pub fn add_up<A: Allocator>(list: &mut Vec<usize, A>) {
    let mut sum = 0usize;
    for place in 0..list.len() {
        sum = sum.wrapping_add(at(list, place));
        put(list, place, sum);
    }
}
