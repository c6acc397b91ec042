//! The values of positions whose downs and ups aren't far apart.
use crate::counts::{window_place, window_size};
use crate::values::{Value, ValueTable};
use quotient_search::{Halt, Work};
use running_pairs::{byte, put_byte};
use std::alloc::Allocator;

/// The most values in a window.
const MOST_PLACES: usize = 1 << 26;

/// Whether downs and ups of a value are apart no further than a window.
#[inline]
pub fn is_within(window: u32, value: Value) -> bool {
    value.counts.apart() <= window
}

/// How many values may lie in a window.
fn size_of<A: Allocator>(values: &ValueTable<A>, window: u32) -> usize {
    values
        .order
        .saturating_mul(window_size(values.fold, window))
}

/// The number of a value that lies in a window.
fn place_of<A: Allocator>(values: &ValueTable<A>, window: u32, value: Value) -> usize {
    (value.element as usize)
        .wrapping_mul(window_size(values.fold, window))
        .wrapping_add(window_place(values.fold, window, value.counts))
}

/// Values on the way, and which are among them.
#[derive(Drop)]
struct Reached<A: Allocator> {
    list: Vec<Value, A>,
    marks: Vec<u8, A>,
}

impl<A: Allocator> Reached<A> {
    /// Puts in a value that isn't there.
    fn add(&mut self, value: Value, place: usize) -> Result<(), Halt> {
        if byte(&self.marks, place) == 1 {
            return Ok(());
        }
        put_byte(&mut self.marks, place, 1);
        self.list.push(value).map_err(Halt::from)
    }
}

/// All values of positions of some heaps, as far as sums on the way to them stay in the window.
pub fn contexts_of<A: Allocator + Copy>(
    alloc: A,
    values: &ValueTable<A>,
    heaps: &[Value],
    window: u32,
    work: &mut Work,
) -> Result<Vec<Value, A>, Halt> {
    let size = size_of(values, window);
    if size > MOST_PLACES {
        return Err(Halt::TooLarge);
    }
    work.spend(size)?;
    let mut reached = Reached {
        list: Vec::new(alloc),
        marks: vec![in alloc; 0u8; size]?,
    };
    reached.add(Value::ONE, place_of(values, window, Value::ONE))?;
    for next in 0..size {
        let Some(value) = reached.list.get(next).copied() else {
            break;
        };
        work.spend(heaps.len().saturating_mul(32))?;
        for heap in heaps.iter() {
            let sum = values.times(value, *heap);
            if is_within(window, sum) {
                reached.add(sum, place_of(values, window, sum))?;
            }
        }
    }
    let Reached { list, .. } = reached;
    Ok(list)
}
