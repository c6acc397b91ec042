//! Heaps as they come and go.
ghost use Rattle.std.specs.Prelude.{◌≡◌, ◌↔◌, ◌≤◌, ◌<◌, IsTrue, All, IfOk, IsPermutation, false, length, take};
ghost use Rattle.positions.specs.Positions.{IsSize};
ghost use Rattle.player.specs.Many.{AreEnds, part, start_at};

use allocation::Memory;
use positions::{LARGEST_HEAP, Position};
use std::alloc::Global;

/// Whether each of the numbers is the size of a heap.
pub fn are_sizes(heaps: &[u64]) -> bool
    ensures { IsTrue result ↔ All IsSize heaps.now }
{
    heaps.iter().all(|heap| *heap >= 1 && *heap <= LARGEST_HEAP)
}

/// Whether the ends cut some of so many heaps into positions.
pub fn are_ends(count: usize, ends: &[u64]) -> bool
    ensures { IsTrue result ↔ AreEnds count ends.now }
{
    let mut from = 0;
    for end in ends {
        if *end < from || *end > count as u64 {
            return false;
        }
        from = *end;
    }
    true
}

/// Where a position begins.
fn start_of(ends: &[u64], at: usize) -> u64
    requires { at < length ends.now }
    ensures { result ≡ start_at ends.now at }
{
    if at == 0 { 0 } else { ends[at - 1] }
}

/// The heaps of a position among many.
pub fn heaps_at<'a>(heaps: &'a [u64], ends: &[u64], at: usize) -> &'a [u64]
    requires inside { at < length ends.now }
    requires ends { AreEnds (length heaps.now) ends.now }
    ensures { result.now ≡ part heaps.now ends.now at }
{
    &heaps[start_of(ends, at) as usize..ends[at] as usize]
}

/// The position of the heaps.
pub fn position_of(alloc: Global, heaps: &[u64]) -> Result<Position, Memory>
    requires { All IsSize heaps.now }
    ensures { IfOk result (IsPermutation heaps.now) }
{
    let mut position = Position::new(alloc);
    for heap in heaps {
        position.push(*heap)?;
    }
    Ok(position)
}

/// Puts the heaps in front, where there is room for them, and answers how many they are.
pub fn put(heaps: &[u64], told: &mut [u64]) -> u64
    ensures count { result ≡ length heaps.now }
    ensures front { result ≤ length told.old → take result told.new ≡ heaps.now }
    ensures stays { length told.old < result → told.new ≡ told.old }
{
    if heaps.len() <= told.len() {
        told[..heaps.len()].copy_from_slice(heaps);
    }
    heaps.len() as u64
}
