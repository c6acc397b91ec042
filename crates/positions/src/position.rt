//! Positions.
ghost use Rattle.std.specs.List.Sorted.{IsNonDecreasing, IsPermutation};
ghost use Rattle.std.specs.Prelude.{◌≡◌, ◌<◌, ◌≤◌, ◌∷◌, ◌++◌, ◌+◌, [], ℕ, length, slice_index, remove, All, IsOk, IfOk, OnOk, OnErr, MatchResult};
ghost use Rattle.heap_options.specs.Exact.{heaps_of};
ghost use Rattle.positions.specs.Positions.{IsSize};

use allocation::{Memory, SmallAllocator};
use heap_options::Left;
use smallvec::SmallVec;
use std::alloc::Global;
use std::hash::{Hash, Hasher};
use std::marker::Model;

/// The largest heap: 10^18.
pub const LARGEST_HEAP: u64 = 1_000_000_000_000_000_000;

/// The most sizes in the text of a position. A position itself may have more heaps.
pub const MOST_SIZES: usize = 64;

/// How many heaps lie in the position itself. More of them lie in an allocation.
pub const INLINE: usize = 8;

/// A position: any number of heaps, each of 1 to 10^18, seen as the list of their sizes, rising.
#[derive(Drop)]
pub struct Position<A: SmallAllocator = Global> {
    heaps: SmallVec<u64, INLINE, A>,
}

impl<A: SmallAllocator> Model for Position<A> {
    ghost use Rattle.std.specs.List.Sorted.{IsNonDecreasing};
    ghost use Rattle.std.specs.Prelude.{ℕ, List, All};
    ghost use Rattle.positions.specs.Positions.{IsSize};

    ghost Value = { List ℕ };

    ghost view = { λ p. p.heaps.items };

    ghost invariant = { λ p. IsNonDecreasing p.heaps.items × All IsSize p.heaps.items };
}

impl<A: SmallAllocator> Position<A> {
    /// The sizes of the heaps, rising.
    pub fn heaps(&self) -> &[u64]
        ensures value { result.now ≡ self.now }
        ensures rising { IsNonDecreasing self.now }
        ensures sizes { All IsSize self.now }
    {
        self.heaps.as_slice()
    }
}

impl<A: SmallAllocator + Copy> Position<A> {
    /// The position without heaps. It takes no memory.
    pub fn new(alloc: A) -> Position<A>
        ensures { result ≡ [] }
    {
        Position {
            heaps: SmallVec::new(alloc),
        }
    }

    /// Adds a heap. After a fault the position is as it was. Up to `INLINE` heaps take no memory.
    pub fn push(&mut self, heap: u64) -> Result<(), Memory>
        requires { IsSize heap }
        ensures ok { OnOk result (IsPermutation (heap ∷ self.old) self.new) }
        ensures err { OnErr result (self.new ≡ self.old) }
        ensures inline { length self.old < INLINE → IsOk result }
    {
        has_room(&self.heaps);
        let at = place_for(self.heaps.as_slice(), heap);
        self.heaps.insert(at, heap)?;
        Ok(())
    }

    /// Makes this the position `from` after a move that leaves `left` of the heap at the place
    /// `at`. What this position was before doesn't matter, and its memory is used again. After a
    /// fault it is as it was. Up to `INLINE` heaps after the move take no memory.
    pub fn set_moved(&mut self, from: &Position<A>, at: usize, left: Left) -> Result<(), Memory>
        requires there { at < length from.now }
        requires sizes { All IsSize (heaps_of left) }
        ensures moved { OnOk result (IsPermutation (heaps_of left ++ remove from.now at) self.new) }
        ensures rising { IsNonDecreasing self.new }
        ensures err { OnErr result (self.new ≡ self.old) }
        ensures inline { length (heaps_of left) + length (remove from.now at) ≤ INLINE
            → IsOk result }
    {
        let heaps = from.heaps();
        has_room(&self.heaps);
        let more = (heaps.len() - 1 + count(left)).saturating_sub(self.heaps.len());
        self.heaps.reserve(more)?;
        set_others(&mut self.heaps, heaps, at);
        add_left(&mut self.heaps, left);
        Ok(())
    }

    /// The allocator that holds the heaps.
    pub(crate) fn allocator(&self) -> A {
        *self.heaps.allocator()
    }

    /// The same heaps in memory of their own, of which up to `INLINE` take none.
    pub fn copied(&self, alloc: A) -> Result<Position<A>, Memory>
        ensures same { IfOk result (λ copy. copy ≡ self.now) }
        ensures rising { IsNonDecreasing self.now }
        ensures inline { length self.now ≤ INLINE → IsOk result }
    {
        let heaps = SmallVec::from_slice(alloc, self.heaps.as_slice())?;
        Ok(Position { heaps })
    }

    /// The sum: the heaps of both positions. Up to `INLINE` heaps in all take no memory.
    pub fn add(&self, other: &Position<A>) -> Result<Position<A>, Memory>
        ensures sum { IfOk result (λ sum. IsPermutation (self.now ++ other.now) sum) }
        ensures inline { length self.now + length other.now ≤ INLINE → IsOk result }
    {
        let mut heaps = SmallVec::from_slice(self.allocator(), self.heaps())?;
        heaps.extend_from_slice(other.heaps())?;
        sort(&mut heaps);
        Ok(Position { heaps })
    }

    /// The position of these heaps, which stand in any order.
    pub(crate) fn of(alloc: A, sizes: &[u64]) -> Result<Position<A>, Memory>
        requires { All IsSize sizes.now }
        ensures same { IfOk result (IsPermutation sizes.now) }
        ensures inline { length sizes.now ≤ INLINE → IsOk result }
    {
        let mut heaps = SmallVec::from_slice(alloc, sizes)?;
        sort(&mut heaps);
        Ok(Position { heaps })
    }
}

impl<A: SmallAllocator> PartialEq for Position<A> {
    ghost use Rattle.std.specs.Cmp.Lexicographic.{nat_list_eq_equiv, pointwise};
    ghost use Rattle.std.specs.Cmp.{partial_equiv_from_equiv};
    ghost use Rattle.std.specs.Prelude.{nat_eq};

    ghost eq = { pointwise nat_eq };

    ghost laws = { partial_equiv_from_equiv nat_list_eq_equiv };

    fn eq(&self, other: &Position<A>) -> bool {
        self.heaps() == other.heaps()
    }
}

impl<A: SmallAllocator> Eq for Position<A> {
    ghost use Rattle.std.specs.Cmp.Lexicographic.{nat_list_eq_equiv};

    ghost laws = { nat_list_eq_equiv };
}

impl<A: SmallAllocator> Hash for Position<A> {
    ghost use Rattle.positions.specs.Hashes.{same_hashes};
    ghost use Rattle.std.specs.Hash as fed;

    ghost hash_input = { fed.slice fed.u64 };

    ghost respects_eq = { same_hashes };

    fn hash<H: Hasher>(&self, state: &mut H) {
        self.heaps().hash(state);
    }
}

fn sort<A: SmallAllocator + Copy>(heaps: &mut SmallVec<u64, INLINE, A>)
    ensures same { IsPermutation heaps.old.items heaps.new.items }
    ensures rising { IsNonDecreasing heaps.new.items }
{
    heaps.sort_unstable();
}

/// Heaps have room for `INLINE` of them at least.
fn has_room<A: SmallAllocator + Copy>(heaps: &SmallVec<u64, INLINE, A>)
    ensures { INLINE ≤ heaps.now.capacity }
{
    let _ = heaps.capacity();
}

/// Makes these the heaps `from` but the one at the place `at`. There is room for these.
fn set_others<A: SmallAllocator + Copy>(
    heaps: &mut SmallVec<u64, INLINE, A>,
    from: &[u64],
    at: usize,
)
    requires there { at < length from.now }
    requires room { length (remove from.now at) ≤ heaps.old.capacity }
    ensures items { heaps.new.items ≡ remove from.now at }
    ensures capacity { heaps.old.capacity ≤ heaps.new.capacity }
{
    heaps.clear();
    let _ = heaps.extend_from_slice(&from[..at]);
    let _ = heaps.extend_from_slice(&from[at + 1..]);
}

/// How many heaps a move leaves of one.
fn count(left: Left) -> usize
    ensures { result ≡ length (heaps_of left) }
{
    match left {
        Left::Nothing => 0,
        Left::One(_) => 1,
        Left::Two(_, _) => 2,
        Left::Three(_, _, _) => 3,
    }
}

/// Adds what a move left of a heap, for which there is room.
fn add_left<A: SmallAllocator + Copy>(heaps: &mut SmallVec<u64, INLINE, A>, left: Left)
    requires room { length heaps.old.items + length (heaps_of left) ≤ heaps.old.capacity }
    requires rising { IsNonDecreasing heaps.old.items }
    ensures same { IsPermutation (heaps_of left ++ heaps.old.items) heaps.new.items }
    ensures rising { IsNonDecreasing heaps.new.items }
{
    let added = left.heaps();
    for heap in added.as_slice() {
        add_heap(heaps, *heap);
    }
}

/// Adds a heap, for which there is room.
fn add_heap<A: SmallAllocator + Copy>(heaps: &mut SmallVec<u64, INLINE, A>, heap: u64)
    requires room { length heaps.old.items < heaps.old.capacity }
    requires rising { IsNonDecreasing heaps.old.items }
    ensures same { IsPermutation (heap ∷ heaps.old.items) heaps.new.items }
    ensures rising { IsNonDecreasing heaps.new.items }
    ensures len { length heaps.new.items ≡ length heaps.old.items + 1 }
    ensures capacity { heaps.old.capacity ≤ heaps.new.capacity }
{
    let at = place_for(heaps.as_slice(), heap);
    let _ = heaps.insert(at, heap);
}

/// A place where a heap of this size leaves the order as it is.
fn place_for(heaps: &[u64], heap: u64) -> usize
    requires { IsNonDecreasing heaps.now }
    ensures within { result ≤ length heaps.now }
    ensures before { (k : ℕ) → k < result → slice_index heaps.now k ≤ heap }
    ensures after { (k : ℕ) → result ≤ k → k < length heaps.now → heap ≤ slice_index heaps.now k }
{
    match place_of(heaps, heap) {
        Ok(at) | Err(at) => at,
    }
}

/// The place of a heap of this size, or, where there is none, the place where one would go.
pub(crate) fn place_of(heaps: &[u64], heap: u64) -> Result<usize, usize>
    requires { IsNonDecreasing heaps.now }
    ensures { MatchResult result
        (λ at. (at < length heaps.now) × (slice_index heaps.now at ≡ heap))
        (λ at. (at ≤ length heaps.now) × ((k : ℕ) → k < at → slice_index heaps.now k < heap)
        × ((k : ℕ) → at ≤ k → k < length heaps.now → heap < slice_index heaps.now k)) }
{
    heaps.binary_search(&heap)
}
