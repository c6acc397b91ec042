//! The closure: members ever kept, and those held.
ghost use Rattle.std.specs.Prelude.{◌≡◌, ◌^◌, ◌≤◌, ◌<◌, ◌+◌, ◌*◌, length, All, IfOk, IsOk, slice_index_or};
ghost use Rattle.transition_algebra.specs.Pairs.{IsPair};
ghost use Rattle.pair_closure.specs.Turns.{blank_held};
ghost use Rattle.pair_closure.specs.ClosureViews.{begun, retaken};
ghost use Rattle.pair_closure.specs.Calls.{IsLimited};
ghost use Rattle.pair_closure.specs.Positions.{word, IsWordOf, ShowsPairs, IsMinimal};

mod growing;

use crate::members::Members;
use crate::settle::{Generator, Held};
use allocation::{Memory, SmallAllocator};
use element_sets::LaneSet;
pub use growing::Grown;
use monoid_table::Table;
use positions::{INLINE, Position};
use std::alloc::{Allocator, Global};
use std::marker::Model;
use transition_algebra::Pair;

/// A minimal cover as far as it has grown.
#[derive(Drop)]
pub struct Closure<const LANES: usize, A: Allocator = Global> {
    table: Table<A>,
    heaps: Vec<Pair<LaneSet<LANES>>, A>,
    limit: u32,
    members: Members<LANES, A>,
    held: Vec<Held<LaneSet<LANES>>, A>,
    generators: Vec<Generator<LaneSet<LANES>>, A>,
    next: usize,
    // members held before this place were multiplied by all generators
    from: usize,
    spent: u128,
    failed: bool,
}

impl<const LANES: usize, A: Allocator> Model for Closure<LANES, A> {
    ghost use Rattle.std.specs.Prelude.{length, ◌≤◌, ◌*◌};
    ghost use Rattle.pair_closure.specs.ClosureViews.{ClosureView, closure_view, IsRun};
    ghost use Rattle.pair_closure.specs.Turns.{NoneBefore};
    ghost use Rattle.std.specs.FinSet as set;
    ghost use Rattle.std.specs.Ordering.{nat_cmp};
    ghost use Rattle.std.specs.Coded.{codes, coded_ℕ};

    ghost Value = { ClosureView };

    ghost coded = { Prim.hlevel (codes, set.code {R = nat_cmp} coded_ℕ) };

    ghost view = { λ c. closure_view c.table c.heaps.items c.limit c.members c.held.items
        c.generators.items c.next c.spent c.failed };

    ghost invariant = { λ c.
        IsRun (closure_view c.table c.heaps.items c.limit c.members c.held.items c.generators.items
        c.next c.spent c.failed)
        × NoneBefore c.held.items (length c.generators.items) c.from
        × (c.table.order ≤ 64 * LANES)
        × (LANES ≤ 64) };
}

impl<const LANES: usize, A: SmallAllocator + Copy> Closure<LANES, A> {
    /// No member is held yet, and no memory is taken. Item h of the pairs, counted from 1, stands
    /// for a heap of size h. It ends within limit times their number, plus 2, turns.
    pub fn new(alloc: A, table: Table<A>, heaps: Vec<Pair<LaneSet<LANES>>, A>, limit: u32) -> Self
        requires fits { table.order ≤ 64 * LANES }
        requires few { LANES ≤ 64 }
        requires short { length heaps.items < 2 ^ 58 }
        requires pairs { All (IsPair table.order) heaps.items }
        ensures { result ≡ begun table heaps.items limit }
    {
        monoid_table::is_monoid(&table);
        Closure {
            table,
            heaps,
            limit,
            members: Members::new(alloc),
            held: Vec::new(alloc),
            generators: Vec::new(alloc),
            next: 0,
            from: 0,
            spent: 0,
            failed: false,
        }
    }

    /// What holds of every closure. What it is follows from what it began with and its number of
    /// turns. For whatever claim the table and the pairs are those of, each member is exactly the
    /// pair of its word; the members ever kept differ, and none that is held covers another. They
    /// are as many as the limit at most, or one more, where it is over.
    pub fn shows_pairs(&self)
        ensures run { self.now ≡ retaken self.now }
        ensures limit { IsLimited self.now.state }
        ensures shows { ShowsPairs self.now.state }
        ensures minimal { IsMinimal self.now.state }
        ensures bound { self.now.spent ≤ self.now.state.limit * length self.now.state.heaps + 2 }
    {
        let _ = &self.failed;
    }

    /// How many turns it took.
    pub fn spent(&self) -> u128
        ensures { result ≡ self.now.spent }
    {
        self.spent
    }

    /// How many members were ever kept.
    pub fn ever(&self) -> u64
        ensures { result ≡ length self.now.state.members }
    {
        self.members.len() as u64
    }

    /// How many members are held.
    pub fn kept(&self) -> usize
        ensures { result ≡ length self.now.state.held }
    {
        self.held.len()
    }

    /// A member held, counted from 0.
    pub fn member(&self, i: usize) -> &Pair<LaneSet<LANES>>
        requires { i < length self.now.state.held }
        ensures { result.now ≡ (slice_index_or self.now.state.held i blank_held).pair }
    {
        &self.held[i].pair
    }

    /// The position that a member held stands for, counted from 0: the heaps whose product it is,
    /// rising. Its pair is exactly the member's. `Memory` where its growth was refused: up to
    /// `INLINE` heaps take no memory.
    pub fn word(&self, i: usize) -> Result<Position<A>, Memory>
        requires { i < length self.now.state.held }
        ensures is { IfOk result
            (IsWordOf self.now.state (slice_index_or self.now.state.held i blank_held)) }
        ensures inline { length (word self.now.state
            (slice_index_or self.now.state.held i blank_held).place) ≤ INLINE → IsOk result }
    {
        let mut word = Position::new(*self.held.allocator());
        let mut at = self.held[i].place;
        while at > 0 {
            let member = self.members.get(at);
            word.push(member.heap as u64)?;
            at = member.parent;
        }
        let _ = word.heaps();
        Ok(word)
    }

    /// The table and the pairs, as they were given.
    pub fn finish(self) -> (Table<A>, Vec<Pair<LaneSet<LANES>>, A>)
        ensures table { result.0 ≡ self.state.table }
        ensures heaps { result.1.items ≡ self.state.heaps }
    {
        let Closure { table, heaps, .. } = self;
        (table, heaps)
    }
}
