//! The members that were kept, by their values.
// The members ever kept, found by their value.
ghost use Rattle.std.specs.Prelude.{◌≡◌, ◌++◌, ◌∷◌, [], ◌<◌, ℕ, length, OnOk, OnErr, slice_index, slice_index_or};
ghost use Rattle.pair_closure.specs.Chains.{blank, last_with};
ghost use Rattle.pair_closure.specs.Turns.{any_covers, covers_any};

use crate::covering::covers;
use element_sets::{ElementSet, LaneSet};
use std::alloc::{AllocError, Allocator};
use std::marker::Model;
use transition_algebra::Pair;

/// A member ever kept: the pair of the one at the place `parent` times that of the heap. The first
/// is the pair of the empty position.
#[derive(Clone, Copy)]
pub struct Member<S = ElementSet> {
    pub pair: Pair<S>,
    pub parent: usize,
    pub heap: usize,
}

/// The members ever kept, in their order. Those of one value are chained, so that a test looks at
/// no others.
#[derive(Drop)]
pub(crate) struct Members<const LANES: usize, A: Allocator> {
    list: Vec<Member<LaneSet<LANES>>, A>,
    // one more than the place of the one before with the same value, or 0
    older: Vec<usize, A>,
    // for each value one more than the place of its last member, or 0; values past the end have
    // none
    newest: Vec<usize, A>,
}

impl<const LANES: usize, A: Allocator> Model for Members<LANES, A> {
    ghost use Rattle.std.specs.Prelude.{List};
    ghost use Rattle.pair_closure.specs.OverSets.{Member};
    ghost use Rattle.pair_closure.specs.Chains.{AreChained};
    ghost use Rattle.std.specs.FinSet as set;
    ghost use Rattle.std.specs.Ordering.{nat_cmp};
    ghost use Rattle.std.specs.Coded.{codes, coded_ℕ};

    ghost Value = { List Member };

    ghost coded = { Prim.hlevel (codes, set.code {R = nat_cmp} coded_ℕ) };

    ghost view = { λ m. m.list.items };

    ghost invariant = { λ m. AreChained m.list.items m.older.items m.newest.items };
}

/// Makes the chains' heads long enough for the value.
fn reach<A: Allocator>(newest: &mut Vec<usize, A>, value: usize) -> Result<(), AllocError>
    ensures same { (v : ℕ) → slice_index newest.new.items v ≡ slice_index newest.old.items v }
    ensures long { OnOk result (value < length newest.new.items) }
{
    while newest.len() <= value {
        newest.push(0)?;
    }
    Ok(())
}

impl<const LANES: usize, A: Allocator + Copy> Members<LANES, A> {
    pub(crate) fn new(alloc: A) -> Self
        ensures { result ≡ [] }
    {
        Members {
            list: Vec::new(alloc),
            older: Vec::new(alloc),
            newest: Vec::new(alloc),
        }
    }

    pub(crate) fn len(&self) -> usize
        ensures { result ≡ length self.now }
    {
        self.list.len()
    }

    pub(crate) fn get(&self, place: usize) -> Member<LaneSet<LANES>>
        requires { place < length self.now }
        ensures { result ≡ slice_index_or self.now place blank }
    {
        self.list[place]
    }

    // one more than the place of the last member with this value, or 0
    fn newest_with(&self, value: u16) -> usize
        ensures { result ≡ last_with self.now value (length self.now) }
    {
        if value as usize >= self.newest.len() {
            return 0;
        }
        self.newest[value as usize]
    }

    /// Whether some member covers x.
    pub(crate) fn any_covers(&self, x: &Pair<LaneSet<LANES>>) -> bool
        ensures { result ≡ any_covers self.now x.now }
    {
        let mut at = self.newest_with(x.value);
        while at > 0 {
            let member = self.list[at - 1];
            if covers(&member.pair, x) {
                return true;
            }
            at = self.older[at - 1];
        }
        false
    }

    /// Whether x covers some member.
    pub(crate) fn covers_any(&self, x: &Pair<LaneSet<LANES>>) -> bool
        ensures { result ≡ covers_any x.now self.now }
    {
        let mut at = self.newest_with(x.value);
        while at > 0 {
            let member = self.list[at - 1];
            if covers(x, &member.pair) {
                return true;
            }
            at = self.older[at - 1];
        }
        false
    }

    /// Adds a member at the end, or changes nothing.
    pub(crate) fn push(&mut self, member: Member<LaneSet<LANES>>) -> Result<(), AllocError>
        ensures ok { OnOk result (self.new ≡ self.old ++ member.entry ∷ []) }
        ensures err { OnErr result (self.new ≡ self.old) }
    {
        let value = member.pair.value as usize;
        self.list.reserve(1)?;
        self.older.reserve(1)?;
        reach(&mut self.newest, value)?;
        let place = self.list.len();
        self.list.push_reserved(member);
        let before = self.newest[value];
        self.older.push_reserved(before);
        self.newest[value] = place + 1;
        Ok(())
    }
}
