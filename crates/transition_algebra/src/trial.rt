//! The options of the heaps, tried one after another.
ghost use Rattle.std.specs.Prelude.{◌≡◌, ◌⊎◌, ◌+◌, ◌^◌, ◌<◌, ◌≤◌, ◌↔◌, [], ◌∷◌, ◌++◌, length, min, IsTrue, IfOk, OnErr, OnOk};
ghost use Rattle.monoid_table.specs.Grids.{Grid};
ghost use Rattle.heap_options.specs.Walks.{single_left, splits_to_try, triples_to_try};
ghost use Rattle.monoid_table.specs.Pretending.{phi_at, HasElement};
ghost use Rattle.transition_algebra.specs.Work.{heap_cost};
ghost use Rattle.transition_algebra.specs.Trials.{IsTrial, GoesOn, IsReady, IsRun, AreShown, AreKept, after_single, after_splits, after_triples, after_cut, after_heap};

use crate::cut_values::{Cut, CutValues};
use crate::heaps::{bound_of, largest_part, left_value};
use crate::pair::Pair;
use crate::scene::Scene;
use allocation::Memory;
use element_sets::LaneSet;
use heap_options::{Untried, Walk};
use monoid_table::{Phi, is_monoid, is_pretending};
use octal_code::{Code, is_code};
use std::alloc::Allocator;

/// How far the options of the heaps 1 to `bound` are tried: the walk over those of the heap in
/// hand, the values of the options so far but the splits in hand, and the units spent. The pairs of
/// the smaller heaps stand beside it.
#[derive(Clone, Copy)]
pub(crate) struct Trial<S> {
    pub(crate) bound: u64,
    pub(crate) walk: Walk,
    pub(crate) seen: S,
    pub(crate) spent: u64,
}

impl<const LANES: usize> Trial<LaneSet<LANES>> {
    /// Nothing tried yet.
    pub(crate) fn new<A: Allocator>(code: &Code, phi: &Phi<A>) -> Self
        ensures trial { (table : Grid) → IsTrial code.now table phi.now result [] }
        ensures spent { result.spent ≡ 0 }
    {
        let walk = Walk::new(1, largest_part(phi));
        Trial {
            bound: bound_of(code, phi),
            walk,
            seen: LaneSet::new(),
            spent: 0,
        }
    }

    /// Tries the option that leaves one heap at most, if there is one.
    #[tactic(auto, unfolding(crate::specs::Trials::with_left))]
    fn try_single<A: Allocator>(&mut self, scene: &Scene<'_, LANES, A>) -> u64
        requires counts { HasElement scene.now.phi.now self.old.walk.heap }
        requires small { self.old.spent + self.old.walk.heap < 2 ^ 48 }
        ensures count { result
            ≡ length (single_left scene.now.code.now self.old.walk.heap self.old.walk.away) }
        ensures trial { self.new
            ≡ after_single scene.now.code.now scene.now.table.now scene.now.phi.now self.old }
    {
        match self.walk.take_single(scene.code) {
            Some(left) => {
                self.seen.put(left_value(scene.table, scene.phi, left));
                self.spent += 1;
                1
            }
            None => 0,
        }
    }

    /// Spends a unit for each split, the smaller part from `part` on, at most `units`.
    fn spend_splits(&mut self, code: &Code, part: u64, units: u64) -> u64
        requires from_one { 1 ≤ part }
        requires small { self.old.spent + self.old.walk.heap < 2 ^ 48 }
        ensures count { result ≡ min units
            (splits_to_try code.now self.old.walk.heap self.old.walk.most self.old.walk.away part) }
        ensures none { result ≡ 0 → self.new ≡ self.old }
        ensures some { 1 ≤ result → self.new ≡ after_splits self.old part result }
    {
        let count = self.walk.pass_splits(code, part, units);
        self.spent += count;
        count
    }

    /// Spends a unit for each triple with this first part, the second from `second` on, at most
    /// `units`.
    fn spend_triples(&mut self, code: &Code, first: u64, second: u64, units: u64) -> u64
        requires from_one { 1 ≤ second }
        requires small { self.old.spent + self.old.walk.heap < 2 ^ 48 }
        ensures count { result ≡ min units (triples_to_try code.now self.old.walk.heap
            self.old.walk.most self.old.walk.away first second) }
        ensures none { result ≡ 0 → self.new ≡ self.old }
        ensures some { 1 ≤ result → self.new ≡ after_triples self.old first second result }
    {
        let count = self.walk.pass_triples(code, first, second, units);
        self.spent += count;
        count
    }

    /// Takes over the values of the splits or of the triples, once their units are spent, and turns
    /// to what comes behind them.
    fn take_values<A: Allocator>(
        &mut self,
        cut: Cut,
        scene: &Scene<'_, LANES, A>,
        pairs: &[Pair<LaneSet<LANES>>],
        cut_values: &mut CutValues<LaneSet<LANES>, A>,
    ) -> Result<(), Memory>
        requires shown { AreShown scene.now.table.now scene.now.phi.now pairs.now
            self.old.walk.heap }
        requires kept { AreKept scene.now.table.now scene.now.phi.now cut_values.old }
        requires digit { self.old.walk.away < length scene.now.code.now }
        ensures kept { AreKept scene.now.table.now scene.now.phi.now cut_values.new }
        ensures trial { OnOk result (self.new
            ≡ after_cut cut scene.now.code.now scene.now.table.now scene.now.phi.now self.old) }
        ensures err { OnErr result (self.new ≡ self.old) }
    {
        if scene.code.allows(self.walk.away, cut.leaving()) {
            let values = cut_values.of(cut, scene, pairs, self.walk.whole())?;
            self.seen.union_with(&values);
        }
        match cut {
            Cut::InTwo => self.walk.pass_last_split(scene.code),
            Cut::InThree => self.walk.take_more(scene.code),
        }
        Ok(())
    }

    /// Sets the heap's pair down and begins the next heap.
    fn close<A: Allocator>(
        &mut self,
        phi: &Phi<A>,
        pairs: &mut Vec<Pair<LaneSet<LANES>>, A>,
    ) -> Result<(), Memory>
        requires counts { HasElement phi.now self.old.walk.heap }
        requires small { self.old.spent + self.old.walk.heap < 2 ^ 48 }
        ensures trial { OnOk result (self.new ≡ after_heap self.old) }
        ensures pair { OnOk result
            (pairs.new.items ≡ pairs.old.items
            ++ (record { value = phi_at phi.now self.old.walk.heap; options = self.old.seen }
            ∷ [])) }
        ensures err { OnErr result (self.new ≡ self.old) }
        ensures err_pairs { OnErr result (pairs.new.items ≡ pairs.old.items) }
    {
        pairs.push(Pair {
            value: phi.at(self.walk.heap),
            options: self.seen,
        })?;
        self.walk = Walk::new(self.walk.heap + 1, self.walk.most);
        self.seen = LaneSet::new();
        self.spent += 1;
        Ok(())
    }

    /// What the next turn needs: the heap in hand has an element, and the pairs are those of the
    /// smaller heaps.
    #[inline(always)]
    fn is_ready<A: Allocator>(
        &self,
        scene: &Scene<'_, LANES, A>,
        pairs: &Vec<Pair<LaneSet<LANES>>, A>,
    )
        requires trial { IsTrial scene.now.code.now scene.now.table.now scene.now.phi.now self.now
            pairs.now.items }
        requires going { self.now.walk.heap ≤ self.now.bound }
        ensures { IsReady scene.now.code.now scene.now.table.now scene.now.phi.now self.now
            pairs.now.items }
    {
        is_code(scene.code);
        is_monoid(scene.table);
        is_pretending(scene.phi);
    }

    /// Some turns more, at most `units`; where none was made, a stage less is left of the heap.
    #[inline(always)]
    fn run<A: Allocator>(
        &mut self,
        scene: &Scene<'_, LANES, A>,
        pairs: &mut Vec<Pair<LaneSet<LANES>>, A>,
        cut_values: &mut CutValues<LaneSet<LANES>, A>,
        units: u64,
    ) -> Result<u64, Memory>
        requires goes_on { GoesOn scene.now self.old pairs.old.items cut_values.old }
        requires going { self.old.walk.heap ≤ self.old.bound }
        requires some { 1 ≤ units }
        ensures ok { IfOk result
            (λ spent. IsRun scene.now.code.now scene.now.table.now scene.now.phi.now self.old
            self.new pairs.new.items units spent) }
        ensures kept { AreKept scene.now.table.now scene.now.phi.now cut_values.new }
        ensures err { OnErr result (self.new ≡ self.old) }
        ensures err_pairs { OnErr result (pairs.new.items ≡ pairs.old.items) }
    {
        self.is_ready(scene, pairs);
        if self.walk.is_over(scene.code) {
            self.close(scene.phi, pairs)?;
            return Ok(1);
        }
        match self.walk.untried {
            Untried::Everything => Ok(self.try_single(scene)),
            Untried::Splits(part) => {
                let spent = self.spend_splits(scene.code, part, units);
                if spent == 0 {
                    self.take_values(Cut::InTwo, scene, pairs, cut_values)?;
                }
                Ok(spent)
            }
            Untried::Triples(first, second) => {
                let spent = self.spend_triples(scene.code, first, second, units);
                if spent > 0 {
                    return Ok(spent);
                }
                if first < self.walk.last_first() {
                    self.walk.pass_row(scene.code, first);
                } else {
                    self.take_values(Cut::InThree, scene, pairs, cut_values)?;
                }
                Ok(0)
            }
        }
    }

    /// The next turns, at most `units`, while a heap up to `last` is in hand.
    pub(crate) fn advance<A: Allocator>(
        &mut self,
        scene: &Scene<'_, LANES, A>,
        pairs: &mut Vec<Pair<LaneSet<LANES>>, A>,
        cut_values: &mut CutValues<LaneSet<LANES>, A>,
        last: u64,
        units: u64,
    ) -> Result<(), Memory>
        requires last { last ≤ self.old.bound }
        requires goes_on { GoesOn scene.now self.old pairs.old.items cut_values.old }
        ensures goes_on { GoesOn scene.now self.new pairs.new.items cut_values.new }
        ensures spent { (self.old.spent ≤ self.new.spent)
            × (self.new.spent ≤ self.old.spent + units) }
        ensures going { last < self.old.bound
            → self.old.spent < heap_cost scene.now.code.now scene.now.phi.now
            → self.new.spent < heap_cost scene.now.code.now scene.now.phi.now }
        ensures still { last < self.old.walk.heap → self.new ≡ self.old }
        ensures taken { OnOk result ((self.new.spent ≡ self.old.spent + units)
            ⊎ (last < self.new.walk.heap)) }
        ensures all { OnOk result (last ≡ self.old.bound → self.new.spent
            ≡ min (self.old.spent + units) (heap_cost scene.now.code.now scene.now.phi.now)) }
        ensures err { OnErr result ((self.new.spent < self.old.spent + units)
            × (self.new.spent < heap_cost scene.now.code.now scene.now.phi.now)
            × (self.new.walk.heap ≤ last)) }
    {
        is_pretending(scene.phi);
        is_code(scene.code);
        let mut left = units;
        while left > 0 && self.walk.heap <= last {
            left -= self.run(scene, pairs, cut_values, left)?;
        }
        Ok(())
    }

    /// Whether all pairs stand.
    pub(crate) fn is_over(&self) -> bool
        ensures { IsTrue result ↔ (self.now.bound < self.now.walk.heap) }
    {
        self.walk.heap > self.bound
    }
}
