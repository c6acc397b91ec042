//! The pairs of the heaps, made in pieces.
ghost use Rattle.std.specs.Prelude.{◌≡◌, ◌*◌, ◌⊎◌, ◌+◌, ◌<◌, ◌≤◌, ◌↔◌, All, IsTrue, IsErr, IfOk, OnOk, OnErr, true, false};
ghost use Rattle.transition_algebra.specs.Pairs.{IsPair};
ghost use Rattle.monoid_table.specs.PretendingTables.{IsInto};
ghost use Rattle.transition_algebra.specs.Heaps.{AreAllHeapPairs, all_heap_pairs, bound_of};
ghost use Rattle.transition_algebra.specs.Work.{IsDone, worked, heap_cost, turns, opening};

use crate::cut_values::CutValues;
use crate::pair::Pair;
use crate::scene::Scene;
use crate::trial::Trial;
use allocation::Memory;
use element_sets::LaneSet;
use monoid_table::{Phi, Table, is_monoid, is_pretending};
use octal_code::Code;
use std::alloc::{Allocator, Global};
use std::marker::Model;

/// The pairs of the heaps 1 to B in pieces. A unit tries one option of a heap, or sets down the
/// pair of a heap whose options are all tried.
#[derive(Drop)]
pub struct HeapJob<const LANES: usize, A: Allocator = Global> {
    code: Code,
    table: Table<A>,
    phi: Phi<A>,
    trial: Trial<LaneSet<LANES>>,
    pairs: Vec<Pair<LaneSet<LANES>>, A>,
    cut_values: CutValues<LaneSet<LANES>, A>,
    refused: bool,
}

impl<const LANES: usize, A: Allocator> Model for HeapJob<LANES, A> {
    ghost use Rattle.std.specs.Prelude.{◌≤◌, ◌*◌};
    ghost use Rattle.transition_algebra.specs.Work.{HeapWork};

    ghost Value = { HeapWork };

    ghost view = { λ j. record {
      code = j.code;
      table = j.table;
      phi = j.phi;
      spent = j.trial.spent;
      refused = j.refused;
    } };

    ghost use Rattle.monoid_table.specs.PretendingTables.{IsInto};
    ghost use Rattle.transition_algebra.specs.Trials.{IsTrial, AreKept};

    ghost invariant = { λ j. (j.table.order ≤ 64 * LANES)
        × IsInto j.table j.phi
        × IsTrial j.code j.table j.phi j.trial j.pairs.items
        × AreKept j.table j.phi j.cut_values };
}

impl<const LANES: usize, A: Allocator + Copy> HeapJob<LANES, A> {
    /// A job that has spent nothing. It holds no pair yet, and takes memory as it works.
    pub fn new(alloc: A, code: Code, table: Table<A>, phi: Phi<A>) -> Self
        requires fits { table.order ≤ 64 * LANES }
        requires into { IsInto table phi }
        ensures { result
            ≡ record { code = code; table = table; phi = phi; spent = 0; refused = false } }
    {
        let trial = Trial::new(&code, &phi);
        HeapJob {
            code,
            table,
            phi,
            trial,
            pairs: Vec::new(alloc),
            cut_values: CutValues::new(alloc),
            refused: false,
        }
    }
}

impl<const LANES: usize, A: Allocator> HeapJob<LANES, A> {
    /// The units spent so far.
    pub fn spent(&self) -> u64
        ensures { result ≡ self.now.spent }
    {
        self.trial.spent
    }

    /// The pairs that stand so far: those of the first heaps.
    pub fn pairs(&self) -> &[Pair<LaneSet<LANES>>]
        ensures { result.now
            ≡ (turns self.now.code self.now.table self.now.phi self.now.spent
            (opening self.now.code self.now.phi)).pairs }
    {
        &self.pairs
    }

    /// Spends `units` units, or as many as there are left; true once all pairs stand.
    ///
    /// Once a growth was refused it answers `Memory`, and so it does at every later call.
    pub fn work(&mut self, units: u64) -> Result<bool, Memory>
        ensures worked { OnOk result ((self.old.refused ≡ false)
            × (self.new ≡ worked self.old units)) }
        ensures done { IfOk result (λ done. IsTrue done ↔ IsDone self.new) }
        ensures refused { OnErr result
            (self.new ≡ record self.old { spent = self.new.spent; refused = true }) }
        ensures spent { (self.old.spent ≤ self.new.spent)
            × (self.new.spent ≤ self.old.spent + units)
            × (self.new.spent ≤ heap_cost self.new.code self.new.phi) }
        ensures short { OnErr result (self.old.refused ≡ false
            → (self.new.spent < self.old.spent + units)
            × (self.new.spent < heap_cost self.new.code self.new.phi)) }
        ensures stays { IsTrue self.old.refused → IsErr result × (self.new ≡ self.old) }
    {
        if self.refused {
            return Err(Memory);
        }
        let scene = Scene {
            code: &self.code,
            table: &self.table,
            phi: &self.phi,
        };
        let last = self.trial.bound;
        let made = self
            .trial
            .advance(&scene, &mut self.pairs, &mut self.cut_values, last, units);
        self.refused = made.is_err();
        made?;
        Ok(self.trial.is_over())
    }

    /// Spends units as `work` does, at most so many, but none at the last heap, which is left to
    /// `work`: fewer only where the last heap is in hand. Where a growth is refused, before all are
    /// spent and at a heap before the last, it spends no more, and `work` tells so.
    #[inline(never)]
    pub fn go_on(&mut self, most: u64)
        ensures given { self.new
            ≡ record self.old { spent = self.new.spent; refused = self.new.refused } }
        ensures spent { (self.old.spent ≤ self.new.spent)
            × (self.new.spent ≤ self.old.spent + most) }
        ensures going { self.old.spent < heap_cost self.old.code self.old.phi
            → self.new.spent < heap_cost self.old.code self.old.phi }
        ensures last { bound_of self.old.code self.old.phi
            ≤ (turns self.old.code self.old.table self.old.phi self.old.spent
            (opening self.old.code self.old.phi)).heap
            → self.new.spent ≡ self.old.spent }
        ensures taken { self.new.refused ≡ false → (self.new.spent ≡ self.old.spent + most)
            ⊎ (bound_of self.new.code self.new.phi
            ≤ (turns self.new.code self.new.table self.new.phi self.new.spent
            (opening self.new.code self.new.phi)).heap) }
        ensures short { self.new.refused ≡ true → self.old.refused ≡ false
            → (self.new.spent < self.old.spent + most)
            × ((turns self.new.code self.new.table self.new.phi self.new.spent
            (opening self.new.code self.new.phi)).heap
            < bound_of self.new.code self.new.phi) }
        ensures stays { IsTrue self.old.refused → self.new ≡ self.old }
    {
        if self.refused {
            return;
        }
        let scene = Scene {
            code: &self.code,
            table: &self.table,
            phi: &self.phi,
        };
        let last = self.trial.bound - 1;
        let tried = self
            .trial
            .advance(&scene, &mut self.pairs, &mut self.cut_values, last, most);
        self.refused = tried.is_err();
    }

    /// The pairs, and what the job was opened with.
    pub fn finish(self) -> (Code, Table<A>, Phi<A>, Vec<Pair<LaneSet<LANES>>, A>)
        requires { IsDone self }
        ensures code { result.0 ≡ self.code }
        ensures table { result.1 ≡ self.table }
        ensures phi { result.2 ≡ self.phi }
        ensures made { result.3.items ≡ all_heap_pairs self.code self.table self.phi }
        ensures exact { AreAllHeapPairs self.code self.table self.phi result.3.items }
        ensures within { All (IsPair self.table.order) result.3.items }
    {
        let HeapJob {
            code,
            table,
            phi,
            pairs,
            ..
        } = self;
        is_monoid(&table);
        is_pretending(&phi);
        (code, table, phi, pairs)
    }
}
