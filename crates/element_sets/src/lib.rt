//! Sets of small numbers, in lanes of 64 bits. No call takes memory; none fails.
#![tactic(auto)]

ghost use Rattle.std.specs.Prelude.{◌≡◌, ◌≢◌, ℕ, ◌*◌, ◌<◌, ◌≤◌, ◌↔◌, IsTrue, List, slice_index};
ghost use Rattle.std.specs.Ordering.{nat_cmp};
ghost use Rattle.std.specs.FinSet as set;
ghost use Rattle.element_sets.specs.Translation.{translated, CanTranslate};

mod translate;

use std::hash::{Hash, Hasher};
use std::marker::Model;
use std::simd::prelude::*;

/// A set of numbers below 64 times the number of its lanes.
#[derive(Clone, Copy)]
pub struct LaneSet<const LANES: usize> {
    lanes: [u64; LANES],
}

/// A set of numbers below `MOST_ELEMENTS`.
pub type ElementSet = LaneSet<8>;

/// What an `ElementSet` has are numbers below this one.
pub const MOST_ELEMENTS: u16 = 512;

impl<const LANES: usize> Model for LaneSet<LANES> {
    ghost use Rattle.std.specs.Ordering.{nat_cmp};
    ghost use Rattle.std.specs.FinSet as set;
    ghost use Rattle.std.specs.Coded.{coded_ℕ};
    ghost use Rattle.element_sets.specs.Lanes.{set_of, AreLanes};

    ghost Value = { set.FinSet nat_cmp };

    ghost coded = { set.code coded_ℕ };

    ghost view = { λ s. set_of s.lanes };

    ghost invariant = { λ s. AreLanes LANES s.lanes };

    ghost use Rattle.element_sets.specs.Same.{lanes_of};
    ghost use Rattle.element_sets.specs.LaneLaws.{lanes_of-set_of};
    ghost use Rattle.std.proofs.Common.{ap};

    ghost inverse = { λ s. record { lanes = lanes_of LANES s } };

    ghost inverse_ok = { λ a h. ap (λ ls. record { lanes = ls })
        (lanes_of-set_of LANES a.lanes h.length_is h.fits) };
}

impl<const LANES: usize> LaneSet<LANES> {
    /// The empty set.
    pub fn new() -> Self
        ensures { result ≡ set.empty }
    {
        LaneSet { lanes: [0; LANES] }
    }

    /// Whether `x` is a member.
    pub fn contains(&self, x: u16) -> bool
        ensures { result ≡ set.contains self.now x }
    {
        let lanes = &self.lanes;
        let at = (x / 64) as usize;
        if at >= LANES {
            return false;
        }
        (lanes[at] >> (x % 64)) & 1 == 1
    }

    /// Adds `x`, if it is in the range. The answer is whether it is.
    pub fn insert(&mut self, x: u16) -> bool
        ensures put { x < 64 * LANES → self.new ≡ set.insert self.old x }
        ensures stays { 64 * LANES ≤ x → self.new ≡ self.old }
        ensures answer { IsTrue result ↔ (x < 64 * LANES) }
    {
        if (x / 64) as usize >= LANES {
            return false;
        }
        self.put(x);
        true
    }

    /// Adds `x`, which is in the range: nothing is tested.
    pub fn put(&mut self, x: u16)
        requires { x < 64 * LANES }
        ensures { self.new ≡ set.insert self.old x }
    {
        self.lanes[(x / 64) as usize] |= 1u64 << (x % 64);
    }

    /// The members of either set.
    pub fn union(&self, other: &Self) -> Self
        ensures { result ≡ set.union self.now other.now }
    {
        let lanes = Simd::from_array(self.lanes) | Simd::from_array(other.lanes);
        LaneSet {
            lanes: lanes.to_array(),
        }
    }

    /// Whether the sets have a member in common.
    pub fn meets(&self, other: &Self) -> bool
        ensures { IsTrue result
            ↔ ((x : ℕ) × IsTrue (set.contains self.now x) × IsTrue (set.contains other.now x)) }
    {
        let both = Simd::from_array(self.lanes) & Simd::from_array(other.lanes);
        both.reduce_or() != 0
    }

    /// Whether each member is one of the other set.
    pub fn subset(&self, other: &Self) -> bool
        ensures { result ≡ set.is_subset self.now other.now }
    {
        let missing = Simd::from_array(self.lanes) & !Simd::from_array(other.lanes);
        missing.reduce_or() == 0
    }
}

impl<const LANES: usize> LaneSet<LANES> {
    /// Whether there is no member.
    pub fn is_empty(&self) -> bool
        ensures { result ≡ set.is_subset self.now set.empty }
    {
        self.subset(&LaneSet::new())
    }

    /// The least number below the bound that is in exactly one of the sets, or the bound.
    pub fn first_apart(&self, other: &Self, bound: u16) -> u16
        ensures within { result ≤ bound }
        ensures alike { (x : ℕ) → x < result → set.contains self.now x ≡ set.contains other.now x }
        ensures apart { result < bound
            → set.contains self.now result ≢ set.contains other.now result }
    {
        // No later lane has a number below the bound.
        let reached = (bound as usize).div_ceil(64).min(LANES);
        for i in 0..reached {
            let differing = self.lanes[i] ^ other.lanes[i];
            if differing != 0 {
                let first = 64 * i + differing.trailing_zeros() as usize;
                return first.min(bound as usize) as u16;
            }
        }
        bound
    }

    /// Adds every member of the other set.
    pub fn union_with(&mut self, other: &Self)
        ensures { self.new ≡ set.union self.old other.now }
    {
        *self = self.union(other);
    }

    /// The row's entries at the members. Only members are visited.
    pub fn translate(&self, row: &[u16]) -> Self
        requires { CanTranslate (64 * LANES) self.now row.now }
        ensures { result ≡ translated self.now row.now }
    {
        let mut all = LaneSet::new();
        // No member of the later lanes has an entry in a short row.
        let reached = row.len().div_ceil(64).min(LANES);
        for i in 0..reached {
            translate::add_lane(&mut all, self.lanes[i], 64 * i, row);
        }
        all
    }
}

impl<const LANES: usize> PartialEq for LaneSet<LANES> {
    ghost use Rattle.std.specs.FinSet as set;
    ghost use Rattle.element_sets.specs.Same.{same, same_partial};

    ghost eq = { same };

    ghost laws = { same_partial };

    fn eq(&self, other: &Self) -> bool {
        self.lanes == other.lanes
    }
}

impl<const LANES: usize> Eq for LaneSet<LANES> {
    ghost use Rattle.element_sets.specs.Same.{same_equiv};

    ghost laws = { same_equiv };
}

impl<const LANES: usize> Hash for LaneSet<LANES> {
    ghost use Rattle.element_sets.specs.Same.{lanes_of, same_hashes};
    ghost use Rattle.std.specs.Hash as fed;

    ghost hash_input = { λ s. fed.slice fed.u64 (lanes_of LANES s) };

    ghost respects_eq = { same_hashes LANES };

    fn hash<H: Hasher>(&self, state: &mut H) {
        self.lanes.hash(state);
    }
}

/// Holds of equal sets alone.
pub fn equal<const LANES: usize>(a: &LaneSet<LANES>, b: &LaneSet<LANES>) -> bool
    ensures { IsTrue result ↔ (a.now ≡ b.now) }
{
    a == b
}

/// The members of a set are numbers below 64 times the number of its lanes.
pub fn members_are_small<const LANES: usize>(members: &LaneSet<LANES>)
    ensures { (x : ℕ) → IsTrue (set.contains members.now x) → x < 64 * LANES }
{
    let _ = &members.lanes;
}

/// A number is in a translated set exactly where it is the row's entry at a member.
pub fn translations_are_images()
    ensures { (s : set.FinSet nat_cmp) (row : List ℕ) (y : ℕ)
        → IsTrue (set.contains (translated s row) y)
        ↔ ((x : ℕ) × IsTrue (set.contains s x) × (slice_index row x ≡ y)) }
{}
