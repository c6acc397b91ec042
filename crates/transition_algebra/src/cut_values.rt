//! The values of the splits and the triples of each whole heap, made once.
ghost use Rattle.std.specs.Prelude.{◌≡◌, ◌≤◌, IfOk};
ghost use Rattle.monoid_table.specs.Grids.{Grid};
ghost use Rattle.heap_options.specs.Options.{last_first, triples_at};
ghost use Rattle.transition_algebra.specs.Heaps.{largest_part};
ghost use Rattle.monoid_table.specs.Pretending.{Pretending};
ghost use Rattle.transition_algebra.specs.Trials.{AreShown, AreCutValues, AreKept, cut_values, leaving, with_left};
ghost use Rattle.transition_algebra.specs.declared.cut_values.Cut.TheVariants.{InTwo, InThree};

use crate::heaps::largest_part;
use crate::pair::Pair;
use crate::scene::Scene;
use allocation::Memory;
use element_sets::LaneSet;
use octal_code::Leaving;
use std::alloc::Allocator;

/// Into how many parts a whole heap is cut: each split has two, and each triple three.
#[derive(Clone, Copy)]
pub(crate) enum Cut {
    InTwo,
    InThree,
}

/// The values of the splits of the heaps 0, 1, and so on, and those of the triples. They don't depend
/// on what was taken away before the split, so each set serves every larger heap.
#[derive(Drop)]
pub(crate) struct CutValues<S, A: Allocator> {
    pub(crate) splits: Vec<S, A>,
    pub(crate) triples: Vec<S, A>,
}

impl Cut {
    /// What a digit has to allow for such a cut.
    pub(crate) fn leaving(self) -> Leaving
        ensures { result ≡ leaving self }
    {
        match self {
            Cut::InTwo => Leaving::TwoHeaps,
            Cut::InThree => Leaving::ThreeHeaps,
        }
    }
}

/// The values of the splits of `whole` that are tried. The element of the heap n is that of pair n
/// - 1.
fn values_of_splits<const LANES: usize, A: Allocator>(
    scene: &Scene<'_, LANES, A>,
    pairs: &[Pair<LaneSet<LANES>>],
    whole: u64,
) -> LaneSet<LANES>
    requires shown { AreShown scene.now.table.now scene.now.phi.now pairs.now whole }
    ensures { result ≡ cut_values InTwo scene.now.table.now scene.now.phi.now whole }
{
    let last = (whole / 2).min(largest_part(scene.phi));
    let mut all = LaneSet::new();
    for part in 1..last + 1 {
        let x = pairs[(part - 1) as usize].value;
        let y = pairs[(whole - part - 1) as usize].value;
        all.put(scene.table.times(x, y));
    }
    all
}

/// Puts the values of the triples of `whole` with this first part into the set.
fn put_row<const LANES: usize, A: Allocator>(
    scene: &Scene<'_, LANES, A>,
    pairs: &[Pair<LaneSet<LANES>>],
    whole: u64,
    first: u64,
    all: &mut LaneSet<LANES>,
)
    requires shown { AreShown scene.now.table.now scene.now.phi.now pairs.now whole }
    requires some { 1 ≤ first }
    requires first { first ≤ last_first whole (largest_part scene.now.phi.now) }
    ensures { all.new ≡ with_left scene.now.table.now scene.now.phi.now all.old
        (triples_at whole (largest_part scene.now.phi.now) first) }
{
    let x = pairs[(first - 1) as usize].value;
    let last = ((whole - first) / 2).min(largest_part(scene.phi));
    for second in first..last + 1 {
        let y = pairs[(second - 1) as usize].value;
        let z = pairs[(whole - first - second - 1) as usize].value;
        let rest = scene.table.times(y, z);
        all.put(scene.table.times(x, rest));
    }
}

/// The values of the triples of `whole` that are tried.
fn values_of_triples<const LANES: usize, A: Allocator>(
    scene: &Scene<'_, LANES, A>,
    pairs: &[Pair<LaneSet<LANES>>],
    whole: u64,
) -> LaneSet<LANES>
    requires shown { AreShown scene.now.table.now scene.now.phi.now pairs.now whole }
    ensures { result ≡ cut_values InThree scene.now.table.now scene.now.phi.now whole }
{
    let last = (whole / 3).min(largest_part(scene.phi));
    let mut all = LaneSet::new();
    for first in 1..last + 1 {
        put_row(scene, pairs, whole, first, &mut all);
    }
    all
}

/// The values of the heap `whole` cut so, made now where they aren't kept yet.
fn kept_values<const LANES: usize, A: Allocator>(
    cut: Cut,
    scene: &Scene<'_, LANES, A>,
    pairs: &[Pair<LaneSet<LANES>>],
    whole: u64,
    kept: &mut Vec<LaneSet<LANES>, A>,
) -> Result<LaneSet<LANES>, Memory>
    requires shown { AreShown scene.now.table.now scene.now.phi.now pairs.now whole }
    requires kept { AreCutValues cut scene.now.table.now scene.now.phi.now kept.old.items }
    ensures kept { AreCutValues cut scene.now.table.now scene.now.phi.now kept.new.items }
    ensures values { IfOk result
        (λ values. values ≡ cut_values cut scene.now.table.now scene.now.phi.now whole) }
{
    while kept.len() as u64 <= whole {
        let next = kept.len() as u64;
        kept.push(match cut {
            Cut::InTwo => values_of_splits(scene, pairs, next),
            Cut::InThree => values_of_triples(scene, pairs, next),
        })?;
    }
    Ok(kept[whole as usize])
}

impl<const LANES: usize, A: Allocator + Copy> CutValues<LaneSet<LANES>, A> {
    /// None made yet.
    pub(crate) fn new(alloc: A) -> Self
        ensures { (table : Grid) (phi : Pretending) → AreKept table phi result }
    {
        CutValues {
            splits: Vec::new(alloc),
            triples: Vec::new(alloc),
        }
    }
}

impl<const LANES: usize, A: Allocator> CutValues<LaneSet<LANES>, A> {
    /// The values of the heap `whole` cut so, made now where they aren't kept yet.
    pub(crate) fn of(
        &mut self,
        cut: Cut,
        scene: &Scene<'_, LANES, A>,
        pairs: &[Pair<LaneSet<LANES>>],
        whole: u64,
    ) -> Result<LaneSet<LANES>, Memory>
        requires shown { AreShown scene.now.table.now scene.now.phi.now pairs.now whole }
        requires kept { AreKept scene.now.table.now scene.now.phi.now self.old }
        ensures kept { AreKept scene.now.table.now scene.now.phi.now self.new }
        ensures values { IfOk result
            (λ values. values ≡ cut_values cut scene.now.table.now scene.now.phi.now whole) }
    {
        match cut {
            Cut::InTwo => kept_values(cut, scene, pairs, whole, &mut self.splits),
            Cut::InThree => kept_values(cut, scene, pairs, whole, &mut self.triples),
        }
    }
}
