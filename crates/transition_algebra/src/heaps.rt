//! The pairs of heaps.
ghost use Rattle.std.specs.Prelude.{◌≡◌, ◌*◌, ◌≤◌, ◌+◌, ◌-◌, ◌<◌, IfOk, All};
ghost use Rattle.misere_theory.specs.Games.{IsPosition};
ghost use Rattle.heap_options.specs.Exact.{heaps_of};
ghost use Rattle.transition_algebra.specs.Pairs.{IsPair};
ghost use Rattle.monoid_table.specs.Pretending.{HasElement};
ghost use Rattle.monoid_table.specs.PretendingTables.{IsInto};
ghost use Rattle.transition_algebra.specs.Heaps.{AreAllHeapPairs, all_heap_pairs, bound_of, left_value};

use crate::cut_values::CutValues;
use crate::pair::Pair;
use crate::scene::Scene;
use crate::trial::Trial;
use allocation::Memory;
use element_sets::LaneSet;
use heap_options::Left;
use monoid_table::{Phi, Table, is_monoid, is_pretending};
use octal_code::{Code, is_code};
use std::alloc::Allocator;

/// B: the heaps 1 to B show the pair of every heap that has an element.
pub(crate) fn bound_of<A: Allocator>(code: &Code, phi: &Phi<A>) -> u64
    ensures value { result ≡ bound_of code.now phi.now }
    ensures some { 1 ≤ result }
    ensures small { result < 16384 }
{
    if phi.heaps() == 0 {
        if code.leaves_three() {
            3 * phi.start() + 3 * phi.period() + code.last() as u64
        } else {
            2 * phi.start() + 2 * phi.period() + code.last() as u64
        }
    } else {
        phi.heaps()
    }
}

/// How large a part of a split or a triple that is tried may be, the largest part aside.
pub(crate) fn largest_part<A: Allocator>(phi: &Phi<A>) -> u64
    ensures { result ≡ phi.now.start + phi.now.period - 1 }
{
    phi.start() + phi.period() - 1
}

/// The product of the heaps that are left.
pub(crate) fn left_value<A: Allocator>(table: &Table<A>, phi: &Phi<A>, left: Left) -> u16
    requires into { IsInto table.now phi.now }
    requires parts { IsPosition (HasElement phi.now) (heaps_of left) }
    ensures value { result ≡ left_value table.now phi.now left }
    ensures within { result < table.now.order }
{
    is_monoid(table);
    match left {
        Left::Nothing => 0,
        Left::One(a) => phi.at(a),
        Left::Two(a, b) => table.times(phi.at(a), phi.at(b)),
        Left::Three(a, b, c) => {
            let rest = table.times(phi.at(b), phi.at(c));
            table.times(phi.at(a), rest)
        }
    }
}

/// The pairs of the heaps 1 to B = 2 start + 2 period + k, for the last digit dk of the code, or 3
/// start + 3 period + k where some digit has bit 8; where phi has no period those of the heaps 1 to
/// B = start - 1, which have elements.
///
/// Item n - 1 is exactly the pair of the heap n: its element, and the values of all its options.
/// Every heap that has an element has its pair among them. Of a split or a triple only parts below
/// start + period are tried but for the largest: from two parts of at least that, the period moved
/// from one to the other keeps the value. `Memory` where a growth was refused.
pub fn heap_pairs<const LANES: usize, A: Allocator + Copy>(
    alloc: A,
    code: &Code,
    table: &Table<A>,
    phi: &Phi<A>,
) -> Result<Vec<Pair<LaneSet<LANES>>, A>, Memory>
    requires fits { table.now.order ≤ 64 * LANES }
    requires into { IsInto table.now phi.now }
    ensures made { IfOk result (λ pairs. pairs.items ≡ all_heap_pairs code.now table.now phi.now) }
    ensures exact { IfOk result (λ pairs. AreAllHeapPairs code.now table.now phi.now pairs.items) }
    ensures within { IfOk result (λ pairs. All (IsPair table.now.order) pairs.items) }
{
    is_monoid(table);
    is_pretending(phi);
    is_code(code);
    let scene = Scene { code, table, phi };
    let mut trial = Trial::new(code, phi);
    let mut pairs = Vec::new(alloc);
    let mut cut_values = CutValues::new(alloc);
    let last = trial.bound;
    trial.advance(&scene, &mut pairs, &mut cut_values, last, u64::MAX)?;
    Ok(pairs)
}
