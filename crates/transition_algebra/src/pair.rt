//! Transition pairs, and the monoid that they are.
ghost use Rattle.std.specs.Prelude.{◌≡◌, ◌<◌, ◌≤◌, ◌*◌, ℕ, true};
ghost use Rattle.std.specs.FinSet as set;
ghost use Rattle.transition_algebra.specs.Pairs.{translated};

use element_sets::{ElementSet, LaneSet};
use monoid_table::{CommMonoid, Table, is_monoid};
use std::alloc::{Allocator, Global};

/// The value of a position, and the set of its options' values.
#[derive(Clone, Copy, PartialEq, Eq, Hash)]
pub struct Pair<S = ElementSet> {
    pub value: u16,
    pub options: S,
}

/// The pairs over a table. The product of two is the pair of a sum, whose options are those of one
/// part beside the other; the identity is the pair of the empty position.
#[derive(Drop)]
pub struct Pairs<'a, const LANES: usize, A: Allocator = Global> {
    pub table: &'a Table<A>,
    ghost fits: { table.now.order ≤ 64 * LANES },
}

/// The products of an element with each of a set.
fn translate<const LANES: usize, A: Allocator>(
    table: &Table<A>,
    value: u16,
    elements: &LaneSet<LANES>,
) -> LaneSet<LANES>
    requires fits { table.now.order ≤ 64 * LANES }
    requires value_in { value < table.now.order }
    requires elements_in { (x : ℕ) → set.contains elements.now x ≡ true → x < table.now.order }
    ensures { result ≡ translated table.now value elements.now }
{
    elements.translate(table.row(value))
}

impl<'a, const LANES: usize, A: Allocator> CommMonoid for Pairs<'a, LANES, A> {
    type Element = Pair<LaneSet<LANES>>;

    ghost use Rattle.monoid_table.specs.Tables.{IsTableGrid};
    ghost use Rattle.transition_algebra.specs.Pairs.{IsPair, one, times};
    ghost use Rattle.transition_algebra.specs.PairLaws.{pair_laws};

    ghost is_lawful = { λ m. IsTableGrid m.table.now };

    ghost is_in = { λ m p. IsPair m.table.now.order p };

    ghost identity = { λ _. one };

    ghost multiply = { λ m p r. times m.table.now p r };

    ghost laws = { λ m h. pair_laws m.table.now h };

    fn one(&self) -> Pair<LaneSet<LANES>> {
        is_monoid(self.table);
        Pair {
            value: 0,
            options: LaneSet::new(),
        }
    }

    fn times(&self, x: &Pair<LaneSet<LANES>>, y: &Pair<LaneSet<LANES>>) -> Pair<LaneSet<LANES>> {
        let beside_x = translate(self.table, x.value, &y.options);
        let beside_y = translate(self.table, y.value, &x.options);
        Pair {
            value: self.table.times(x.value, y.value),
            options: beside_x.union(&beside_y),
        }
    }
}
