//! The pairs of the heaps of 0.75, of a game whose moves leave three heaps, and of a part of 0.3.
ghost use Rattle.std.specs.Prelude.{◌≡◌, ◌≤◌, All, IfSome};
ghost use Rattle.monoid_table.specs.PretendingTables.{IsInto};
ghost use Rattle.transition_algebra.specs.Pairs.{IsPair};

use crate::comparing::compare;
use allocation::SmallAllocator;
use element_sets::ElementSet;
use monoid_table::{CommMonoid, Phi, Table, is_monoid};
use octal_code::Code;
use std::alloc::{Allocator, Global};
use transition_algebra::{HeapJob, Pair, Pairs, heap_pairs};

/// The elements 1, a, b, c, ab², ab, ac, b², for a² = 1, b³ = b, bc = ab, c² = b².
const ROWS: [u16; 64] = [
    0, 1, 2, 3, 4, 5, 6, 7, 1, 0, 5, 6, 7, 2, 3, 4, 2, 5, 7, 5, 5, 4, 2, 2, 3, 6, 5, 7, 7, 2, 4, 4,
    4, 7, 5, 7, 7, 2, 4, 4, 5, 2, 4, 2, 2, 7, 5, 5, 6, 3, 2, 4, 4, 5, 7, 7, 7, 4, 2, 4, 4, 5, 7, 7,
];

/// The elements of the heaps 1 to 9; they repeat with period 2 from 8 on.
const ELEMENTS: [u16; 9] = [1, 2, 1, 2, 3, 2, 3, 2, 4];

/// The quotient and the pretending function.
fn quotient<A: Allocator + Copy>(alloc: A) -> Option<(Table<A>, Phi<A>)>
    ensures into { IfSome result (λ q. IsInto q.0 q.1) }
    ensures small { IfSome result (λ q. q.0.order ≤ 512) }
{
    let Ok(rows) = ROWS.to_vec(alloc) else {
        return None;
    };
    let Ok(table) = Table::new(8, rows) else {
        return None;
    };
    match ELEMENTS.to_vec(alloc) {
        Ok(entries) => Some((table, Phi::new(8, 2, entries))),
        Err(_) => None,
    }
}

/// The pair of this value and these values of options.
fn pair(value: u16, options: &[u16]) -> Pair {
    let mut all = ElementSet::new();
    for x in options {
        all.insert(*x);
    }
    Pair {
        value,
        options: all,
    }
}

/// The pair of the heap n, worked out by hand.
fn worked(n: usize) -> Pair {
    match n {
        1 => pair(1, &[0]),
        2 => pair(2, &[0, 1]),
        3 => pair(1, &[0, 2]),
        4 => pair(2, &[0, 1, 5]),
        5 => pair(3, &[0, 2, 5, 7]),
        6 => pair(2, &[0, 3, 5, 7]),
        7 => pair(3, &[0, 2, 5, 6, 7]),
        8 => pair(2, &[0, 3, 5, 6, 7]),
        9 | 11 => pair(4, &[2, 5, 6, 7]),
        10 | 12 => pair(2, &[4, 5, 6, 7]),
        _ if n % 2 == 1 => pair(4, &[2, 5, 7]),
        _ => pair(2, &[4, 5, 7]),
    }
}

/// The group of two elements, in which the heaps have 1 and 0 by turns: those of a part up to the
/// heap 2, or all.
fn by_turns<A: Allocator + Copy>(alloc: A, is_part: bool) -> Option<(Table<A>, Phi<A>)>
    ensures into { IfSome result (λ q. IsInto q.0 q.1) }
    ensures small { IfSome result (λ q. q.0.order ≤ 512) }
{
    let Ok(rows) = [0u16, 1, 1, 0].to_vec(alloc) else {
        return None;
    };
    let Ok(table) = Table::new(2, rows) else {
        return None;
    };
    let Ok(entries) = [1u16, 0].to_vec(alloc) else {
        return None;
    };
    if is_part {
        Some((table, Phi::new(3, 0, entries)))
    } else {
        Some((table, Phi::new(1, 2, entries)))
    }
}

/// Heaps whose pairs are known.
#[derive(Clone, Copy)]
pub enum Heaps {
    /// Those of 0.75.
    OfEight,
    /// Those of 0.b, where each move changes whether the sum of the heaps is odd.
    OfThreeParts,
    /// Those of 0.3 up to 2.
    OfPart,
}

impl Heaps {
    fn code(self) -> &'static [u8] {
        match self {
            Heaps::OfEight => b"0.75",
            Heaps::OfThreeParts => b"0.b",
            Heaps::OfPart => b"0.3",
        }
    }

    fn quotient<A: Allocator + Copy>(self, alloc: A) -> Option<(Table<A>, Phi<A>)>
        ensures into { IfSome result (λ q. IsInto q.0 q.1) }
        ensures small { IfSome result (λ q. q.0.order ≤ 512) }
    {
        match self {
            Heaps::OfEight => quotient(alloc),
            Heaps::OfThreeParts => by_turns(alloc, false),
            Heaps::OfPart => by_turns(alloc, true),
        }
    }

    /// How many heaps show the pair of each heap: 2 · 8 + 2 · 2 + 2 in 0.75, 3 · 1 + 3 · 2 + 1 in
    /// 0.b, and both of a part up to 2.
    fn count(self) -> usize {
        match self {
            Heaps::OfEight => 22,
            Heaps::OfThreeParts => 10,
            Heaps::OfPart => 2,
        }
    }

    /// The pair of the heap n, worked out by hand.
    fn pair(self, n: usize) -> Pair {
        match self {
            Heaps::OfEight => worked(n),
            _ if n % 2 == 1 => pair(1, &[0]),
            _ => pair(0, &[1]),
        }
    }
}

/// Whether these are the pairs of the heaps.
fn are_worked(heaps: Heaps, pairs: &[Pair]) -> bool {
    let mut n = 0usize;
    for pair in pairs {
        n = n.saturating_add(1);
        if *pair != heaps.pair(n) {
            return false;
        }
    }
    n == heaps.count()
}

/// A job in pieces of so many units, its pairs worked out by hand; 9 is want of memory.
pub fn in_pieces<A: SmallAllocator + Copy>(alloc: A, heaps: Heaps, units: u64) -> Result<bool, u8> {
    let Ok(code) = Code::read(heaps.code()) else {
        return Err(0);
    };
    let Some((table, phi)) = heaps.quotient(alloc) else {
        return Err(9);
    };
    let mut job: HeapJob<8, A> = HeapJob::new(alloc, code, table, phi);
    for _ in 0..1000usize {
        match job.work(units) {
            Ok(true) => return Ok(are_worked(heaps, job.pairs())),
            Ok(false) => {}
            Err(_) => return Err(9),
        }
    }
    Ok(false)
}

/// Whether these are the pairs of the heaps, the product of the heaps 1 and 9 beside each other is
/// right, and the identity.
fn multiply(table: &Table, pairs: &[Pair]) -> bool
    requires pairs { All (IsPair table.now.order) pairs.now }
    requires small { table.now.order ≤ 512 }
{
    if !are_worked(Heaps::OfEight, pairs) || pairs.len() != 22 {
        return false;
    }
    is_monoid(table);
    let monoid = Pairs { table };
    monoid.times(&pairs[0], &pairs[8]) == pair(7, &[2, 3, 4, 5]) && monoid.one() == pair(0, &[])
}

/// The pairs of the heaps under the code, by its quotient: whether they are those worked out by hand,
/// and multiply, and the heap 10^18 has the element 2.
fn have_pairs(alloc: Global, code: &Code) -> bool {
    match quotient(alloc) {
        Some((table, phi)) => match heap_pairs(alloc, code, &table, &phi) {
            Ok(pairs) => {
                multiply(&table, &pairs)
                    && phi.heaps() == 0
                    && phi.at(1_000_000_000_000_000_000) == 2
            }
            Err(_) => false,
        },
        None => false,
    }
}

/// How many pairs there are for 1,024 entries, over two elements.
fn count_most(alloc: Global, code: &Code, table: &Table) -> usize
    requires { table.now.order ≡ 2 }
{
    match vec![in alloc; 1u16; 1024] {
        Ok(entries) => match heap_pairs::<1, Global>(
            alloc,
            code,
            table,
            &Phi::new(1, 1024, entries),
        ) {
            Ok(pairs) => pairs.len(),
            Err(_) => 0,
        },
        Err(_) => 0,
    }
}

/// The first two formats' most entries: of 2051 heaps each has its pair, with the splits of
/// each whole made once.
fn most_have_pairs(alloc: Global, code: &Code) -> bool {
    let Ok(rows) = [0u16, 1, 1, 0].to_vec(alloc) else {
        return false;
    };
    match Table::new(2, rows) {
        Ok(table) => count_most(alloc, code, &table) == 2051,
        Err(_) => false,
    }
}

/// Whether the heaps of 0.75 have their pairs.
fn of_75_have_pairs(alloc: Global) -> bool {
    match Code::read(b"0.75") {
        Ok(code) => have_pairs(alloc, &code),
        Err(_) => false,
    }
}

/// Whether the heaps of 0.7 have as many pairs as they may.
fn of_7_have_pairs(alloc: Global) -> bool {
    match Code::read(b"0.7") {
        Ok(code) => most_have_pairs(alloc, &code),
        Err(_) => false,
    }
}

#[test]
fn heaps_have_their_pairs(rt: HostRuntime) {
    for heaps in [Heaps::OfEight, Heaps::OfThreeParts, Heaps::OfPart] {
        let in_units = in_pieces(rt.alloc(), heaps, 1);
        compare(
            &rt,
            "heaps in units",
            (heaps.count(), in_units),
            (heaps.count(), Ok(true)),
        );
    }
    compare(&rt, "0.75", of_75_have_pairs(rt.alloc()), true);
    compare(&rt, "0.7", of_7_have_pairs(rt.alloc()), true);
}
