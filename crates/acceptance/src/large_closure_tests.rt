//! A closure of more than 2^16 members.
ghost use Rattle.std.specs.Prelude.{◌≡◌, All, IfSome};
ghost use Rattle.transition_algebra.specs.Pairs.{IsPair};

use crate::comparing::compare;
use crate::pair_closure_tests::length_of;
use element_sets::{ElementSet, members_are_small};
use monoid_table::Table;
use pair_closure::{Closure, Grown};
use std::alloc::Global;
use transition_algebra::Pair;

/// The group of the numbers below 512, whose product is the exclusive or.
fn exclusive_or(alloc: Global) -> Option<Table>
    ensures { IfSome result (λ t. t.order ≡ 512) }
{
    let mut rows = Vec::new(alloc);
    for n in 0..262_144u32 {
        let product = (n / 512) ^ (n % 512);
        if rows.push((product % 512) as u16).is_err() {
            return None;
        }
    }
    Table::new(512, rows).ok()
}

/// The pair of a heap from 0 to 23: three heaps have the same element, a power of two, and each has
/// one option, whose element is its own times the number of the heap.
fn pair_of(heap: u16) -> Pair
    ensures { IsPair 512 result }
{
    let value = (1u16 << (heap % 8)) % 512;
    let mut options = ElementSet::new();
    options.insert(value ^ heap);
    members_are_small(&options);
    Pair { value, options }
}

/// The pairs of all 24 heaps.
fn pairs_of_all(alloc: Global) -> Option<Vec<Pair>>
    ensures { IfSome result (λ pairs. All (IsPair 512) pairs.items) }
{
    let mut pairs = Vec::new(alloc);
    for heap in 0..24u16 {
        if pairs.push(pair_of(heap)).is_err() {
            return None;
        }
    }
    Some(pairs)
}

/// The closure of the pairs.
fn large(alloc: Global) -> Option<Closure<8>> {
    let table = exclusive_or(alloc)?;
    let pairs = pairs_of_all(alloc)?;
    if pairs.len() != 24 {
        return None;
    }
    Some(Closure::new(alloc, table, pairs, 100_000))
}

/// How many members stand for no heap, for one heap, and so on to eight.
fn count_by_length(closure: &Closure<8>) -> [u32; 9] {
    let mut counts = [0u32; 9];
    for i in 0..closure.kept() {
        let length = length_of(closure, i).unwrap_or(0).min(8);
        counts[length] = counts[length].saturating_add(1);
    }
    counts
}

/// How many members a closure of at most 100,000 keeps, by how many heaps they stand for, if it
/// ends and gives none up.
fn count_kept(alloc: Global) -> Option<[u32; 9]> {
    let mut closure = large(alloc)?;
    if closure.grow(u64::MAX) == Ok(Grown::Done) && closure.ever() == closure.kept() as u64 {
        Some(count_by_length(&closure))
    } else {
        None
    }
}

/// The options of a position are its value times the numbers of its heaps, and its value is the
/// product of those powers of two that an odd number of its heaps have. So it is covered by itself
/// without two heaps of one power, unless no heap is left then: a member is a choice of at most one
/// of the three heaps for each of the eight powers, or one heap twice. That is 4^8 + 24 of them, of
/// which 3^k times the ways to choose k of eight stand for k heaps.
#[test]
fn keeps_more_than_65536_members(rt: HostRuntime) {
    let wanted = [1, 24, 252 + 24, 1512, 5670, 13608, 20412, 17496, 6561];
    compare(&rt, "members", count_kept(rt.alloc()), Some(wanted));
}
