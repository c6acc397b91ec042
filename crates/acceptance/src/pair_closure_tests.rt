//! The closure of the game 0.3, whole and with growths refused.
use crate::comparing::compare;
use allocation::SmallAllocator;
use monoid_table::{Phi, Table};
use octal_code::Code;
use pair_closure::{Closure, Grown};
use std::alloc::Global;
use transition_algebra::{Pair, heap_pairs};

/// The closure of 0.3 over its quotient of two elements.
fn three<A: SmallAllocator + Copy>(alloc: A, limit: u32) -> Option<Closure<8, A>> {
    let Ok(code) = Code::read(b"0.3") else {
        return None;
    };
    let Ok(rows) = [0u16, 1, 1, 0].to_vec(alloc) else {
        return None;
    };
    let Ok(table) = Table::new(2, rows) else {
        return None;
    };
    let Ok(entries) = [1u16, 0].to_vec(alloc) else {
        return None;
    };
    let phi = Phi::new(1, 2, entries);
    match heap_pairs(alloc, &code, &table, &phi) {
        Ok(pairs) if pairs.len() == 7 => Some(Closure::new(alloc, table, pairs, limit)),
        _ => None,
    }
}

/// Whether a member is of this value, with this one value of options, or none.
fn is_pair(p: &Pair, value: u16, option: Option<u16>) -> bool {
    p.value == value
        && p.options.is_empty() == option.is_none()
        && match option {
            Some(x) => p.options.contains(x) && !p.options.contains(1 - x.min(1)),
            None => true,
        }
}

/// How many heaps the position has that a member held stands for.
pub fn length_of(closure: &Closure<8>, i: usize) -> Option<usize> {
    if i >= closure.kept() {
        return None;
    }
    match closure.word(i) {
        Ok(word) => Some(word.heaps().len()),
        Err(_) => None,
    }
}

/// Whether a member is of this value and option, and stands for as many heaps of 1 as came before.
fn is_member(closure: &Closure<8>, i: usize, value: u16, option: Option<u16>) -> bool {
    i < closure.kept()
        && is_pair(closure.member(i), value, option)
        && length_of(closure, i) == Some(i)
}

/// What holds of a closure that grows by one member and then to the end.
fn grows_to_three(closure: &mut Closure<8>) -> [bool; 7] {
    [
        closure.grow(1) == Ok(Grown::More),
        (closure.ever(), closure.spent()) == (1, 1),
        closure.grow(1000) == Ok(Grown::Done),
        (closure.ever(), closure.kept()) == (3, 3),
        is_member(closure, 0, 0, None),
        is_member(closure, 1, 1, Some(0)),
        is_member(closure, 2, 0, Some(1)),
    ]
}

/// The same of the closure, and how many elements and pairs it was given.
fn keeps_three(alloc: Global) -> Option<([bool; 7], (u16, usize))> {
    match three(alloc, 3) {
        Some(mut closure) => {
            let grows = grows_to_three(&mut closure);
            let (table, pairs) = closure.finish();
            Some((grows, (table.order(), pairs.len())))
        }
        None => None,
    }
}

/// Whether the closure grows by a member that stands for so many heaps, at a turn for each.
fn grows_by_one(closure: &mut Closure<8>, heaps: usize) -> bool {
    let turns = (heaps as u64).saturating_add(1);
    closure.grow_to_member(1000).is_ok()
        && (closure.ever(), closure.spent()) == (turns, turns as u128)
        && length_of(closure, closure.kept().saturating_sub(1)) == Some(heaps)
}

/// Whether the members are the empty position, the heap 1, and two heaps of 1.
fn stops_at_each(alloc: Global) -> bool {
    match three(alloc, 3) {
        Some(mut closure) => {
            grows_by_one(&mut closure, 0)
                && grows_by_one(&mut closure, 1)
                && grows_by_one(&mut closure, 2)
                && closure.grow_to_member(1000) == Ok(Grown::Done)
                && (closure.ever(), closure.kept()) == (3, 3)
        }
        None => false,
    }
}

/// The last of eleven answers, each to so many units.
fn grow_eleven(closure: &mut Closure<8>, units: u64) -> Option<Grown> {
    let mut grown = Grown::More;
    for _call in 0..11u8 {
        match closure.grow(units) {
            Ok(next) => grown = next,
            Err(_) => return None,
        }
    }
    Some(grown)
}

/// What a closure of this limit answers last, how many members it kept and how many turns it took.
fn end_of(alloc: Global, limit: u32, units: u64) -> (Option<Grown>, u64, u128) {
    match three(alloc, limit) {
        Some(mut closure) => {
            let grown = grow_eleven(&mut closure, units);
            (grown, closure.ever(), closure.spent())
        }
        None => (None, 0, 0),
    }
}

/// A limit, and what is answered last, how many members are kept and how many turns are taken, in
/// any units. The empty position, the heap 1, two and three of it, and the heaps 2 to 7: ten turns,
/// unless the limit comes first.
#[test]
fn members_and_turns(rt: HostRuntime) {
    compare(
        &rt,
        "three members",
        keeps_three(rt.alloc()),
        Some(([true; 7], (2, 7))),
    );
    compare(&rt, "one by one", stops_at_each(rt.alloc()), true);
    for (limit, end, ever, spent) in [
        (3, Grown::Done, 3, 10),
        (2, Grown::Over, 3, 3),
        (1, Grown::Over, 2, 2),
        (0, Grown::Over, 1, 1),
    ] {
        for units in [1, 7, u64::MAX] {
            let ends_so = end_of(rt.alloc(), limit, units) == (Some(end), ever, spent);
            compare(
                &rt,
                "limit and units",
                (limit, units, ends_so),
                (limit, units, true),
            );
        }
    }
}

/// Whether the closure ends, or 9 where it isn't made or a refused growth stops it for good, before
/// its end.
pub fn ends<A: SmallAllocator + Copy>(alloc: A) -> Result<bool, u8> {
    match three(alloc, 3) {
        Some(mut closure) => {
            if closure.grow(1000).is_ok() {
                return Ok(true);
            }
            let ever = closure.ever();
            let stays = closure.grow(1).is_err() && closure.ever() == ever && ever < 3;
            Err(if stays { 9 } else { 0 })
        }
        None => Err(9),
    }
}
