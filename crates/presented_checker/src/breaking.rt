//! A search for a position at which a presentation breaks the rule of misère outcomes. Which positions are tried is no matter of
//! promises; that the rule is broken at the one that is found is proved.
ghost use Rattle.std.specs.Prelude.{IfOk, IfSome, IsTrue};
ghost use Rattle.misere_theory.specs.Games.{IsPosition};
ghost use Rattle.presented_text.specs.Said.{IsInRanges};
ghost use Rattle.presented_tables.specs.Tested.{HasWord};
ghost use Rattle.answers.specs.InfiniteRefusals.{refused};
ghost use Rattle.presented_checker.specs.Refused.{Fits, IsBrokenAt};

use allocation::{Memory, SmallAllocator};
use answers::InfiniteRefusal;
use class_tables::ListedWords;
use normal_forms::Exponents;
use octal_code::Code;
use outcome_rule::rule_fails_at;
use positions::{LARGEST_HEAP, Position};
use presented_tables::{Presented, product};
use std::alloc::Allocator;

/// The most elements from which the search goes on.
const MOST_REACHED: usize = 16384;

/// How much the looks at options may cost, about one for each option.
const MOST_COST: u64 = 1 << 20;

/// Whether all heaps have words.
fn have_words<A: Allocator>(p: &Presented<A>, heaps: &[u64]) -> bool
    ensures { IsTrue result → IsPosition (HasWord p.now) heaps.now }
{
    let Some((heap, others)) = heaps.split_first() else {
        return true;
    };
    p.has_word(*heap) && have_words(p, others)
}

/// The position, if the rule is seen to fail at it.
fn breaking<A: SmallAllocator + Copy>(
    alloc: A,
    p: &Presented<A>,
    position: Position<A>,
) -> Result<Option<Position<A>>, Memory>
    requires { IsInRanges p.now }
    ensures { IfOk result (λ found. IfSome found (IsBrokenAt p.now p.now.code)) }
{
    let _rules = p.basis.rules();
    if !have_words(p, position.heaps()) {
        return Ok(None);
    }
    match rule_fails_at(alloc, &p.code, p, position.heaps())? {
        Some(true) => Ok(Some(position)),
        _ => Ok(None),
    }
}

/// The position of these heaps, those left out that are too large.
fn position_of<A: SmallAllocator + Copy>(alloc: A, heaps: &[u64]) -> Result<Position<A>, Memory> {
    let mut position = Position::new(alloc);
    for heap in heaps {
        if 1 <= *heap && *heap <= LARGEST_HEAP {
            position.push(*heap)?;
        }
    }
    Ok(position)
}

/// About how many options a heap has.
fn cost_of(code: &Code, heap: u64) -> u64 {
    let places = code.last() as u64 + 1;
    let each = if code.leaves_three() {
        heap.saturating_mul(heap)
    } else {
        heap
    };
    places.saturating_mul(each)
}

/// Where the search is: elements that are reached, of each a position that has it, which is that of its parent, a number
/// greater by one, and a heap more; and what looks may still cost.
#[derive(Drop)]
struct Search<A: Allocator> {
    reached: ListedWords<A>,
    parents: Vec<usize, A>,
    heaps: Vec<u64, A>,
    left: u64,
}

/// The heaps of element `k`, and one more.
fn heaps_with<A: Allocator + Copy>(
    alloc: A,
    search: &Search<A>,
    k: usize,
    heap: u64,
) -> Result<Vec<u64, A>, Memory> {
    let mut heaps = Vec::from_slice(alloc, &[heap])?;
    let mut now = k;
    for _ in 0..search.parents.len() {
        let parent = search.parents.get(now).copied().unwrap_or(0);
        if parent == 0 {
            break;
        }
        heaps.push(search.heaps.get(now).copied().unwrap_or(0))?;
        now = parent - 1;
    }
    Ok(heaps)
}

/// The element of element `k` and a heap together.
fn element_with<A: Allocator>(
    p: &Presented<A>,
    search: &Search<A>,
    k: usize,
    heap: u64,
) -> Option<Exponents> {
    let element = search.reached.get(k)?;
    p.basis.normal_form(&product(element, &p.word(heap)?)?)
}

/// Puts in the element of element `k` and a heap together, if it isn't there.
fn reach<A: Allocator>(
    p: &Presented<A>,
    search: &mut Search<A>,
    k: usize,
    heap: u64,
) -> Result<(), Memory> {
    let Some(element) = element_with(p, search, k, heap) else {
        return Ok(());
    };
    let count = search.reached.len();
    search.reached.add(element)?;
    if search.reached.len() > count {
        search.parents.push(k.saturating_add(1))?;
        search.heaps.push(heap)?;
    }
    Ok(())
}

/// The position of element `k` and a heap more, if the rule is seen to fail there.
fn breaking_beside<A: SmallAllocator + Copy>(
    alloc: A,
    p: &Presented<A>,
    search: &mut Search<A>,
    k: usize,
    heap: u64,
) -> Result<Option<Position<A>>, Memory>
    requires { IsInRanges p.now }
    ensures { IfOk result (λ found. IfSome found (IsBrokenAt p.now p.now.code)) }
{
    let heaps = heaps_with(alloc, search, k, heap)?;
    for other in &heaps {
        search.left = search.left.saturating_sub(cost_of(&p.code, *other));
    }
    reach(p, search, k, heap)?;
    breaking(alloc, p, position_of(alloc, &heaps)?)
}

/// The last heap that is tried: that of the list; in a whole game some beyond it, which may have other options than heaps
/// with the same word.
fn last_of<A: Allocator>(p: &Presented<A>) -> u64 {
    let heaps = p.heaps as u64;
    if p.period == 0 {
        heaps
    } else {
        3 * (heaps + 1) + p.code.last() as u64
    }
}

/// The same of element `k` and each heap.
fn breaking_behind<A: SmallAllocator + Copy>(
    alloc: A,
    p: &Presented<A>,
    search: &mut Search<A>,
    k: usize,
) -> Result<Option<Position<A>>, Memory>
    requires { IsInRanges p.now }
    ensures { IfOk result (λ found. IfSome found (IsBrokenAt p.now p.now.code)) }
{
    for heap in 1..last_of(p).saturating_add(1) {
        if search.left == 0 {
            break;
        }
        if let Some(position) = breaking_beside(alloc, p, search, k, heap)? {
            return Ok(Some(position));
        }
    }
    Ok(None)
}

/// A position at which the rule is seen to fail, if one is found among those of few heaps: first that of none, and then of
/// elements one position each, with a heap more.
fn breaking_position<A: SmallAllocator + Copy>(
    alloc: A,
    p: &Presented<A>,
) -> Result<Option<Position<A>>, Memory>
    requires { IsInRanges p.now }
    ensures { IfOk result (λ found. IfSome found (IsBrokenAt p.now p.now.code)) }
{
    if let Some(position) = breaking(alloc, p, Position::new(alloc))? {
        return Ok(Some(position));
    }
    let mut search = Search {
        reached: ListedWords::new(alloc)?,
        parents: Vec::from_slice(alloc, &[0_usize])?,
        heaps: Vec::from_slice(alloc, &[0_u64])?,
        left: MOST_COST,
    };
    for k in 0..MOST_REACHED {
        if search.reached.len() <= k || search.left == 0 {
            break;
        }
        if let Some(position) = breaking_behind(alloc, p, &mut search, k)? {
            return Ok(Some(position));
        }
    }
    Ok(None)
}

/// Why a presentation isn't seen to be right: the rule fails at a position, which is looked for, or none is found.
pub(crate) fn broken<A: SmallAllocator + Copy>(alloc: A, p: &Presented<A>) -> InfiniteRefusal<A>
    requires { IsInRanges p.now }
    ensures { Fits p.now (refused result) }
{
    match breaking_position(alloc, p) {
        Ok(Some(position)) => InfiniteRefusal::Outcome(p.code, position),
        Ok(None) => InfiniteRefusal::Undecided,
        Err(Memory) => InfiniteRefusal::Memory,
    }
}
