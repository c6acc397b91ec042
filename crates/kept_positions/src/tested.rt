//! Positions that are found, and pass the test.
ghost use Rattle.std.specs.Prelude.{◌≡◌, List, IsTrue, IfOk};
ghost use Rattle.kept_positions.specs.Numbers.{ClassTurns, no_turns, AreFamiliesTested, AreFoundTested};

use crate::finding::{NotFound, positions_of};
use crate::listed::Listed;
use crate::tables::{ClassTurns, KeptPositions, LabelTables};
use crate::testing::are_tested;
use allocation::Memory;
use std::alloc::Allocator;

/// So many marks, none of them true.
fn no_marks<A: Allocator>(alloc: A, length: usize) -> Result<Vec<bool, A>, Memory> {
    let mut all = Vec::new(alloc);
    for _ in 0..length {
        all.push(false)?;
    }
    Ok(all)
}

/// Positions that pass the test: so no position is bad beside nothing, as
/// [`tested_families_are_never_bad`](crate::laws::tested_families_are_never_bad) says. At most `limit` are kept,
/// and those made of them by one heap more. A heap is free at a position that has it `cap` times, which may be 0: then
/// no heap is free at any.
///
/// # Errors
///
/// Nothing is promised of the reason: a position at which the rule may fail, too many of them, or a test that
/// failed; and want of memory.
pub fn tested_families<A: Allocator + Copy>(
    alloc: A,
    t: &LabelTables<A>,
    u: &ClassTurns<A>,
    cap: usize,
    limit: usize,
) -> Result<KeptPositions<A>, NotFound<A>>
    ensures { IfOk result (λ k. AreFamiliesTested t.now u.now k) }
{
    let found = positions_of(alloc, t, cap, limit)?;
    let listed = Listed::new(alloc, &found, t.labels)?;
    let mut marks = no_marks(alloc, t.classes)?;
    if are_tested(t, u, &found, &listed, &mut marks) {
        Ok(found)
    } else {
        Err(NotFound::Undecided)
    }
}

/// The same, without free heaps: [`tested_positions_are_never_bad`](crate::laws::tested_positions_are_never_bad).
pub fn tested_positions<A: Allocator + Copy>(
    alloc: A,
    t: &LabelTables<A>,
    limit: usize,
) -> Result<KeptPositions<A>, NotFound<A>>
    ensures { IfOk result (λ k. AreFoundTested t.now k) }
{
    let none = ClassTurns {
        first: Vec::new(alloc),
        onto: Vec::new(alloc),
    };
    let found = tested_families(alloc, t, &none, 0, limit)?;
    if found.free.is_empty() {
        Ok(found)
    } else {
        Err(NotFound::Undecided)
    }
}
