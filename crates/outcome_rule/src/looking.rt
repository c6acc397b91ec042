//! A look at the options of one heap of a position.
ghost use Rattle.std.specs.Prelude.{◌≡◌, ◌<◌, ℕ, Bool, List, IfOk, IfSome, length};
ghost use Rattle.heap_options.specs.Exact.{heaps_of};
ghost use Rattle.outcome_rule.specs.Looks.{replaced, IsLookAt};

use crate::glance::Glance;
use crate::says::SaysOutcomes;
use allocation::Memory;
use heap_options::{Left, options, options_are_exact};
use octal_code::Code;
use std::alloc::Allocator;

/// The heaps of a position, with what is left of heap number `k` in its place.
fn moved<A: Allocator>(alloc: A, heaps: &[u64], k: usize, left: Left) -> Result<Vec<u64, A>, Memory>
    requires { k < length heaps.now }
    ensures { IfOk result (λ v. v.items ≡ replaced heaps.now k (heaps_of left)) }
{
    let parts = left.heaps();
    let mut all = Vec::from_slice(alloc, &heaps[..k])?;
    all.extend_from_slice(parts.as_slice())?;
    all.extend_from_slice(&heaps[k + 1..])?;
    Ok(all)
}

/// Whether the position that a move in heap number `k` leads to is said to be P.
fn says_behind<A: Allocator, S: SaysOutcomes>(
    alloc: A,
    claim: &S,
    heaps: &[u64],
    k: usize,
    left: Left,
) -> Result<Option<bool>, Memory>
    requires { k < length heaps.now }
    ensures { IfOk result (λ found. IfSome found (λ b. (says : List ℕ → Bool) → S.are_said claim.now says
        → b ≡ says (replaced heaps.now k (heaps_of left)))) }
{
    let next = moved(alloc, heaps, k, left)?;
    Ok(claim.is_said_p(&next))
}

/// What a look at the moves in heap number `k` finds.
pub(crate) fn look_at<A: Allocator + Copy, S: SaysOutcomes>(
    alloc: A,
    code: &Code,
    claim: &S,
    heaps: &[u64],
    k: usize,
) -> Result<Glance, Memory>
    requires { k < length heaps.now }
    ensures { IfOk result (λ look. (says : List ℕ → Bool) → S.are_said claim.now says
        → IsLookAt code.now says heaps.now k look) }
{
    options_are_exact();
    let mut found = Glance::Still;
    for left in options(code, heaps[k]) {
        match says_behind(alloc, claim, heaps, k, left)? {
            None => return Ok(Glance::Unknown),
            Some(true) => return Ok(Glance::In),
            Some(false) => found = Glance::Out,
        }
    }
    Ok(found)
}
