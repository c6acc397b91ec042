//! The test of a claim, with lists that a search made.
ghost use Rattle.std.specs.Prelude.{◌≡◌, ◌+◌, ◌*◌, ◌<◌, ◌≤◌, ◌^◌, ℕ, IsTrue, IfSome, IfOk};
ghost use Rattle.dominance.specs.Finite.{HasSmallWins};
ghost use Rattle.dominance.specs.Quotient.{ArePredicting};
ghost use Rattle.dominance_checker.specs.Ranks.{label_by};
ghost use Rattle.dominance_checker.specs.Passed.{HasElement, HasFew, HasFar, IsClaimTested};

use crate::closing::are_closed;
use crate::numbers::Numbers;
use crate::passing::are_heaps_passed;
use crate::ranges::{are_numbers, have_elements, have_far, have_few, lose_few};
use crate::rank::Rank;
use crate::shape::Shape;
use crate::state::State;
use dominance::finitely_many_tests_are_enough;
use heap_options::options_are_exact;
use octal_code::Code;
use std::alloc::{AllocError, Allocator};

/// Up to which weight others are tried at most.
const LARGEST_WEIGHT: u64 = 1_000_000;

/// How much is far: the rise, 7, twice what is few, and 2. `None` if it grows too large.
pub(crate) fn far_of(rise: u64, few: u64) -> Option<u64>
    ensures { IfSome result (λ far. far ≡ rise + 7 + 2 * few + 2) }
{
    rise.checked_add(few.checked_mul(2)?)?.checked_add(9)
}

/// Whether the ranks of the heaps of each range are as they have to be.
fn are_ranks(s: Shape, ranks: &[Rank], e: Numbers) -> Option<bool>
    ensures elements { IfSome result (λ b. IsTrue b → (n : ℕ) → 1 ≤ n → n < s.start + s.period
        → HasElement s ranks.now n) }
    ensures few { IfSome result (λ b. IsTrue b → (n : ℕ) → 1 ≤ n → n < s.start
        → HasFew s ranks.now e.few n) }
    ensures far { IfSome result (λ b. IsTrue b → (n : ℕ) → e.large ≤ n → n < e.large + s.period
        → HasFar s ranks.now (s.rise + 7 + 2 * e.few + 2) n) }
{
    let first = s.start.checked_add(s.period)?;
    let large = e.large.checked_add(s.period)?;
    let far = far_of(s.rise, e.few)?;
    Some(
        have_elements(s, ranks, first)
            && have_few(s, ranks, e.few)
            && have_far(s, ranks, far, e.large, large),
    )
}

/// Whether the claim passes all tests with these kinds, kept states and numbers.
fn is_tested<A: Allocator + Copy>(
    alloc: A,
    code: &Code,
    s: Shape,
    ranks: &[Rank],
    kinds: &[State],
    kept: &[State],
    e: Numbers,
) -> Result<bool, AllocError>
    ensures { IfOk result
        (λ b. IsTrue b → IsClaimTested code.now s ranks.now kinds.now kept.now e) }
{
    let Some(end) = e.last.checked_add(s.period) else {
        return Ok(false);
    };
    let Some(good) = are_ranks(s, ranks, e) else {
        return Ok(false);
    };
    if !good || e.most >= LARGEST_WEIGHT || !are_numbers(code, s, e) {
        return Ok(false);
    }
    if !lose_few(kept) || !are_closed(kinds, kept) {
        return Ok(false);
    }
    are_heaps_passed(alloc, code, s, ranks, kinds, kept, e, end)
}

/// Whether the claim is right of each position of the whole game, as far as the test with these kinds, kept
/// states and numbers shows. A yes is right whatever they are.
pub(crate) fn is_right<A: Allocator + Copy>(
    alloc: A,
    code: &Code,
    s: Shape,
    ranks: &[Rank],
    kinds: &[State],
    kept: &[State],
    e: Numbers,
) -> Result<bool, AllocError>
    ensures right { IfOk result (λ b. IsTrue b → ArePredicting code.now (label_by s ranks.now)) }
    ensures wins { IfOk result (λ b. IsTrue b → HasSmallWins code.now s.start) }
{
    options_are_exact();
    finitely_many_tests_are_enough();
    is_tested(alloc, code, s, ranks, kinds, kept, e)
}
