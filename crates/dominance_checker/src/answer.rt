//! The test of a claim.
ghost use Rattle.std.specs.Prelude.{◌≡◌, ◌↔◌, ℕ, List, IsTrue, IfOk};
ghost use Rattle.misere_theory.specs.Games.{IsHeap, IsPosition, Indistinguishable};
ghost use Rattle.misere_theory.specs.Labels.{PredictsOutcomes, RepresentsBy, says_by};
ghost use Rattle.misere_theory.specs.Parts.{IsInfinite};
ghost use Rattle.misere_theory.specs.Quotients.{Claim, Represents};
ghost use Rattle.dominance.specs.Triples.{IsElement, claim_by, triple_of};
ghost use Rattle.dominance.specs.Finite.{HasSmallWins};
ghost use Rattle.dominance.specs.Quotient.{ArePredicting, HasRulers};
ghost use Rattle.dominance_checker.specs.Ranks.{label_by};

use crate::elements::makes_all;
use crate::making::{kept_of, kinds_of, numbers_of};
use crate::rank::Rank;
use crate::rulers::has_rulers;
use crate::shape::Shape;
use crate::testing::is_right;
use allocation::Memory;
use dominance::triples_are_the_quotient;
use octal_code::Code;
use std::alloc::{AllocError, Allocator};

/// Whether the claim passes the test.
fn is_tested_claim<A: Allocator + Copy>(
    alloc: A,
    code: &Code,
    s: Shape,
    ranks: &[Rank],
) -> Result<bool, AllocError>
    ensures right { IfOk result (λ b. IsTrue b → ArePredicting code.now (label_by s ranks.now)) }
    ensures rulers { IfOk result (λ b. IsTrue b → HasRulers (label_by s ranks.now)) }
    ensures wins { IfOk result (λ b. IsTrue b → HasSmallWins code.now s.start) }
{
    let Some(e) = numbers_of(code, s, ranks) else {
        return Ok(false);
    };
    if !has_rulers(s, ranks) {
        return Ok(false);
    }
    let end = e.last.saturating_add(s.period);
    let kinds = kinds_of(alloc, code, s, ranks, end)?;
    let kept = kept_of(alloc, &kinds)?;
    is_right(alloc, code, s, ranks, &kinds, &kept, e)
}

/// Whether a claim passes the test: `ranks` are those of the heaps 0, 1, .., start + period - 1, of which that
/// of 0 isn't read, and from start on they repeat with the period, up to the rise. A yes means that the claim
/// is right of each position of the whole game, of any number of heaps of any size; that positions are
/// indistinguishable exactly where their triples are equal; that no finite claim represents the game; and that
/// if a move wins, one wins that leaves at most one heap from start on.
/// `Err` if memory is lacking. The test, and the monoid of triples, are this project's own.
pub fn is_accepted<A: Allocator + Copy>(
    alloc: A,
    code: &Code,
    s: Shape,
    ranks: &[Rank],
) -> Result<bool, Memory>
    ensures outcomes { IfOk result (λ b. IsTrue b
        → PredictsOutcomes IsHeap code.now (says_by (claim_by (label_by s ranks.now)))) }
    ensures indistinguishable { IfOk result (λ b. IsTrue b
        → (X Y : List ℕ) → IsPosition IsHeap X → IsPosition IsHeap Y
        → Indistinguishable IsHeap code.now X Y
        ↔ (triple_of (label_by s ranks.now) X ≡ triple_of (label_by s ranks.now) Y)) }
    ensures infinite { IfOk result (λ b. IsTrue b → IsInfinite IsHeap code.now) }
    ensures no_claim { IfOk result (λ b. IsTrue b
        → (d : Claim) → Represents IsHeap code.now d → ⊥) }
    ensures wins { IfOk result (λ b. IsTrue b → HasSmallWins code.now s.start) }
{
    triples_are_the_quotient();
    Ok(is_tested_claim(alloc, code, s, ranks)?)
}

/// Whether a claim passes the test, and heaps make all elements of the monoid U of triples. A yes means that U
/// is the misère quotient of the whole game. A claim that is accepted, and of which this isn't said, may have
/// a smaller quotient. `Err` if memory is lacking.
pub fn is_represented<A: Allocator + Copy>(
    alloc: A,
    code: &Code,
    s: Shape,
    ranks: &[Rank],
) -> Result<bool, Memory>
    ensures { IfOk result (λ b. IsTrue b
        → RepresentsBy IsElement IsHeap code.now (claim_by (label_by s ranks.now))) }
{
    triples_are_the_quotient();
    if !makes_all(s, ranks) {
        return Ok(false);
    }
    Ok(is_tested_claim(alloc, code, s, ranks)?)
}
