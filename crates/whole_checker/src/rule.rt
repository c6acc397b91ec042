//! Whether the rule of misère outcomes fails at a position.
ghost use Rattle.std.specs.Prelude.{IsTrue, IfOk};
ghost use Rattle.misere_theory.specs.Labels.{BreaksRule, says_by};
ghost use Rattle.dominance.specs.Triples.{claim_by};
ghost use Rattle.dominance_checker.specs.Ranks.{label_by};

use crate::triples::Triples;
use allocation::Memory;
use dominance_checker::{Rank, Shape};
use octal_code::Code;
use std::alloc::Allocator;

/// Whether the rule of misère outcomes is seen to fail at the position of these heaps: the claim says that it
/// is P, and it has no option, or one that the claim calls P too; or the claim says that it isn't, it has
/// options, and the claim calls none of them P.
///
/// # Errors
/// `Memory` where a growth was refused.
pub fn rule_fails_at<A: Allocator + Copy>(
    alloc: A,
    code: &Code,
    s: Shape,
    ranks: &[Rank],
    heaps: &[u64],
) -> Result<bool, Memory>
    ensures { IfOk result (λ b. IsTrue b
        → BreaksRule code.now (says_by (claim_by (label_by s ranks.now))) heaps.now) }
{
    let claim = Triples { shape: s, ranks };
    match outcome_rule::rule_fails_at(alloc, code, &claim, heaps)? {
        Some(fails) => Ok(fails),
        None => Ok(false),
    }
}
