//! Whether the rule of misère outcomes fails at a position.
ghost use Rattle.std.specs.Prelude.{◌≡◌, ◌↔◌, ℕ, Bool, List, IfOk, IfSome, true};
ghost use Rattle.misere_theory.specs.Labels.{BreaksRule};
ghost use Rattle.outcome_rule.specs.Looks.{IsLook, joined};

use crate::glance::Glance;
use crate::looking::look_at;
use crate::says::SaysOutcomes;
use allocation::Memory;
use octal_code::Code;
use std::alloc::Allocator;

/// What is found of both.
fn joined(found: Glance, more: Glance) -> Glance
    ensures { result ≡ joined found more }
{
    match (found, more) {
        (Glance::In, _) => Glance::In,
        (Glance::Unknown, _) => Glance::Unknown,
        (Glance::Still, _) => more,
        (Glance::Out, Glance::Still) => Glance::Out,
        (Glance::Out, _) => more,
    }
}

/// What a look at all moves of a position finds.
fn look<A: Allocator + Copy, S: SaysOutcomes>(
    alloc: A,
    code: &Code,
    claim: &S,
    heaps: &[u64],
) -> Result<Glance, Memory>
    ensures { IfOk result (λ look. (says : List ℕ → Bool) → S.are_said claim.now says
        → IsLook code.now says heaps.now look) }
{
    let mut found = Glance::Still;
    for k in 0..heaps.len() {
        found = joined(found, look_at(alloc, code, claim, heaps, k)?);
    }
    Ok(found)
}

/// Whether the rule fails where the position is said to be P, or isn't, and a look at the options finds this. `None` if
/// that isn't known.
#[tactic(auto, using(crate::proofs::Looked::fails_still, crate::proofs::Looked::fails_in, crate::proofs::Looked::fails_out))]
fn fails(is_p: bool, look: Glance) -> Option<bool>
    ensures { IfSome result (λ b. (code : List ℕ) (says : List ℕ → Bool) (X : List ℕ)
        → is_p ≡ says X → IsLook code says X look → (b ≡ true) ↔ BreaksRule code says X) }
{
    match look {
        Glance::Still => Some(is_p),
        Glance::Out => Some(!is_p),
        Glance::In => Some(is_p),
        Glance::Unknown => None,
    }
}

/// Whether the rule of misère outcomes fails at the position of these heaps: it is said to be P, and it has no option, or
/// one that is said to be P too; or it isn't said to be P, it has options, and none of them is. `None` if it can't be told
/// of the position, or of one of the options.
///
/// # Errors
/// `Memory` where a growth was refused.
pub fn rule_fails_at<A: Allocator + Copy, S: SaysOutcomes>(
    alloc: A,
    code: &Code,
    claim: &S,
    heaps: &[u64],
) -> Result<Option<bool>, Memory>
    ensures { IfOk result (λ found. IfSome found (λ b. (says : List ℕ → Bool) → S.are_said claim.now says
        → (b ≡ true) ↔ BreaksRule code.now says heaps.now)) }
{
    let Some(is_p) = claim.is_said_p(heaps) else {
        return Ok(None);
    };
    let look = look(alloc, code, claim, heaps)?;
    Ok(fails(is_p, look))
}
