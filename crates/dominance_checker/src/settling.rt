//! The rule at a heap beside others.
ghost use Rattle.std.specs.Prelude.{◌≡◌, ◌<◌, ◌≤◌, ◌+◌, ◌-◌, ◌*◌, ◌^◌, max, ℕ, true, false, IsTrue, All};
ghost use Rattle.dominance.specs.Triples.{xor, times, is_p, IsElement};
ghost use Rattle.dominance.specs.Tested.{Change, size_of, MayStandBeside};
ghost use Rattle.dominance_checker.specs.Ranks.{triple_in};
ghost use Rattle.dominance_checker.specs.States.{has_change, state_in, HasLeadingChange, HasLeadingSide, with_change, IsSideSettled, IsSettledWith, IsSettledAt, IsSettledBelow};

use crate::rank::{Rank, beside, is_p};
use crate::side::Side;
use crate::state::{LOSSES, State, size_of};

/// Whether v beside y is in the P-portion.
fn leads(v: Rank, y: Rank) -> bool
    ensures { IsTrue result → is_p (times (triple_in v) (triple_in y)) ≡ true }
{
    match beside(v, y) {
        None => false,
        Some(both) => is_p(both),
    }
}

/// Whether a change of the others beside a heap of the rank `u` leads into the P-portion, if the state has it.
fn change_leads(u: Rank, y: Rank, flips: bool, lost: u64) -> bool
    ensures { IsTrue result → is_p (times (triple_in u) (with_change (triple_in y) (flips, lost))) ≡ true }
{
    let changed = Rank {
        odd: flips != y.odd,
        weight: y.weight.saturating_sub(lost),
        lead: 0,
    };
    leads(u, changed)
}

/// Whether some change of the state leads into the P-portion.
fn changes_lead(u: Rank, k: &State, y: Rank) -> bool
    ensures { IsTrue result → HasLeadingChange u k.now (triple_in y) }
{
    for lost in 0..LOSSES {
        if k.keeps[lost] && change_leads(u, y, false, lost as u64) {
            return true;
        }
        if k.flips[lost] && change_leads(u, y, true, lost as u64) {
            return true;
        }
    }
    false
}

/// Whether some listed option leads into the P-portion.
fn sides_lead(sides: &[Side], y: Rank) -> bool
    ensures { IsTrue result → HasLeadingSide sides.now (triple_in y) }
{
    for v in sides {
        if v.listed && leads(v.rank, y) {
            return true;
        }
    }
    false
}

/// Whether the rule is kept at a heap of the rank `u` with these options beside y, in the state k.
fn is_settled(u: Rank, sides: &[Side], k: &State, y: Rank) -> bool
    ensures { IsTrue result → IsSideSettled u sides.now k.now (triple_in y) }
{
    let Some(both) = beside(u, y) else {
        return false;
    };
    let alive = k.alive || !sides.is_empty();
    if is_p(both) {
        return alive;
    }
    !alive || changes_lead(u, k, y) || sides_lead(sides, y)
}

/// Whether the losses of the state are at most the weight.
fn loses_at_most(k: &State, weight: u64) -> bool
    ensures { result ≡ false → ((x : Change) → has_change k.now x ≡ true → x.1 ≤ weight) → ⊥ }
{
    for lost in 0..LOSSES {
        if k.keeps[lost] && weight < lost as u64 {
            return false;
        }
        if k.flips[lost] && weight < lost as u64 {
            return false;
        }
    }
    true
}

/// Whether a lead is below the weight, and odd where it is even; or there is none.
pub(crate) fn is_element(u: Rank) -> bool
    ensures yes { IsTrue result → IsElement (triple_in u) }
    ensures no { result ≡ false → IsElement (triple_in u) → ⊥ }
{
    u.lead == 0 || u.lead < u.weight && u.lead % 2 != u.weight % 2
}

/// Whether y may have so great a lead beside a heap of the rank `u` that leads.
fn is_led(u: Rank, y: Rank) -> bool
    ensures { result ≡ false
        → y.lead ≤ max (u.lead - (y.weight - u.weight)) (2 * u.weight - 3 - y.weight) → ⊥ }
{
    let Some(twice) = u.weight.checked_mul(2) else {
        return true;
    };
    let over = y.weight.saturating_sub(u.weight);
    y.lead <= u.lead.saturating_sub(over)
        || y.lead <= twice.saturating_sub(3).saturating_sub(y.weight)
}

/// Whether y may stand beside a heap of the rank `u` that leads, in the state k.
fn may_stand(u: Rank, k: &State, y: Rank) -> bool
    ensures { result ≡ false → MayStandBeside (triple_in u) (state_in k.now) (triple_in y) → ⊥ }
{
    is_element(y)
        && k.size == size_of(y.weight)
        && (u.weight != 0 || y.weight == 0)
        && is_led(u, y)
        && loses_at_most(k, y.weight)
}

/// Whether a rank with these numbers is settled beside the heap, if it may stand there in the state k.
fn is_settled_with(u: Rank, sides: &[Side], k: &State, weight: u64, lead: u64) -> bool
    ensures { IsTrue result → IsSettledWith u sides.now k.now weight lead }
{
    let y = Rank {
        odd: k.odd,
        weight,
        lead,
    };
    !may_stand(u, k, y) || is_settled(u, sides, k, y)
}

/// Whether all that may stand beside the heap in the state k with this weight is settled.
fn is_settled_at(u: Rank, sides: &[Side], k: &State, weight: u64) -> bool
    requires { weight < 2 ^ 63 }
    ensures { IsTrue result → IsSettledAt u sides.now k.now weight }
{
    for lead in 0..weight + 1 {
        if !is_settled_with(u, sides, k, weight, lead) {
            return false;
        }
    }
    true
}

/// Whether all of a weight below `end` is settled.
fn is_settled_below(u: Rank, sides: &[Side], k: &State, end: u64) -> bool
    requires { end < 2 ^ 63 }
    ensures { IsTrue result → IsSettledBelow u sides.now end k.now }
{
    for weight in 0..end {
        if !is_settled_at(u, sides, k, weight) {
            return false;
        }
    }
    true
}

/// Whether it is in each state.
pub(crate) fn are_settled_below(u: Rank, sides: &[Side], kept: &[State], end: u64) -> bool
    requires { end < 2 ^ 63 }
    ensures { IsTrue result → All (IsSettledBelow u sides.now end) kept.now }
{
    for k in kept {
        if !is_settled_below(u, sides, k, end) {
            return false;
        }
    }
    true
}
