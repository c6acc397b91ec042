//! Whether a list of states is closed.
ghost use Rattle.std.specs.Prelude.{◌≡◌, ◌<◌, ◌+◌, ◌||◌, true, false, IsTrue, Contains, All};
ghost use Rattle.dominance.specs.Tested.{empty_state, together, IsWithin};
ghost use Rattle.dominance_checker.specs.States.{has_change, state_in, HasStateWithin, HasStatesWithin, AreStatesClosed};

use crate::state::{LOSSES, State, size_of};

/// Whether the state j says no more of losses of so much weight than k and h.
fn loses_within(j: &State, k: &State, h: &State, lost: usize) -> bool
    requires { lost < 8 }
    ensures keeps { IsTrue result → has_change j.now (false, lost) ≡ true
        → has_change k.now (false, lost) || has_change h.now (false, lost) ≡ true }
    ensures flips { IsTrue result → has_change j.now (true, lost) ≡ true
        → has_change k.now (true, lost) || has_change h.now (true, lost) ≡ true }
{
    (!j.keeps[lost] || k.keeps[lost] || h.keeps[lost])
        && (!j.flips[lost] || k.flips[lost] || h.flips[lost])
}

/// Whether the state j says no more than k and h together.
fn is_within(j: &State, k: &State, h: &State) -> bool
    ensures { IsTrue result → IsWithin (state_in j.now) (together (state_in k.now) (state_in h.now)) }
{
    let Some(size) = k.size.checked_add(h.size) else {
        return false;
    };
    if j.odd != (k.odd != h.odd) || j.size != size_of(size) || j.alive != (k.alive || h.alive) {
        return false;
    }
    for lost in 0..LOSSES {
        if !loses_within(j, k, h, lost) {
            return false;
        }
    }
    true
}

/// Whether the state is the empty position's.
fn is_empty(k: &State) -> bool
    ensures { IsTrue result → IsWithin (state_in k.now) empty_state }
{
    if k.odd || k.size != 0 || k.alive {
        return false;
    }
    for lost in 0..LOSSES {
        if k.keeps[lost] || k.flips[lost] {
            return false;
        }
    }
    true
}

/// Whether some state of the list is the empty position's.
fn has_empty(kept: &[State]) -> bool
    ensures { IsTrue result → (k : State) × Contains kept.now k × IsWithin (state_in k) empty_state }
{
    for k in kept {
        if is_empty(k) {
            return true;
        }
    }
    false
}

/// Whether some state of the list says no more than k and h together.
fn has_within(kept: &[State], k: &State, h: &State) -> bool
    ensures { IsTrue result → HasStateWithin kept.now k.now h.now }
{
    for j in kept {
        if is_within(j, k, h) {
            return true;
        }
    }
    false
}

/// Whether the list has a state for k and each of the kinds.
fn has_all_within(kinds: &[State], kept: &[State], k: &State) -> bool
    ensures { IsTrue result → HasStatesWithin kinds.now kept.now k.now }
{
    for h in kinds {
        if !has_within(kept, k, h) {
            return false;
        }
    }
    true
}

/// Whether the list has with each state one for each of the kinds.
fn have_all_within(kinds: &[State], kept: &[State]) -> bool
    ensures { IsTrue result → All (HasStatesWithin kinds.now kept.now) kept.now }
{
    for k in kept {
        if !has_all_within(kinds, kept, k) {
            return false;
        }
    }
    true
}

/// Whether the list has the empty position's state, and with each state one for each kind beside it.
pub(crate) fn are_closed(kinds: &[State], kept: &[State]) -> bool
    ensures { IsTrue result → AreStatesClosed kinds.now kept.now }
{
    has_empty(kept) && have_all_within(kinds, kept)
}
