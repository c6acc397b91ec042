//! The state of a heap alone.
ghost use Rattle.std.specs.Prelude.{◌≡◌, ◌≤◌, ◌<◌, ◌+◌, true, false, IsTrue};
ghost use Rattle.dominance.specs.Triples.{xor};
ghost use Rattle.dominance_checker.specs.States.{has_change, HasSide, IsSideState};

use crate::rank::Rank;
use crate::side::Side;
use crate::state::{LOSSES, State, size_of};

/// Whether what is left of a heap of the rank `u` is listed, loses so much weight, and has a lead of at
/// most the heap's weight; with the other parity, if it flips.
fn makes(u: Rank, v: Side, flips: bool, lost: u64) -> bool
    ensures { IsTrue result → (v.listed ≡ true) × (v.rank.odd ≡ xor flips u.odd)
        × (v.rank.weight + lost ≡ u.weight) × (v.rank.lead ≤ u.weight) }
{
    v.listed
        && v.rank.odd == (flips != u.odd)
        && v.rank.weight <= u.weight
        && u.weight - v.rank.weight == lost
        && v.rank.lead <= u.weight
}

/// Whether some option of a heap of the rank `u` makes the change.
fn has_side(u: Rank, sides: &[Side], flips: bool, lost: u64) -> bool
    ensures { IsTrue result → HasSide u sides.now (flips, lost) }
{
    for v in sides {
        if makes(u, *v, flips, lost) {
            return true;
        }
    }
    false
}

/// Whether the changes of a state that lose so much weight are made by options.
fn has_both(u: Rank, sides: &[Side], k: &State, lost: usize) -> bool
    requires { lost < 8 }
    ensures keeps { IsTrue result → has_change k.now (false, lost) ≡ true → HasSide u sides.now (false, lost) }
    ensures flips { IsTrue result → has_change k.now (true, lost) ≡ true → HasSide u sides.now (true, lost) }
{
    if k.keeps[lost] && !has_side(u, sides, false, lost as u64) {
        return false;
    }
    !k.flips[lost] || has_side(u, sides, true, lost as u64)
}

/// Whether a heap of the rank `u` with these options has the state.
pub(crate) fn is_state(u: Rank, sides: &[Side], k: &State) -> bool
    ensures { IsTrue result → IsSideState u sides.now k.now }
{
    if k.odd != u.odd || k.size != size_of(u.weight) || k.alive == sides.is_empty() {
        return false;
    }
    for lost in 0..LOSSES {
        if !has_both(u, sides, k, lost) {
            return false;
        }
    }
    true
}
