//! Entries of a row at the members of a set, found member by member.
ghost use Rattle.std.specs.Prelude.{◌+◌, ◌*◌, ◌↔◌, ◌⊎◌, ℕ, IsTrue};
ghost use Rattle.std.specs.FinSet as set;
ghost use Rattle.element_sets.specs.Hits.{Hits, CanTranslateLane};

use crate::LaneSet;

/// Adds to `all` the row's entries from `base` on at the ones of `lane`.
pub(crate) fn add_lane<const LANES: usize>(
    all: &mut LaneSet<LANES>,
    lane: u64,
    base: usize,
    row: &[u16],
)
    requires { CanTranslateLane (64 * LANES) lane base row.now }
    ensures { (q : ℕ) → IsTrue (set.contains all.new q)
        ↔ (IsTrue (set.contains all.old q) ⊎ Hits lane base row.now q) }
{
    let mut word = lane;
    while word != 0 {
        let bit = word.trailing_zeros();
        all.put(row[base + bit as usize]);
        word &= word - 1;
    }
}
