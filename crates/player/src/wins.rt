//! Winning moves by labels.
ghost use Rattle.std.specs.Prelude.{◌≡◌, ◌<◌, ◌≤◌, ◌+◌, ℕ, List, length, remove};
ghost use Rattle.std.specs.List.Sorted.{IsNonDecreasing};
ghost use Rattle.std.specs.Option.{MatchOption};
ghost use Rattle.misere_theory.specs.Games.{IsPosition};
ghost use Rattle.misere_theory.specs.Plays.{IsWinningMove};
ghost use Rattle.heap_options.specs.Exact.{heaps_of};
ghost use Rattle.player.specs.Labels.{HasLabel};
ghost use Rattle.player.specs.Wins.{IsFirstTried, NoneWinsBelow, other_heaps};

use crate::labelling::Labelling;
use positions::Move;

/// The first winning move that is tried of the heap at a place, if no heap before it has one. `others`
/// is the label of all other heaps.
fn first_win_at<L: Labelling>(by: &L, heaps: &[u64], at: usize, others: L::Label) -> Option<Move>
    requires position { IsPosition (L.heap by.now) heaps.now }
    requires rising { IsNonDecreasing heaps.now }
    requires there { at < length heaps.now }
    requires others { HasLabel L.labels by.now (remove heaps.now at) others }
    requires none { NoneWinsBelow (L.code by.now) (L.most by.now) heaps.now at }
    ensures { MatchOption result
        (NoneWinsBelow (L.code by.now) (L.most by.now) heaps.now (at + 1))
        (λ m. IsFirstTried (L.code by.now) (L.most by.now) heaps.now m.heap (heaps_of m.left)) }
{
    by.are_enough();
    let heap = heaps[at];
    for left in by.tried(heap) {
        if by.is_p(by.times(by.label(left.heaps().as_slice()), others)) {
            return Some(Move { heap, left });
        }
    }
    None
}

/// The first winning move that is tried of the heaps at the places `from` to before `to`, if no heap
/// before them has one. `others` is the label of all other heaps.
///
/// The heaps are halved, so that n of them cost about n log n products, and no memory. Of equal
/// heaps one is tried.
fn first_win_within<L: Labelling>(
    by: &L,
    heaps: &[u64],
    from: usize,
    to: usize,
    others: L::Label,
) -> Option<Move>
    requires position { IsPosition (L.heap by.now) heaps.now }
    requires rising { IsNonDecreasing heaps.now }
    requires some { from < to }
    requires to_in { to ≤ length heaps.now }
    requires others { HasLabel L.labels by.now (other_heaps heaps.now from to) others }
    requires none { NoneWinsBelow (L.code by.now) (L.most by.now) heaps.now from }
    ensures { MatchOption result
        (NoneWinsBelow (L.code by.now) (L.most by.now) heaps.now to)
        (λ m. IsFirstTried (L.code by.now) (L.most by.now) heaps.now m.heap (heaps_of m.left)) }
{
    if from > 0 && heaps[from - 1] == heaps[to - 1] {
        return None;
    }
    if from + 1 == to {
        return first_win_at(by, heaps, from, others);
    }
    let middle = from + (to - from) / 2;
    let behind = by.times(others, by.label(&heaps[middle..to]));
    if let Some(made) = first_win_within(by, heaps, from, middle, behind) {
        return Some(made);
    }
    let before = by.times(others, by.label(&heaps[from..middle]));
    first_win_within(by, heaps, middle, to, before)
}

/// The first winning move that is tried of the heaps, which rise. If there is none, no move wins.
pub(crate) fn first_win<L: Labelling>(by: &L, heaps: &[u64]) -> Option<Move>
    requires position { IsPosition (L.heap by.now) heaps.now }
    requires rising { IsNonDecreasing heaps.now }
    ensures { MatchOption result
        ((n : ℕ) (H : List ℕ) → IsWinningMove (L.code by.now) heaps.now n H → ⊥)
        (λ m. IsFirstTried (L.code by.now) (L.most by.now) heaps.now m.heap (heaps_of m.left)) }
{
    if heaps.is_empty() {
        return None;
    }
    by.are_enough();
    first_win_within(by, heaps, 0, heaps.len(), by.label(&[]))
}
