//! What a certified quotient says of positions.
ghost use Rattle.std.specs.Prelude.{◌≡◌, ◌↔◌, ◌<◌, ◌≤◌, ◌+◌, ◌-◌, ◌*◌, ℕ, List, All, IsTrue, Contains, AllPairs, IsPermutation, length};
ghost use Rattle.std.specs.List.Sorted.{IsNonDecreasing};
ghost use Rattle.misere_theory.specs.Certificates.{IsHeapOf, kind_of, claim_of};
ghost use Rattle.misere_theory.specs.Games.{HeapOption, IsPosition};
ghost use Rattle.misere_theory.specs.Pairs.{IsSmallSplit};
ghost use Rattle.misere_theory.specs.Plays.{LeftBefore};
ghost use Rattle.misere_theory.specs.Quotients.{value};
ghost use Rattle.positions.specs.Outcomes.{HasOutcome};
ghost use Rattle.heap_options.specs.Exact.{heaps_of, IsInOrder};
ghost use Rattle.heap_options.specs.Options.{options_up_to};
ghost use Rattle.heap_options.specs.declared.left.Left.{Left};
ghost use Rattle.player.specs.Answers.{IsRightAnswer, SpeaksOf};
ghost use Rattle.player.specs.Looks.{IsFirstInto, most_looks};

use crate::answering::{Answer, answer_by, outcome_by};
use crate::labelling::Labelling;
use allocation::SmallAllocator;
use answers::Certified;
use positions::{Options, Outcome, Position, options_are_exact};
use std::alloc::Allocator;

/// Whether no heap is larger than `last`.
fn are_up_to(heaps: &[u64], last: u64) -> bool
    ensures { IsTrue result ↔ All (λ n. n ≤ last) heaps.now }
{
    heaps.iter().all(|heap| *heap <= last)
}

/// Whether the certificate speaks of each heap of the position. A full one speaks of all.
pub fn fits<A: Allocator, B: SmallAllocator>(
    certified: &Certified<A>,
    position: &Position<B>,
) -> bool
    ensures fits { IsTrue result ↔ SpeaksOf certified.now position.now }
    ensures full { 1 ≤ certified.now.period → IsTrue result }
{
    let last = certified.cert().heaps();
    let heaps = position.heaps();
    if last == 0 {
        true
    } else {
        are_up_to(heaps, last)
    }
}

/// The element of the quotient that is the position's: the product of its heaps' elements. Asks that
/// the certificate speaks of the position, as `fits` tells.
pub fn value<A: Allocator, B: SmallAllocator>(
    certified: &Certified<A>,
    position: &Position<B>,
) -> u16
    requires fits { SpeaksOf certified.now position.now }
    ensures value { result ≡ value (claim_of certified.now) position.now }
    ensures within { result < certified.now.order }
{
    certified.value(position.heaps())
}

/// Who wins from the position under misère play. Asks that the certificate speaks of the position, as
/// `fits` tells.
pub fn outcome<A: Allocator, B: SmallAllocator>(
    certified: &Certified<A>,
    position: &Position<B>,
) -> Outcome
    requires fits { SpeaksOf certified.now position.now }
    ensures { HasOutcome certified.now.code position.now result }
{
    outcome_by(certified, position.heaps())
}

/// The answer in the position of these heaps, which rise: as `answer`, of heaps in any memory. It
/// takes none.
pub fn answer_at<A: Allocator>(certified: &Certified<A>, heaps: &[u64]) -> Answer
    requires position { IsPosition (IsHeapOf certified.now) heaps.now }
    requires rising { IsNonDecreasing heaps.now }
    ensures { IsRightAnswer certified.now.code heaps.now result }
{
    let _ = certified.cert();
    answer_by(certified, heaps)
}

/// What to do in the position: nothing where no move exists or none wins, and else the first move
/// that wins. Heaps come in the order of their sizes, and of one heap the options in their order.
/// Whoever makes the move that is answered, and goes on so, hands the opponent a P-position each
/// time and wins, whatever he moves.
///
/// Of a heap only its `looks` are tried, so a heap of any size is answered at once. It takes no
/// memory. Asks that the certificate speaks of the position, as `fits` tells.
pub fn answer<A: Allocator, B: SmallAllocator>(
    certified: &Certified<A>,
    position: &Position<B>,
) -> Answer
    requires fits { SpeaksOf certified.now position.now }
    ensures { IsRightAnswer certified.now.code position.now result }
{
    answer_at(certified, position.heaps())
}

/// The options of the heap n that a player looks at, in their order: all but the splits and the
/// triples of which a part but the largest is start + period or more. There are at most (k + 1)(start
/// + period + 1) of them, for the last digit dk of the code, or (k + 1)(start + period + 1)² where
/// some digit has bit 8, however large the heap is. Each is an option of the heap, none stands there
/// twice, and they are in the order of moves. Whatever stands beside the heap, the first option that
/// makes a P-position is among them. Of a partial certificate it asks that it speaks of the heap.
pub fn looks<A: Allocator>(certified: &Certified<A>, n: u64) -> Options
    requires { 0 < kind_of certified.now → n ≤ kind_of certified.now }
    ensures list { result ≡ options_up_to certified.now.code n
        (certified.now.start + certified.now.period - 1) }
    ensures few { length result ≤ most_looks certified.now }
    ensures small { (left : Left) → Contains result left
        → IsSmallSplit (certified.now.start + certified.now.period) (heaps_of left) }
    ensures only { (left : Left) → Contains result left
        → HeapOption certified.now.code n (heaps_of left) × IsInOrder left }
    ensures once { AllPairs (λ x y. IsPermutation (heaps_of x) (heaps_of y) → ⊥) result }
    ensures order { AllPairs (λ x y. LeftBefore (heaps_of x) (heaps_of y)) result }
    ensures first { (y : ℕ) (H : List ℕ) → IsFirstInto certified.now n y H
        → (left : Left) × Contains result left × (heaps_of left ≡ H) }
{
    options_are_exact();
    let _ = certified.cert();
    certified.tried(n)
}
