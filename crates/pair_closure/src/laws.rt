//! What holds of turns, however many.
ghost use Rattle.std.specs.Prelude.{◌≡◌, ◌↔◌, ◌<◌, ◌≤◌, ◌+◌, ◌*◌, Bool, false, true, ℕ, List, All, length};
ghost use Rattle.monoid_table.specs.Grids.{Grid};
ghost use Rattle.monoid_table.specs.Tables.{IsTableGrid};
ghost use Rattle.transition_algebra.specs.OverSets as the_pair;
ghost use Rattle.transition_algebra.specs.Pairs.{IsPair};
ghost use Rattle.pair_closure.specs.Turns as turning;
ghost use Rattle.pair_closure.specs.Turns.{SameData, turns, has_ended};
ghost use Rattle.pair_closure.specs.ClosureViews.{ClosureView, begun, moved, retaken, steps};
ghost use Rattle.pair_closure.specs.Calls.{Takes, cost};
ghost use Rattle.pair_closure.specs.Keeping.{KeepsOne};
ghost use Rattle.pair_closure.specs.Positions.{ShowsPairs, IsMinimal};

/// What turns from the start reach speaks of positions, whatever claim the table and the pairs are
/// those of.
pub fn closures_show_pairs()
    ensures shows { (table : Grid) (heaps : List the_pair.Pair) (limit units : ℕ)
        → IsTableGrid table
        → All (IsPair table.order) heaps
        → ShowsPairs (turns units (turning.start table heaps limit)) }
    ensures minimal { (table : Grid) (heaps : List the_pair.Pair) (limit units : ℕ)
        → IsTableGrid table
        → All (IsPair table.order) heaps
        → IsMinimal (turns units (turning.start table heaps limit)) }
{}

/// A closure has ended after limit times the number of heaps, plus 2, turns.
pub fn closures_end()
    ensures { (table : Grid) (heaps : List the_pair.Pair) (limit : ℕ)
        → has_ended (turns (limit * length heaps + 2) (turning.start table heaps limit)) ≡ true }
{}

/// However units are cut, the turns are the same.
pub fn units_add()
    ensures { (m n : ℕ) (p : ClosureView) → steps (m + n) p ≡ steps n (steps m p) }
{}

/// What a call of so many units comes to, no memory being refused, is one.
pub fn calls_decide()
    ensures { (ends : ClosureView → Bool) (units : ℕ) (p q r : ClosureView)
        → Takes ends units p q
        → Takes ends units p r
        → q ≡ r }
{}

/// A closure has its number of turns, which the table, the pairs and the limit say. What it spent
/// is the least of that number and the units given in all, and it has ended exactly where they are
/// as many.
pub fn closures_cost()
    ensures bound { (table : Grid) (heaps : List the_pair.Pair) (limit : ℕ)
        → cost table heaps limit ≤ limit * length heaps + 2 }
    ensures before { (table : Grid) (heaps : List the_pair.Pair) (limit units : ℕ)
        → units ≤ cost table heaps limit → (steps units (begun table heaps limit)).spent ≡ units }
    ensures after { (table : Grid) (heaps : List the_pair.Pair) (limit units : ℕ)
        → cost table heaps limit ≤ units → (steps units (begun table heaps limit)).spent
        ≡ cost table heaps limit }
    ensures ends { (table : Grid) (heaps : List the_pair.Pair) (limit units : ℕ)
        → (has_ended (steps units (begun table heaps limit)).state ≡ true)
        ↔ (cost table heaps limit ≤ units) }
{}

/// A turn that is left leads from what a closure's turns have reached to what one more reaches, of
/// the same table, pairs and limit. The turns before it are fewer than all. A turn keeps one member
/// at most, and holds no other pair that wasn't held.
pub fn closures_go_on()
    ensures on { (p : ClosureView) → p ≡ retaken p → has_ended p.state ≡ false
        → moved p ≡ retaken (moved p) }
    ensures data { (p : ClosureView) → SameData p.state (moved p).state }
    ensures kept { (p : ClosureView) → KeepsOne p.state (moved p).state }
    ensures left { (p : ClosureView) → p ≡ retaken p → has_ended p.state ≡ false
        → p.spent < cost p.state.table p.state.heaps p.state.limit }
{}
