//! What the pairs of the heaps 1 to B say of all heaps, and when a job has made them.
ghost use Rattle.std.specs.Prelude.{◌≡◌, ◌+◌, ◌<◌, ◌≤◌, ◌↔◌, ℕ, List, length, slice_index_or, All};
ghost use Rattle.misere_theory.specs.Games.{IsCode};
ghost use Rattle.misere_theory.specs.Quotients.{Claim};
ghost use Rattle.monoid_table.specs.Grids.{Grid};
ghost use Rattle.monoid_table.specs.Tables.{IsTableGrid};
ghost use Rattle.transition_algebra.specs.Pairs.{IsPair};
ghost use Rattle.monoid_table.specs.Pretending.{Pretending, IsPretending, HasElement};
ghost use Rattle.monoid_table.specs.PretendingTables.{Agrees, IsInto};
ghost use Rattle.transition_algebra.specs.Heaps.{IsHeapPair, IsHeapPairs, AreAllHeapPairs, all_heap_pairs, bound_of};
ghost use Rattle.transition_algebra.specs.Work.{Trying, HeapWork, IsDone, heap_cost, most_turns, opening, turns, worked};
ghost use Rattle.transition_algebra.specs.OverSets.{Pair};

/// Every heap that has an element has its pair among those of the heaps 1 to B: every heap of any
/// size where phi has a period, and where it has none the heaps 1 to B = start - 1 alone.
pub fn pairs_show_every_heap()
    ensures { (code : List ℕ) (c : Claim) (table : Grid) (phi : Pretending) (pairs : List Pair)
        → IsPretending phi
        → Agrees c table phi
        → IsHeapPairs code c (bound_of code phi) pairs
        → (n : ℕ) → HasElement phi n
        → (i : ℕ) × (i < length pairs)
        × ((d : Pair) → IsHeapPair code c n (slice_index_or pairs i d)) }
{}

/// The pairs of the heaps 1 to B are one list, and the turns of a job make it.
pub fn heap_pairs_are_one_list()
    ensures exact { (code : List ℕ) (table : Grid) (phi : Pretending) → IsTableGrid table
        → IsPretending phi → IsInto table phi
        → AreAllHeapPairs code table phi (all_heap_pairs code table phi)
        × All (IsPair table.order) (all_heap_pairs code table phi) }
    ensures only { (code : List ℕ) (table : Grid) (phi : Pretending) (c : Claim) (pairs : List Pair)
        → IsTableGrid table → IsPretending phi → IsInto table phi
        → Agrees c table phi
        → IsHeapPairs code c (bound_of code phi) pairs
        → pairs ≡ all_heap_pairs code table phi }
    ensures turned { (code : List ℕ) (table : Grid) (phi : Pretending) → IsTableGrid table
        → IsPretending phi → IsInto table phi
        → (turns code table phi (heap_cost code phi) (opening code phi)).pairs
        ≡ all_heap_pairs code table phi }
{}

/// However a job's units are cut, it makes the same turns and comes to the same.
pub fn cuts_do_not_matter()
    ensures turns { (code : List ℕ) (table : Grid) (phi : Pretending) (m n : ℕ) (s : Trying)
        → turns code table phi (m + n) s ≡ turns code table phi n (turns code table phi m s) }
    ensures worked { (job : HeapWork) (m n : ℕ) → worked job (m + n) ≡ worked (worked job m) n }
{}

/// A job is done after a unit for each option that is tried and one for each heap: B units at
/// least, and (k + 1) B² at most, for a code whose last digit is dk, or (k + 1) B³ where some digit
/// has bit 8.
pub fn heap_jobs_end()
    ensures turned { (code : List ℕ) (table : Grid) (phi : Pretending) (n : ℕ)
        → (bound_of code phi < (turns code table phi n (opening code phi)).heap)
        ↔ (heap_cost code phi ≤ n) }
    ensures least { (code : List ℕ) (phi : Pretending) → bound_of code phi ≤ heap_cost code phi }
    ensures cost { (code : List ℕ) (phi : Pretending)
        → IsCode code → IsPretending phi
        → heap_cost code phi ≤ most_turns code phi }
    ensures ends { (job : HeapWork) (units : ℕ)
        → IsCode job.code → IsPretending job.phi
        → most_turns job.code job.phi ≤ units
        → IsDone (worked job units) }
{}
