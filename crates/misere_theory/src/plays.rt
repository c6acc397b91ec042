//! Laws of plays: reachable positions, first winning moves, and winning by them.

ghost use Rattle.std.specs.Prelude.{◌≡◌, ◌⊎◌, List, ℕ};
ghost use Rattle.misere_theory.specs.Games.{Move, IsP, IsN, IsHeap, IsPosition};
ghost use Rattle.misere_theory.specs.Plays.{Reachable, IsWinningMove, IsFirstWin, Keeps};

/// Moves, one after another, reach positions, whatever the order of their heaps.
pub fn moves_reach_positions()
    ensures by_a_move { (code X Y : List ℕ) → Move code X Y → Reachable code X Y }
    ensures onward { (code X Y Z : List ℕ) → Reachable code X Y → Reachable code Y Z
        → Reachable code X Z }
    ensures stays { (code X Y : List ℕ) → Reachable code X Y → IsPosition IsHeap X
        → IsPosition IsHeap Y }
{}

/// An N-position with a move has one first winning move, and a P-position has no winning move.
pub fn first_wins_are_settled()
    ensures some { (code X : List ℕ) → IsN code X
        → ((Y : List ℕ) → Move code X Y → ⊥) ⊎ ((n : ℕ) × (H : List ℕ) × IsFirstWin code X n H) }
    ensures one { (code X : List ℕ) (n m : ℕ) (H L : List ℕ)
        → IsFirstWin code X n H → IsFirstWin code X m L → (n ≡ m) × (H ≡ L) }
    ensures only_there { (code X : List ℕ) (n : ℕ) (H : List ℕ) → IsWinningMove code X n H
        → IsN code X }
{}

/// Whoever hands over a P-position, and answers each move by the first winning one, wins.
pub fn first_wins_keep()
    ensures { (code X : List ℕ) → IsP code X → Keeps code X }
{}
