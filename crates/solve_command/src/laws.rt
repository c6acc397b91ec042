//! Heaps that nobody can move in.
ghost use Rattle.std.specs.Prelude.{ℕ, List};
ghost use Rattle.misere_theory.specs.Games.{Indistinguishable, IsHeapUpTo, IsPosition};
ghost use Rattle.solve_command.specs.Series.{AreStill};

/// If no heap up to n has an option, then all positions of these heaps are of one class.
pub fn still_heaps_have_one_class()
    ensures { (code : List ℕ) (n : ℕ) (X Y : List ℕ) → AreStill code n
        → IsPosition (IsHeapUpTo n) X → IsPosition (IsHeapUpTo n) Y
        → Indistinguishable (IsHeapUpTo n) code X Y }
{}
