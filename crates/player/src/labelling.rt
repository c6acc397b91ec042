//! Labels of positions, by which outcomes are known.
ghost use Rattle.std.specs.Prelude.{◌≡◌, ◌↔◌, ◌≤◌, ℕ, List, ◌++◌, IsTrue, length};
ghost use Rattle.misere_theory.specs.Games.{IsPosition, IsP};
ghost use Rattle.misere_theory.specs.Parts.{IsPart};
ghost use Rattle.misere_theory.specs.Plays.{IsWinningMove};
ghost use Rattle.heap_options.specs.Options.{options_up_to};
ghost use Rattle.player.specs.Wins.{IsTriedWin};

use positions::Options;

/// The most heaps of which labels are asked: as many as a list in memory has, and what a move leaves.
pub const LONGEST_POSITION: u128 = 18_446_744_073_709_551_620;

/// Gives each position a label, the product of its heaps' labels, by which its outcome is known: a claim
/// over labels that is right. An element of a finite quotient is one, and so is an element beside counts.
pub trait Labelling {
    type Label: Copy;

    /// The code of the game.
    ghost code: { Self → List ℕ };

    /// The sizes of the heaps of which it speaks.
    ghost heap: { Self → ℕ → Type 0 };

    /// The position has the label.
    ghost labels: { Self → List ℕ → Self.Label → Type 0 };

    /// Of the options of the heap n those are tried whose parts but the largest are at most so large.
    ghost most: { Self → ℕ → ℕ };

    /// The label of the position of these heaps.
    fn label(&self, heaps: &[u64]) -> Self::Label
        requires { IsPosition (heap self.now) heaps.now }
        ensures { labels self.now heaps.now result };

    /// The product of two labels: the label of the sum of two positions.
    fn times(&self, x: Self::Label, y: Self::Label) -> Self::Label
        requires left { (X : List ℕ) × labels self.now X x }
        requires right { (Y : List ℕ) × labels self.now Y y }
        ensures { (X Y : List ℕ) → labels self.now X x → labels self.now Y y
            → labels self.now (X ++ Y) result };

    /// Whether positions with the label are P.
    fn is_p(&self, x: Self::Label) -> bool
        requires { (X : List ℕ) × labels self.now X x }
        ensures { (X : List ℕ) → labels self.now X x → length X ≤ LONGEST_POSITION
            → IsTrue result ↔ IsP (code self.now) X };

    /// The options of the heap n that are tried, in their order.
    fn tried(&self, n: u64) -> Options
        ensures { result ≡ options_up_to (code self.now) n (most self.now n) };

    /// What a search rests on: no move leaves the heaps of which it speaks, and if a move wins, one wins
    /// that is tried. It does nothing.
    fn are_enough(&self)
        ensures part { IsPart (heap self.now) (code self.now) }
        ensures enough { (X : List ℕ) → IsPosition (heap self.now) X
            → (n : ℕ) (H : List ℕ) → IsWinningMove (code self.now) X n H
            → (m : ℕ) × (L : List ℕ) × IsTriedWin (code self.now) (most self.now) X m L };
}
