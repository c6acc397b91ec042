//! The options of a heap, one after another.
ghost use Rattle.std.specs.List.Sorted.{IsPermutation};
ghost use Rattle.std.specs.Prelude.{◌≡◌, ◌↔◌, ℕ, List, Contains, AllPairs};
ghost use Rattle.misere_theory.specs.Games.{HeapOption};
ghost use Rattle.misere_theory.specs.Plays.{LeftBefore};
ghost use Rattle.heap_options.specs.Exact.{heaps_of, IsInOrder, IsLeftAt, IsPartUpTo};
ghost use Rattle.heap_options.specs.Options.{options_of, options_up_to};
ghost use Rattle.heap_options.specs.declared.left.Left.{Left};

use crate::walk::{Options, Walk};
use octal_code::Code;

/// The options of the heap n, in their order: first by what is taken away, rising, then by the bits
/// 1, 2, 4 and 8, then by the first part, rising, and then by the second. It takes no memory, and
/// makes an option only when it is asked for.
pub fn options(code: &Code, n: u64) -> Options
    ensures { result ≡ options_of code.now n }
{
    options_up_to(code, n, n)
}

/// The options of the heap n whose parts but the largest are at most `most`, in their order.
pub fn options_up_to(code: &Code, n: u64, most: u64) -> Options
    ensures { result ≡ options_up_to code.now n most }
{
    Options {
        code: *code,
        walk: Walk::new(n, most),
    }
}

/// The lists are exact: each option of the heap is listed, up to the order of its parts, nothing
/// else is, and nothing twice; what is listed is what a digit allows to stay. A list that is cut
/// off at `most` has those of them whose parts but the largest are at most that. All are in the
/// order of moves.
pub fn options_are_exact()
    ensures each { (code : List ℕ) (n : ℕ) (H : List ℕ) → HeapOption code n H
        → (left : Left) × Contains (options_of code n) left × IsPermutation (heaps_of left) H }
    ensures only { (code : List ℕ) (n most : ℕ) (left : Left)
        → Contains (options_up_to code n most) left → HeapOption code n (heaps_of left)
        × IsInOrder left }
    ensures listed { (code : List ℕ) (n most : ℕ) (left : Left)
        → Contains (options_up_to code n most) left
        ↔ (((j : ℕ) × IsLeftAt code n j left) × IsPartUpTo most left) }
    ensures cut { (code : List ℕ) (n most : ℕ) (left : Left)
        → Contains (options_up_to code n most) left
        ↔ (Contains (options_of code n) left × IsPartUpTo most left) }
    ensures once { (code : List ℕ) (n most : ℕ)
        → AllPairs (λ x y. IsPermutation (heaps_of x) (heaps_of y) → ⊥)
        (options_up_to code n most) }
    ensures order { (code : List ℕ) (n most : ℕ)
        → AllPairs (λ x y. LeftBefore (heaps_of x) (heaps_of y)) (options_up_to code n most) }
{}
