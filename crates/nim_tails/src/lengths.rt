//! Whether the heaps of a partial certificate go far enough.
ghost use Rattle.std.specs.Prelude.{◌≡◌, ◌<◌, ◌≤◌, ◌↔◌, ℕ, IsBitSet, IsTrue};
ghost use Rattle.misere_theory.specs.Games.{digit};
ghost use Rattle.nim_tails.specs.NormalTails.{IsLongEnough};

use octal_code::{Code, Leaving};

/// Whether the digit dj leaves heaps.
fn leaves_heaps_at(code: &Code, j: u64) -> bool
    ensures { IsTrue result ↔ ((b : ℕ) × (1 ≤ b) × (b ≤ 3) × IsBitSet (digit code.now j) b) }
{
    code.allows(j, Leaving::OneHeap)
        || code.allows(j, Leaving::TwoHeaps)
        || code.allows(j, Leaving::ThreeHeaps)
}

/// Whether some digit leaves heaps.
fn leaves_heaps(code: &Code) -> bool
    ensures { IsTrue result
        ↔ ((j b : ℕ) × (1 ≤ b) × (b ≤ 3) × IsBitSet (digit code.now j) b) }
{
    for j in 0..code.last() as u64 + 1 {
        if leaves_heaps_at(code, j) {
            return true;
        }
    }
    false
}

/// Whether the heaps to `most` go far enough beyond the heap `above`.
pub(crate) fn is_long_enough(code: &Code, most: u64, above: u64) -> bool
    requires { above ≤ 4096 }
    ensures { IsTrue result ↔ IsLongEnough most code.now above }
{
    let parts = if code.leaves_three() { 3 } else { 2 };
    let last = code.last() as u64;
    parts * above + last <= most && last + 2 <= most && leaves_heaps(code)
}
