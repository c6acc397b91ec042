//! The nim value of one heap.
ghost use Rattle.std.specs.Option.{MatchOption};
ghost use Rattle.std.specs.Prelude.{◌≡◌, ◌<◌, ℕ, true, false, All, length, slice_index, slice_index_or};
ghost use Rattle.nim_tails.specs.Normal.{IsMex, IsNimOption};
ghost use Rattle.nim_tails.specs.declared.TheConstants.{NIM_BOUND};
ghost use Rattle.nim_tails.specs.Values.{AreMarked};

use crate::NIM_BOUND;
use crate::sums::nim_sum;
use heap_options::{options, options_are_exact};
use octal_code::Code;

/// Marks the nim sums of the options of a heap.
fn marked(code: &Code, values: &[u16], heap: u64) -> [bool; NIM_BOUND as usize]
    requires listed { length values.now ≡ heap }
    requires low { All (λ v. v < NIM_BOUND) values.now }
    ensures { AreMarked code.now (slice_index values.now) heap result }
{
    let mut marks = [false; NIM_BOUND as usize];
    options_are_exact();
    for left in options(code, heap) {
        let sum = nim_sum(values, left.heaps().as_slice());
        marks[sum as usize] = true;
    }
    marks
}

/// The least number that isn't marked.
fn first_free(marks: &[bool]) -> Option<u16>
    requires { length marks.now ≡ NIM_BOUND }
    ensures { MatchOption result
        ((k : ℕ) → k < NIM_BOUND → slice_index_or marks.now k false ≡ true)
        (λ m. (m < NIM_BOUND) × (slice_index_or marks.now m false ≡ false)
        × ((k : ℕ) → k < m → slice_index_or marks.now k false ≡ true)) }
{
    for k in 0..NIM_BOUND {
        if !marks[k as usize] {
            return Some(k);
        }
    }
    None
}

/// The nim value of a heap if it is below `NIM_BOUND`, by those of the smaller heaps, which are listed
/// from the heap 0 on.
pub(crate) fn nim_value(code: &Code, values: &[u16], heap: u64) -> Option<u16>
    requires listed { length values.now ≡ heap }
    requires low { All (λ v. v < NIM_BOUND) values.now }
    ensures { MatchOption result
        ((k : ℕ) → k < NIM_BOUND → IsNimOption code.now (slice_index values.now) heap k)
        (λ m. (m < NIM_BOUND) × IsMex (IsNimOption code.now (slice_index values.now) heap) m) }
{
    let marks = marked(code, values, heap);
    first_free(&marks)
}
