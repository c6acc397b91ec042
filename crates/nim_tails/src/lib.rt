//! Whole games that are normal play beyond some heap, seen on an accepted partial certificate.
//!
//! | File | What stands there |
//! |---|---|
//! | `src/kernel` | the kernel: whether it is a group of squares with one P, and what lies outside it |
//! | `src/lengths` | whether the heaps go far enough |
//! | `src/elements` | the nim sums of elements, and whether the kernel is normal play |
//! | `src/whole` | the three tests in turn |
//! | `src/values`, `src/heap`, `src/sums` | the nim values of heaps, by the theorem of Sprague and Grundy |
//! | `src/normal`, `src/tails` | the laws of normal play, and of games that are normal play beyond some heap |
//! | `specs/Normal`, `specs/NormalTails` | their definitions: outcomes of normal play, nim sums, nim values, kernels that are normal play |
#![tactic(auto)]

mod elements;
mod fault;
mod heap;
mod kernel;
mod lengths;
pub mod normal;
mod sums;
pub mod tails;
mod values;
mod values_fault;
mod whole;

pub use fault::TailFault;
pub use sums::nim_sum;
pub use values::nim_values;
pub use values_fault::NimFault;
pub use whole::{Tail, tail_of};

/// Nim values are told if they are below this, a power of two.
pub const NIM_BOUND: u16 = 4096;
