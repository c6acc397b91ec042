//! The nim values of the first heaps.
ghost use Rattle.std.specs.Prelude.{◌≡◌, ◌+◌, ◌≤◌, ◌<◌, ℕ, IfOk, IfErr, All, length, slice_index};
ghost use Rattle.nim_tails.specs.Normal.{AreNimValues};
ghost use Rattle.nim_tails.specs.declared.TheConstants.{NIM_BOUND};
ghost use Rattle.nim_tails.specs.Values.{IsNimFault};

use crate::heap::nim_value;
use crate::values_fault::NimFault;
use octal_code::Code;
use std::alloc::Global;

/// The nim values of the heaps 1 to `most`, behind a 0 that stands for the heap 0. Each is made out of
/// the options, so the time grows with their number.
pub fn nim_values(alloc: Global, code: &Code, most: u64) -> Result<Vec<u16>, NimFault>
    ensures length { IfOk result (λ v. length v.items ≡ most + 1) }
    ensures low { IfOk result (λ v. All (λ x. x < NIM_BOUND) v.items) }
    ensures values { IfOk result (λ v. (M : ℕ) → 0 < M → M ≤ most
        → AreNimValues M code.now (slice_index v.items)) }
    ensures fault { IfErr result (IsNimFault code.now most) }
{
    let mut values = Vec::new(alloc);
    values.push(0)?;
    for before in 0..most {
        let heap = before + 1;
        match nim_value(code, values.as_slice(), heap) {
            Some(value) => values.push(value)?,
            None => return Err(NimFault::Large(heap)),
        }
    }
    Ok(values)
}
