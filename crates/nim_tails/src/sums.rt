//! Nim sums of heaps.
ghost use Rattle.std.specs.Prelude.{◌≡◌, ◌<◌, All, length, slice_index};
ghost use Rattle.nim_tails.specs.Normal.{nim_sum};
ghost use Rattle.nim_tails.specs.declared.TheConstants.{NIM_BOUND};

/// The nim sum of heaps, of which the values are listed from that of the heap 0 on.
pub fn nim_sum(values: &[u16], heaps: &[u64]) -> u16
    requires listed { All (λ n. n < length values.now) heaps.now }
    requires low { All (λ v. v < NIM_BOUND) values.now }
    ensures value { result ≡ nim_sum (slice_index values.now) heaps.now }
    ensures low { result < NIM_BOUND }
{
    let mut sum = 0;
    let mut at = heaps.len();
    while at > 0 {
        at -= 1;
        sum ^= values[heaps[at] as usize];
    }
    sum
}
