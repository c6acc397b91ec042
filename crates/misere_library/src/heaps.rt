//! Of which heaps a certificate speaks.
ghost use Rattle.std.specs.Prelude.{◌≡◌, ◌↔◌, ◌≤◌, IsTrue, All, false};
ghost use Rattle.misere_theory.specs.Certificates.{IsHeapOf};
ghost use Rattle.positions.specs.Positions.{IsSize};

use answers::Certified;

/// Whether no heap is larger than `last`.
fn are_up_to(heaps: &[u64], last: u64) -> bool
    ensures { IsTrue result ↔ All (λ n. n ≤ last) heaps.now }
{
    heaps.iter().all(|heap| *heap <= last)
}

/// Whether the certificate speaks of each of the heaps. A full one speaks of all.
pub(crate) fn speaks_of(certified: &Certified, heaps: &[u64]) -> bool
    requires { All IsSize heaps.now }
    ensures speaks { IsTrue result ↔ All (IsHeapOf certified.now) heaps.now }
    ensures partial { result ≡ false → certified.now.period ≡ 0 }
{
    let last = certified.cert().heaps();
    if last == 0 {
        true
    } else {
        are_up_to(heaps, last)
    }
}
