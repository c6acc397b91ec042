//! The kernel of an accepted certificate.
ghost use Rattle.std.specs.Option.{MatchOption};
ghost use Rattle.std.specs.Prelude.{◌≡◌, ◌≢◌, ◌<◌, ◌≤◌, ◌↔◌, ℕ, IsTrue, MatchResult};
ghost use Rattle.misere_theory.specs.Certificates.{claim_of, kind_of, phi_at, times_of};
ghost use Rattle.nim_tails.specs.NormalTails.{IsInLeastIdeal, IsRegularKernel};
ghost use Rattle.nim_tails.specs.Tails.{IsSquareRoot, Counts, IsTailFault};

use crate::fault::TailFault;
use answers::Certified;

/// The product of all elements, which is in the kernel.
fn lowest(certified: &Certified) -> u16
    ensures { IsInLeastIdeal (claim_of certified.now) result }
{
    let mut all = 0;
    for x in 0..certified.cert().order() {
        all = certified.times(all, x);
    }
    all
}

/// Whether x is its own cube, and P exactly if it is its own square.
fn is_square_root(certified: &Certified, x: u16) -> bool
    requires { x < certified.now.order }
    ensures { IsTrue result ↔ IsSquareRoot (claim_of certified.now) x }
{
    let square = certified.times(x, x);
    let same = square == x;
    certified.times(square, x) == x && certified.holds(x) == same
}

/// The first multiple of an element that isn't so.
fn first_other(certified: &Certified, low: u16) -> Option<u16>
    requires { IsInLeastIdeal (claim_of certified.now) low }
    ensures { MatchOption result
        ((y : ℕ) → y < certified.now.order → IsSquareRoot (claim_of certified.now) (times_of certified.now low y))
        (λ x. IsInLeastIdeal (claim_of certified.now) x × (IsSquareRoot (claim_of certified.now) x → ⊥)) }
{
    for y in 0..certified.cert().order() {
        let x = certified.times(low, y);
        if !is_square_root(certified, x) {
            return Some(x);
        }
    }
    None
}

/// The identity of the kernel, if it is regular: a group of squares in which the identity alone is P.
pub(crate) fn identity(certified: &Certified) -> Result<u16, TailFault>
    ensures { MatchResult result (IsRegularKernel (claim_of certified.now)) (IsTailFault certified.now) }
{
    let _ = certified.cert();
    let low = lowest(certified);
    match first_other(certified, low) {
        Some(x) => Err(TailFault::Ideal(x)),
        None => Ok(certified.times(low, low)),
    }
}

/// The last heap of a partial certificate whose element is outside the kernel, and 0 if there is none.
pub(crate) fn last_outside(certified: &Certified, one: u16) -> u64
    requires { one < certified.now.order }
    ensures within { result ≤ kind_of certified.now }
    ensures outside { 1 ≤ result → times_of certified.now one (phi_at certified.now result)
        ≢ phi_at certified.now result }
    ensures inside { (n : ℕ) → result < n → n ≤ kind_of certified.now
        → times_of certified.now one (phi_at certified.now n) ≡ phi_at certified.now n }
{
    let mut heap = certified.cert().heaps();
    while heap > 0 {
        let x = certified.element(heap);
        if certified.times(one, x) != x {
            break;
        }
        heap -= 1;
    }
    heap
}

/// How many elements are outside the kernel.
pub(crate) fn outside(certified: &Certified, one: u16) -> u16
    requires { one < certified.now.order }
    ensures { Counts (λ x. times_of certified.now one x ≢ x) certified.now.order result }
{
    let mut count = 0;
    for x in 0..certified.cert().order() {
        if certified.times(one, x) != x {
            count += 1;
        }
    }
    count
}
