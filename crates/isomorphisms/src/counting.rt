//! How many elements are in the portion, and how many are their own squares.
ghost use Rattle.std.specs.Prelude.{◌≡◌, ◌<◌, ◌==◌};
ghost use Rattle.misere_theory.specs.Certificates.{claim_of, times_of};
ghost use Rattle.isomorphisms.specs.Profiles.{portion_size, idempotents};

use answers::Certified;
use std::alloc::Allocator;

/// How many elements are in the portion.
pub fn portion_size<A: Allocator>(quotient: &Certified<A>) -> u64
    ensures { result ≡ portion_size (claim_of quotient.now) }
{
    let mut count: u64 = 0;
    for x in 0..quotient.cert().order() {
        if quotient.holds(x) {
            count += 1;
        }
    }
    count
}

/// Whether the element is its own square.
fn is_idempotent<A: Allocator>(quotient: &Certified<A>, x: u16) -> bool
    requires { x < quotient.now.order }
    ensures { result ≡ (times_of quotient.now x x == x) }
{
    quotient.times(x, x) == x
}

/// How many elements are their own squares.
#[tactic(auto, using(crate::proofs::Sums::count_more_yes, crate::proofs::Sums::count_more_no))]
pub fn idempotents<A: Allocator>(quotient: &Certified<A>) -> u64
    ensures { result ≡ idempotents (claim_of quotient.now) }
{
    let mut count: u64 = 0;
    for x in 0..quotient.cert().order() {
        if is_idempotent(quotient, x) {
            count += 1;
        }
    }
    count
}
