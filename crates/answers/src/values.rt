//! Values of positions, by the rows and entries of an accepted certificate.
ghost use Rattle.std.specs.Prelude.{◌≡◌, ◌<◌};
ghost use Rattle.misere_theory.specs.Games.{IsPosition};
ghost use Rattle.misere_theory.specs.Certificates.{Accepted, IsHeapOf, claim_of, times_of, phi_at};
ghost use Rattle.misere_theory.specs.Quotients.{value};

use certificate::{Cert, claims_agree};
use std::alloc::Allocator;

/// The element of the heap n, of which the certificate speaks.
pub fn element<A: Allocator>(cert: &Cert<A>, n: u64) -> u16
    requires accepted { Accepted cert.now }
    requires counts { IsHeapOf cert.now n }
    ensures value { result ≡ phi_at cert.now n }
    ensures within { result < cert.now.order }
{
    cert.phi().at(n)
}

/// The product of two elements.
pub fn times<A: Allocator>(cert: &Cert<A>, x: u16, y: u16) -> u16
    requires accepted { Accepted cert.now }
    requires x_in { x < cert.now.order }
    requires y_in { y < cert.now.order }
    ensures value { result ≡ times_of cert.now x y }
    ensures within { result < cert.now.order }
{
    claims_agree();
    cert.rows()[x as usize * cert.order() as usize + y as usize]
}

/// The product of the heaps' elements.
pub fn product<A: Allocator>(cert: &Cert<A>, heaps: &[u64]) -> u16
    requires accepted { Accepted cert.now }
    requires position { IsPosition (IsHeapOf cert.now) heaps.now }
    ensures value { result ≡ value (claim_of cert.now) heaps.now }
    ensures within { result < cert.now.order }
{
    let mut all = 0;
    let mut at = heaps.len();
    while at > 0 {
        at -= 1;
        all = times(cert, element(cert, heaps[at]), all);
    }
    all
}
