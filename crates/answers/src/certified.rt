//! Accepted certificates.
ghost use Rattle.std.specs.Prelude.{◌≡◌, ◌<◌, ◌≤◌, IfOk, IsOk, ℕ, List, length};
ghost use Rattle.misere_theory.specs.Certificates.{Accepted, IsHeapOf, IsSpelled, claim_of, times_of, phi_at};
ghost use Rattle.misere_theory.specs.Games.{IsPosition};
ghost use Rattle.misere_theory.specs.Quotients.{value};
ghost use Rattle.answers.specs.Portions.{IsPortion};
ghost use Rattle.answers.specs.Spelled.{AreSpelled};

use crate::spelling::position_of;
use crate::values::{element, product, times};
use allocation::{Memory, SmallAllocator};
use certificate::Cert;
use element_sets::LaneSet;
use positions::{INLINE, Position};
use std::alloc::{Allocator, Global};
use std::marker::Model;

/// A certificate that a check has accepted: it is canonical, and its monoid with its portion is the
/// misère quotient of its code's game, or where it is partial of the heaps of which it speaks.
///
/// It is made only of a certificate of which all that was proved. The misère quotient is that of
/// Plambeck and Siegel, "Misère quotients for impartial games".
#[derive(Drop)]
pub struct Certified<A: Allocator = Global> {
    cert: Cert<A>,
    /// The portion, in as many lanes as the largest order needs.
    inside: LaneSet<64>,
}

impl<A: Allocator> Model for Certified<A> {
    ghost use Rattle.misere_theory.specs.Certificates.{Certificate, Accepted};
    ghost use Rattle.answers.specs.Portions.{IsPortion};

    ghost Value = { Certificate };

    ghost view = { λ s. s.cert };

    ghost invariant = { λ s. Accepted s.cert × IsPortion s.cert s.inside };
}

impl<A: Allocator> Certified<A> {
    /// Keeps a certificate that is accepted, with its portion as a set.
    pub fn new(cert: Cert<A>, inside: LaneSet<64>) -> Certified<A>
        requires accepted { Accepted cert }
        requires portion { IsPortion cert inside }
        ensures { result ≡ cert }
    {
        Certified { cert, inside }
    }

    /// The certificate. It takes no memory.
    pub fn cert(&self) -> &Cert<A>
        ensures same { result.now ≡ self.now }
        ensures accepted { Accepted self.now }
    {
        &self.cert
    }

    /// The element of the heap n, of which the certificate speaks.
    pub fn element(&self, n: u64) -> u16
        requires { IsHeapOf self.now n }
        ensures value { result ≡ phi_at self.now n }
        ensures within { result < self.now.order }
    {
        element(&self.cert, n)
    }

    /// The product of two elements.
    pub fn times(&self, x: u16, y: u16) -> u16
        requires x_in { x < self.now.order }
        requires y_in { y < self.now.order }
        ensures value { result ≡ times_of self.now x y }
        ensures within { result < self.now.order }
    {
        times(&self.cert, x, y)
    }

    /// The value of the heaps: the product of their elements.
    pub fn value(&self, heaps: &[u64]) -> u16
        requires { IsPosition (IsHeapOf self.now) heaps.now }
        ensures value { result ≡ value (claim_of self.now) heaps.now }
        ensures within { result < self.now.order }
        ensures accepted { Accepted self.now }
    {
        product(&self.cert, heaps)
    }

    /// Whether the element is in the P-portion.
    pub fn holds(&self, x: u16) -> bool
        requires { x < self.now.order }
        ensures { result ≡ (claim_of self.now).portion x }
    {
        self.inside.contains(x)
    }

    /// The position that the keys of the element spell, whose value is the element. Up to `INLINE`
    /// heaps take no memory.
    pub fn position_of<B: SmallAllocator + Copy>(
        &self,
        alloc: B,
        element: u16,
    ) -> Result<Position<B>, Memory>
        requires { element < self.now.order }
        ensures keys { IfOk result (AreSpelled self.now element) }
        ensures position { IfOk result (IsPosition (IsHeapOf self.now)) }
        ensures value { IfOk result (λ X. value (claim_of self.now) X ≡ element) }
        ensures inline { (X : List ℕ) → IsSpelled self.now element X → length X ≤ INLINE → IsOk result }
    {
        position_of(alloc, self.cert.words(), element)
    }
}
