//! Elements of a certified quotient are labels.
use crate::labelling::Labelling;
use answers::Certified;
use positions::{Options, options_up_to};
use std::alloc::Allocator;

/// Of the splits and the triples only those are tried whose parts but the largest are below
/// start + period.
impl<A: Allocator> Labelling for Certified<A> {
    type Label = u16;

    ghost use Rattle.std.specs.Prelude.{◌≡◌, ◌+◌, ◌-◌};
    ghost use Rattle.misere_theory.specs.Certificates.{IsHeapOf, claim_of};
    ghost use Rattle.misere_theory.specs.Games.{IsPosition};
    ghost use Rattle.misere_theory.specs.Quotients.{value};

    ghost code = { λ c. c.code };

    ghost heap = { IsHeapOf };

    ghost labels = { λ c X x. IsPosition (IsHeapOf c) X × (x ≡ value (claim_of c) X) };

    ghost most = { λ c n. c.start + c.period - 1 };

    fn label(&self, heaps: &[u64]) -> u16 {
        self.value(heaps)
    }

    fn times(&self, x: u16, y: u16) -> u16 {
        let _ = self.cert();
        Certified::times(self, x, y)
    }

    fn is_p(&self, x: u16) -> bool {
        let _ = self.cert();
        self.holds(x)
    }

    fn tried(&self, n: u64) -> Options {
        let cert = self.cert();
        options_up_to(cert.code(), n, cert.start() + cert.period() - 1)
    }

    fn are_enough(&self) {
        let _ = self.cert();
    }
}
