//! The stage that looks at the products of elements and heaps.
ghost use Rattle.std.specs.Prelude.{◌≡◌, ◌<◌, ◌+◌, ◌*◌, ◌≤◌, ℕ, List, IsTrue};
ghost use Rattle.check_machine.specs.SoFar.{IsInOrder, AreKeys};
ghost use Rattle.check_machine.specs.Turns.{is_in_order, products_turn, Runs};
ghost use Rattle.check_machine.specs.Turns.Phase.{Products as AtProducts};
ghost use Rattle.checker.specs.Stages.{phase_of};

use crate::keys::is_below;
use crate::lawful_certificate::{LawfulCertificate, is_lawful};
use crate::periods::Periods;
use crate::stage::Stage;
use allocation::SmallAllocator;
use answers::Refusal;
use certificate::Key;
use std::alloc::Global;
use std::marker::Model;

/// The products of elements and heaps are looked at, one a turn: none has a smaller key than its
/// own.
#[derive(Drop)]
pub struct Products<A: SmallAllocator = Global> {
    certificate: LawfulCertificate<A>,
    /// The next product is of this element
    element: u16,
    /// and this heap.
    heap: u16,
}

impl<A: SmallAllocator> Model for Products<A> {
    ghost use Rattle.std.specs.Prelude.{◌<◌};
    ghost use Rattle.check_machine.specs.Views.{ProductsView};
    ghost use Rattle.check_machine.specs.SoFar.{ProductsSoFar};

    ghost Value = { ProductsView };

    ghost view = { λ s. record { certificate = s.certificate; element = s.element; heap = s.heap } };

    ghost invariant = { λ s. ProductsSoFar s.certificate s.element s.heap × (s.element < s.certificate.order) };
}

/// Whether the product of an element and a heap has no smaller key than its own.
fn is_in_order<A: SmallAllocator>(
    certificate: &LawfulCertificate<A>,
    element: u16,
    heap: u16,
) -> bool
    requires element { element < certificate.now.order }
    requires from_one { 1 ≤ heap }
    requires heap { heap < certificate.now.start + certificate.now.period }
    ensures in_order { IsTrue result → IsInOrder certificate.now element heap }
    ensures same { result ≡ is_in_order certificate.now element heap }
{
    is_lawful(certificate);
    let product = certificate.times(element, certificate.phi(heap as u64));
    product == 0 || !is_below(Key { element, heap }, certificate.key(product))
}

impl<A: SmallAllocator + Copy> Products<A> {
    /// No product was looked at.
    pub fn new(certificate: LawfulCertificate<A>) -> Products<A>
        requires { AreKeys certificate }
        ensures value { result ≡ record { certificate = certificate; element = 0; heap = 1 } }
    {
        is_lawful(&certificate);
        Products {
            certificate,
            element: 0,
            heap: 1,
        }
    }

    /// Takes turns in place, while the stage surely goes on and there are units.
    pub fn go_on(&mut self, left: &mut u64)
        ensures { (bytes : List ℕ) (limit : ℕ)
            → Runs bytes limit (AtProducts self.old) left.old left.new (AtProducts self.new) }
    {
        let last = self.certificate.order() - 1;
        let heaps = self.certificate.start() + self.certificate.period();
        'products: while *left > 0 && is_in_order(&self.certificate, self.element, self.heap) {
            if self.heap + 1 < heaps {
                *left -= 1;
                self.heap += 1;
                continue;
            }
            if self.element == last {
                return;
            }
            *left -= 1;
            self.heap = 1;
            self.element += 1;
        }
    }

    /// One turn, which may end the stage.
    pub fn turn(self) -> Stage<A>
        ensures { phase_of result ≡ products_turn self }
    {
        let Products {
            certificate,
            element,
            heap,
        } = self;
        if !is_in_order(&certificate, element, heap) {
            drop(certificate);
            return Stage::Ended(Err(Refusal::Order));
        }
        if heap + 1 < certificate.start() + certificate.period() {
            return Stage::Products(Products {
                certificate,
                element,
                heap: heap + 1,
            });
        }
        if element + 1 < certificate.order() {
            return Stage::Products(Products {
                certificate,
                element: element + 1,
                heap: 1,
            });
        }
        Stage::Periods(Periods::new(certificate))
    }
}
