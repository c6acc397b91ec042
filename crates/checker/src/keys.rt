//! The stage that looks at the keys of the elements.
ghost use Rattle.std.specs.Prelude.{◌≡◌, ◌<◌, ◌-◌, ◌↔◌, ℕ, List, true, IsTrue};
ghost use Rattle.misere_theory.specs.Numbering.{KeyBelow};
ghost use Rattle.misere_theory.specs.Certificates.{key_of};
ghost use Rattle.check_machine.specs.SoFar.{IsKeyOf};
ghost use Rattle.check_machine.specs.Turns.{key_below, is_keyed, is_above_last, keys_turn, Runs};
ghost use Rattle.check_machine.specs.Turns.Phase.{Keys as AtKeys};
ghost use Rattle.checker.specs.Stages.{phase_of};

use crate::lawful_certificate::{LawfulCertificate, is_lawful};
use crate::products::Products;
use crate::stage::Stage;
use allocation::SmallAllocator;
use answers::Refusal;
use certificate::Key;
use std::alloc::Global;
use std::marker::Model;

/// The keys are looked at, one a turn: each names a smaller element and a heap whose product it is,
/// and they rise.
#[derive(Drop)]
pub struct Keys<A: SmallAllocator = Global> {
    certificate: LawfulCertificate<A>,
    /// The next element whose key is looked at.
    next: u16,
    /// Whether those looked at rise.
    rising: bool,
}

impl<A: SmallAllocator> Model for Keys<A> {
    ghost use Rattle.std.specs.Prelude.{◌<◌};
    ghost use Rattle.check_machine.specs.Views.{KeysView};
    ghost use Rattle.check_machine.specs.SoFar.{KeysSoFar};

    ghost Value = { KeysView };

    ghost view = { λ s. record { certificate = s.certificate; next = s.next; rising = s.rising } };

    ghost invariant = { λ s. KeysSoFar s.certificate s.next s.rising × (s.next < s.certificate.order) };
}

/// Whether the key of an element is one.
fn is_keyed<A: SmallAllocator>(certificate: &LawfulCertificate<A>, e: u16) -> bool
    requires some { 0 < e }
    requires below { e < certificate.now.order }
    ensures keyed { IsTrue result → IsKeyOf certificate.now e }
    ensures same { result ≡ is_keyed certificate.now e }
{
    let key = certificate.key(e);
    key.element < e && certificate.times(key.element, certificate.phi(key.heap as u64)) == e
}

/// Whether the key of an element is above that of the element before, if that has one.
fn is_above_last<A: SmallAllocator>(certificate: &LawfulCertificate<A>, e: u16) -> bool
    requires some { 0 < e }
    requires below { e < certificate.now.order }
    ensures above { IsTrue result
        ↔ (1 < e → KeyBelow (key_of certificate.now (e - 1)) (key_of certificate.now e)) }
    ensures same { result ≡ is_above_last certificate.now e }
{
    e == 1 || is_below(certificate.key(e - 1), certificate.key(e))
}

/// Keys go by the element first.
pub fn is_below(a: Key, b: Key) -> bool
    ensures below { IsTrue result ↔ KeyBelow a b }
    ensures same { result ≡ key_below a b }
{
    a.element < b.element || (a.element == b.element && a.heap < b.heap)
}

impl<A: SmallAllocator + Copy> Keys<A> {
    /// No key was looked at.
    pub fn new(certificate: LawfulCertificate<A>) -> Keys<A>
        ensures value { result ≡ record { certificate = certificate; next = 1; rising = true } }
    {
        is_lawful(&certificate);
        Keys {
            certificate,
            next: 1,
            rising: true,
        }
    }

    /// Takes turns in place, while the stage surely goes on and there are units.
    pub fn go_on(&mut self, left: &mut u64)
        ensures { (bytes : List ℕ) (limit : ℕ)
            → Runs bytes limit (AtKeys self.old) left.old left.new (AtKeys self.new) }
    {
        let last = self.certificate.order() - 1;
        'keys: while *left > 0 && self.next < last && is_keyed(&self.certificate, self.next) {
            *left -= 1;
            self.rising &= is_above_last(&self.certificate, self.next);
            self.next += 1;
        }
    }

    /// One turn, which may end the stage.
    pub fn turn(self) -> Stage<A>
        ensures { phase_of result ≡ keys_turn self }
    {
        let Keys {
            certificate,
            next,
            mut rising,
        } = self;
        if !is_keyed(&certificate, next) {
            drop(certificate);
            return Stage::Ended(Err(Refusal::Word));
        }
        rising &= is_above_last(&certificate, next);
        if next + 1 < certificate.order() {
            return Stage::Keys(Keys {
                certificate,
                next: next + 1,
                rising,
            });
        }
        if !rising {
            drop(certificate);
            return Stage::Ended(Err(Refusal::Order));
        }
        Stage::Products(Products::new(certificate))
    }
}
