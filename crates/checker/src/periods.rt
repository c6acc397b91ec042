//! The stage that compares the elements of heaps: start and period are the least.
ghost use Rattle.std.specs.Prelude.{◌≡◌, ◌<◌, ◌+◌, ◌*◌, ◌≤◌, ◌↔◌, ℕ, List, IsTrue};
ghost use Rattle.misere_theory.specs.Certificates.{phi_at};
ghost use Rattle.check_machine.specs.SoFar.{HasNoFaultBelow};
ghost use Rattle.check_machine.specs.Turns.{comes_again};
ghost use Rattle.check_machine.specs.Turns.Phase.{Periods as AtPeriods};
ghost use Rattle.checker.specs.Stages.{Comes, phase_of};

use crate::lawful_certificate::{LawfulCertificate, is_lawful};
use crate::separating::Separating;
use crate::stage::Stage;
use allocation::SmallAllocator;
use answers::Refusal;
use std::alloc::Global;
use std::marker::Model;

/// The entries are compared, two a turn: no smaller period serves, and the period doesn't serve
/// from an earlier start.
#[derive(Drop)]
pub struct Periods<A: SmallAllocator = Global> {
    certificate: LawfulCertificate<A>,
    /// The period that is tried
    shift: u16,
    /// serves for so many heaps from the start on.
    count: u16,
}

impl<A: SmallAllocator> Model for Periods<A> {
    ghost use Rattle.check_machine.specs.Views.{PeriodsView};
    ghost use Rattle.check_machine.specs.SoFar.{PeriodsSoFar};

    ghost Value = { PeriodsView };

    ghost view = { λ s. record { certificate = s.certificate; shift = s.shift; count = s.count } };

    ghost invariant = { λ s. PeriodsSoFar s.certificate s.shift s.count };
}

/// Whether the entry comes again after the shift.
fn comes_again<A: SmallAllocator>(certificate: &LawfulCertificate<A>, heap: u16, shift: u16) -> bool
    requires within { shift ≤ certificate.now.period }
    ensures again { IsTrue result
        ↔ ((1 ≤ heap) × (1 ≤ shift) × (phi_at certificate.now (shift + heap) ≡ phi_at certificate.now heap)) }
    ensures same { result ≡ comes_again certificate.now heap shift }
{
    let n = heap as u64;
    n > 0 && shift > 0 && certificate.phi(shift as u64 + n) == certificate.phi(n)
}

impl<A: SmallAllocator + Copy> Periods<A> {
    /// Nothing was compared.
    pub fn new(certificate: LawfulCertificate<A>) -> Periods<A>
        requires { HasNoFaultBelow 5 certificate }
        ensures value { result ≡ record { certificate = certificate; shift = 1; count = 0 } }
    {
        is_lawful(&certificate);
        Periods {
            certificate,
            shift: 1,
            count: 0,
        }
    }

    /// Spends units until there are none or the stage ends.
    pub fn work(self, alloc: A, left: &mut u64) -> Stage<A>
        ensures { (bytes : List ℕ) (limit : ℕ)
            → Comes bytes limit (AtPeriods self) left.old left.new (phase_of result) }
    {
        let Periods {
            certificate,
            mut shift,
            mut count,
        } = self;
        let start = certificate.start();
        let period = certificate.period();
        'shifts: while shift < period {
            if *left == 0 {
                return Stage::Periods(Periods {
                    certificate,
                    shift,
                    count,
                });
            }
            *left -= 1;
            if !comes_again(&certificate, start + count, shift) {
                shift += 1;
                count = 0;
                continue;
            }
            count += 1;
            if count == period {
                drop(certificate);
                return Stage::Ended(Err(Refusal::Period));
            }
        }
        if *left == 0 {
            return Stage::Periods(Periods {
                certificate,
                shift,
                count,
            });
        }
        *left -= 1;
        if comes_again(&certificate, start - 1, period) {
            drop(certificate);
            return Stage::Ended(Err(Refusal::Period));
        }
        match Separating::new(alloc, certificate) {
            Ok(separating) => Stage::Separating(separating),
            Err(_) => Stage::Ended(Err(Refusal::Memory)),
        }
    }
}
