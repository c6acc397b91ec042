//! The stage that makes the pairs of the heaps.
ghost use Rattle.std.specs.Prelude.{◌≡◌, ◌<◌, ◌≤◌, ◌+◌, ◌*◌, ℕ, List};
ghost use Rattle.misere_theory.specs.Certificates.{Canonical};
ghost use Rattle.check_machine.specs.Turns.{Runs};
ghost use Rattle.check_machine.specs.Turns.Phase.{Heaps as AtHeaps};
ghost use Rattle.checker.specs.Stages.{Comes, arrived};

use crate::elements::Elements;
use crate::lawful_certificate::LawfulCertificate;
use crate::lines::Lines;
use crate::paired::{Ending, Paired};
use allocation::SmallAllocator;
use answers::Refusal;
use std::alloc::Global;
use std::marker::Model;
use transition_algebra::{HeapJob, heap_jobs_end};

/// The pairs of the heaps 1 to B are made, an option a turn.
#[derive(Drop)]
pub struct Heaps<const LANES: usize, A: SmallAllocator = Global> {
    lines: Lines<A>,
    job: HeapJob<LANES, A>,
}

impl<const LANES: usize, A: SmallAllocator> Model for Heaps<LANES, A> {
    ghost use Rattle.std.specs.Prelude.{◌<◌, ◌≤◌, ◌*◌};
    ghost use Rattle.transition_algebra.specs.Work.{heap_cost};
    ghost use Rattle.check_machine.specs.Views.{HeapsView};
    ghost use Rattle.checker.specs.Parts.{parts_of, whole_of};
    ghost use Rattle.check_machine.specs.Closings.{IsCanonicalCertificate};

    ghost Value = { HeapsView };

    ghost view = { λ s.
        record {
          certificate = whole_of s.lines s.job.code s.job.table s.job.phi;
          spent = s.job.spent;
        } };

    ghost invariant = { λ s.
        IsCanonicalCertificate (parts_of s.lines s.job.code s.job.table s.job.phi)
        × (s.job.spent < heap_cost s.job.code s.job.phi)
        × (s.job.table.order ≤ 64 * LANES)
        × (LANES ≤ 64) };
}

impl<const LANES: usize, A: SmallAllocator + Copy> Heaps<LANES, A> {
    /// No option was tried.
    pub fn new(alloc: A, certificate: LawfulCertificate<A>) -> Self
        requires fits { certificate.order ≤ 64 * LANES }
        requires few { LANES ≤ 64 }
        requires canonical { Canonical certificate }
        ensures value { result ≡ record { certificate = certificate; spent = 0 } }
    {
        let LawfulCertificate {
            code,
            table,
            phi,
            lines,
        } = certificate;
        heap_jobs_end();
        Heaps {
            lines,
            job: HeapJob::new(alloc, code, table, phi),
        }
    }

    /// Takes turns in place, while the stage surely goes on and there are units.
    pub fn go_on(&mut self, left: &mut u64)
        ensures { (bytes : List ℕ) (limit : ℕ)
            → Runs bytes limit (AtHeaps self.old) left.old left.new (AtHeaps self.new) }
    {
        let before = self.job.spent();
        self.job.go_on(*left);
        *left -= self.job.spent() - before;
    }

    /// Spends units until there are none or the stage ends.
    pub fn work(self, alloc: A, left: &mut u64) -> Result<Paired<LANES, A>, Ending<A>>
        ensures { (bytes : List ℕ) (limit : ℕ)
            → Comes bytes limit (AtHeaps self) left.old left.new (arrived result) }
    {
        let Heaps { lines, mut job } = self;
        let before = job.spent();
        let made = job.work(*left);
        *left -= job.spent() - before;
        match made {
            Err(_) => {
                drop((lines, job));
                Err(Err(Refusal::Memory))
            }
            Ok(false) => Ok(Paired::Heaps(Heaps { lines, job })),
            Ok(true) => {
                let (code, table, phi, pairs) = job.finish();
                let certificate = LawfulCertificate {
                    code,
                    table,
                    phi,
                    lines,
                };
                match Elements::new(alloc, certificate, pairs) {
                    Ok(elements) => Ok(Paired::Elements(elements)),
                    Err(_) => Err(Err(Refusal::Memory)),
                }
            }
        }
    }
}
