//! The stage that checks the laws of the table.
ghost use Rattle.std.specs.Prelude.{◌≡◌, ◌<◌, ℕ, List};
ghost use Rattle.monoid_table.specs.Turns.{fresh, triples};
ghost use Rattle.certificate.specs.Fields.{grid_of};
ghost use Rattle.check_machine.specs.Turns.{Runs};
ghost use Rattle.check_machine.specs.Turns.Phase.{Laws as AtLaws};
ghost use Rattle.checker.specs.Stages.{Comes, phase_of};

use crate::keys::Keys;
use crate::lawful_certificate::LawfulCertificate;
use crate::lines::Lines;
use crate::stage::Stage;
use allocation::SmallAllocator;
use answers::Refusal;
use certificate::{Cert, Fields};
use monoid_table::{Phi, TableJob, turns_add_up};
use octal_code::Code;
use std::alloc::Global;
use std::marker::Model;

/// The laws are looked at, a triple of elements a turn.
#[derive(Drop)]
pub struct Laws<A: SmallAllocator = Global> {
    code: Code,
    phi: Phi<A>,
    lines: Lines<A>,
    job: TableJob<A>,
}

impl<A: SmallAllocator> Model for Laws<A> {
    ghost use Rattle.std.specs.Prelude.{◌-◌};
    ghost use Rattle.monoid_table.specs.Turns.{fresh, triples};
    ghost use Rattle.certificate.specs.Fields.{grid_of};
    ghost use Rattle.std.specs.Prelude.{◌≡◌, false};
    ghost use Rattle.monoid_table.specs.Turns.{is_over};
    ghost use Rattle.check_machine.specs.Views.{LawsView};
    ghost use Rattle.check_machine.specs.LawfulCertificates.{IsUnderLaws};
    ghost use Rattle.checker.specs.Parts.{parts_of, whole_of};

    ghost Value = { LawsView };

    ghost view = { λ s.
        record {
          certificate = whole_of s.lines s.code s.job.grid s.phi;
          job = s.job;
        } };

    ghost invariant = { λ s.
        IsUnderLaws (parts_of s.lines s.code s.job.grid s.phi) s.job.spent
        × (is_over s.job ≡ false) };
}

impl<A: SmallAllocator + Copy> Laws<A> {
    /// No triple was looked at.
    pub fn new(cert: Cert<A>) -> Laws<A>
        ensures value { result ≡ record { certificate = cert; job = fresh (grid_of cert) } }
    {
        certificate::claims_agree();
        let Fields {
            code,
            order,
            phi,
            portion,
            words,
            rows,
            apart,
        } = cert.into_fields();
        let Ok(job) = TableJob::new(order, rows) else {
            unreachable!()
        };
        Laws {
            code,
            phi,
            lines: Lines {
                portion,
                words,
                apart,
            },
            job,
        }
    }

    /// Takes turns in place, while the stage surely goes on and there are units.
    pub fn go_on(&mut self, left: &mut u64)
        ensures { (bytes : List ℕ) (limit : ℕ)
            → Runs bytes limit (AtLaws self.old) left.old left.new (AtLaws self.new) }
    {
        turns_add_up();
        let looked = self.job.go_on(*left);
        *left -= looked;
    }

    /// Spends units until there are none or the stage ends.
    pub fn work(self, left: &mut u64) -> Stage<A>
        ensures { (bytes : List ℕ) (limit : ℕ)
            → Comes bytes limit (AtLaws self) left.old left.new (phase_of result) }
    {
        let Laws {
            code,
            phi,
            lines,
            mut job,
        } = self;
        turns_add_up();
        let before = job.done();
        let looked = job.work(*left);
        *left -= job.done() - before;
        match looked {
            Err(_) => Stage::Ended(Err(Refusal::Law)),
            Ok(false) => Stage::Laws(Laws {
                code,
                phi,
                lines,
                job,
            }),
            Ok(true) => Stage::Keys(Keys::new(LawfulCertificate {
                code,
                table: job.finish(),
                phi,
                lines,
            })),
        }
    }
}
