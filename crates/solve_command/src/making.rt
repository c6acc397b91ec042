//! Certificates of presentations, of which nothing is known but what the call answers.
ghost use Rattle.std.specs.Prelude.{IfOk};
ghost use Rattle.std.specs.Option.{MatchOption};
ghost use Rattle.own_quotients.specs.Same.{IsCertificateOf};
ghost use Rattle.solve_command.specs.Presentations.{GivesUp, IsFinite};

use allocation::Memory;
use answers::Certified;
use own_quotients::certified_presentation;
use presented_checker::PresentedQuotient;
use std::alloc::Global;

/// What makes certificates of finite quotients that are presented. That none was made is said by
/// `gives_up`. A proof over any such maker has nothing of it but what the call answered.
pub trait Makes {
    /// No certificate of this quotient was made.
    ghost gives_up: { GivesUp };

    /// The certificate of the same code and heaps, whose check may keep so many pairs, if one is made.
    fn certificate(
        &self,
        alloc: Global,
        quotient: &PresentedQuotient,
        limit: u32,
    ) -> Result<Option<Certified>, Memory>
        requires { IsFinite quotient.now }
        ensures { IfOk result (λ found. MatchOption found (gives_up quotient.now)
            (λ c. IsCertificateOf c quotient.now.said)) };
}

/// The certificates that `own_quotients` makes.
pub struct Making;

impl Makes for Making {
    ghost gives_up = { IsFinite };

    fn certificate(
        &self,
        alloc: Global,
        quotient: &PresentedQuotient,
        limit: u32,
    ) -> Result<Option<Certified>, Memory> {
        certified_presentation(alloc, quotient, limit)
    }
}
