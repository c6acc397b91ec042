//! What is said of presentations.
ghost use Rattle.std.specs.Prelude.{◌≡◌, IfOk, false};
ghost use Rattle.certificate_text.specs.Spelling.{Spells};
ghost use Rattle.solve_command.specs.Presentations.{CertifiesKeptBy, CertifiesPresentedBy, IsFinite};

use crate::making::Makes;
use allocation::Memory;
use answers::Certified;
use certificate::write;
use command_results::Said;
use given_quotients::judged_presented;
use presented_checker::PresentedQuotient;
use std::alloc::Global;
use streams::MemorySink;

/// That an infinite quotient has no certificate.
const ENDLESS: &str = "not certified: the quotient is infinite\n";

/// That no certificate of a finite quotient was made, as it is said of a table.
const UNMADE: &str = "gave up 3 Draft\n";

/// The text of a certificate.
fn spelling(alloc: Global, certified: &Certified) -> Result<Vec<u8>, Memory>
    ensures { IfOk result (λ text. Spells text.items certified.now) }
{
    let mut sink = MemorySink::new(alloc);
    match write(certified.cert(), &mut sink) {
        Ok(()) => Ok(sink.bytes().to_vec(alloc)?),
        Err(_) => Err(Memory),
    }
}

/// A line of a no.
fn no_line(alloc: Global, line: &str) -> Result<Said, Memory>
    ensures text { IfOk result (λ s. s.text.items ≡ line.now) }
    ensures succeeds { IfOk result (λ s. s.succeeds ≡ false) }
{
    let text = line.as_bytes().to_vec(alloc)?;
    Ok(Said::no(text))
}

/// What is said of a finite quotient.
fn finite_said<M: Makes>(
    by: &M,
    alloc: Global,
    quotient: &PresentedQuotient,
    limit: u32,
) -> Result<Said, Memory>
    requires { IsFinite quotient.now }
    ensures { IfOk result (λ s. CertifiesKeptBy M.gives_up quotient.now s.text.items s.succeeds) }
{
    match by.certificate(alloc, quotient, limit)? {
        Some(certified) => Ok(Said {
            text: spelling(alloc, &certified)?,
            succeeds: true,
        }),
        None => no_line(alloc, UNMADE),
    }
}

/// What is said of a quotient.
fn quotient_said<M: Makes>(
    by: &M,
    alloc: Global,
    quotient: &PresentedQuotient,
    limit: u32,
) -> Result<Said, Memory>
    ensures { IfOk result (λ s. CertifiesKeptBy M.gives_up quotient.now s.text.items s.succeeds) }
{
    match quotient.order() {
        Some(_) => finite_said(by, alloc, quotient, limit),
        None => no_line(alloc, ENDLESS),
    }
}

/// What is said of the bytes of a presentation.
pub(crate) fn presented_said<M: Makes>(
    by: &M,
    alloc: Global,
    bytes: &[u8],
    limit: u32,
) -> Result<Said, Memory>
    ensures { IfOk result
        (λ s. CertifiesPresentedBy M.gives_up bytes.now s.text.items s.succeeds) }
{
    match judged_presented(alloc, bytes)? {
        Ok(quotient) => quotient_said(by, alloc, &quotient, limit),
        Err(no) => Ok(Said::no(no)),
    }
}
