//! Finite quotients that are presented, certified.
ghost use Rattle.std.specs.Prelude.{◌≡◌, ◌≤◌, ℕ, IfOk, IfSome, IsTrue, true};
ghost use Rattle.misere_theory.specs.Certificates.{kind_of};
ghost use Rattle.presented_text.specs.Said.{IsInRanges};
ghost use Rattle.presented_claims.specs.Claims.{has_word};
ghost use Rattle.own_quotients.specs.Same.{IsCertificateOf, last_heap};

use crate::presented_draft::draft;
use allocation::Memory;
use answers::Certified;
use certificate::Cert;
use checker::{Refusal, check};
use presented_checker::PresentedQuotient;
use presented_tables::Presented;
use std::alloc::Global;

/// Whether each heap of the list has a word.
fn have_words(said: &Presented) -> bool
    ensures { IsTrue result → (n : ℕ) → 1 ≤ n → n ≤ said.now.heaps → has_word said.now n ≡ true }
{
    for n in 1..said.heaps as u64 + 1 {
        if !said.has_word(n) {
            return false;
        }
    }
    true
}

/// The last heap of the list, or 0 if words repeat behind it.
fn last_heap(said: &Presented) -> u64
    ensures { result ≡ last_heap said.now }
{
    if said.period == 0 {
        said.heaps as u64
    } else {
        0
    }
}

/// Whether the two have one code.
fn is_same_code(cert: &Cert, said: &Presented) -> bool
    ensures { IsTrue result → cert.now.code ≡ said.now.code }
{
    cert.code() == &said.code
}

/// Whether the certificate speaks of the heaps to the end of the list, or of all if words repeat behind it.
fn is_same_kind(cert: &Cert, said: &Presented) -> bool
    ensures { IsTrue result → kind_of cert.now ≡ last_heap said.now }
{
    cert.heaps() == last_heap(said)
}

/// Whether the certificate is seen to be of the code and the heaps of the presentation.
fn is_same_game(certified: &Certified, said: &Presented) -> bool
    requires { IsInRanges said.now }
    ensures { IsTrue result → IsCertificateOf certified.now said.now }
{
    let cert = certified.cert();
    if is_same_code(cert, said) {
        if is_same_kind(cert, said) {
            return have_words(said);
        }
    }
    false
}

/// The certificate, if it is seen to be of the code and the heaps of the presentation.
fn if_same(certified: Certified, said: &Presented) -> Option<Certified>
    requires { IsInRanges said.now }
    ensures { IfSome result (λ c. IsCertificateOf c said.now) }
{
    if is_same_game(&certified, said) {
        Some(certified)
    } else {
        None
    }
}

/// The certificate of the finite quotient that is presented, whose check may keep so many pairs. There is none of an
/// infinite quotient, nor where the presentation leaves a heap out; and none may be found where a certificate's
/// [bounds](certificate_text) are too small, or the check met its limit.
pub fn certified_presentation(
    alloc: Global,
    quotient: &PresentedQuotient,
    limit: u32,
) -> Result<Option<Certified>, Memory>
    ensures { IfOk result (λ found. IfSome found (λ c. IsCertificateOf c quotient.now.said)) }
{
    let said = quotient.said();
    let Some(order) = quotient.order() else {
        return Ok(None);
    };
    let Some(text) = draft(alloc, said, order)? else {
        return Ok(None);
    };
    match check(alloc, &text, limit) {
        Ok(certified) => Ok(if_same(certified, said)),
        Err(Refusal::Memory) => Err(Memory),
        Err(_) => Ok(None),
    }
}
