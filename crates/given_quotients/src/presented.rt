//! Texts of presentations.
ghost use Rattle.std.specs.Prelude.{◌↔◌, ◌≡◌, ◌++◌, ℕ, List, codes, IfOk, IsTrue};
ghost use Rattle.given_quotients.specs.Told.{BeginsPresented};
ghost use Rattle.given_quotients.specs.Given.{JudgesPresented};

use crate::refusals::refusal_text;
use allocation::Memory;
use certificate_text::LONGEST_TEXT;
use presented_checker::{PresentedQuotient, check_presented};
use std::alloc::Global;

/// Whether the bytes begin with the first word of such texts.
fn has_first_word(bytes: &[u8]) -> bool
    ensures { IsTrue result ↔ ((rest : List ℕ) × (bytes.now ≡ codes "mqp " ++ rest)) }
{
    bytes.starts_with(b"mqp ")
}

/// Whether the bytes begin as presentations do, and aren't too many.
pub fn begins_presented(bytes: &[u8]) -> bool
    ensures { IsTrue result ↔ BeginsPresented bytes.now }
{
    bytes.len() <= LONGEST_TEXT && has_first_word(bytes)
}

/// Checks the bytes of a presentation: the quotient that it is, or else the text of a no.
pub fn judged_presented(
    alloc: Global,
    bytes: &[u8],
) -> Result<Result<PresentedQuotient, Vec<u8>>, Memory>
    ensures { IfOk result (JudgesPresented bytes.now) }
{
    let refusal = match check_presented(alloc, bytes) {
        Ok(quotient) => return Ok(Ok(quotient)),
        Err(refusal) => refusal,
    };
    let text = refusal_text(alloc, refusal)?;
    Ok(Err(text.into_bytes()))
}
