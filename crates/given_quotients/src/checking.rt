//! `check`: the verdict on a certificate.
ghost use Rattle.std.specs.Prelude.{◌≡◌, false, IfOk, IfErr, is_none, is_some, option_map};
ghost use Rattle.std.specs.String.{string_bytes};
ghost use Rattle.given_quotients.specs.Checks.{AreGiven, Checks, IsGivenCause, failed};

use crate::bytes::given_bytes;
use checker::{Checker, verdicts_are_true};
use command_results::{Said, Stop};
use std::alloc::Global;
use streams::{Folder, Source};
use verdict_texts::{VerdictText, checked_bytes};

/// What is said of a verdict.
fn said(verdict: VerdictText) -> Said
    ensures text { result.text.items ≡ string_bytes verdict.text }
    ensures succeeds { result.succeeds ≡ verdict.accepted }
{
    Said {
        text: verdict.text.into_bytes(),
        succeeds: verdict.accepted,
    }
}

/// Checks the certificate in the file, or on standard input where no file is named. Whichever of
/// the two isn't read is left alone.
pub fn check<'a, F: Folder, S: Source>(
    alloc: Global,
    file: Option<&'a str>,
    limit: u32,
    folder: &mut F,
    input: &mut S,
) -> Result<Said, Stop<'a>>
    ensures said { let named = option_map (λ f. f.now) file.entry in
        IfOk result (λ s. Checks (AreGiven (S.left input.old) (F.files folder.old) named) limit
        s.text.items s.succeeds) }
    ensures kept { F.files folder.new ≡ F.files folder.old }
    ensures stops { IfErr result (IsGivenCause (option_map (λ f. f.now) file.entry)
        (failed (S.failures input.old) (F.failed_reads folder.old))
        (failed (S.failures input.new) (F.failed_reads folder.new))) }
    ensures input { is_none (option_map (λ f. f.now) file.entry) ≡ false → input.new ≡ input.old }
    ensures folder { is_some (option_map (λ f. f.now) file.entry) ≡ false
        → folder.new ≡ folder.old }
{
    verdicts_are_true();
    let bytes = given_bytes(alloc, file, folder, input)?;
    let verdict = checked_bytes(&Checker, alloc, &bytes, limit)?;
    Ok(said(verdict))
}
