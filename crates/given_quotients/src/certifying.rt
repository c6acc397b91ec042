//! Certified quotients, for other commands.
ghost use Rattle.std.specs.Prelude.{◌≡◌, false, IfOk, IfErr, is_none, is_some, option_map};
ghost use Rattle.given_quotients.specs.Checks.{AreGiven, Finds, IsGivenCause, Judges, failed};

use crate::bytes::given_bytes;
use allocation::Memory;
use checker::{Certified, check, verdicts_are_true};
use command_results::Stop;
use std::alloc::Global;
use streams::{Folder, Source};
use verdict_texts::verdict_text;

/// Checks the bytes under the limit: their quotient, or else the text of a no.
pub(crate) fn judged_finite(
    alloc: Global,
    bytes: &[u8],
    limit: u32,
) -> Result<Result<Certified, Vec<u8>>, Memory>
    ensures { IfOk result (Judges bytes.now limit) }
{
    let refusal = match check(alloc, bytes, limit) {
        Ok(certified) => return Ok(Ok(certified)),
        Err(refusal) => refusal,
    };
    let text = verdict_text(alloc, Err(&refusal))?;
    Ok(Err(text.into_bytes()))
}

/// Checks the certificate in the file, or on standard input where no file is named, under the
/// limit: the quotient that it certifies, or else the text of a no. Whichever of the two isn't read
/// is left alone.
pub fn certified<'a, F: Folder, S: Source>(
    alloc: Global,
    file: Option<&'a str>,
    limit: u32,
    folder: &mut F,
    input: &mut S,
) -> Result<Result<Certified, Vec<u8>>, Stop<'a>>
    ensures found { let named = option_map (λ f. f.now) file.entry in
        IfOk result (Finds (AreGiven (S.left input.old) (F.files folder.old) named) limit) }
    ensures kept { F.files folder.new ≡ F.files folder.old }
    ensures succeeds { IfOk result
        (λ _. failed (S.failures input.new) (F.failed_reads folder.new)
        ≡ failed (S.failures input.old) (F.failed_reads folder.old)) }
    ensures stops { IfErr result (IsGivenCause (option_map (λ f. f.now) file.entry)
        (failed (S.failures input.old) (F.failed_reads folder.old))
        (failed (S.failures input.new) (F.failed_reads folder.new))) }
    ensures writes { F.failed_writes folder.new ≡ F.failed_writes folder.old }
    ensures input { is_none (option_map (λ f. f.now) file.entry) ≡ false → input.new ≡ input.old }
    ensures folder { is_some (option_map (λ f. f.now) file.entry) ≡ false
        → folder.new ≡ folder.old }
{
    verdicts_are_true();
    let bytes = given_bytes(alloc, file, folder, input)?;
    let found = judged_finite(alloc, &bytes, limit)?;
    Ok(found)
}
