//! Quotients out of files.
ghost use Rattle.std.specs.Prelude.{◌≡◌, false, IfOk, IfErr, is_none, is_some, option_map};
ghost use Rattle.given_quotients.specs.Checks.{AreGiven, IsGivenCause, failed};
ghost use Rattle.given_quotients.specs.Given.{FindsQuotient, JudgesQuotient};

use crate::bytes::given_bytes;
use crate::certifying::judged_finite;
use crate::presented::{begins_presented, judged_presented};
use crate::whole::{begins_whole, judged_whole};
use allocation::Memory;
use answers::Certified;
use checker::verdicts_are_true;
use command_results::Stop;
use presented_checker::PresentedQuotient;
use std::alloc::Global;
use streams::{Folder, Source};
use whole_checker::WholeGame;

/// A quotient that a text gives.
#[derive(Drop)]
pub enum Quotient {
    /// A finite one, certified.
    Finite(Certified),
    /// That of a whole game in which one heap may rule all others.
    Whole(WholeGame),
    /// One that generators and relations present.
    Presented(PresentedQuotient),
}

/// Checks the bytes: as a text of a whole game, or as a presentation, by their first word, or else as a certificate.
fn judged(alloc: Global, bytes: &[u8], limit: u32) -> Result<Result<Quotient, Vec<u8>>, Memory>
    ensures { IfOk result (JudgesQuotient bytes.now limit) }
{
    if begins_whole(bytes) {
        return match judged_whole(alloc, bytes)? {
            Ok(game) => Ok(Ok(Quotient::Whole(game))),
            Err(no) => Ok(Err(no)),
        };
    }
    if begins_presented(bytes) {
        return match judged_presented(alloc, bytes)? {
            Ok(quotient) => Ok(Ok(Quotient::Presented(quotient))),
            Err(no) => Ok(Err(no)),
        };
    }
    match judged_finite(alloc, bytes, limit)? {
        Ok(certified) => Ok(Ok(Quotient::Finite(certified))),
        Err(no) => Ok(Err(no)),
    }
}

/// Checks the text in the file, or on standard input where no file is named, under the limit: the
/// quotient that it gives, or else the text of a no. A text whose first word is `mqw` is that of a whole
/// game, one whose first word is `mqp` a presentation, and every other is read as a certificate. Whichever of the two isn't read is left alone.
pub fn quotient_of<'a, F: Folder, S: Source>(
    alloc: Global,
    file: Option<&'a str>,
    limit: u32,
    folder: &mut F,
    input: &mut S,
) -> Result<Result<Quotient, Vec<u8>>, Stop<'a>>
    ensures found { let named = option_map (λ f. f.now) file.entry in
        IfOk result (FindsQuotient (AreGiven (S.left input.old) (F.files folder.old) named) limit) }
    ensures kept { F.files folder.new ≡ F.files folder.old }
    ensures succeeds { IfOk result
        (λ _. failed (S.failures input.new) (F.failed_reads folder.new)
        ≡ failed (S.failures input.old) (F.failed_reads folder.old)) }
    ensures stops { IfErr result (IsGivenCause (option_map (λ f. f.now) file.entry)
        (failed (S.failures input.old) (F.failed_reads folder.old))
        (failed (S.failures input.new) (F.failed_reads folder.new))) }
    ensures writes { F.failed_writes folder.new ≡ F.failed_writes folder.old }
    ensures input { is_none (option_map (λ f. f.now) file.entry) ≡ false → input.new ≡ input.old }
    ensures folder { is_some (option_map (λ f. f.now) file.entry) ≡ false
        → folder.new ≡ folder.old }
{
    verdicts_are_true();
    let bytes = given_bytes(alloc, file, folder, input)?;
    let found = judged(alloc, &bytes, limit)?;
    Ok(found)
}
