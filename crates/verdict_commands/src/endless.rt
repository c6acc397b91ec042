//! What is said of a text of a whole game, or of a presentation of an infinite quotient.
ghost use Rattle.std.specs.Prelude.{◌≡◌, codes, false, IfOk, IfErr, is_none, is_some, option_map};
ghost use Rattle.given_quotients.specs.Checks.{AreGiven, IsGivenCause, failed};
ghost use Rattle.verdict_commands.specs.Checks.{ChecksInfinite, FindsInfinite, JudgesEndless, JudgesInfinite};
ghost use Rattle.verdict_texts.specs.Lines.{no_line};

use crate::quotients::line_said;
use allocation::Memory;
use answers::InfiniteRefusal;
use command_results::{Said, Stop};
use given_quotients::{
    Quotient, begins_presented, begins_whole, given_bytes, judged_presented, judged_whole,
    refusal_text,
};
use presented_checker::PresentedQuotient;
use std::alloc::Global;
use streams::{Folder, Source};

/// The text that bytes are neither a text of a whole game nor a presentation.
pub(crate) fn no_text(alloc: Global) -> Result<Vec<u8>, Memory>
    ensures { IfOk result (λ t. t.items ≡ no_line 1 (codes "Text")) }
{
    let text = refusal_text(alloc, InfiniteRefusal::Text)?;
    Ok(text.into_bytes())
}

/// The text that a presentation is right, and its quotient finite.
fn finite_text(alloc: Global) -> Result<Vec<u8>, Memory>
    ensures { IfOk result (λ t. t.items ≡ no_line 34 (codes "Finite")) }
{
    let text = refusal_text(alloc, InfiniteRefusal::Finite)?;
    Ok(text.into_bytes())
}

/// Checks the bytes of a presentation: the infinite quotient that it is, or else the text of a no.
fn judged_endless(alloc: Global, bytes: &[u8]) -> Result<Result<PresentedQuotient, Vec<u8>>, Memory>
    ensures { IfOk result (JudgesEndless bytes.now) }
{
    match judged_presented(alloc, bytes)? {
        Ok(quotient) => {
            if quotient.order().is_some() {
                return Ok(Err(finite_text(alloc)?));
            }
            Ok(Ok(quotient))
        }
        Err(no) => Ok(Err(no)),
    }
}

/// Checks the bytes as a text of a whole game, or as a presentation, by their first word. Others are neither.
fn judged(alloc: Global, bytes: &[u8]) -> Result<Result<Quotient, Vec<u8>>, Memory>
    ensures { IfOk result (JudgesInfinite bytes.now) }
{
    if begins_whole(bytes) {
        return match judged_whole(alloc, bytes)? {
            Ok(game) => Ok(Ok(Quotient::Whole(game))),
            Err(no) => Ok(Err(no)),
        };
    }
    if begins_presented(bytes) {
        return match judged_endless(alloc, bytes)? {
            Ok(quotient) => Ok(Ok(Quotient::Presented(quotient))),
            Err(no) => Ok(Err(no)),
        };
    }
    Ok(Err(no_text(alloc)?))
}

/// Checks the text in the file, or on standard input where no file is named: what it shows, or else the
/// text of a no. Whichever of the two isn't read is left alone.
pub(crate) fn found<'a, F: Folder, S: Source>(
    alloc: Global,
    file: Option<&'a str>,
    folder: &mut F,
    input: &mut S,
) -> Result<Result<Quotient, Vec<u8>>, Stop<'a>>
    ensures found { let named = option_map (λ f. f.now) file.entry in
        IfOk result (FindsInfinite (AreGiven (S.left input.old) (F.files folder.old) named)) }
    ensures kept { F.files folder.new ≡ F.files folder.old }
    ensures succeeds { IfOk result
        (λ _. failed (S.failures input.new) (F.failed_reads folder.new)
        ≡ failed (S.failures input.old) (F.failed_reads folder.old)) }
    ensures stops { IfErr result (IsGivenCause (option_map (λ f. f.now) file.entry)
        (failed (S.failures input.old) (F.failed_reads folder.old))
        (failed (S.failures input.new) (F.failed_reads folder.new))) }
    ensures writes { F.failed_writes folder.new ≡ F.failed_writes folder.old }
    ensures input { is_none (option_map (λ f. f.now) file.entry) ≡ false → input.new ≡ input.old }
    ensures folder { is_some (option_map (λ f. f.now) file.entry) ≡ false
        → folder.new ≡ folder.old }
{
    let bytes = given_bytes(alloc, file, folder, input)?;
    let found = judged(alloc, &bytes)?;
    Ok(found)
}

/// Checks the text in the file, or on standard input where no file is named: the line of the infinite
/// quotient that it shows, or the text of a no. A text whose first word is `mqw` is checked as one of a
/// whole game, and one whose first word is `mqp` as a presentation, which gets a no if its quotient is finite. Others are
/// neither. Whichever of the two isn't read is left alone.
pub fn infinite<'a, F: Folder, S: Source>(
    alloc: Global,
    file: Option<&'a str>,
    folder: &mut F,
    input: &mut S,
) -> Result<Said, Stop<'a>>
    ensures said { let named = option_map (λ f. f.now) file.entry in
        IfOk result (λ s. ChecksInfinite (AreGiven (S.left input.old) (F.files folder.old) named)
        s.text.items s.succeeds) }
    ensures kept { F.files folder.new ≡ F.files folder.old }
    ensures stops { IfErr result (IsGivenCause (option_map (λ f. f.now) file.entry)
        (failed (S.failures input.old) (F.failed_reads folder.old))
        (failed (S.failures input.new) (F.failed_reads folder.new))) }
    ensures input { is_none (option_map (λ f. f.now) file.entry) ≡ false → input.new ≡ input.old }
    ensures folder { is_some (option_map (λ f. f.now) file.entry) ≡ false
        → folder.new ≡ folder.old }
{
    let found = found(alloc, file, folder, input)?;
    Ok(line_said(alloc, found)?)
}
