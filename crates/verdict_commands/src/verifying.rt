//! `verify`: the verdict on a text of any kind.
ghost use Rattle.std.specs.Prelude.{◌≡◌, false, IfOk, IfErr, is_none, is_some, option_map};
ghost use Rattle.given_quotients.specs.Checks.{AreGiven, IsGivenCause, failed};
ghost use Rattle.verdict_commands.specs.Verifies.{Verifies};

use crate::quotients::line_said;
use command_results::{Said, Stop};
use given_quotients::quotient_of;
use std::alloc::Global;
use streams::{Folder, Source};

/// Judges the text in the file, or on standard input where no file is named, by its first word: the line of the quotient
/// that it gives under the limit, as a text of a whole game, `mqw`, as a presentation, `mqp`, or else as a certificate; or
/// why it gives none. Whichever of the two isn't read is left alone.
pub fn verify<'a, F: Folder, S: Source>(
    alloc: Global,
    file: Option<&'a str>,
    limit: u32,
    folder: &mut F,
    input: &mut S,
) -> Result<Said, Stop<'a>>
    ensures verifies { let named = option_map (λ f. f.now) file.entry in
        IfOk result (λ s. Verifies (AreGiven (S.left input.old) (F.files folder.old) named) limit
        s.text.items s.succeeds) }
    ensures kept { F.files folder.new ≡ F.files folder.old }
    ensures stops { IfErr result (IsGivenCause (option_map (λ f. f.now) file.entry)
        (failed (S.failures input.old) (F.failed_reads folder.old))
        (failed (S.failures input.new) (F.failed_reads folder.new))) }
    ensures input { is_none (option_map (λ f. f.now) file.entry) ≡ false → input.new ≡ input.old }
    ensures folder { is_some (option_map (λ f. f.now) file.entry) ≡ false
        → folder.new ≡ folder.old }
{
    let found = quotient_of(alloc, file, limit, folder, input)?;
    Ok(line_said(alloc, found)?)
}
