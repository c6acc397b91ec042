//! `explain`: what kind of text a file has, or why it is none.
ghost use Rattle.std.specs.Prelude.{◌≡◌, ◌≤◌, false, length, IfOk, IfErr, is_none, is_some, option_map};
ghost use Rattle.given_quotients.specs.Checks.{AreGiven, IsGivenCause, failed};
ghost use Rattle.verdict_texts.specs.declared.stream.TheConstants.{MOST_BYTES};
ghost use Rattle.verdict_commands.specs.Explained.{Explains, ExplainsGiven};

use crate::kinds::{Seen, kind_of};
use crate::stops::stop_text;
use allocation::Memory;
use command_results::{Said, Stop};
use given_quotients::{fronts_decide, given_bytes};
use std::alloc::Global;
use streams::{Folder, Source};
use verdict_texts::MOST_BYTES;

/// What is said of the bytes.
fn explained(alloc: Global, bytes: &[u8]) -> Result<Said, Memory>
    ensures { IfOk result (λ s. Explains bytes.now s.text.items s.succeeds) }
{
    fronts_decide();
    if bytes.len() > MOST_BYTES {
        let text = String::from_str(alloc, "more than 4194304 bytes\n")?;
        return Ok(Said::no(text.into_bytes()));
    }
    match kind_of(alloc, bytes)? {
        Seen::Is(kind) => {
            let text = kind.text(alloc)?;
            Ok(Said::done(text))
        }
        Seen::Not(furthest) => {
            let text = stop_text(alloc, bytes, furthest)?;
            Ok(Said::no(text.into_bytes()))
        }
    }
}

/// Says what kind of text the file has, or standard input where no file is named, and which command
/// reads it; or where the reader that came furthest stopped, and what it wanted there. Of a text it
/// says nothing of the check. Whichever of the two isn't read is left alone.
pub fn explain<'a, F: Folder, S: Source>(
    alloc: Global,
    file: Option<&'a str>,
    folder: &mut F,
    input: &mut S,
) -> Result<Said, Stop<'a>>
    ensures explains { let named = option_map (λ f. f.now) file.entry in
        IfOk result (λ s. ExplainsGiven (AreGiven (S.left input.old) (F.files folder.old) named)
        s.text.items s.succeeds) }
    ensures kept { F.files folder.new ≡ F.files folder.old }
    ensures stops { IfErr result (IsGivenCause (option_map (λ f. f.now) file.entry)
        (failed (S.failures input.old) (F.failed_reads folder.old))
        (failed (S.failures input.new) (F.failed_reads folder.new))) }
    ensures input { is_none (option_map (λ f. f.now) file.entry) ≡ false → input.new ≡ input.old }
    ensures folder { is_some (option_map (λ f. f.now) file.entry) ≡ false
        → folder.new ≡ folder.old }
{
    fronts_decide();
    let bytes = given_bytes(alloc, file, folder, input)?;
    Ok(explained(alloc, &bytes)?)
}
