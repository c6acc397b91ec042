//! `certify`: what is said of a table, or of a presentation.
ghost use Rattle.std.specs.Prelude.{◌≡◌, ℕ, IfErr, IfOk, List, false, is_none, is_some, option_map};
ghost use Rattle.verdict_texts.specs.Streams.{AreKnownAs};
ghost use Rattle.given_quotients.specs.Checks.{AreGiven, failed};
ghost use Rattle.solve_command.specs.Certifies.{Certifies, CertifiesBytes, CertifiesText, IsTableCause, TellsBytes};

use crate::given::given_bytes;
use crate::making::Making;
use crate::presented::presented_said;
use crate::telling::{ToldTable, certify_bytes};
use allocation::Memory;
use command_results::{Said, Stop};
use given_quotients::begins_presented;
use std::alloc::Global;
use streams::{Folder, Source};

/// What is said where this is told.
fn said(told: ToldTable) -> Said
    ensures { (bytes : List ℕ) (limit : ℕ) → TellsBytes bytes limit told.text.items told.status
        → CertifiesBytes bytes limit result.text.items result.succeeds }
{
    if told.status == 0 {
        Said {
            text: told.text,
            succeeds: true,
        }
    } else {
        Said::no(told.text)
    }
}

/// What is said of the bytes: of a presentation, or else of a table.
fn said_of_bytes(alloc: Global, bytes: &[u8], limit: u32) -> Result<Said, Memory>
    ensures { IfOk result (λ s. CertifiesText bytes.now limit s.text.items s.succeeds) }
{
    if begins_presented(bytes) {
        return presented_said(&Making, alloc, bytes, limit);
    }
    let told = certify_bytes(alloc, bytes, limit)?;
    Ok(said(told))
}

/// Certifies the table in the file, or the finite quotient that is presented there, by the first word; or on standard
/// input where no file is named. Whichever of the two isn't read is left alone.
pub fn certify<'a, F: Folder, S: Source>(
    alloc: Global,
    file: Option<&'a str>,
    limit: u32,
    folder: &mut F,
    input: &mut S,
) -> Result<Said, Stop<'a>>
    ensures said { let named = option_map (λ f. f.now) file.entry in
        IfOk result (λ s. Certifies (AreGiven (S.left input.old) (F.files folder.old) named) limit
        s.text.items s.succeeds) }
    ensures kept { F.files folder.new ≡ F.files folder.old }
    ensures stops { let named = option_map (λ f. f.now) file.entry in
        IfErr result (IsTableCause (AreKnownAs (S.left input.old)) named
        (failed (S.failures input.old) (F.failed_reads folder.old))
        (failed (S.failures input.new) (F.failed_reads folder.new))) }
    ensures input { is_none (option_map (λ f. f.now) file.entry) ≡ false → input.new ≡ input.old }
    ensures folder { is_some (option_map (λ f. f.now) file.entry) ≡ false
        → folder.new ≡ folder.old }
{
    let bytes = given_bytes(alloc, file, folder, input)?;
    let said = said_of_bytes(alloc, &bytes, limit)?;
    Ok(said)
}
