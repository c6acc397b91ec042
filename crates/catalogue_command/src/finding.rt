//! One entry of a catalogue file.
ghost use Rattle.std.specs.Prelude.{◌≡◌, IfErr, IfOk, IsErrOf, Ok};
ghost use Rattle.catalogue_command.specs.Answers.{Gets, GetsAnswer, IsGotten};
ghost use Rattle.catalogue_command.specs.Stops.{StopsGet, failed};

use crate::files::read;
use crate::lines::{last_line, line};
use allocation::Memory;
use catalogue::{Catalogue, certificate_text};
use command_results::{Said, Stop};
use octal_code::Code;
use std::alloc::Global;
use streams::Folder;

/// What is printed of a catalogue for a code and a kind.
fn found(alloc: Global, catalogue: &Catalogue, code: &Code, heaps: u64) -> Result<Said, Memory>
    ensures { IfOk result
        (λ r. GetsAnswer code.now heaps (Ok catalogue.now) r.succeeds r.text.items) }
{
    match catalogue.get(code, heaps) {
        Some(certified) => {
            let text = certificate_text(alloc, certified.cert())?;
            Ok(Said::done(text))
        }
        None => {
            let text = line(alloc, "absent\n")?;
            Ok(Said::no(text.into_bytes()))
        }
    }
}

/// What is printed of the bytes for a code and a kind.
fn entry_of(
    alloc: Global,
    bytes: &[u8],
    code: &Code,
    heaps: u64,
    limit: u32,
) -> Result<Said, Memory>
    ensures { IfOk result
        (λ r. IsGotten bytes.now limit code.now heaps r.succeeds r.text.items) }
{
    match Catalogue::load(alloc, bytes, limit) {
        Ok(catalogue) => {
            let found = found(alloc, &catalogue, code, heaps);
            drop(catalogue);
            let report = found?;
            Ok(report)
        }
        Err(fault) => {
            let text = last_line(alloc, fault)?;
            Ok(Said::no(text.into_bytes()))
        }
    }
}

/// The certificate of a code, for the whole game with 0 heaps and else for the heaps up to `heaps`;
/// that there is none; or why the file isn't loaded. A code that can't be read stops it before the
/// file is read.
pub fn get<'a, F: Folder>(
    alloc: Global,
    folder: &mut F,
    file: &'a str,
    code: &str,
    heaps: u64,
    limit: u32,
) -> Result<Said, Stop<'a>>
    ensures told { IfOk result
        (λ r. Gets limit (F.files folder.old) file.entry.now code.now heaps r.succeeds
        r.text.items) }
    ensures kept { F.files folder.new ≡ F.files folder.old }
    ensures usage { IsErrOf result Stop.NotACode → folder.new ≡ folder.old }
    ensures stops { IfErr result (StopsGet file.entry.now code.now
        (failed (F.failed_reads folder.old) (F.failed_writes folder.old))
        (failed (F.failed_reads folder.new) (F.failed_writes folder.new))) }
{
    let Ok(code) = Code::read(code.as_bytes()) else {
        return Err(Stop::NotACode);
    };
    let bytes = read(folder, file)?;
    let report = entry_of(alloc, &bytes, &code, heaps, limit)?;
    Ok(report)
}
