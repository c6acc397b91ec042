//! What can be kept of a damaged catalogue file.
ghost use Rattle.std.specs.Prelude.{◌≡◌, IfErr, IfOk, OnErr};
ghost use Rattle.catalogue_command.specs.Answers.{Salvages};
ghost use Rattle.catalogue_command.specs.Stops.{StopsSalvage, failed};

use crate::adding::saved;
use crate::files::read;
use crate::lines::{last_line, salvage_lines};
use catalogue::Catalogue;
use command_results::{Said, Stop};
use std::alloc::Global;
use streams::Folder;

/// Puts the entries of the file that stand in its place, and gives the fault of each other entry
/// and how many are kept; or says why the bytes are no catalogue file, and leaves it. Where it
/// stops, every file is as it was.
pub fn salvage<'a, F: Folder>(
    alloc: Global,
    folder: &mut F,
    file: &'a str,
    limit: u32,
) -> Result<Said, Stop<'a>>
    ensures told { IfOk result
        (λ r. Salvages limit (F.files folder.old) (F.files folder.new) file.entry.now r.succeeds
        r.text.items) }
    ensures kept { OnErr result (F.files folder.new ≡ F.files folder.old) }
    ensures stops { IfErr result (StopsSalvage file.entry.now
        (failed (F.failed_reads folder.old) (F.failed_writes folder.old))
        (failed (F.failed_reads folder.new) (F.failed_writes folder.new))) }
{
    let bytes = read(folder, file)?;
    match Catalogue::salvage(alloc, &bytes, limit) {
        Err(fault) => {
            let text = last_line(alloc, fault)?;
            Ok(Said::no(text.into_bytes()))
        }
        Ok((catalogue, faults)) => {
            let text = salvage_lines(alloc, &catalogue, &faults)?;
            saved(folder, file, &catalogue, text)
        }
    }
}
