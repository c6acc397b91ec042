//! A catalogue file written anew.
ghost use Rattle.std.specs.Prelude.{◌≡◌, IfErr, IfOk, OnErr};
ghost use Rattle.catalogue_command.specs.Answers.{Migrates};
ghost use Rattle.catalogue_command.specs.Stops.{StopsSalvage, failed};

use crate::adding::saved;
use crate::files::read;
use crate::lines::{last_line, migrated_line};
use catalogue::Catalogue;
use command_results::{Said, Stop};
use std::alloc::Global;
use streams::Folder;

/// Puts the entries of the file, whichever version it has, in its place as a file of the newest
/// version, and gives how many they are; or says why it isn't loaded, and leaves it. Where it
/// stops, every file is as it was.
pub fn migrate<'a, F: Folder>(
    alloc: Global,
    folder: &mut F,
    file: &'a str,
    limit: u32,
) -> Result<Said, Stop<'a>>
    ensures told { IfOk result
        (λ r. Migrates limit (F.files folder.old) (F.files folder.new) file.entry.now r.succeeds
        r.text.items) }
    ensures kept { OnErr result (F.files folder.new ≡ F.files folder.old) }
    ensures stops { IfErr result (StopsSalvage file.entry.now
        (failed (F.failed_reads folder.old) (F.failed_writes folder.old))
        (failed (F.failed_reads folder.new) (F.failed_writes folder.new))) }
{
    let bytes = read(folder, file)?;
    match Catalogue::load(alloc, &bytes, limit) {
        Err(fault) => {
            let text = last_line(alloc, fault)?;
            Ok(Said::no(text.into_bytes()))
        }
        Ok(catalogue) => {
            let text = migrated_line(alloc, &catalogue)?;
            saved(folder, file, &catalogue, text)
        }
    }
}
