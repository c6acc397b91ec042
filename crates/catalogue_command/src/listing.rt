//! A catalogue file listed.
ghost use Rattle.std.specs.Prelude.{◌≡◌, IfErr, IfOk};
ghost use Rattle.catalogue_command.specs.Answers.{IsListing, Lists};
ghost use Rattle.catalogue_command.specs.Stops.{StopsList, failed};

use crate::files::read;
use crate::lines::{entry_lines, last_line};
use allocation::Memory;
use catalogue::Catalogue;
use command_results::{Said, Stop};
use std::alloc::Global;
use streams::Folder;

/// What is printed of the bytes.
fn listing_of(alloc: Global, bytes: &[u8], limit: u32) -> Result<Said, Memory>
    ensures { IfOk result (λ r. IsListing bytes.now limit r.succeeds r.text.items) }
{
    match Catalogue::load(alloc, bytes, limit) {
        Ok(catalogue) => {
            let text = entry_lines(alloc, catalogue.entries());
            drop(catalogue);
            Ok(Said::done(text?))
        }
        Err(fault) => {
            let text = last_line(alloc, fault)?;
            Ok(Said::no(text.into_bytes()))
        }
    }
}

/// A line for each entry of the file, or why it isn't loaded.
pub fn list<'a, F: Folder>(
    alloc: Global,
    folder: &mut F,
    file: &'a str,
    limit: u32,
) -> Result<Said, Stop<'a>>
    ensures told { IfOk result
        (λ r. Lists limit (F.files folder.old) file.entry.now r.succeeds r.text.items) }
    ensures kept { F.files folder.new ≡ F.files folder.old }
    ensures stops { IfErr result (StopsList file.entry.now
        (failed (F.failed_reads folder.old) (F.failed_writes folder.old))
        (failed (F.failed_reads folder.new) (F.failed_writes folder.new))) }
{
    let bytes = read(folder, file)?;
    let report = listing_of(alloc, &bytes, limit)?;
    Ok(report)
}
