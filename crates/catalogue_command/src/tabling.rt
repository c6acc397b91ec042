//! A catalogue file as a table.
ghost use Rattle.std.specs.Prelude.{◌≡◌, IfErr, IfOk, string_bytes};
ghost use Rattle.catalogue_command.specs.Stops.{StopsList, failed};
ghost use Rattle.catalogue_command.specs.Tables.{IsTable, IsTableText, Tables};

use crate::files::read;
use crate::lines::last_line;
use crate::objects::array_text;
use crate::rows::rows_text;
use allocation::Memory;
use catalogue::Catalogue;
use checker::Certified;
use command_results::{Said, Stop};
use std::alloc::Global;
use streams::Folder;

/// The table of the entries, as lines of fields or as an array of JSON.
fn table_text(alloc: Global, entries: &[Certified], json: bool) -> Result<String, Memory>
    ensures { IfOk result (λ t. IsTableText json entries.now (string_bytes t)) }
{
    if json {
        array_text(alloc, entries)
    } else {
        rows_text(alloc, entries)
    }
}

/// What is printed of the bytes.
fn table_of(alloc: Global, bytes: &[u8], json: bool, limit: u32) -> Result<Said, Memory>
    ensures { IfOk result (λ r. IsTable json bytes.now limit r.succeeds r.text.items) }
{
    match Catalogue::load(alloc, bytes, limit) {
        Ok(catalogue) => {
            let text = table_text(alloc, catalogue.entries(), json);
            drop(catalogue);
            Ok(Said::done(text?))
        }
        Err(fault) => {
            let text = last_line(alloc, fault)?;
            Ok(Said::no(text.into_bytes()))
        }
    }
}

/// A table of the entries of the file, whose numbers are those of their certificates and of the
/// quotients that these are, or why it isn't loaded.
pub fn table<'a, F: Folder>(
    alloc: Global,
    folder: &mut F,
    file: &'a str,
    json: bool,
    limit: u32,
) -> Result<Said, Stop<'a>>
    ensures told { IfOk result
        (λ r. Tables json limit (F.files folder.old) file.entry.now r.succeeds r.text.items) }
    ensures kept { F.files folder.new ≡ F.files folder.old }
    ensures stops { IfErr result (StopsList file.entry.now
        (failed (F.failed_reads folder.old) (F.failed_writes folder.old))
        (failed (F.failed_reads folder.new) (F.failed_writes folder.new))) }
{
    let bytes = read(folder, file)?;
    let report = table_of(alloc, &bytes, json, limit)?;
    Ok(report)
}
