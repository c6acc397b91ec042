//! What can be asked of a catalogue file, each by its action.
ghost use Rattle.std.specs.Prelude.{◌≡◌, IfErr, IfOk, IsErrOf, OnErr};
ghost use Rattle.catalogue_command.specs.Stops.{failed};
ghost use Rattle.catalogue_command.specs.Tasks.{Leaves, KeepsCatalogue, StopsTask, catalogue_written};
ghost use Rattle.requests.specs.Requests.{catalogue_request_of};

use crate::adding::{add, create};
use crate::finding::get;
use crate::listing::list;
use crate::migrating::migrate;
use crate::salvaging::salvage;
use crate::tabling::table;
use command_results::{Said, Stop};
use requests::CatalogueTask;
use std::alloc::Global;
use streams::Folder;

/// Does what is asked of the catalogue file; the limit is that of each check. No other file
/// changes, and where it stops or doesn't end well no file does. Where a code can't be read the
/// files are left alone.
pub fn act<'a, F: Folder>(
    alloc: Global,
    folder: &mut F,
    file: &'a str,
    task: CatalogueTask<'a>,
    limit: u32,
) -> Result<Said, Stop<'a>>
    ensures says { IfOk result
        (λ r. KeepsCatalogue limit (F.files folder.old) (F.files folder.new) file.entry.now
        (catalogue_request_of task.entry) r.text.items r.succeeds) }
    ensures leaves { IfOk result
        (λ r. Leaves (catalogue_written file.entry.now (catalogue_request_of task.entry) r.succeeds)
        (F.files folder.old) (F.files folder.new)) }
    ensures kept { OnErr result (F.files folder.new ≡ F.files folder.old) }
    ensures usage { IsErrOf result Stop.NotACode → folder.new ≡ folder.old }
    ensures stops { IfErr result (StopsTask file.entry.now (catalogue_request_of task.entry)
        (failed (F.failed_reads folder.old) (F.failed_writes folder.old))
        (failed (F.failed_reads folder.new) (F.failed_writes folder.new))) }
{
    match task {
        CatalogueTask::Print => list(alloc, folder, file, limit),
        CatalogueTask::Table { json } => table(alloc, folder, file, json, limit),
        CatalogueTask::New => create(alloc, folder, file),
        CatalogueTask::Add(certificate) => add(alloc, folder, file, certificate, false, limit),
        CatalogueTask::NewWith(certificate) => add(alloc, folder, file, certificate, true, limit),
        CatalogueTask::Get { code, heaps } => {
            get(alloc, folder, file, code, u64::from(heaps), limit)
        }
        CatalogueTask::Salvage => salvage(alloc, folder, file, limit),
        CatalogueTask::Migrate => migrate(alloc, folder, file, limit),
    }
}
