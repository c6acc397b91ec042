//! The script of a file.
ghost use Rattle.std.specs.Prelude.{◌≡◌, ◌≤◌};
ghost use Rattle.streams.specs.Printers.{printer};
ghost use Rattle.desk_command.specs.Ends.{EndsScript};

use crate::running::run_script;
use command_results::read_file;
use std::alloc::Global;
use streams::{Folder, Sink};

/// The most bytes of a script: 4 MiB.
pub const LARGEST_SCRIPT: usize = 4194304;

/// Takes the steps of the script in the file at one desk, prints a line for each, and answers the
/// status: 0 where the script ran to its end, refusals among its replies or not; 2 where a line
/// isn't a step, and then nothing is printed; 3 where a device failed or memory was wanting, and
/// then the lines so far stand. Why it ended before its end is told. No file changes.
pub fn run_file<F: Folder, W: Sink, E: Sink>(
    alloc: Global,
    script: &str,
    folder: &mut F,
    out: &mut W,
    err: &mut E,
) -> u8
    ensures ends { EndsScript (F.files folder.old) script.now (F.failed_reads folder.old)
        (F.failed_reads folder.new)
        (printer (W.taken out.old) (W.failures out.old))
        (printer (W.taken out.new) (W.failures out.new))
        (printer (E.taken err.old) (E.failures err.old))
        (printer (E.taken err.new) (E.failures err.new)) result }
    ensures kept { F.files folder.new ≡ F.files folder.old }
    ensures quiet { result ≤ 1 → err.new ≡ err.old }
{
    let bytes = match read_file(folder, script, LARGEST_SCRIPT) {
        Ok(bytes) => bytes,
        Err(stop) => {
            stop.tell(err);
            return 3;
        }
    };
    match run_script(alloc, &bytes, folder, out) {
        Ok(()) => 0,
        Err(stop) => {
            stop.tell(err);
            stop.status()
        }
    }
}
