//! Plans run to their status.
ghost use Rattle.std.specs.Prelude.{◌≡◌, ◌≤◌, Some, false};
ghost use Rattle.commands.specs.Causes.{notes, reads_input, runs_script, takes_files};
ghost use Rattle.commands.specs.Obeys.{Obeys, scene};
ghost use Rattle.requests.specs.Requests.{request_of};

use crate::carrying_out::carry_out;
use desk_command::run_file;
use requests::Plan;
use std::alloc::Global;
use streams::{Folder, Sink, Source};

/// Does what is planned, prints what is said of it or tells why it stopped, and answers the status:
/// 0 where it ends well, 1 for a no or a refusal, 2 for a text that can't be read or a script with
/// a line that isn't a step, 3 where a device failed or memory was wanting. With 0 and 1 nothing is
/// told but beside relations that were asked for. No file is changed but the one that the plan
/// writes where it ends well; standard input and the files are left alone by the plans that don't
/// read them.
pub fn run_plan<F: Folder, S: Source, W: Sink, E: Sink>(
    alloc: Global,
    plan: Plan<'_>,
    folder: &mut F,
    input: &mut S,
    out: &mut W,
    err: &mut E,
) -> u8
    ensures obeys { Obeys (request_of plan.entry)
        (scene F.Folder S.Source W.Sink E.Sink folder.old input.old out.old err.old)
        (scene F.Folder S.Source W.Sink E.Sink folder.new input.new out.new err.new) result }
    ensures quiet { notes (Some (request_of plan.entry)) ≡ false → result ≤ 1
        → err.new ≡ err.old }
    ensures usage { runs_script (Some (request_of plan.entry)) ≡ false → result ≡ 2
        → folder.new ≡ folder.old }
    ensures input { reads_input (Some (request_of plan.entry)) ≡ false → input.new ≡ input.old }
    ensures folder { takes_files (Some (request_of plan.entry)) ≡ false → folder.new ≡ folder.old }
{
    if let Plan::Desk { script } = plan {
        return run_file(alloc, script, folder, out, err);
    }
    match carry_out(alloc, plan, folder, input) {
        Ok(noted) => noted.print(out, err),
        Err(stop) => {
            stop.tell(err);
            stop.status()
        }
    }
}
