//! A whole script.
ghost use Rattle.std.specs.Prelude.{◌≡◌, ℕ, List, [], None, IfErr, IfOk};
ghost use Rattle.std.specs.Io.KnownBytes.{Appends};
ghost use Rattle.streams.specs.Printers.{printer};
ghost use Rattle.desk.specs.Desks.{state_of};
ghost use Rattle.desk.specs.Views.{steps_of};
ghost use Rattle.desk_command.specs.Scripts.{HasRunTo, HaveClients, Runs};
ghost use Rattle.desk_command.specs.Stops.{Breaks, IsStop};

use crate::stepping::take_step;
use crate::stop::DeskStop;
use desk::{Desk, Step, read_script};
use std::alloc::Global;
use streams::{Folder, Sink, write_whole};

/// Takes the steps at a new desk, one after another, and prints the line of each.
fn run_steps<'a, F: Folder, W: Sink>(
    alloc: Global,
    desk: &mut Desk,
    steps: Vec<Step<'a>>,
    folder: &mut F,
    sink: &mut W,
) -> Result<(), DeskStop<'a>>
    requires fresh { (client number : ℕ) → state_of desk.old client number ≡ None }
    requires clients { HaveClients (steps_of steps.items) }
    ensures ran { IfOk result (λ _. (lines : List ℕ)
        × HasRunTo (F.files folder.old) (steps_of steps.entry.items) [] lines
        × Appends (W.taken sink.old) (W.taken sink.new) lines) }
    ensures breaks { IfErr result
        (Breaks (F.files folder.old) (steps_of steps.entry.items) (F.failed_reads folder.old)
        (F.failed_reads folder.new)
        (printer (W.taken sink.old) (W.failures sink.old))
        (printer (W.taken sink.new) (W.failures sink.new))) }
    ensures kept { F.files folder.new ≡ F.files folder.old }
{
    for step in steps {
        let line = take_step(alloc, desk, step, folder)?;
        write_whole(sink, line.as_bytes())?;
    }
    Ok(())
}

/// Reads a script, takes its steps at a new desk, one after another, and prints the line of each
/// reply as it comes. A file is read as its step comes; no file changes. Where a line isn't a step,
/// nothing is done. Where a script ends before its end, the lines so far stand.
pub fn run_script<'a, F: Folder, W: Sink>(
    alloc: Global,
    script: &'a [u8],
    folder: &mut F,
    sink: &mut W,
) -> Result<(), DeskStop<'a>>
    ensures ran { IfOk result
        (λ _. Runs (F.files folder.old) script.entry.now (W.taken sink.old) (W.taken sink.new)) }
    ensures stops { IfErr result
        (IsStop (F.files folder.old) script.entry.now (F.failed_reads folder.old)
        (F.failed_reads folder.new)
        (printer (W.taken sink.old) (W.failures sink.old))
        (printer (W.taken sink.new) (W.failures sink.new))) }
    ensures kept { F.files folder.new ≡ F.files folder.old }
{
    let steps = read_script(alloc, script)?;
    let mut desk = Desk::new(alloc);
    run_steps(alloc, &mut desk, steps, folder, sink)
}
