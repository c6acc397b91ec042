//! The status that the program ends with.
ghost use Rattle.std.specs.Prelude.{map};
ghost use Rattle.std.specs.Process.{exit_status};
ghost use Rattle.commands.specs.Obeys.{scene};
ghost use Rattle.commands.specs.Ends.{Ends};

use crate::whole_run::run;
use std::alloc::Global;
use std::convert::AsStr;
use std::process::ExitCode;
use streams::{Folder, Sink, Source};

/// Does a whole run, and ends with its status.
pub fn ended<F: Folder, S: Source, W: Sink, E: Sink, T: AsStr>(
    alloc: Global,
    words: &[T],
    folder: &mut F,
    input: &mut S,
    out: &mut W,
    err: &mut E,
) -> ExitCode
    ensures ends { Ends (map T.text words.now)
        (scene F.Folder S.Source W.Sink E.Sink folder.old input.old out.old err.old)
        (scene F.Folder S.Source W.Sink E.Sink folder.new input.new out.new err.new)
        (exit_status result) }
{
    ExitCode::from(run(alloc, words, folder, input, out, err))
}
