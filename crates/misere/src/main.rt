//! The program `misere`.
// The program: its words, the machine's files and its streams go to one whole run.
#![tactic(auto)]

use command_results::{stopped, words_of};
use commands::ended;
use std::process::ExitCode;
use std::{env, io};
use streams::{HostFolder, ReaderSource, WriterSink};

fn main(rt: HostRuntime) -> ExitCode {
    let mut err = WriterSink::new(rt.stderr());
    let words = match words_of(rt.alloc(), env::args(&rt)) {
        Ok(words) => words,
        Err(stop) => return stopped(stop, &mut err),
    };
    let mut folder = HostFolder::new(&rt);
    let mut input = ReaderSource::new(rt.reader());
    let mut out = WriterSink::new(io::writer(&rt));
    ended(
        rt.alloc(),
        &words,
        &mut folder,
        &mut input,
        &mut out,
        &mut err,
    )
}
