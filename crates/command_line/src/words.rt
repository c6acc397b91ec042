//! What the words of a command line ask for.
ghost use Rattle.std.specs.Prelude.{◌≡◌, ◌≢◌, [], None, IfOk, IfErr, map};
ghost use Rattle.clap.specs.Words.{fault_of, kind_of, subcommand_of, subcommand_rows_of};
ghost use Rattle.command_line.specs.Program.{program};
ghost use Rattle.command_line.specs.Refusals.{IsOfKind, IsFaultOf};
ghost use Rattle.command_line.specs.Requests.{plan_of, word_of};
ghost use Rattle.command_line.specs.Wanted.{IsAskedBy};

use crate::asking::command_asked;
use crate::commands::program_command;
use crate::faults::UsageFault;
use crate::wanted::Asked;
use clap::ArgMatches;
use clap::error::ErrorKind;
use std::alloc::Global;

fn refused(alloc: Global, e: &clap::Error) -> UsageFault
    ensures memory { kind_of e.now ≡ ErrorKind.OutOfMemory → result ≡ UsageFault.Memory }
    ensures words { IsOfKind (kind_of e.now) result }
{
    if e.kind() == ErrorKind::OutOfMemory {
        return UsageFault::Memory;
    }
    let Ok(text) = e.to_string(alloc) else {
        return UsageFault::Memory;
    };
    if e.use_stderr() {
        UsageFault::Words(text)
    } else {
        UsageFault::Help(text)
    }
}

/// The command that the words name, with its arguments.
fn parsed<'a>(alloc: Global, words: &'a [&'a str]) -> Result<ArgMatches<'a>, UsageFault>
    ensures taken { IfOk result (λ _. fault_of program (map (λ w. w.now) words.entry.now) ≡ []) }
    ensures found { IfOk result (λ m. subcommand_rows_of m
        ≡ subcommand_of program (map (λ w. w.now) words.entry.now)) }
    ensures nothing { IfErr result (λ fault. fault ≢ UsageFault.Memory
        → (plan_of (map (λ w. w.now) words.entry.now) ≡ None)
        × (word_of (map (λ w. w.now) words.entry.now) ≡ None)) }
    ensures fault { IfErr result (IsFaultOf (map (λ w. w.now) words.entry.now)) }
{
    let Ok(command) = program_command(alloc) else {
        return Err(UsageFault::Memory);
    };
    match command.try_get_matches_from(words) {
        Ok(matches) => Ok(matches),
        Err(e) => Err(refused(alloc, &e)),
    }
}

/// Reads the words of a command line, the program's name first: what they ask for, or why they ask
/// for nothing. Words that ask for something meet no other fault than want of memory. Each number
/// that is asked for lies in its range, and is the default where none is given; no options that
/// exclude each other are given.
pub fn asked<'a>(alloc: Global, words: &'a [&'a str]) -> Result<Asked<'a>, UsageFault>
    ensures asked { IfOk result (IsAskedBy (map (λ w. w.now) words.entry.now)) }
    ensures nothing { IfErr result (λ fault. fault ≢ UsageFault.Memory
        → (plan_of (map (λ w. w.now) words.entry.now) ≡ None)
        × (word_of (map (λ w. w.now) words.entry.now) ≡ None)) }
    ensures fault { IfErr result (IsFaultOf (map (λ w. w.now) words.entry.now)) }
{
    let matches = parsed(alloc, words)?;
    match matches.subcommand() {
        Some((name, given)) => command_asked(alloc, name, given),
        None => Err(UsageFault::Incomplete),
    }
}
