//! A whole run.
ghost use Rattle.std.specs.Prelude.{◌≡◌, ◌≤◌, false, IfOk, map};
ghost use Rattle.command_line.specs.Requests.{plan_of, word_request_of};
ghost use Rattle.command_line.specs.Status.{status_of, text_of};
ghost use Rattle.streams.specs.Printers.{PrintsLine, printer};
ghost use Rattle.commands.specs.Causes.{notes, reads_input, runs_script, takes_files};
ghost use Rattle.commands.specs.Obeys.{scene};
ghost use Rattle.command_results.specs.Stops.{stop_line};
ghost use Rattle.commands.specs.Ends.{Ends, ExplainsWord};

use crate::run_plan;
use command_line::{Asked, ExplainedWord, UsageFault, asked};
use command_results::{Said, Stop, print, tell};
use std::alloc::{AllocError, Global};
use std::convert::AsStr;
use streams::{Folder, Sink, Source};
use verdict_commands::{explain_code, explain_position};

/// Answers words that are no request, nor ask for help.
fn refuse<E: Sink>(fault: &UsageFault, err: &mut E) -> u8
    ensures status { result ≡ status_of fault.now }
    ensures told { PrintsLine (printer (E.taken err.old) (E.failures err.old))
        (printer (E.taken err.new) (E.failures err.new)) (text_of fault.now) }
{
    tell(err, fault.text(), "", "");
    fault.status()
}

/// Answers that memory was wanting.
fn want<E: Sink>(err: &mut E) -> u8
    ensures status { result ≡ 3 }
    ensures told { PrintsLine (printer (E.taken err.old) (E.failures err.old))
        (printer (E.taken err.new) (E.failures err.new)) (stop_line Stop.Memory) }
{
    Stop::Memory.tell(err);
    3
}

/// What is said of a word.
fn explain_word(alloc: Global, word: ExplainedWord<'_>) -> Result<Said, AllocError>
    ensures { IfOk result
        (λ s. ExplainsWord (word_request_of word.entry) s.text.items s.succeeds) }
{
    match word {
        ExplainedWord::Code(code) => explain_code(alloc, code),
        ExplainedWord::Position(position) => explain_position(alloc, position),
    }
}

/// Does a whole run by the words.
fn run_words<F: Folder, S: Source, W: Sink, E: Sink>(
    alloc: Global,
    words: &[&str],
    folder: &mut F,
    input: &mut S,
    out: &mut W,
    err: &mut E,
) -> u8
    ensures ends { Ends (map (λ w. w.now) words.entry.now)
        (scene F.Folder S.Source W.Sink E.Sink folder.old input.old out.old err.old)
        (scene F.Folder S.Source W.Sink E.Sink folder.new input.new out.new err.new) result }
    ensures quiet { notes (plan_of (map (λ w. w.now) words.entry.now)) ≡ false → result ≤ 1
        → err.new ≡ err.old }
    ensures usage { runs_script (plan_of (map (λ w. w.now) words.entry.now)) ≡ false → result ≡ 2
        → folder.new ≡ folder.old }
    ensures input { reads_input (plan_of (map (λ w. w.now) words.entry.now)) ≡ false
        → input.new ≡ input.old }
    ensures folder { takes_files (plan_of (map (λ w. w.now) words.entry.now)) ≡ false
        → folder.new ≡ folder.old }
{
    match asked(alloc, words) {
        Ok(Asked::Plan(plan)) => run_plan(alloc, plan, folder, input, out, err),
        Ok(Asked::Word(word)) => match explain_word(alloc, word) {
            Ok(said) => said.print(out, err),
            Err(_) => want(err),
        },
        Err(UsageFault::Help(text)) => print(text.as_bytes(), 0, out, err),
        Err(UsageFault::Memory) => refuse(&UsageFault::Memory, err),
        Err(UsageFault::Words(text)) => refuse(&UsageFault::Words(text), err),
        Err(UsageFault::Number(quantity)) => refuse(&UsageFault::Number(quantity), err),
        Err(UsageFault::Exclusive(exclusion)) => refuse(&UsageFault::Exclusive(exclusion), err),
        Err(UsageFault::Incomplete) => refuse(&UsageFault::Incomplete, err),
    }
}

/// The words as texts.
fn texts_of<'a, T: AsStr>(alloc: Global, words: &'a [T]) -> Result<Vec<&'a str>, AllocError>
    ensures { IfOk result (λ texts. map (λ t. t.now) texts.items ≡ map T.text words.entry.now) }
{
    let mut texts = Vec::with_capacity(alloc, words.len())?;
    for word in words {
        texts.push(word.as_str())?;
    }
    Ok(texts)
}

/// Does a whole run by the words, the program's name first, and answers the exit status: 0 for yes,
/// done or help, 1 for no or a refusal, 2 for words that are no request, a text that is no code or no
/// position or a script with a line that isn't a step, 3 where a device failed or memory was wanting.
/// What is asked for is printed whole on standard output, or a beginning of it where that fails or
/// a script breaks off; why a run ended with 2 or 3 is told on standard error. With 0 and 1 nothing
/// is told there but beside `describe --relations`: the bound for which `present` would refuse the
/// relations. No file is changed but the catalogue file by what is asked to write it: where that
/// ends well it holds the new text, and else what it held. Standard input and the files are left
/// alone by the commands that don't read them, and the files by words that are refused.
pub fn run<F: Folder, S: Source, W: Sink, E: Sink, T: AsStr>(
    alloc: Global,
    words: &[T],
    folder: &mut F,
    input: &mut S,
    out: &mut W,
    err: &mut E,
) -> u8
    ensures ends { Ends (map T.text words.now)
        (scene F.Folder S.Source W.Sink E.Sink folder.old input.old out.old err.old)
        (scene F.Folder S.Source W.Sink E.Sink folder.new input.new out.new err.new) result }
    ensures quiet { notes (plan_of (map T.text words.now)) ≡ false → result ≤ 1
        → err.new ≡ err.old }
    ensures usage { runs_script (plan_of (map T.text words.now)) ≡ false → result ≡ 2
        → folder.new ≡ folder.old }
    ensures input { reads_input (plan_of (map T.text words.now)) ≡ false → input.new ≡ input.old }
    ensures folder { takes_files (plan_of (map T.text words.now)) ≡ false
        → folder.new ≡ folder.old }
{
    match texts_of(alloc, words) {
        Ok(texts) => run_words(alloc, texts.as_slice(), folder, input, out, err),
        Err(_) => want(err),
    }
}
