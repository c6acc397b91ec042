//! What is said of many codes, one behind the other.
ghost use Rattle.std.specs.Prelude.{◌≡◌, ◌++◌, IfOk, IfErr, codes, false, map};
ghost use Rattle.command_results.specs.Lines.{AnswersLines, AreLinesOf, IsLinesCause};
ghost use Rattle.command_results.specs.Stops.{IsMemory};
ghost use Rattle.solve_command.specs.Many.{AnswersCode, AnswersCodes, SolvesLines, named};

use crate::solving::solve_bytes;
use allocation::Memory;
use command_results::{Said, Stop, first_line, input_lines};
use requests::SolveBounds;
use std::alloc::{AllocError, Global};
use streams::Source;

/// What is said of a word that has no certificate: the word, and what there is to say.
fn named(alloc: Global, word: &[u8], said: &[u8]) -> Result<Said, AllocError>
    ensures text { IfOk result (λ s. s.text.items ≡ named word.now said.now) }
    ensures succeeds { IfOk result (λ s. s.succeeds ≡ false) }
{
    let mut text = word.to_vec(alloc)?;
    text.extend_from_slice(b": ")?;
    text.extend_from_slice(said)?;
    Ok(Said::no(text))
}

/// What is said of a word of many: the certificate of its code, or behind the word how the search for
/// one was given up, or that it is no code.
fn word_answer(alloc: Global, word: &[u8], bounds: SolveBounds) -> Result<Said, Memory>
    ensures { IfOk result (λ s. AnswersCode bounds word.now s.text.items s.succeeds) }
{
    match solve_bytes(alloc, word, bounds) {
        Ok(said) if said.succeeds => Ok(said),
        Ok(said) => Ok(named(alloc, word, &said.text)?),
        Err(Stop::NotACode) => Ok(named(alloc, word, b"not a code\n")?),
        Err(_) => Err(Memory),
    }
}

/// What is said of each word, one behind the other; it ends well where each has a certificate.
fn words_answers(alloc: Global, words: &[&str], bounds: SolveBounds) -> Result<Said, Memory>
    ensures { IfOk result (λ s. AnswersCodes bounds (map (λ w. w.now) words.now) s.text.items
        s.succeeds) }
{
    let mut text = Vec::new(alloc);
    let mut succeeds = true;
    for word in words {
        let said = word_answer(alloc, word.as_bytes(), bounds)?;
        text.extend_from_slice(&said.text)?;
        succeeds = succeeds && said.succeeds;
    }
    Ok(Said { text, succeeds })
}

/// The same of each line.
fn lines_answers(alloc: Global, lines: &[u8], bounds: SolveBounds) -> Result<Said, Memory>
    ensures { IfOk result
        (λ s. AnswersLines (AnswersCode bounds) lines.now s.text.items s.succeeds) }
{
    let mut text = Vec::new(alloc);
    let mut succeeds = true;
    let mut rest = lines;
    while !rest.is_empty() {
        let (line, behind) = first_line(rest);
        let said = word_answer(alloc, line, bounds)?;
        text.extend_from_slice(&said.text)?;
        succeeds = succeeds && said.succeeds;
        rest = behind;
    }
    Ok(Said { text, succeeds })
}

/// Searches for a certificate of each code in turn, as [`solve`](crate::solve) does for one: says its
/// spelling, or behind the code how the search was given up. Of a word that is no code it says so. It
/// ends well where a certificate of each is found.
pub fn solve_many(alloc: Global, codes: &[&str], bounds: SolveBounds) -> Result<Said, Stop<'static>>
    ensures says { IfOk result (λ s. AnswersCodes bounds (map (λ w. w.now) codes.now) s.text.items
        s.succeeds) }
    ensures stops { IfErr result IsMemory }
{
    let said = words_answers(alloc, codes, bounds)?;
    Ok(said)
}

/// The same of the code of each line of standard input, of which
/// [`LARGEST_INPUT`](command_results::LARGEST_INPUT) bytes are read at most: more can't be read.
pub fn solve_lines<S: Source>(
    alloc: Global,
    bounds: SolveBounds,
    input: &mut S,
) -> Result<Said, Stop<'static>>
    ensures says { IfOk result (λ s. SolvesLines (AreLinesOf (S.left input.old)) bounds s.text.items
        s.succeeds) }
    ensures stops { IfErr result (IsLinesCause (AreLinesOf (S.left input.old))
        (S.failures input.old) (S.failures input.new)) }
{
    let lines = input_lines(alloc, input)?;
    let said = lines_answers(alloc, &lines, bounds)?;
    Ok(said)
}
