//! The answers in the positions of many lines.
ghost use Rattle.std.specs.Prelude.{◌≡◌, false, IfOk, IfErr};
ghost use Rattle.given_quotients.specs.Checks.{failed};
ghost use Rattle.given_quotients.specs.Says.{SaysFound};
ghost use Rattle.command_results.specs.Lines.{AnswersLines, AreLinesOf, IsLinesCause};
ghost use Rattle.position_commands.specs.PlayLines.{no_position_line};
ghost use Rattle.position_commands.specs.Many.{AnswersGiven, AnswersLine, AreFileOf, IsPlayLinesCause, PlaysLines};

use crate::playing::played;
use command_results::{Said, Stop, first_line, input_lines};
use given_quotients::{Quotient, quotient_of};
use positions::{Position, PositionFault};
use std::alloc::{AllocError, Global};
use streams::{Folder, Source};

/// That a line is no position.
fn no_position(alloc: Global) -> Result<Said, AllocError>
    ensures text { IfOk result (λ s. s.text.items ≡ no_position_line) }
    ensures succeeds { IfOk result (λ s. s.succeeds ≡ false) }
{
    let text = String::from_str(alloc, "not a position\n")?;
    Ok(Said::no(text.into_bytes()))
}

/// What is said of a line: what to do in its position, or that it is none.
fn line_answer(alloc: Global, quotient: &Quotient, line: &[u8]) -> Result<Said, AllocError>
    ensures { IfOk result (λ s. AnswersLine quotient.now line.now s.text.items s.succeeds) }
{
    match Position::read(alloc, line) {
        Ok(position) => played(alloc, quotient, &position),
        Err(PositionFault::Memory) => Err(AllocError),
        Err(PositionFault::Text | PositionFault::TooMany | PositionFault::TooLarge) => {
            no_position(alloc)
        }
    }
}

/// What is said of each line, one behind the other; it ends well where each line has an answer.
fn lines_answers(alloc: Global, quotient: &Quotient, lines: &[u8]) -> Result<Said, AllocError>
    ensures { IfOk result (λ s. AnswersLines (AnswersLine quotient.now) lines.now s.text.items s.succeeds) }
{
    let mut text = Vec::new(alloc);
    let mut succeeds = true;
    let mut rest = lines;
    while !rest.is_empty() {
        let (line, behind) = first_line(rest);
        let said = line_answer(alloc, quotient, line)?;
        text.extend_from_slice(&said.text)?;
        succeeds = succeeds && said.succeeds;
        rest = behind;
    }
    Ok(Said { text, succeeds })
}

/// What is said of each line of standard input by what was found, or the text of a no, and standard input is left
/// alone.
pub fn lines_said<S: Source>(
    alloc: Global,
    found: Result<Quotient, Vec<u8>>,
    input: &mut S,
) -> Result<Said, Stop<'static>>
    ensures says { IfOk result
        (λ s. SaysFound (AnswersGiven (AreLinesOf (S.left input.old))) found s.text.items s.succeeds) }
    ensures stops { IfErr result (IsLinesCause (AreLinesOf (S.left input.old))
        (S.failures input.old) (S.failures input.new)) }
{
    match found {
        Ok(quotient) => {
            let lines = input_lines(alloc, input)?;
            Ok(lines_answers(alloc, &quotient, &lines)?)
        }
        Err(no) => Ok(Said::no(no)),
    }
}

/// Answers in the position of each line of standard input by the quotient that the file gives
/// under the limit, as [`ask`](crate::ask) does in one what to do; of a line that is no position it says so.
/// It ends well where each line has an answer. Or it says why the file gives no quotient, and
/// standard input is left alone. The file's text is checked once, and first.
pub fn play_lines<'a, F: Folder, S: Source>(
    alloc: Global,
    file: &'a str,
    limit: u32,
    folder: &mut F,
    input: &mut S,
) -> Result<Said, Stop<'a>>
    ensures plays { IfOk result (λ s. PlaysLines (AreFileOf (F.files folder.old) file.entry.now) limit
        (AreLinesOf (S.left input.old)) s.text.items s.succeeds) }
    ensures kept { F.files folder.new ≡ F.files folder.old }
    ensures stops { IfErr result (IsPlayLinesCause file.entry.now (AreLinesOf (S.left input.old))
        (failed (S.failures input.old) (F.failed_reads folder.old))
        (failed (S.failures input.new) (F.failed_reads folder.new))) }
{
    let found = quotient_of(alloc, Some(file), limit, folder, input)?;
    lines_said(alloc, found, input)
}
