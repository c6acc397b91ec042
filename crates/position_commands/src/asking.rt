//! What is asked of a position, out of a file.
ghost use Rattle.std.specs.Prelude.{◌≡◌, false, IfOk, IfErr, IsErrOf, is_none, is_some, option_map};
ghost use Rattle.given_quotients.specs.Checks.{AreGiven, failed};
ghost use Rattle.given_quotients.specs.Says.{SaysFound};
ghost use Rattle.position_commands.specs.Plays.{IsPlayCause};
ghost use Rattle.position_commands.specs.Said.{Asks, SaysTo};

use crate::playing::{played, position_of};
use crate::valuing::value_said;
use crate::wins::wins_said;
use allocation::Memory;
use command_results::{Said, Stop};
use given_quotients::{Quotient, quotient_of};
use positions::Position;
use std::alloc::Global;
use streams::{Folder, Source};

/// What is asked of a position.
#[derive(Clone, Copy, Debug, PartialEq, Eq)]
pub enum Question {
    /// What to do in it: the first winning move, that each move loses, or that there is none. Of a whole game, of which
    /// the quotient speaks of every position, the first is meant of the moves that leave at most one heap from start
    /// on, and by a presentation, of those whose parts but the largest are heaps of its list.
    Play,
    /// All winning moves of those that a player looks at.
    Wins,
    /// Its element in the quotient, and its outcome: a number and a position of that element for a finite quotient, for
    /// a whole game a triple, and by a presentation a word.
    Value,
}

/// What is said to the question in the position by the quotient.
fn said_by(
    alloc: Global,
    question: Question,
    quotient: &Quotient,
    position: &Position,
) -> Result<Said, Memory>
    ensures { IfOk result
        (λ s. SaysTo question position.now quotient.now s.text.items s.succeeds) }
{
    match question {
        Question::Play => Ok(played(alloc, quotient, position)?),
        Question::Wins => wins_said(alloc, quotient, position),
        Question::Value => value_said(alloc, quotient, position),
    }
}

/// The same by what was found, or the text of a no.
pub fn said_in(
    alloc: Global,
    question: Question,
    found: Result<Quotient, Vec<u8>>,
    position: &Position,
) -> Result<Said, Memory>
    ensures { IfOk result
        (λ s. SaysFound (SaysTo question position.now) found s.text.items s.succeeds) }
{
    match found {
        Ok(quotient) => said_by(alloc, question, &quotient, position),
        Err(no) => Ok(Said::no(no)),
    }
}

/// Answers the question in the position by the quotient that the file, or standard input where no file is named,
/// gives under the limit; or says that a quotient doesn't speak of the position, or why there is none. The position
/// is read first.
pub fn ask<'a, F: Folder, S: Source>(
    alloc: Global,
    question: Question,
    file: Option<&'a str>,
    position: &str,
    limit: u32,
    folder: &mut F,
    input: &mut S,
) -> Result<Said, Stop<'a>>
    ensures asks { let named = option_map (λ f. f.now) file.entry in
        IfOk result (λ s. Asks question (AreGiven (S.left input.old) (F.files folder.old) named) limit
        position.now s.text.items s.succeeds) }
    ensures kept { F.files folder.new ≡ F.files folder.old }
    ensures usage { IsErrOf result Stop.NotAPosition → folder.new ≡ folder.old }
    ensures stops { IfErr result (IsPlayCause (option_map (λ f. f.now) file.entry) position.now
        (failed (S.failures input.old) (F.failed_reads folder.old))
        (failed (S.failures input.new) (F.failed_reads folder.new))) }
    ensures input { is_none (option_map (λ f. f.now) file.entry) ≡ false → input.new ≡ input.old }
    ensures folder { is_some (option_map (λ f. f.now) file.entry) ≡ false
        → folder.new ≡ folder.old }
{
    let position = position_of(alloc, position)?;
    let found = quotient_of(alloc, file, limit, folder, input)?;
    Ok(said_in(alloc, question, found, &position)?)
}
