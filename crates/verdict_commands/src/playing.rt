//! The answers in positions, by what a file shows.
ghost use Rattle.std.specs.Prelude.{◌≡◌, false, IfOk, IfErr, IsErrOf, is_none, is_some, option_map};
ghost use Rattle.command_results.specs.Lines.{AreLinesOf};
ghost use Rattle.given_quotients.specs.Checks.{AreGiven, failed};
ghost use Rattle.position_commands.specs.Many.{AreFileOf, IsPlayLinesCause};
ghost use Rattle.position_commands.specs.Plays.{IsPlayCause};
ghost use Rattle.verdict_commands.specs.Checks.{PlaysInfinite, PlaysInfiniteLines};

use crate::endless::found;
use command_results::{Said, Stop};
use position_commands::{Question, lines_said, position_of, said_in};
use std::alloc::Global;
use streams::{Folder, Source};

/// Answers in the position by the infinite quotient that the file, or standard input where no file is
/// named, shows: with the first winning move, that each move loses, or that there is none; or says that
/// the text doesn't speak of the position, or why there is no quotient. A text of a whole game speaks of
/// every position, and a presentation of those whose heaps have words. The position is read first.
pub fn play_infinite<'a, F: Folder, S: Source>(
    alloc: Global,
    file: Option<&'a str>,
    position: &str,
    folder: &mut F,
    input: &mut S,
) -> Result<Said, Stop<'a>>
    ensures plays { let named = option_map (λ f. f.now) file.entry in
        IfOk result (λ s. PlaysInfinite (AreGiven (S.left input.old) (F.files folder.old) named)
        position.now s.text.items s.succeeds) }
    ensures kept { F.files folder.new ≡ F.files folder.old }
    ensures usage { IsErrOf result Stop.NotAPosition → folder.new ≡ folder.old }
    ensures stops { IfErr result (IsPlayCause (option_map (λ f. f.now) file.entry) position.now
        (failed (S.failures input.old) (F.failed_reads folder.old))
        (failed (S.failures input.new) (F.failed_reads folder.new))) }
    ensures input { is_none (option_map (λ f. f.now) file.entry) ≡ false → input.new ≡ input.old }
    ensures folder { is_some (option_map (λ f. f.now) file.entry) ≡ false
        → folder.new ≡ folder.old }
{
    let position = position_of(alloc, position)?;
    let found = found(alloc, file, folder, input)?;
    Ok(said_in(alloc, Question::Play, found, &position)?)
}

/// Answers in the position of each line of standard input by what the file shows, as [`play_infinite`]
/// does in one; of a line that is no position it says so. It ends well if each line has an answer. Or it says why the
/// file shows nothing, and standard input is left alone. The text is checked once, and first.
pub fn play_infinite_lines<'a, F: Folder, S: Source>(
    alloc: Global,
    file: &'a str,
    folder: &mut F,
    input: &mut S,
) -> Result<Said, Stop<'a>>
    ensures plays { IfOk result (λ s. PlaysInfiniteLines (AreFileOf (F.files folder.old) file.entry.now)
        (AreLinesOf (S.left input.old)) s.text.items s.succeeds) }
    ensures kept { F.files folder.new ≡ F.files folder.old }
    ensures stops { IfErr result (IsPlayLinesCause file.entry.now (AreLinesOf (S.left input.old))
        (failed (S.failures input.old) (F.failed_reads folder.old))
        (failed (S.failures input.new) (F.failed_reads folder.new))) }
{
    let found = found(alloc, Some(file), folder, input)?;
    lines_said(alloc, found, input)
}
