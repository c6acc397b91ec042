//! The answer in a position.
ghost use Rattle.std.specs.Prelude.{◌≡◌, ◌≤◌, true, false, IfOk, IfErr};
ghost use Rattle.positions.specs.Text.{IsTextOf};
ghost use Rattle.player.specs.Answers.{SpeaksOf};
ghost use Rattle.label_players.specs.Plays.{SpeaksOf as HasWordsOf};
ghost use Rattle.position_commands.specs.PlayLines.{beyond_line};
ghost use Rattle.position_commands.specs.Plays.{AnswersIn, AnswersPresented, AnswersWhole, IsPositionCause, PlaysFinite, PlaysIn, PlaysPresented};

use crate::answer_lines::{answer_text, beyond_text};
use answers::Certified;
use command_results::{Said, Stop};
use given_quotients::Quotient;
use label_players::{presented_answer, presented_fits, whole_answer};
use player::{answer, fits};
use positions::{Position, PositionFault};
use presented_checker::PresentedQuotient;
use std::alloc::{AllocError, Global};
use whole_checker::WholeGame;

/// The position of the text.
pub fn position_of(alloc: Global, text: &str) -> Result<Position, Stop<'static>>
    ensures read { IfOk result (IsTextOf text.now) }
    ensures stops { IfErr result (IsPositionCause text.now) }
{
    match Position::read(alloc, text.as_bytes()) {
        Ok(position) => Ok(position),
        Err(PositionFault::Memory) => Err(Stop::Memory),
        Err(PositionFault::Text | PositionFault::TooMany | PositionFault::TooLarge) => {
            Err(Stop::NotAPosition)
        }
    }
}

/// The line of the answer in the position, of which the certificate speaks.
fn answered(alloc: Global, certified: &Certified, position: &Position) -> Result<Said, AllocError>
    requires { SpeaksOf certified.now position.now }
    ensures answered { IfOk result (λ s. AnswersIn certified.now position.now s.text.items) }
    ensures succeeds { IfOk result (λ s. s.succeeds ≡ true) }
{
    let text = answer_text(alloc, answer(certified, position))?;
    Ok(Said::done(text))
}

/// That the certificate doesn't speak of the position.
pub(crate) fn beyond(alloc: Global) -> Result<Said, AllocError>
    ensures text { IfOk result (λ s. s.text.items ≡ beyond_line) }
    ensures succeeds { IfOk result (λ s. s.succeeds ≡ false) }
{
    Ok(Said::no(beyond_text(alloc)?.into_bytes()))
}

/// The line of the answer in the position, or that the certificate doesn't speak of it.
fn finite_played(
    alloc: Global,
    certified: &Certified,
    position: &Position,
) -> Result<Said, AllocError>
    ensures plays { IfOk result (λ s. PlaysFinite certified.now position.now s.text.items s.succeeds) }
    ensures full { 1 ≤ certified.now.period → IfOk result (λ s. s.succeeds ≡ true) }
{
    if fits(certified, position) {
        answered(alloc, certified, position)
    } else {
        beyond(alloc)
    }
}

/// The line of the answer in the position of a whole game.
fn whole_played(alloc: Global, game: &WholeGame, position: &Position) -> Result<Said, AllocError>
    ensures plays { IfOk result (λ s. AnswersWhole game.now position.now s.text.items) }
    ensures succeeds { IfOk result (λ s. s.succeeds ≡ true) }
{
    let text = answer_text(alloc, whole_answer(game, position))?;
    Ok(Said::done(text))
}

/// The line of the answer in the position, of which the presentation speaks.
fn presented_answered(
    alloc: Global,
    quotient: &PresentedQuotient,
    position: &Position,
) -> Result<Said, AllocError>
    requires { HasWordsOf quotient.now position.now }
    ensures answered { IfOk result (λ s. AnswersPresented quotient.now position.now s.text.items) }
    ensures succeeds { IfOk result (λ s. s.succeeds ≡ true) }
{
    let text = answer_text(alloc, presented_answer(quotient, position))?;
    Ok(Said::done(text))
}

/// The line of the answer in the position by a presentation, or that this doesn't speak of it.
fn presented_played(
    alloc: Global,
    quotient: &PresentedQuotient,
    position: &Position,
) -> Result<Said, AllocError>
    ensures { IfOk result (λ s. PlaysPresented quotient.now position.now s.text.items s.succeeds) }
{
    if presented_fits(quotient, position) {
        presented_answered(alloc, quotient, position)
    } else {
        beyond(alloc)
    }
}

/// What is said in the position by the quotient.
pub(crate) fn played(
    alloc: Global,
    quotient: &Quotient,
    position: &Position,
) -> Result<Said, AllocError>
    ensures { IfOk result (λ s. PlaysIn quotient.now position.now s.text.items s.succeeds) }
{
    match quotient {
        Quotient::Finite(certified) => finite_played(alloc, certified, position),
        Quotient::Whole(game) => whole_played(alloc, game, position),
        Quotient::Presented(quotient) => presented_played(alloc, quotient, position),
    }
}
