//! The element of a position.
ghost use Rattle.std.specs.Prelude.{◌≡◌, true, IfOk};
ghost use Rattle.player.specs.Answers.{SpeaksOf};
ghost use Rattle.position_commands.specs.Said.{SaysBy, SaysValue};
ghost use Rattle.position_commands.specs.Values.{TellsForm, TellsValue, TellsWholeValue};

use crate::lines::{form_text, heavy_text, triple_text, value_text};
use crate::playing::beyond;
use allocation::Memory;
use answers::Certified;
use command_results::Said;
use given_quotients::Quotient;
use label_players::{
    presented_fits, presented_form, presented_outcome, whole_outcome, whole_value,
};
use player::{fits, outcome, value as element_of};
use positions::Position;
use presented_checker::PresentedQuotient;
use std::alloc::Global;
use whole_checker::WholeGame;

/// The line of the position's element, of which the certificate speaks.
fn element_said(alloc: Global, certified: &Certified, position: &Position) -> Result<Said, Memory>
    requires { SpeaksOf certified.now position.now }
    ensures line { IfOk result (λ s. TellsValue certified.now position.now s.text.items) }
    ensures succeeds { IfOk result (λ s. s.succeeds ≡ true) }
{
    let element = element_of(certified, position);
    let spelled = certified.position_of(alloc, element)?;
    let text = value_text(alloc, element, outcome(certified, position), &spelled)?;
    Ok(Said::done(text))
}

/// What the certificate says of the position.
fn finite_said(alloc: Global, certified: &Certified, position: &Position) -> Result<Said, Memory>
    ensures { IfOk result (λ s. SaysBy (λ c. SpeaksOf c position.now)
        (λ c t b. TellsValue c position.now t × (b ≡ true)) certified.now s.text.items s.succeeds) }
{
    if fits(certified, position) {
        return element_said(alloc, certified, position);
    }
    let said = beyond(alloc)?;
    Ok(said)
}

/// The line of the position's triple in a whole game.
fn whole_said(alloc: Global, game: &WholeGame, position: &Position) -> Result<Said, Memory>
    ensures { IfOk result (λ s. TellsWholeValue game.now position.now s.text.items s.succeeds) }
{
    let Some(triple) = whole_value(game, position) else {
        return Ok(Said::no(heavy_text(alloc)?.into_bytes()));
    };
    let text = triple_text(alloc, triple, whole_outcome(game, position))?;
    Ok(Said::done(text))
}

/// The line of the position's normal form, of which the presentation speaks; or that it doesn't.
fn presented_said(
    alloc: Global,
    quotient: &PresentedQuotient,
    position: &Position,
) -> Result<Said, Memory>
    ensures { IfOk result (λ s. TellsForm quotient.now position.now s.text.items s.succeeds) }
{
    if !presented_fits(quotient, position) {
        let said = beyond(alloc)?;
        return Ok(said);
    }
    let form = presented_form(quotient, position);
    let text = form_text(alloc, &form, presented_outcome(quotient, position))?;
    Ok(Said::done(text))
}

/// What the quotient says of the position: its element and outcome, or that it doesn't speak of it.
pub(crate) fn value_said(
    alloc: Global,
    quotient: &Quotient,
    position: &Position,
) -> Result<Said, Memory>
    ensures { IfOk result (λ s. SaysValue position.now quotient.now s.text.items s.succeeds) }
{
    match quotient {
        Quotient::Finite(certified) => finite_said(alloc, certified, position),
        Quotient::Whole(game) => whole_said(alloc, game, position),
        Quotient::Presented(quotient) => presented_said(alloc, quotient, position),
    }
}
