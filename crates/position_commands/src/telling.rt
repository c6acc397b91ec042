//! `apart`: what tells two positions apart.
ghost use Rattle.std.specs.Prelude.{◌≡◌, ◌↔◌, ◌<◌, ℕ, List, false, true, IfOk, IfErr, IsErrOf, is_none, is_some, option_map};
ghost use Rattle.std.specs.Option.{MatchOption};
ghost use Rattle.misere_theory.specs.Certificates.{LeastApart, TellsApart, claim_of};
ghost use Rattle.misere_theory.specs.Quotients.{value};
ghost use Rattle.given_quotients.specs.Checks.{AreGiven, failed};
ghost use Rattle.given_quotients.specs.Says.{SaysFound};
ghost use Rattle.player.specs.Answers.{SpeaksOf};
ghost use Rattle.positions.specs.Outcomes.{HasOutcome};
ghost use Rattle.position_commands.specs.Apart.{SaysApart, SaysApartOfPresented, SaysApartOfWhole};
ghost use Rattle.position_commands.specs.Said.{AsksOfTwo, IsApartCause, SaysBy, SaysOfTwo};

use crate::lines::{alike_text, apart_text, heavy_text, untried_text};
use crate::playing::{beyond, position_of};
use allocation::Memory;
use answers::Certified;
use command_results::{Said, Stop};
use given_quotients::{Quotient, quotient_of};
use label_players::{Separation, presented_apart, presented_fits, whole_apart};
use player::{Outcome, fits, value};
use positions::Position;
use presented_checker::PresentedQuotient;
use std::alloc::Global;
use streams::{Folder, Source};
use whole_checker::WholeGame;

/// The least element that takes exactly one of the two into the portion, if there is one.
fn separating(certified: &Certified, x: u16, y: u16) -> Option<u16>
    requires x_in { x < certified.now.order }
    requires y_in { y < certified.now.order }
    ensures { MatchOption result
        ((z : ℕ) → z < certified.now.order → TellsApart (claim_of certified.now) (x, y) z → ⊥)
        (λ z. LeastApart (claim_of certified.now) (x, y) z) }
{
    for z in 0..certified.cert().order() {
        let one = certified.holds(certified.times(x, z));
        let other = certified.holds(certified.times(y, z));
        if one != other {
            return Some(z);
        }
    }
    None
}

/// The outcome of each position of this value.
fn outcome_at(certified: &Certified, element: u16) -> Outcome
    requires { element < certified.now.order }
    ensures by { (result ≡ Outcome.P) ↔ ((claim_of certified.now).portion element ≡ true) }
    ensures outcome { (X : List ℕ) → SpeaksOf certified.now X
        → value (claim_of certified.now) X ≡ element → HasOutcome certified.now.code X result }
{
    let _ = certified.cert();
    if certified.holds(element) {
        Outcome::P
    } else {
        Outcome::N
    }
}

/// What is said of the two positions, of which the certificate speaks.
fn apart_said(
    alloc: Global,
    certified: &Certified,
    first: &Position,
    second: &Position,
) -> Result<Said, Memory>
    requires first { SpeaksOf certified.now first.now }
    requires second { SpeaksOf certified.now second.now }
    ensures told { IfOk result
        (λ s. SaysApart certified.now first.now second.now s.text.items) }
    ensures succeeds { IfOk result (λ s. s.succeeds ≡ true) }
{
    let _ = certified.cert();
    let (x, y) = (value(certified, first), value(certified, second));
    let Some(z) = separating(certified, x, y) else {
        return Ok(Said::done(alike_text(alloc)?));
    };
    let third = certified.position_of(alloc, z)?;
    let one = outcome_at(certified, certified.times(x, z));
    let other = outcome_at(certified, certified.times(y, z));
    let text = apart_text(alloc, &third, one, other)?;
    Ok(Said::done(text))
}

/// What the certificate says of the two positions.
fn finite_said(
    alloc: Global,
    certified: &Certified,
    first: &Position,
    second: &Position,
) -> Result<Said, Memory>
    ensures { IfOk result
        (λ s. SaysBy (λ c. SpeaksOf c first.now × SpeaksOf c second.now)
        (λ c t b. SaysApart c first.now second.now t × (b ≡ true)) certified.now s.text.items
        s.succeeds) }
{
    if fits(certified, first) && fits(certified, second) {
        return apart_said(alloc, certified, first, second);
    }
    let said = beyond(alloc)?;
    Ok(said)
}

/// What is said of the two positions of a whole game.
fn whole_said(
    alloc: Global,
    game: &WholeGame,
    first: &Position,
    second: &Position,
) -> Result<Said, Memory>
    ensures { IfOk result (λ s. SaysApartOfWhole game.now first.now second.now s.text.items s.succeeds) }
{
    match whole_apart(alloc, game, first, second)? {
        Separation::Nothing => Ok(Said::done(alike_text(alloc)?)),
        Separation::By(third, one, other) => Ok(Said::done(apart_text(alloc, &third, one, other)?)),
        Separation::Untried => Ok(Said::done(untried_text(alloc)?)),
        Separation::Heavy => Ok(Said::no(heavy_text(alloc)?.into_bytes())),
    }
}

/// What is said of the two positions by a presentation.
fn presented_said(
    alloc: Global,
    quotient: &PresentedQuotient,
    first: &Position,
    second: &Position,
) -> Result<Said, Memory>
    ensures { IfOk result
        (λ s. SaysApartOfPresented quotient.now first.now second.now s.text.items s.succeeds) }
{
    if !presented_fits(quotient, first) || !presented_fits(quotient, second) {
        let said = beyond(alloc)?;
        return Ok(said);
    }
    match presented_apart(alloc, quotient, first, second)? {
        Separation::Nothing => Ok(Said::done(alike_text(alloc)?)),
        Separation::By(third, one, other) => Ok(Said::done(apart_text(alloc, &third, one, other)?)),
        Separation::Untried => Ok(Said::done(untried_text(alloc)?)),
        Separation::Heavy => Ok(Said::no(heavy_text(alloc)?.into_bytes())),
    }
}

/// What is said of the two positions by what was found.
fn said_in(
    alloc: Global,
    found: Result<Quotient, Vec<u8>>,
    first: &Position,
    second: &Position,
) -> Result<Said, Memory>
    ensures { IfOk result
        (λ s. SaysFound (SaysOfTwo first.now second.now) found s.text.items s.succeeds) }
{
    match found {
        Ok(Quotient::Finite(certified)) => finite_said(alloc, &certified, first, second),
        Ok(Quotient::Whole(game)) => whole_said(alloc, &game, first, second),
        Ok(Quotient::Presented(quotient)) => presented_said(alloc, &quotient, first, second),
        Err(no) => Ok(Said::no(no)),
    }
}

/// Says whether two positions are indistinguishable by the quotient that the file, or standard input where
/// no file is named, gives under the limit. If they aren't, it names a third position beside which their
/// outcomes differ: by a finite quotient one of as few heaps as can be, and in a whole game and by a
/// presentation one that is tried, or that none of these does. Or it says that a partial quotient doesn't speak of one of them, or why
/// there is none. The positions are read first.
pub fn apart<'a, F: Folder, S: Source>(
    alloc: Global,
    file: Option<&'a str>,
    first: &str,
    second: &str,
    limit: u32,
    folder: &mut F,
    input: &mut S,
) -> Result<Said, Stop<'a>>
    ensures asks { let named = option_map (λ f. f.now) file.entry in
        IfOk result (λ s. AsksOfTwo (AreGiven (S.left input.old) (F.files folder.old) named) limit
        first.now second.now s.text.items s.succeeds) }
    ensures kept { F.files folder.new ≡ F.files folder.old }
    ensures usage { IsErrOf result Stop.NotAPosition → folder.new ≡ folder.old }
    ensures stops { IfErr result (IsApartCause (option_map (λ f. f.now) file.entry) first.now
        second.now (failed (S.failures input.old) (F.failed_reads folder.old))
        (failed (S.failures input.new) (F.failed_reads folder.new))) }
    ensures input { is_none (option_map (λ f. f.now) file.entry) ≡ false → input.new ≡ input.old }
    ensures folder { is_some (option_map (λ f. f.now) file.entry) ≡ false
        → folder.new ≡ folder.old }
{
    let first = position_of(alloc, first)?;
    let second = position_of(alloc, second)?;
    let found = quotient_of(alloc, file, limit, folder, input)?;
    Ok(said_in(alloc, found, &first, &second)?)
}
