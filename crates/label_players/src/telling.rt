//! What tells two positions apart.
ghost use Rattle.std.specs.Prelude.{◌≡◌, ◌↔◌, IfOk, IfSome, IsTrue};
ghost use Rattle.label_players.specs.Plays.{SpeaksOf};
ghost use Rattle.label_players.specs.Told.{AreApartBy, IsTelling};

use crate::Separation;
use crate::guessing::{position_of, telling_word};
use crate::play::{presented_fits, presented_form, presented_outcome};
use crate::wide::WideWord;
use allocation::{Memory, SmallAllocator};
use positions::{Outcome, Position};
use presentations::LETTERS;
use presented_checker::PresentedQuotient;
use std::alloc::Allocator;

/// Whether the words are the same.
fn are_same(v: &WideWord, w: &WideWord) -> bool
    ensures { IsTrue result ↔ (v.now ≡ w.now) }
{
    for i in 0..LETTERS {
        if v[i] != w[i] {
            return false;
        }
    }
    true
}

/// The outcomes of the two beside a third position, if they differ.
fn told_by<A: Allocator, B: SmallAllocator + Copy>(
    quotient: &PresentedQuotient<A>,
    first: &Position<B>,
    second: &Position<B>,
    third: &Position<B>,
) -> Result<Option<(Outcome, Outcome)>, Memory>
    requires first { SpeaksOf quotient.now first.now }
    requires second { SpeaksOf quotient.now second.now }
    requires third { SpeaksOf quotient.now third.now }
    ensures { IfOk result
        (λ told. IfSome told (λ o. AreApartBy quotient.now first.now second.now third.now o.0 o.1)) }
{
    let one = presented_outcome(quotient, &first.add(third)?);
    let other = presented_outcome(quotient, &second.add(third)?);
    if one == other {
        return Ok(None);
    }
    Ok(Some((one, other)))
}

/// A position that was guessed, if it tells the two apart.
fn guessed<A: Allocator, B: SmallAllocator + Copy>(
    alloc: B,
    quotient: &PresentedQuotient<A>,
    first: &Position<B>,
    second: &Position<B>,
    forms: (WideWord, WideWord),
) -> Result<Option<Separation<B>>, Memory>
    requires first { SpeaksOf quotient.now first.now }
    requires second { SpeaksOf quotient.now second.now }
    ensures { IfOk result
        (λ told. IfSome told (λ t. IsTelling quotient.now first.now second.now t)) }
{
    let said = quotient.said();
    let Some(word) = telling_word(alloc, said, &forms.0, &forms.1)? else {
        return Ok(None);
    };
    let third = position_of(alloc, said, &word)?;
    if !presented_fits(quotient, &third) {
        return Ok(None);
    }
    match told_by(quotient, first, second, &third)? {
        Some((one, other)) => Ok(Some(Separation::By(third, one, other))),
        None => Ok(None),
    }
}

/// What tells the two positions apart: nothing exactly if they are indistinguishable. A position that does is looked for
/// among those of the heaps of letters, shorter words first. Asks that the presentation speaks of both, as
/// [`presented_fits`](crate::presented_fits) tells.
pub fn presented_apart<A: Allocator, B: SmallAllocator + Copy>(
    alloc: B,
    quotient: &PresentedQuotient<A>,
    first: &Position<B>,
    second: &Position<B>,
) -> Result<Separation<B>, Memory>
    requires first { SpeaksOf quotient.now first.now }
    requires second { SpeaksOf quotient.now second.now }
    ensures { IfOk result (IsTelling quotient.now first.now second.now) }
{
    let _ = quotient.said();
    let x = presented_form(quotient, first);
    let y = presented_form(quotient, second);
    if are_same(&x, &y) {
        return Ok(Separation::Nothing);
    }
    match guessed(alloc, quotient, first, second, (x, y))? {
        Some(told) => Ok(told),
        None => Ok(Separation::Untried),
    }
}
