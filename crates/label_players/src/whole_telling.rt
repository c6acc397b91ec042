//! What tells two positions of a whole game apart.
ghost use Rattle.std.specs.Prelude.{IfOk, IfSome};
ghost use Rattle.label_players.specs.WholeTold.{AreApartBy, IsTelling};

use crate::value::whole_value;
use crate::whole::whole_outcome;
use crate::whole_guessing::{Guess, Tools, guesses, position_of, tools_of};
use allocation::{Memory, SmallAllocator};
use positions::{Outcome, Position};
use std::alloc::{Allocator, Global};
use whole_checker::WholeGame;

/// What tells two positions apart.
#[derive(Drop)]
pub enum Separation<B: SmallAllocator = Global> {
    /// Nothing does: they are indistinguishable.
    Nothing,
    /// Beside this position they have these outcomes, which differ.
    By(Position<B>, Outcome, Outcome),
    /// Some position does, but none that was tried.
    Untried,
    /// One of them weighs [`LARGEST_SUM`](crate::LARGEST_SUM) or more.
    Heavy,
}

/// The outcomes of the two beside a third position, if they differ.
fn told_by<A: Allocator, B: SmallAllocator + Copy>(
    game: &WholeGame<A>,
    first: &Position<B>,
    second: &Position<B>,
    third: &Position<B>,
) -> Result<Option<(Outcome, Outcome)>, Memory>
    ensures { IfOk result
        (λ told. IfSome told
        (λ o. AreApartBy game.now.code first.now second.now third.now o.0 o.1)) }
{
    let _ = third.heaps();
    let one = whole_outcome(game, &first.add(third)?);
    let other = whole_outcome(game, &second.add(third)?);
    if one == other {
        return Ok(None);
    }
    Ok(Some((one, other)))
}

/// Tries a guess, with up to two more heaps of weight 1, and with one that turns the parity or without.
fn tried<A: Allocator, B: SmallAllocator + Copy>(
    alloc: B,
    game: &WholeGame<A>,
    first: &Position<B>,
    second: &Position<B>,
    tools: Tools,
    guess: Guess,
) -> Result<Option<Separation<B>>, Memory>
    ensures { IfOk result
        (λ told. IfSome told (λ t. IsTelling game.now first.now second.now t)) }
{
    for i in 0..6 {
        let third = position_of(alloc, tools, guess, i / 2, i % 2)?;
        if let Some((one, other)) = told_by(game, first, second, &third)? {
            return Ok(Some(Separation::By(third, one, other)));
        }
    }
    Ok(None)
}

/// What tells the two positions of a whole game apart, whatever their heaps are: nothing exactly if they are
/// indistinguishable. A position that does is looked for among those of a heap or two, and some of weight 0
/// and 1: one that wears the greater lead down to 1, one whose lead lies between the two weights, or two
/// equal heaps beside which no heap rules. Which of them tells two triples apart is this project's own.
pub fn whole_apart<A: Allocator, B: SmallAllocator + Copy>(
    alloc: B,
    game: &WholeGame<A>,
    first: &Position<B>,
    second: &Position<B>,
) -> Result<Separation<B>, Memory>
    ensures { IfOk result (IsTelling game.now first.now second.now) }
{
    let text = game.text();
    let _ = first.heaps();
    let _ = second.heaps();
    let Some(x) = whole_value(game, first) else {
        return Ok(Separation::Heavy);
    };
    let Some(y) = whole_value(game, second) else {
        return Ok(Separation::Heavy);
    };
    if x == y {
        return Ok(Separation::Nothing);
    }
    let tools = tools_of(text);
    for guess in guesses(alloc, text, x, y)? {
        if let Some(told) = tried(alloc, game, first, second, tools, guess)? {
            return Ok(told);
        }
    }
    Ok(Separation::Untried)
}
