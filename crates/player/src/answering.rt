//! What a player answers in a position.
ghost use Rattle.std.specs.List.Sorted.{IsNonDecreasing};
ghost use Rattle.misere_theory.specs.Games.{IsPosition};
ghost use Rattle.positions.specs.Outcomes.{HasOutcome};
ghost use Rattle.player.specs.Answers.{IsTriedAnswer};

use crate::labelling::Labelling;
use crate::wins::first_win;
use positions::{Move, Outcome};

/// What a player answers in a position, when it is his turn.
#[derive(Clone, Copy, Debug, PartialEq, Eq)]
pub enum Answer {
    /// There is no move, so he has won.
    Ended,
    /// The opponent wins, whatever is moved.
    Lost,
    /// A move that wins.
    Wins(Move),
}

/// Who wins from the position of these heaps under misère play, by its label. It takes no memory.
pub fn outcome_by<L: Labelling>(by: &L, heaps: &[u64]) -> Outcome
    requires position { IsPosition (L.heap by.now) heaps.now }
    ensures { HasOutcome (L.code by.now) heaps.now result }
{
    if by.is_p(by.label(heaps)) {
        Outcome::P
    } else {
        Outcome::N
    }
}

/// The answer in the position of these heaps, which rise, by labels: the first of the moves that are
/// tried and win. Heaps come in the order of their sizes, and of one heap the options in their order.
/// It takes no memory.
pub fn answer_by<L: Labelling>(by: &L, heaps: &[u64]) -> Answer
    requires position { IsPosition (L.heap by.now) heaps.now }
    requires rising { IsNonDecreasing heaps.now }
    ensures { IsTriedAnswer (L.code by.now) (L.most by.now) heaps.now result }
{
    match outcome_by(by, heaps) {
        Outcome::P => Answer::Lost,
        Outcome::N => match first_win(by, heaps) {
            Some(made) => Answer::Wins(made),
            None => Answer::Ended,
        },
    }
}
