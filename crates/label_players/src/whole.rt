//! Playing whole games in which one heap may rule all others.
ghost use Rattle.std.specs.List.Sorted.{IsNonDecreasing};
ghost use Rattle.std.specs.Prelude.{◌-◌};
ghost use Rattle.misere_theory.specs.Games.{IsHeap, IsPosition};
ghost use Rattle.positions.specs.Outcomes.{HasOutcome};
ghost use Rattle.player.specs.Answers.{IsTriedAnswer};

use crate::triples::{StoppedTriple, is_in_portion, together, triple_of};
use allocation::SmallAllocator;
use player::{Answer, Labelling, answer_by, outcome_by};
use positions::{Options, Outcome, Position, options_up_to};
use std::alloc::Allocator;
use whole_checker::WholeGame;

/// Gives positions the triples of a whole game.
#[derive(Drop)]
struct ByTriples<'a, A: Allocator> {
    game: &'a WholeGame<A>,
}

/// Of a heap those options are tried that leave at most one heap from start on.
impl<A: Allocator> Labelling for ByTriples<'_, A> {
    type Label = StoppedTriple;

    ghost use Rattle.std.specs.Prelude.{◌-◌};
    ghost use Rattle.misere_theory.specs.Games.{IsHeap, IsPosition};
    ghost use Rattle.dominance.specs.Triples.{triple_of};
    ghost use Rattle.dominance_text.specs.Labels.{label_of};
    ghost use Rattle.label_players.specs.Triples.{IsTripleOf};

    ghost code = { λ s. s.game.now.code };

    ghost heap = { λ _. IsHeap };

    ghost labels = { λ s X x.
        IsPosition IsHeap X × IsTripleOf (triple_of (label_of s.game.now) X) x };

    ghost most = { λ s _. s.game.now.start - 1 };

    fn label(&self, heaps: &[u64]) -> StoppedTriple {
        triple_of(self.game.text(), heaps)
    }

    fn times(&self, x: StoppedTriple, y: StoppedTriple) -> StoppedTriple {
        together(x, y)
    }

    fn is_p(&self, x: StoppedTriple) -> bool {
        let _ = self.game.text();
        is_in_portion(x)
    }

    fn tried(&self, n: u64) -> Options {
        let text = self.game.text();
        options_up_to(&text.code, n, text.start as u64 - 1)
    }

    fn are_enough(&self) {
        let _ = self.game.text();
    }
}

/// Who wins from the position of these heaps, in any order, under misère play, whatever they are. It takes
/// no memory.
pub fn whole_outcome_at<A: Allocator>(game: &WholeGame<A>, heaps: &[u64]) -> Outcome
    requires { IsPosition IsHeap heaps.now }
    ensures { HasOutcome game.now.code heaps.now result }
{
    outcome_by(&ByTriples { game }, heaps)
}

/// Who wins from the position under misère play, whatever its heaps are. It takes no memory.
pub fn whole_outcome<A: Allocator, B: SmallAllocator>(
    game: &WholeGame<A>,
    position: &Position<B>,
) -> Outcome
    ensures { HasOutcome game.now.code position.now result }
{
    whole_outcome_at(game, position.heaps())
}

/// The answer in the position of these heaps, which stand rising: as `whole_answer`, of heaps in any memory.
pub fn whole_answer_at<A: Allocator>(game: &WholeGame<A>, heaps: &[u64]) -> Answer
    requires position { IsPosition IsHeap heaps.now }
    requires rising { IsNonDecreasing heaps.now }
    ensures { IsTriedAnswer game.now.code (λ _. game.now.start - 1) heaps.now result }
{
    answer_by(&ByTriples { game }, heaps)
}

/// What to do in the position, whatever its heaps are: nothing if no move exists or none wins, and else
/// a move that wins: the first one of those that leave at most one heap from start on, in the order in
/// which the player of a finite quotient has them. If any move wins, one of these does. It takes no memory.
pub fn whole_answer<A: Allocator, B: SmallAllocator>(
    game: &WholeGame<A>,
    position: &Position<B>,
) -> Answer
    ensures { IsTriedAnswer game.now.code (λ _. game.now.start - 1) position.now result }
{
    whole_answer_at(game, position.heaps())
}
