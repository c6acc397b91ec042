//! The triple of a position of a whole game.
ghost use Rattle.std.specs.Prelude.{◌≡◌, ◌≤◌};
ghost use Rattle.std.specs.Option.{MatchOption};
ghost use Rattle.dominance.specs.Triples.{triple_of};
ghost use Rattle.dominance_text.specs.Labels.{label_of};
ghost use Rattle.label_players.specs.Values.{triple_told};

use crate::triples::{LARGEST_SUM, triple_of};
use allocation::SmallAllocator;
use positions::Position;
use std::alloc::Allocator;
use whole_checker::WholeGame;

/// The element of a position in the quotient of a whole game: whether it is odd, its weight, and its
/// lead, which is 0 if no heap rules.
#[derive(Clone, Copy, Debug, PartialEq, Eq)]
pub struct WholeValue {
    pub odd: bool,
    pub weight: u128,
    pub lead: u128,
}

/// The triple of the position, whatever its heaps are. `None` if it weighs [`LARGEST_SUM`] or more, which
/// no position of 64 heaps does. It takes no memory.
pub fn whole_value<A: Allocator, B: SmallAllocator>(
    game: &WholeGame<A>,
    position: &Position<B>,
) -> Option<WholeValue>
    ensures { MatchOption result
        (LARGEST_SUM ≤ (triple_of (label_of game.now) position.now).weight)
        (λ t. triple_told t ≡ triple_of (label_of game.now) position.now) }
{
    let triple = triple_of(game.text(), position.heaps());
    if triple.weight >= LARGEST_SUM {
        return None;
    }
    Some(WholeValue {
        odd: triple.odd,
        weight: triple.weight,
        lead: triple.lead,
    })
}
