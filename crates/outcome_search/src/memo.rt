//! The outcomes that were found.
ghost use Rattle.std.specs.Prelude.{◌≡◌, [], ◌∷◌, ◌++◌, None, length, nat_eq, OnOk};
ghost use Rattle.std.specs.List.{IsDistinct};
ghost use Rattle.std.specs.Cmp.Lexicographic.{pointwise};
ghost use Rattle.std.specs.Map.{keys_of};
ghost use Rattle.outcome_search.specs.Known.{known};

use allocation::{Memory, SmallAllocator};
use indexmap::IndexMap;
use positions::{Outcome, Position};
use std::hash::{BuildHasherDefault, FoldHasher};
use std::marker::Model;

/// The outcomes that a search has found, seen as the list of positions with their outcomes, in the
/// order in which they were found.
#[derive(Drop)]
pub(crate) struct Memo<A: SmallAllocator> {
    outcomes: IndexMap<Position<A>, Outcome, BuildHasherDefault<FoldHasher>, A>,
}

impl<A: SmallAllocator> Model for Memo<A> {
    ghost use Rattle.std.specs.Prelude.{ℕ, List};
    ghost use Rattle.positions.specs.declared.outcome.Outcome.{Outcome};

    ghost Value = { List (List ℕ × Outcome) };

    ghost view = { λ m. m.outcomes.entries };
}

impl<A: SmallAllocator + Copy> Memo<A> {
    /// Nothing is known yet.
    pub(crate) fn new(alloc: A) -> Memo<A>
        ensures { result ≡ [] }
    {
        Memo {
            outcomes: IndexMap::new(alloc),
        }
    }

    /// How many positions are known.
    pub(crate) fn len(&self) -> usize
        ensures value { result ≡ length self.now }
        ensures distinct { IsDistinct (pointwise nat_eq) (keys_of self.now) }
    {
        self.outcomes.len()
    }

    /// What is known of a position.
    pub(crate) fn get(&self, position: &Position<A>) -> Option<Outcome>
        ensures { result ≡ known self.now position.now }
    {
        self.outcomes.get(position).copied()
    }

    /// Notes the outcome of a position that wasn't known.
    pub(crate) fn insert(&mut self, position: Position<A>, outcome: Outcome) -> Result<(), Memory>
        requires { known self.old position ≡ None }
        ensures { OnOk result (self.new ≡ self.old ++ (position, outcome) ∷ []) }
    {
        self.outcomes.insert(position, outcome)?;
        Ok(())
    }
}
