//! The positions that moves reach.
ghost use Rattle.std.specs.Prelude.{◌≡◌, ◌<◌, [], ◌∷◌, length, slice_index_or, nat_eq, IfOk, OnOk, IsTrue};
ghost use Rattle.std.specs.List.{IsDistinct};
ghost use Rattle.std.specs.List.Sorted.{IsNonDecreasing};
ghost use Rattle.std.specs.Cmp.Lexicographic.{pointwise};
ghost use Rattle.indexmap.specs.IndexSet.{insert_key};
ghost use Rattle.misere_theory.specs.Plays.{MoreReachableThan};
ghost use Rattle.outcome_search.specs.Reached.{AddsMoves};

use allocation::{Memory, SmallAllocator};
use indexmap::IndexSet;
use octal_code::Code;
use positions::{Position, options, options_are_exact};
use std::hash::{BuildHasherDefault, FoldHasher};
use std::marker::Model;

/// Positions that moves reach, each once, in the order in which they were found.
#[derive(Drop)]
struct Reached<A: SmallAllocator> {
    positions: IndexSet<Position<A>, BuildHasherDefault<FoldHasher>, A>,
}

impl<A: SmallAllocator> Model for Reached<A> {
    ghost use Rattle.std.specs.Prelude.{ℕ, List};

    ghost Value = { List (List ℕ) };

    ghost view = { λ r. r.positions.keys };
}

impl<A: SmallAllocator + Copy> Reached<A> {
    /// The position alone.
    fn new(alloc: A, position: &Position<A>) -> Result<Reached<A>, Memory>
        ensures alone { IfOk result (λ reached. reached ≡ position.now ∷ []) }
        ensures rising { IsNonDecreasing position.now }
    {
        let first = position.copied(alloc)?;
        let mut positions = IndexSet::new(alloc);
        positions.insert(first)?;
        Ok(Reached { positions })
    }

    /// How many they are.
    fn len(&self) -> usize
        ensures value { result ≡ length self.now }
        ensures distinct { IsDistinct (pointwise nat_eq) self.now }
    {
        self.positions.len()
    }

    /// The position with this number.
    fn at(&self, number: usize) -> &Position<A>
        requires { number < length self.now }
        ensures { result.now ≡ slice_index_or self.now number [] }
    {
        &self.positions[number]
    }

    /// Adds a position, unless it is there.
    fn add(&mut self, position: Position<A>) -> Result<(), Memory>
        ensures { OnOk result (self.new ≡ insert_key (pointwise nat_eq) self.old position) }
    {
        self.positions.insert(position)?;
        Ok(())
    }

    /// Adds the positions to which moves lead from the one with this number, and answers whether
    /// there are more than `most` now. It stops where there are.
    fn add_moves(
        &mut self,
        alloc: A,
        code: &Code,
        number: usize,
        most: usize,
    ) -> Result<bool, Memory>
        requires { number < length self.old }
        ensures adds { OnOk result (AddsMoves code.now number self.old self.new) }
        ensures more { IfOk result (λ more. IsTrue more → (most < length self.new)
            × IsDistinct (pointwise nat_eq) self.new) }
    {
        let mut before = 0;
        for place in 0..self.at(number).heaps().len() {
            let heap = self.at(number).heaps()[place];
            if heap != before && self.add_moves_of(alloc, code, number, place, most)? {
                return Ok(true);
            }
            before = heap;
        }
        Ok(false)
    }

    /// The same for the moves of the heap at this place.
    fn add_moves_of(
        &mut self,
        alloc: A,
        code: &Code,
        number: usize,
        place: usize,
        most: usize,
    ) -> Result<bool, Memory>
        requires there { number < length self.old }
        requires place { place < length (slice_index_or self.old number []) }
        ensures adds { OnOk result (AddsMoves code.now number self.old self.new) }
        ensures more { IfOk result (λ more. IsTrue more → (most < length self.new)
            × IsDistinct (pointwise nat_eq) self.new) }
    {
        options_are_exact();
        for left in options(code, self.at(number).heaps()[place]) {
            let mut next = Position::new(alloc);
            next.set_moved(self.at(number), place, left)?;
            self.add(next)?;
            if self.len() > most {
                return Ok(true);
            }
        }
        Ok(false)
    }

    /// Whether more than `most` positions can be reached from the one that stands here alone,
    /// itself counted. They are listed breadth first, up to one more than `most`.
    fn list(&mut self, alloc: A, code: &Code, most: usize) -> Result<bool, Memory>
        requires alone { self.old ≡ slice_index_or self.old 0 [] ∷ [] }
        requires rising { IsNonDecreasing (slice_index_or self.old 0 []) }
        ensures { IfOk result (λ more. IsTrue more
            → MoreReachableThan code.now (slice_index_or self.old 0 []) most) }
    {
        for number in 0..most {
            if number >= self.len() {
                break;
            }
            if self.add_moves(alloc, code, number, most)? {
                return Ok(true);
            }
        }
        Ok(false)
    }
}

/// Whether more than `most` positions can be reached from the one, itself counted.
pub(crate) fn reaches_more<A: SmallAllocator + Copy>(
    alloc: A,
    code: &Code,
    position: &Position<A>,
    most: u32,
) -> Result<bool, Memory>
    ensures { IfOk result (λ more. IsTrue more → MoreReachableThan code.now position.now most) }
{
    let mut reached = Reached::new(alloc, position)?;
    reached.list(alloc, code, most as usize)
}
