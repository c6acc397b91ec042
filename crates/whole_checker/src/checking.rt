//! A check of a whole game from its beginning to its end.
ghost use Rattle.std.specs.Prelude.{◌≡◌, ℕ, List, IfOk, IfErr, IsTrue};
ghost use Rattle.misere_theory.specs.Games.{IsHeap};
ghost use Rattle.misere_theory.specs.Labels.{RepresentsBy};
ghost use Rattle.dominance.specs.Triples.{IsElement, claim_by};
ghost use Rattle.dominance_text.specs.Labels.{label_of};
ghost use Rattle.dominance_text.specs.Said.{IsInRanges};
ghost use Rattle.dominance_text.specs.Spelling.{SpellsDominance};
ghost use Rattle.answers.specs.InfiniteRefusals.{refused};
ghost use Rattle.whole_checker.specs.Solved.{IsRefusedWhole, IsRefutedWhole, IsSolved};

use crate::failing_position;
use crate::game::WholeGame;
use crate::ranks::ranks;
use allocation::{Memory, SmallAllocator};
use answers::InfiniteRefusal;
use dominance_checker::{Shape, is_accepted, is_represented};
use dominance_text::{DominanceText, TextFault, read};
use std::alloc::Allocator;

/// From which heap on the text's numbers repeat.
fn shape_of<A: Allocator>(text: &DominanceText<A>) -> Shape
    ensures { result ≡ record { start = text.now.start; period = text.now.period; rise = text.now.rise } }
{
    Shape {
        start: text.start as u64,
        period: text.period as u64,
        rise: text.rise as u64,
    }
}

/// Whether what a text says is seen to be right.
fn is_solved<A: SmallAllocator + Copy>(alloc: A, text: &DominanceText<A>) -> Result<bool, Memory>
    requires spelled { IsInRanges text.now }
    ensures { IfOk result (λ b. IsTrue b → IsSolved text.now) }
{
    let shape = shape_of(text);
    let ranks = ranks(alloc, text)?;
    is_accepted(alloc, &text.code, shape, &ranks)
}

/// Why a text isn't seen to be right: the rule fails at a position, which is looked for, or none is found.
fn refuted<A: SmallAllocator + Copy>(alloc: A, text: &DominanceText<A>) -> InfiniteRefusal<A>
    requires spelled { IsInRanges text.now }
    ensures { (bytes : List ℕ) → SpellsDominance bytes text.now → IsRefutedWhole bytes (refused result) }
{
    let Ok(ranks) = ranks(alloc, text) else {
        return InfiniteRefusal::Memory;
    };
    match failing_position(alloc, &text.code, shape_of(text), &ranks) {
        Ok(Some(position)) => InfiniteRefusal::Outcome(text.code, position),
        Ok(None) => InfiniteRefusal::Undecided,
        Err(Memory) => InfiniteRefusal::Memory,
    }
}

/// What the bytes spell.
fn text_of<A: SmallAllocator + Copy>(
    alloc: A,
    bytes: &[u8],
) -> Result<DominanceText<A>, InfiniteRefusal<A>>
    ensures yes { IfOk result (λ c. SpellsDominance bytes.now c) }
    ensures no { IfErr result (λ r. IsRefusedWhole bytes.now (refused r)) }
    ensures refuted { IfErr result (λ r. IsRefutedWhole bytes.now (refused r)) }
{
    match read(alloc, bytes) {
        Err(TextFault::Text) => Err(InfiniteRefusal::Text),
        Err(TextFault::Memory) => Err(InfiniteRefusal::Memory),
        Ok(text) => Ok(text),
    }
}

/// Whether the bytes are a text of a whole game that is right: it tells the outcome of each position, of any
/// number of heaps of any size, and which positions are indistinguishable; and the quotient is infinite. Each
/// refusal is true of the bytes: `Text`, `Undecided` or `Memory`.
pub fn check_whole<A: SmallAllocator + Copy>(
    alloc: A,
    bytes: &[u8],
) -> Result<WholeGame<A>, InfiniteRefusal<A>>
    ensures yes { IfOk result (λ k. SpellsDominance bytes.now k × IsSolved k) }
    ensures no { IfErr result (λ r. IsRefusedWhole bytes.now (refused r)) }
{
    let text = text_of(alloc, bytes)?;
    match is_solved(alloc, &text) {
        Ok(true) => Ok(WholeGame::new(text)),
        Ok(false) => Err(InfiniteRefusal::Undecided),
        Err(Memory) => Err(InfiniteRefusal::Memory),
    }
}

/// The same, and if the test doesn't pass a position is looked for at which what the bytes spell breaks the rule
/// of misère outcomes. So each refusal is true of the bytes: `Text`, `Outcome`, `Undecided` or `Memory`.
pub fn judge_whole<A: SmallAllocator + Copy>(
    alloc: A,
    bytes: &[u8],
) -> Result<WholeGame<A>, InfiniteRefusal<A>>
    ensures yes { IfOk result (λ k. SpellsDominance bytes.now k × IsSolved k) }
    ensures no { IfErr result (λ r. IsRefutedWhole bytes.now (refused r)) }
{
    let text = text_of(alloc, bytes)?;
    match is_solved(alloc, &text) {
        Ok(true) => Ok(WholeGame::new(text)),
        Ok(false) => Err(refuted(alloc, &text)),
        Err(Memory) => Err(InfiniteRefusal::Memory),
    }
}

/// Whether heaps make all elements of the monoid U of triples, so that U is the misère quotient of the game. A
/// game of which this isn't said may have a smaller one. `Err` if memory is lacking.
pub fn makes_all<A: SmallAllocator + Copy>(alloc: A, game: &WholeGame<A>) -> Result<bool, Memory>
    ensures { IfOk result (λ b. IsTrue b
        → RepresentsBy IsElement IsHeap game.now.code (claim_by (label_of game.now))) }
{
    let text = game.text();
    let shape = shape_of(text);
    let ranks = ranks(alloc, text)?;
    is_represented(alloc, &text.code, shape, &ranks)
}
