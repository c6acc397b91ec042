//! All winning moves in a position.
ghost use Rattle.std.specs.Prelude.{◌≡◌, ◌<◌, ◌↔◌, ◌++◌, IfOk, IsTrue, length, remove, slice_index};
ghost use Rattle.std.specs.String.{string_bytes};
ghost use Rattle.misere_theory.specs.Games.{HeapOption, IsP};
ghost use Rattle.misere_theory.specs.Plays.{IsWinningMove};
ghost use Rattle.heap_options.specs.Exact.{IsInOrder, heaps_of};
ghost use Rattle.position_commands.specs.Kinds.{SpeaksIn, code_of, looks_of};
ghost use Rattle.position_commands.specs.Said.{SaysWins};
ghost use Rattle.position_commands.specs.Wins.{AreHeapWins, AreOptionWins, TellsWins};

use crate::answer_text;
use crate::lines::many_text;
use crate::playing::beyond;
use crate::quotients::{answer_in, looks, looks_bound, outcome_at, speaks_of, stays_inside};
use allocation::Memory;
use command_results::Said;
use given_quotients::Quotient;
use heap_options::options_are_exact;
use player::{Answer, Outcome};
use positions::{Left, Move, Position};
use std::alloc::{AllocError, Global};

/// The most options of a heap of which all that win are printed.
pub const MOST_LOOKS: u64 = 1_000_000;

/// The heaps where so much is left of the heap at a place.
fn moved(alloc: Global, heaps: &[u64], at: usize, left: Left) -> Result<Vec<u64>, AllocError>
    requires { at < length heaps.now }
    ensures { IfOk result (λ m. m.items ≡ heaps_of left ++ remove heaps.now at) }
{
    let mut moved = Vec::new(alloc);
    moved.extend_from_slice(left.heaps().as_slice())?;
    moved.extend_from_slice(&heaps[..at])?;
    moved.extend_from_slice(&heaps[at + 1..])?;
    Ok(moved)
}

/// Whether the position of these heaps, of which the quotient speaks, is P.
fn is_p(quotient: &Quotient, heaps: &[u64]) -> bool
    requires { SpeaksIn quotient.now heaps.now }
    ensures { IsTrue result ↔ IsP (code_of quotient.now) heaps.now }
{
    match outcome_at(quotient, heaps) {
        Outcome::P => true,
        Outcome::N => false,
    }
}

/// Whether the move wins that leaves so much of the heap at a place: whether it makes a P-position.
fn wins(
    alloc: Global,
    quotient: &Quotient,
    heaps: &[u64],
    at: usize,
    left: Left,
) -> Result<bool, AllocError>
    requires position { SpeaksIn quotient.now heaps.now }
    requires there { at < length heaps.now }
    requires option { HeapOption (code_of quotient.now) (slice_index heaps.now at) (heaps_of left) }
    requires in_order { IsInOrder left }
    ensures { IfOk result (λ b. IsTrue b
        ↔ IsWinningMove (code_of quotient.now) heaps.now (slice_index heaps.now at) (heaps_of left)) }
{
    stays_inside(quotient);
    let moved = moved(alloc, heaps, at, left)?;
    Ok(is_p(quotient, moved.as_slice()))
}

/// The lines of the winning moves of the heap at a place.
fn option_wins(
    alloc: Global,
    quotient: &Quotient,
    heaps: &[u64],
    at: usize,
) -> Result<String, Memory>
    requires position { SpeaksIn quotient.now heaps.now }
    requires there { at < length heaps.now }
    ensures { IfOk result
        (λ t. AreOptionWins (code_of quotient.now) heaps.now (slice_index heaps.now at)
        (looks_of quotient.now (slice_index heaps.now at)) (string_bytes t)) }
{
    options_are_exact();
    let heap = heaps[at];
    let mut text = String::new(alloc);
    for left in looks(quotient, heap) {
        let is_win = wins(alloc, quotient, heaps, at, left)?;
        if is_win {
            let line = answer_text(alloc, Answer::Wins(Move { heap, left }))?;
            text.push_str(line.as_str())?;
        }
    }
    Ok(text)
}

/// The lines of the winning moves of all heaps, which are in rising order.
fn heap_wins(alloc: Global, quotient: &Quotient, heaps: &[u64]) -> Result<String, Memory>
    requires { SpeaksIn quotient.now heaps.now }
    ensures { IfOk result
        (λ t. AreHeapWins quotient.now heaps.now (length heaps.now) (string_bytes t)) }
{
    let mut text = String::new(alloc);
    for at in 0..heaps.len() {
        if at == 0 || heaps[at - 1] != heaps[at] {
            let lines = option_wins(alloc, quotient, heaps, at)?;
            text.push_str(lines.as_str())?;
        }
    }
    Ok(text)
}

/// The winning moves of the position, of which the quotient speaks; or that there is none, and why.
fn spoken_wins(alloc: Global, quotient: &Quotient, position: &Position) -> Result<Said, Memory>
    requires { SpeaksIn quotient.now position.now }
    ensures { IfOk result (λ s. TellsWins quotient.now position.now s.text.items s.succeeds) }
{
    match answer_in(quotient, position) {
        Answer::Wins(_) if looks_bound(quotient) > MOST_LOOKS => {
            Ok(Said::no(many_text(alloc)?.into_bytes()))
        }
        Answer::Wins(_) => Ok(Said::done(heap_wins(alloc, quotient, position.heaps())?)),
        none => Ok(Said::done(answer_text(alloc, none)?)),
    }
}

/// The same, or that the quotient doesn't speak of the position.
pub(crate) fn wins_said(
    alloc: Global,
    quotient: &Quotient,
    position: &Position,
) -> Result<Said, Memory>
    ensures { IfOk result (λ s. SaysWins position.now quotient.now s.text.items s.succeeds) }
{
    if speaks_of(quotient, position) {
        return spoken_wins(alloc, quotient, position);
    }
    Ok(beyond(alloc)?)
}
