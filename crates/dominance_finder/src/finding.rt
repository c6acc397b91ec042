//! The search for the text of a whole game from its code alone.
ghost use Rattle.std.specs.Prelude.{IfOk, IfSome};
ghost use Rattle.dominance_finder.specs.Whole.{IsWholeOf};

use crate::drafting::drafted;
use crate::labels::Repeat;
use crate::reading::labels_of;
use allocation::{Memory, SmallAllocator};
use answers::InfiniteRefusal;
use octal_code::Code;
use quotient_search::{Guesses, Halt, Work};
use std::alloc::Allocator;
use whole_checker::check_whole;

/// To which heaps quotients are made, one after another.
const LASTS: &[usize] = &[16, 24, 32, 48, 64, 96];

/// The work that each quotient may take, and the reading of it.
const SEARCH_WORK: u64 = 400_000_000;

const READ_WORK: u64 = 100_000_000;

/// The text, if the check accepts it, and it is of the code.
fn accepted<A: SmallAllocator + Copy>(
    alloc: A,
    code: &Code,
    text: Vec<u8, A>,
) -> Result<Option<Vec<u8, A>>, Memory>
    ensures { IfOk result (λ found. IfSome found (λ t. IsWholeOf code.now t.items)) }
{
    match check_whole(alloc, &text) {
        Ok(game) => {
            let is_of_code = *game.code() == *code;
            drop(game);
            Ok(if is_of_code { Some(text) } else { None })
        }
        Err(InfiniteRefusal::Memory) => Err(Memory),
        Err(refusal) => {
            drop(refusal);
            Ok(None)
        }
    }
}

/// Goes on to the quotient of all heaps that are looked at, through all repairs.
fn go_through<A: Allocator + Copy>(guesses: &mut Guesses<'_, A>) -> Result<(), Halt> {
    for _ in 0..u64::MAX {
        if guesses.go_on()?.is_none() {
            break;
        }
    }
    Ok(())
}

/// The text that the quotient of the heaps 1 to `last` shows, if they repeat otherwise than those did
/// that were seen before.
fn draft<A: Allocator + Copy>(
    alloc: A,
    code: &Code,
    last: usize,
    seen: &mut Repeat,
) -> Result<Option<Vec<u8, A>>, Halt> {
    let mut guesses = Guesses::new(alloc, code, last, SEARCH_WORK)?;
    go_through(&mut guesses)?;
    let mut work = Work::new(READ_WORK);
    let Some(labels) = labels_of(alloc, guesses.quotient(), &mut work)? else {
        return Ok(None);
    };
    match labels.repeat() {
        Some(repeat) if repeat != *seen => {
            *seen = repeat;
            drafted(alloc, code, &labels, repeat).map(Some)
        }
        _ => Ok(None),
    }
}

/// Looks for the text of the whole game of a code, by quotients of its first heaps. It is handed out if
/// the check of its bytes accepts it. If there is none, nothing is claimed of the game. The work is
/// bounded, and the answer depends on the code alone.
pub fn find_whole<A: SmallAllocator + Copy>(
    alloc: A,
    code: &Code,
) -> Result<Option<Vec<u8, A>>, Memory>
    ensures { IfOk result (λ found. IfSome found (λ t. IsWholeOf code.now t.items)) }
{
    let mut seen = Repeat::none();
    for last in LASTS.iter() {
        match draft(alloc, code, *last, &mut seen) {
            Ok(Some(text)) => {
                if let Some(text) = accepted(alloc, code, text)? {
                    return Ok(Some(text));
                }
            }
            Ok(None) => {}
            Err(Halt::Memory) => return Err(Memory),
            Err(_) => return Ok(None),
        }
    }
    Ok(None)
}
