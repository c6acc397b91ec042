//! What a search for an infinite quotient says.
ghost use Rattle.std.specs.Prelude.{◌≡◌, ◌≤◌, ◌↔◌, None, true, false, IfOk, IfErr, IsErrOf};
ghost use Rattle.solve_command.specs.Solved.{IsNoCode, IsSolveCause};
ghost use Rattle.solve_command.specs.Found.{Finds, FindsPart};
ghost use Rattle.solve_command.specs.Asked.{IsFound};

use crate::reasons::reason_text;
use allocation::Memory;
use command_results::{Said, Stop};
use dominance_finder::find_whole;
use infinite_finder::Unfound;
use octal_code::Code;
use presentation_finder::find_presentation;
use presentation_search::FoundPresentation;
use std::alloc::Global;

/// Says a presentation that was found.
fn told(code: &Code, heaps: u32, found: FoundPresentation) -> Said
    requires endless { found.quotient.order ≡ None }
    requires same { found.quotient.said.code ≡ code.now }
    requires part { found.quotient.said.period ≡ 0 }
    requires few { found.quotient.said.heaps ≤ heaps }
    ensures { FindsPart code.now heaps result.text.items result.succeeds }
{
    Said {
        text: found.into_text(),
        succeeds: true,
    }
}

/// Says why none was found.
fn unfound(alloc: Global, code: &Code, heaps: u32, why: Unfound) -> Result<Said, Memory>
    ensures { IfOk result (λ s. FindsPart code.now heaps s.text.items s.succeeds) }
{
    Ok(Said {
        text: reason_text(alloc, why)?.into_bytes(),
        succeeds: false,
    })
}

/// Looks for a part of the code's game whose quotient is infinite, and says its presentation, or why none was found.
fn presented(alloc: Global, code: &Code, heaps: u32) -> Result<Said, Memory>
    ensures { IfOk result (λ s. FindsPart code.now heaps s.text.items s.succeeds) }
{
    match find_presentation(alloc, code, heaps as usize)? {
        Ok(found) => Ok(told(code, heaps, found)),
        Err(why) => unfound(alloc, code, heaps, why),
    }
}

/// Looks for the text of the whole game of the code, and says it; else for a part whose quotient is infinite.
fn found(alloc: Global, code: &Code, heaps: u32) -> Result<Said, Memory>
    ensures { IfOk result (λ s. Finds code.now heaps s.text.items s.succeeds) }
{
    match find_whole(alloc, code)? {
        Some(text) => Ok(Said {
            text,
            succeeds: true,
        }),
        None => presented(alloc, code, heaps),
    }
}

/// Looks for the text of the whole game whose code the word is: it says the outcome of every position, and
/// that the quotient is infinite. If none is found, or if the quotient is to be presented, looks for the first part of
/// the game, of the heaps 1 to some heap up to `heaps`, that has no finite quotient, and says the presentation of its
/// quotient. What it says was accepted; or it says why nothing was found, which claims nothing of the game.
pub fn solve_infinite(
    alloc: Global,
    word: &str,
    heaps: u32,
    is_presented: bool,
) -> Result<Said, Stop<'static>>
    ensures says { IfOk result (λ s. IsFound word.now heaps is_presented s.text.items s.succeeds) }
    ensures stops { IfErr result (IsSolveCause word.now) }
    ensures not_a_code { IsErrOf result Stop.NotACode ↔ IsNoCode word.now }
{
    if is_presented {
        present_infinite_bytes(alloc, word.as_bytes(), heaps)
    } else {
        solve_infinite_bytes(alloc, word.as_bytes(), heaps)
    }
}

/// The same of bytes, which may be no text at all; it isn't presented.
pub fn solve_infinite_bytes(alloc: Global, word: &[u8], heaps: u32) -> Result<Said, Stop<'static>>
    ensures says { IfOk result (λ s. IsFound word.now heaps false s.text.items s.succeeds) }
    ensures stops { IfErr result (IsSolveCause word.now) }
    ensures not_a_code { IsErrOf result Stop.NotACode ↔ IsNoCode word.now }
{
    let Ok(code) = Code::read(word) else {
        return Err(Stop::NotACode);
    };
    let said = found(alloc, &code, heaps)?;
    Ok(said)
}

/// The same, presented.
pub fn present_infinite_bytes(alloc: Global, word: &[u8], heaps: u32) -> Result<Said, Stop<'static>>
    ensures says { IfOk result (λ s. IsFound word.now heaps true s.text.items s.succeeds) }
    ensures stops { IfErr result (IsSolveCause word.now) }
    ensures not_a_code { IsErrOf result Stop.NotACode ↔ IsNoCode word.now }
{
    let Ok(code) = Code::read(word) else {
        return Err(Stop::NotACode);
    };
    let said = presented(alloc, &code, heaps)?;
    Ok(said)
}
