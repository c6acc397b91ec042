//! `solve`: what is said of a code.
ghost use Rattle.std.specs.Prelude.{◌≡◌, ◌↔◌, IfOk, IfErr, IsErrOf};
ghost use Rattle.octal_code.specs.Text.{IsCodeText};
ghost use Rattle.certificate_text.specs.Spelling.{Spells};
ghost use Rattle.solve_command.specs.Searches.{ComesToBy, FindsBy, SolvesBy, rounds_lines};
ghost use Rattle.solve_command.specs.Solved.{IsNoCode, IsSolveCause, Solves};

use crate::search::search;
use crate::searches::{Proposing, Searched, Searches};
use crate::told::empty_text;
use allocation::Memory;
use answers::Certified;
use certificate::write;
use command_results::{Said, Stop};
use octal_code::Code;
use quotient_finder::GaveUp;
use requests::SolveBounds;
use std::alloc::Global;
use streams::MemorySink;

/// Searches for a certificate of the code that the text spells. Says its spelling, or how the
/// search was given up.
pub fn solve(alloc: Global, text: &str, bounds: SolveBounds) -> Result<Said, Stop<'static>>
    ensures says { IfOk result (λ s. Solves text.now bounds s.text.items s.succeeds) }
    ensures stops { IfErr result (IsSolveCause text.now) }
    ensures not_a_code { IsErrOf result Stop.NotACode ↔ IsNoCode text.now }
{
    solve_bytes(alloc, text.as_bytes(), bounds)
}

/// The same of bytes, which may be no text at all.
pub fn solve_bytes(alloc: Global, word: &[u8], bounds: SolveBounds) -> Result<Said, Stop<'static>>
    ensures says { IfOk result (λ s. Solves word.now bounds s.text.items s.succeeds) }
    ensures stops { IfErr result (IsSolveCause word.now) }
    ensures not_a_code { IsErrOf result Stop.NotACode ↔ IsNoCode word.now }
{
    solve_by(&Proposing, alloc, word, bounds)
}

/// The same by any search: what is said of it is what it came to.
pub fn solve_by<S: Searches>(
    by: &S,
    alloc: Global,
    word: &[u8],
    bounds: SolveBounds,
) -> Result<Said, Stop<'static>>
    ensures says { IfOk result (λ s. SolvesBy S.has_asked word.now bounds s.text.items s.succeeds) }
    ensures stops { IfErr result (IsSolveCause word.now) }
    ensures not_a_code { IsErrOf result Stop.NotACode ↔ IsNoCode word.now }
{
    let code = code_of(word)?;
    let said = answer(by, alloc, &code, bounds)?;
    Ok(said)
}

/// The code that the bytes spell.
fn code_of(word: &[u8]) -> Result<Code, Stop<'static>>
    ensures code { IfOk result (IsCodeText word.now) }
    ensures no_code { IfErr result (λ stop. (stop ≡ Stop.NotACode) × IsNoCode word.now) }
{
    match Code::read(word) {
        Ok(code) => Ok(code),
        Err(_) => Err(Stop::NotACode),
    }
}

/// The certificate that is found, or how the search was given up.
fn answer<S: Searches>(
    by: &S,
    alloc: Global,
    code: &Code,
    bounds: SolveBounds,
) -> Result<Said, Memory>
    ensures { IfOk result (λ s. FindsBy S.has_asked code.now bounds s.text.items s.succeeds) }
{
    let Searched { came, reason } = search(by, alloc, code, bounds)?;
    match came {
        Ok(certified) if certified.cert().order() as u32 <= bounds.order => Ok(Said {
            text: spelling(alloc, &certified)?,
            succeeds: true,
        }),
        Err(GaveUp::Memory) => Err(Memory),
        Err(GaveUp::Empty) => {
            let text = empty_text(alloc, reason, bounds.tells_why)?;
            Ok(Said::no(text.into_bytes()))
        }
        // no proposer drafts a larger order
        Ok(_) => Ok(Said::no(rounds_text(alloc, bounds.tells_why)?)),
        Err(GaveUp::Rounds) => Ok(Said::no(rounds_text(alloc, bounds.tells_why)?)),
    }
}

/// The certificate of a kind that is aimed at, of at most as many elements as are allowed, if the
/// search, of any kind, comes to it.
pub fn certificate_by<S: Searches>(
    by: &S,
    alloc: Global,
    code: &Code,
    bounds: SolveBounds,
) -> Result<Option<Certified>, Memory>
    ensures { IfOk result (ComesToBy S.has_asked code.now bounds) }
{
    let Searched { came, reason: _ } = search(by, alloc, code, bounds)?;
    match came {
        Ok(certified) if certified.cert().order() as u32 <= bounds.order => Ok(Some(certified)),
        Err(GaveUp::Memory) => Err(Memory),
        Ok(_) | Err(GaveUp::Empty) | Err(GaveUp::Rounds) => Ok(None),
    }
}

/// The spelling of the certificate.
fn spelling(alloc: Global, certified: &Certified) -> Result<Vec<u8>, Memory>
    ensures { IfOk result (λ text. Spells text.items certified.now) }
{
    let mut sink = MemorySink::new(alloc);
    match write(certified.cert(), &mut sink) {
        Ok(()) => Ok(sink.bytes().to_vec(alloc)?),
        Err(_) => Err(Memory),
    }
}

/// What is told where all rounds were spent.
fn rounds_text(alloc: Global, tells_why: bool) -> Result<Vec<u8>, Memory>
    ensures { IfOk result (λ text. text.items ≡ rounds_lines tells_why) }
{
    let lines = if tells_why {
        "gave up 1 Rounds\nrounds\n"
    } else {
        "gave up 1 Rounds\n"
    };
    let text = lines.as_bytes().to_vec(alloc)?;
    Ok(text)
}
