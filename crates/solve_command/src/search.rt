//! The search for a certificate of the kind that is asked.
ghost use Rattle.std.specs.Prelude.{◌≡◌, ◌≢◌, ◌≤◌, ◌↔◌, IfOk, IfErr, IsTrue};
ghost use Rattle.misere_theory.specs.declared.TheConstants.{LARGEST_PART};
ghost use Rattle.solve_command.specs.Searches.{HasMissed, IsAskedFor, IsSearchedBy, SearchesAny, SearchesFurthest};

use crate::searches::{Searched, Searches};
use allocation::Memory;
use answers::Certified;
use octal_code::Code;
use quotient_finder::{GaveUp, furthest};
use quotient_search::DEEPEST;
use requests::{Aim, SolveBounds};
use std::alloc::Global;

/// The last of the most first heaps of which a search finds a quotient that is small enough.
fn last_of_furthest(alloc: Global, code: &Code, order: u32) -> Result<u32, Memory>
    ensures { IfOk result (λ last. (1 ≤ last) × (last ≤ LARGEST_PART)) }
{
    let last = furthest(alloc, code, order as usize)?;
    Ok(last.max(1) as u32)
}

/// Searches for a certificate of the most first heaps of which a quotient is found that is small
/// enough.
fn search_furthest<S: Searches>(
    by: &S,
    alloc: Global,
    code: &Code,
    bounds: SolveBounds,
) -> Result<Searched, Memory>
    ensures found { IfOk result (λ s. IfOk s.came (IsAskedFor code.now Aim.Furthest)) }
    ensures searched { IfOk result (λ s. SearchesFurthest S.has_asked code.now bounds s.came) }
    ensures no_round { bounds.rounds ≡ 0
        → IfOk result (λ s. IfErr s.came (λ why. why ≢ GaveUp.Empty)) }
{
    let last = last_of_furthest(alloc, code, bounds.order)?;
    Ok(by.part(alloc, code, last, bounds))
}

/// Whether a search was given up, or came to a certificate of more elements than are allowed.
fn has_missed(came: &Result<Certified, GaveUp>, order: u32) -> bool
    ensures { IsTrue result ↔ HasMissed order came.now }
{
    match came {
        Ok(certified) => certified.cert().order() as u32 > order,
        Err(GaveUp::Memory) => false,
        Err(_) => true,
    }
}

/// Searches for a full certificate of the code, and if that misses, for one of the furthest part.
fn search_any<S: Searches>(
    by: &S,
    alloc: Global,
    code: &Code,
    bounds: SolveBounds,
) -> Result<Searched, Memory>
    ensures found { IfOk result (λ s. IfOk s.came (IsAskedFor code.now Aim.Any)) }
    ensures searched { IfOk result (λ s. SearchesAny S.has_asked code.now bounds s.came) }
    ensures no_round { bounds.rounds ≡ 0
        → IfOk result (λ s. IfErr s.came (λ why. why ≢ GaveUp.Empty)) }
{
    let whole = by.whole(alloc, code, DEEPEST, bounds);
    if has_missed(&whole.came, bounds.order) {
        drop(whole);
        return search_furthest(by, alloc, code, bounds);
    }
    Ok(whole)
}

/// Searches for a certificate of the code, of the kind that is aimed at.
pub(crate) fn search<S: Searches>(
    by: &S,
    alloc: Global,
    code: &Code,
    bounds: SolveBounds,
) -> Result<Searched, Memory>
    ensures found { IfOk result (λ s. IfOk s.came (IsAskedFor code.now bounds.aim)) }
    ensures searched { IfOk result (λ s. IsSearchedBy S.has_asked code.now bounds s.came) }
    ensures no_round { bounds.rounds ≡ 0
        → IfOk result (λ s. IfErr s.came (λ why. why ≢ GaveUp.Empty)) }
{
    match bounds.aim {
        Aim::Whole { heaps } => Ok(by.whole(alloc, code, heaps as usize, bounds)),
        Aim::Deep => Ok(by.whole(alloc, code, DEEPEST, bounds)),
        Aim::Part { last } => Ok(by.part(alloc, code, last, bounds)),
        Aim::Any => search_any(by, alloc, code, bounds),
        Aim::Furthest => search_furthest(by, alloc, code, bounds),
    }
}
