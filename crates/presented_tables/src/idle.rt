//! Whether heaps without an option have the word of nothing.
ghost use Rattle.std.specs.Prelude.{◌≡◌, ◌≤◌, ◌<◌, ℕ, List, IfOk, IfErr, length};
ghost use Rattle.misere_theory.specs.Games.{HeapOption};
ghost use Rattle.presentations.specs.declared.TheConstants.{LETTERS};
ghost use Rattle.presentations.specs.Congruences.{Related};
ghost use Rattle.presentations.specs.Vectors.{zeros};
ghost use Rattle.presented_claims.specs.Claims.{heap_word};
ghost use Rattle.presented_tables.specs.Elements.{AreElements};
ghost use Rattle.presented_tables.specs.Tested.{HasWord, IsOneIfIdle};
ghost use Rattle.presented_tables.specs.Faults.{IsTrueOf};

use crate::acting::with_heap;
use crate::elements::{ListedElements, word_at};
use crate::fault::TablesFault;
use crate::heaps::has_option;
use crate::presentation::Presented;
use crate::within::is_in;
use std::alloc::Allocator;

/// Tests heap `n`.
fn test<A: Allocator>(p: &Presented<A>, e: &ListedElements<A>, n: u64) -> Result<(), TablesFault>
    requires { AreElements p.now e.now }
    ensures one { IfOk result (λ _. IsOneIfIdle p.now n) }
    ensures fault { IfErr result (λ f. IsTrueOf p.now f) }
{
    if !p.has_word(n) {
        return Ok(());
    }
    if has_option(&p.code, n) {
        return Ok(());
    }
    let Some(y) = with_heap(p, e, 0, n) else {
        return Err(TablesFault::Undecided);
    };
    let Some(word) = word_at(e, y) else {
        return Err(TablesFault::Undecided);
    };
    if is_in(0, &word) {
        Ok(())
    } else {
        Err(TablesFault::Idle(n))
    }
}

/// Tests each heap of the list.
pub(crate) fn test_idle<A: Allocator>(
    p: &Presented<A>,
    e: &ListedElements<A>,
) -> Result<(), TablesFault>
    requires { AreElements p.now e.now }
    ensures one { IfOk result (λ _. (n : ℕ) → n ≤ p.now.heaps → IsOneIfIdle p.now n) }
    ensures fault { IfErr result (λ f. IsTrueOf p.now f) }
{
    for n in 0..p.heaps as u64 + 1 {
        test(p, e, n)?;
    }
    Ok(())
}
