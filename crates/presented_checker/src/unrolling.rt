//! The words of as many heaps as are enough, in place of a list that repeats.
ghost use Rattle.std.specs.Prelude.{◌≡◌, ◌≤◌, ◌<◌, IfOk, IfSome, Ok, None, map};
ghost use Rattle.std.specs.List.{range_with_len};
ghost use Rattle.presented_text.specs.declared.TheConstants.{MOST_HEAPS};
ghost use Rattle.presented_text.specs.Said.{IsInRanges};
ghost use Rattle.presented_checker.specs.Unrolled as lists;

use allocation::Memory;
use normal_forms::Exponents;
use presented_tables::Presented;
use presented_text::MOST_HEAPS;
use std::alloc::{Allocator, Global};

/// A presentation with the words of more heaps in its list, and the list that it had.
#[derive(Drop)]
pub struct Unrolled<A: Allocator = Global> {
    pub said: Presented<A>,
    pub heaps: u16,
    pub period: u16,
    pub words: Vec<Option<Exponents>, A>,
}

/// How many heaps are enough.
fn enough_heaps<A: Allocator>(said: &Presented<A>) -> u32
    requires { IsInRanges said.now }
    ensures { result ≡ lists.enough_heaps said.now }
{
    let (heaps, period) = (said.heaps as u32, said.period as u32);
    let start = heaps - period + 1;
    let last = said.code.last() as u32;
    if said.code.leaves_three() {
        3 * start + 3 * period + last
    } else {
        2 * start + 2 * period + last
    }
}

/// The words of the heaps 1 to so many.
#[tactic(auto, using(crate::proofs::Lists::one_more_word))]
fn words_to<A: Allocator + Copy>(
    alloc: A,
    said: &Presented<A>,
    heaps: u16,
) -> Result<Vec<Option<Exponents>, A>, Memory>
    ensures { IfOk result (λ words. words.items ≡ map (lists.said_word said.now) (range_with_len 1 heaps)) }
{
    let mut words = Vec::new(alloc);
    for n in 0..heaps as u64 {
        words.push(said.word(n + 1))?;
    }
    Ok(words)
}

/// The presentation with the words of as many heaps in its list as are enough for a whole game, or none if these are more
/// than 16,384. On an error, which is want of memory, and on none, the presentation is gone.
pub fn unroll<A: Allocator + Copy>(
    alloc: A,
    said: Presented<A>,
) -> Result<Option<Unrolled<A>>, Memory>
    requires { IsInRanges said }
    ensures list { IfOk result (λ found. IfSome found (λ u. u.said ≡ lists.unrolled said (lists.enough_heaps said))) }
    ensures few { IfOk result (λ found. IfSome found (λ _. lists.enough_heaps said ≤ MOST_HEAPS)) }
    ensures heaps { IfOk result (λ found. IfSome found (λ u. u.heaps ≡ said.heaps)) }
    ensures period { IfOk result (λ found. IfSome found (λ u. u.period ≡ said.period)) }
    ensures words { IfOk result (λ found. IfSome found (λ u. u.words.items ≡ said.words)) }
    ensures limit { result ≡ Ok None → MOST_HEAPS < lists.enough_heaps said }
{
    let enough = enough_heaps(&said);
    if enough > MOST_HEAPS as u32 {
        return Ok(None);
    }
    let more = words_to(alloc, &said, enough as u16)?;
    let Presented {
        code,
        heaps,
        period,
        letters,
        words,
        basis,
        cycles,
        portion,
    } = said;
    let said = Presented {
        code,
        heaps: enough as u16,
        period: 0,
        letters,
        words: more,
        basis,
        cycles,
        portion,
    };
    Ok(Some(Unrolled {
        said,
        heaps,
        period,
        words,
    }))
}

/// The presentation with the list that it had.
pub fn roll<A: Allocator>(whole: Unrolled<A>) -> Presented<A>
    ensures { result ≡ record whole.said {
      heaps = whole.heaps;
      period = whole.period;
      words = whole.words.items;
    } }
{
    let Unrolled {
        said,
        heaps,
        period,
        words,
    } = whole;
    let Presented {
        code,
        letters,
        basis,
        cycles,
        portion,
        ..
    } = said;
    Presented {
        code,
        heaps,
        period,
        letters,
        words,
        basis,
        cycles,
        portion,
    }
}
