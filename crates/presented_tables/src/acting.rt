//! To which element a word takes another.
ghost use Rattle.std.specs.Prelude.{◌≡◌, ◌<◌, IfSome, length};
ghost use Rattle.presentations.specs.declared.TheConstants.{LETTERS};
ghost use Rattle.presentations.specs.Vectors.{only};
ghost use Rattle.kept_positions.specs.Numbers.{entry};
ghost use Rattle.presented_claims.specs.Claims.{heap_word};
ghost use Rattle.presented_tables.specs.Elements.{Takes, AreElements};

use crate::elements::ListedElements;
use crate::presentation::Presented;
use normal_forms::Exponents;
use presentations::LETTERS;
use std::alloc::Allocator;

/// Entry `y` of row `x`.
pub(crate) fn number_at(list: &[u32], width: usize, x: usize, y: usize) -> Option<usize>
    ensures { IfSome result (λ v. v ≡ entry list.now width x y) }
{
    let row = x.checked_mul(width)?;
    match list.get(row.checked_add(y)?) {
        Some(v) => Some(*v as usize),
        None => None,
    }
}

/// The element to which letter `i` takes element `x`.
fn step<A: Allocator>(p: &Presented<A>, e: &ListedElements<A>, x: usize, i: usize) -> Option<usize>
    requires elements { AreElements p.now e.now }
    requires inside { x < length e.now.words }
    ensures { IfSome result (λ y. Takes p.now e.now (only LETTERS i 1) x y) }
{
    if i >= p.letters.len() {
        return None;
    }
    number_at(&e.steps, p.letters.len(), x, i)
}

/// The element to which a power of letter `i` does.
fn power<A: Allocator>(
    p: &Presented<A>,
    e: &ListedElements<A>,
    x: usize,
    i: usize,
    exponent: u16,
) -> Option<usize>
    requires elements { AreElements p.now e.now }
    requires inside { x < length e.now.words }
    requires letter { i < LETTERS }
    ensures { IfSome result (λ y. Takes p.now e.now (only LETTERS i exponent) x y) }
{
    let mut y = x;
    for _ in 0..exponent {
        y = step(p, e, y, i)?;
    }
    Some(y)
}

/// The element to which the word does.
pub(crate) fn act<A: Allocator>(
    p: &Presented<A>,
    e: &ListedElements<A>,
    x: usize,
    word: &Exponents,
) -> Option<usize>
    requires elements { AreElements p.now e.now }
    requires inside { x < length e.now.words }
    ensures { IfSome result (λ y. Takes p.now e.now word.now x y) }
{
    let mut y = x;
    for i in 0..LETTERS {
        y = power(p, e, y, i, word[i])?;
    }
    Some(y)
}

/// The element to which heap `n` does.
pub(crate) fn with_heap<A: Allocator>(
    p: &Presented<A>,
    e: &ListedElements<A>,
    x: usize,
    n: u64,
) -> Option<usize>
    requires elements { AreElements p.now e.now }
    requires inside { x < length e.now.words }
    ensures { IfSome result (λ y. Takes p.now e.now (heap_word p.now n) x y) }
{
    match p.word(n) {
        Some(word) => act(p, e, x, &word),
        None => Some(x),
    }
}
