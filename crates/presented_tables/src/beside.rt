//! Whether a heap and its options are in the portion beside an element.
ghost use Rattle.std.specs.Prelude.{◌≡◌, ◌<◌, ◌⊎◌, ℕ, List, IfSome, true, false, [], ◌∷◌, length};
ghost use Rattle.presented_claims.specs.Claims.{in_portion};
ghost use Rattle.presented_tables.specs.Elements.{element, AreElements};
ghost use Rattle.presented_tables.specs.Tested.{Says, SomeSays, NoneSays};
ghost use Rattle.presented_tables.specs.Beside.{IsBeside};
ghost use Rattle.presented_tables.specs.Reached.{StandsAt, AreReached};
ghost use Rattle.presented_tables.specs.Rows.{AreImages};

use crate::acting::{number_at, with_heap};
use crate::elements::ListedElements;
use crate::presentation::Presented;
use std::alloc::Allocator;

/// What a heap does beside an element: neither the heap nor an option of it is in the portion, one of them is, or
/// both are.
#[derive(Clone, Copy, PartialEq, Eq)]
pub enum Beside {
    Bad,
    Good,
    Both,
}

/// Whether element `x` is in the portion.
pub(crate) fn bit<A: Allocator>(p: &Presented<A>, e: &ListedElements<A>, x: usize) -> Option<bool>
    requires elements { AreElements p.now e.now }
    ensures { IfSome result (λ b. x < length e.now.words → b ≡ in_portion p.now (element e.now x)) }
{
    match e.bits.get(x) {
        Some(b) => Some(*b),
        None => None,
    }
}

/// Whether the heap beside element `x` is in the portion.
fn says_heap<A: Allocator>(
    p: &Presented<A>,
    e: &ListedElements<A>,
    x: usize,
    n: u64,
) -> Option<bool>
    requires elements { AreElements p.now e.now }
    requires inside { x < length e.now.words }
    ensures { IfSome result (λ b. Says p.now (element e.now x) (n ∷ []) b) }
{
    let y = with_heap(p, e, x, n)?;
    bit(p, e, y)
}

/// Whether an option that stands at element `y` is, beside element `x`.
fn says_at<A: Allocator>(
    p: &Presented<A>,
    e: &ListedElements<A>,
    images: &[u32],
    x: usize,
    y: usize,
) -> Option<bool>
    requires elements { AreElements p.now e.now }
    requires images { AreImages p.now e.now images.now }
    requires inside { x < length e.now.words }
    ensures { IfSome result (λ b. (H : List ℕ) → StandsAt p.now e.now H y → Says p.now (element e.now x) H b) }
{
    let z = number_at(images, e.words.len(), y, x)?;
    bit(p, e, z)
}

/// Whether some option of the heap is, beside element `x`.
fn says_option<A: Allocator>(
    p: &Presented<A>,
    e: &ListedElements<A>,
    images: &[u32],
    reached: &[u32],
    x: usize,
    n: u64,
) -> Option<bool>
    requires elements { AreElements p.now e.now }
    requires images { AreImages p.now e.now images.now }
    requires reached { AreReached p.now e.now n reached.now }
    requires inside { x < length e.now.words }
    ensures some { IfSome result (λ b. b ≡ true → SomeSays p.now (element e.now x) n) }
    ensures none { IfSome result (λ b. b ≡ false → NoneSays p.now (element e.now x) n) }
{
    for y in reached {
        if says_at(p, e, images, x, *y as usize)? {
            return Some(true);
        }
    }
    Some(false)
}

/// What heap `n` does beside element `x`.
pub(crate) fn heap_beside<A: Allocator>(
    p: &Presented<A>,
    e: &ListedElements<A>,
    images: &[u32],
    reached: &[u32],
    x: usize,
    n: u64,
) -> Option<Beside>
    requires elements { AreElements p.now e.now }
    requires images { AreImages p.now e.now images.now }
    requires reached { AreReached p.now e.now n reached.now }
    requires inside { x < length e.now.words }
    ensures { IfSome result (λ b. IsBeside p.now (element e.now x) n b) }
{
    let own = says_heap(p, e, x, n)?;
    let option = says_option(p, e, images, reached, x, n)?;
    if own {
        if option {
            return Some(Beside::Both);
        }
        return Some(Beside::Good);
    }
    if option {
        return Some(Beside::Good);
    }
    Some(Beside::Bad)
}
