//! Whether what was found is what was asked for.
ghost use Rattle.std.specs.Prelude.{◌≡◌, ◌≤◌, IfSome, None};

use allocation::SmallAllocator;
use octal_code::Code;
use presentation_search::FoundPresentation;

/// What was found, if it is an infinite quotient of this code and of a list of at most so many heaps.
pub(crate) fn fitting<A: SmallAllocator>(
    code: &Code,
    heaps: usize,
    found: FoundPresentation<A>,
) -> Option<FoundPresentation<A>>
    ensures code { IfSome result (λ f. f.quotient.said.code ≡ code.now) }
    ensures part { IfSome result (λ f. f.quotient.said.period ≡ 0) }
    ensures few { IfSome result (λ f. f.quotient.said.heaps ≤ heaps) }
    ensures endless { IfSome result (λ f. f.quotient.order ≡ None) }
{
    let quotient = found.quotient();
    let is_part = quotient.period() == 0 && quotient.order().is_none();
    let is_few = quotient.heaps() as usize <= heaps;
    if is_part && is_few && *quotient.code() == *code {
        Some(found)
    } else {
        None
    }
}
