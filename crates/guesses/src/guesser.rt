//! What guesses by a search.
ghost use Rattle.std.specs.Prelude.{◌≡◌, ◌≤◌, IfOk, min, max};
ghost use Rattle.misere_theory.specs.declared.TheConstants.{LARGEST_PART};
ghost use Rattle.quotient_search.specs.declared.aim.TheConstants.{DEEPEST};
ghost use Rattle.guesses.specs.Guesses.{IsWellFormed, IsPeriodGuess};

use crate::guess::{Guess, guess_of};
use allocation::{Memory, SmallAllocator};
use octal_code::Code;
use quotient_search::{DEEPEST, Extent, LONGEST_PART, Reason, search_quotient};
use std::alloc::Global;
use std::marker::Model;

/// What looks at the heaps up to some size, seen as that size, for a quotient of at most so many
/// elements.
///
/// It goes from heap to heap. Beside the lightest position of each element, positions of some heaps
/// of the next size are compared, and those that nothing tells apart are made one element. Where
/// the rule of misère play then fails at some position, the elements are made anew with the parts
/// of the lightest such position compared too.
#[derive(Drop)]
pub struct Guesser<A: SmallAllocator = Global> {
    alloc: A,
    most: usize,
    /// Whether the quotient of just these heaps is wanted, with a period or without.
    is_part: bool,
    order: usize,
}

impl<A: SmallAllocator> Model for Guesser<A> {
    ghost use Rattle.std.specs.Prelude.{ℕ};

    ghost Value = { ℕ };

    ghost view = { λ s. s.most };
}

/// The most heaps, up to `LONGEST_PART`, of which a search comes to a quotient of at most `order`
/// elements.
pub fn furthest<A: SmallAllocator + Copy>(
    alloc: A,
    code: &Code,
    order: usize,
) -> Result<usize, Memory>
    ensures { IfOk result (λ last. last ≤ LARGEST_PART) }
{
    let found = search_quotient(alloc, code, Extent::Part(LONGEST_PART), order)?;
    Ok(found.heaps.min(LONGEST_PART))
}

impl<A: SmallAllocator + Copy> Guesser<A> {
    /// Looks at the heaps up to `heaps`, until a period shows, for a quotient of at most `order`
    /// elements. The number is taken as 2 where it is less, and as `DEEPEST` where it
    /// is more: so many heaps show the period of each certificate.
    pub fn new(alloc: A, heaps: usize, order: usize) -> Guesser<A>
        ensures { result ≡ max 2 (min heaps DEEPEST) }
    {
        Guesser {
            alloc,
            most: heaps.clamp(2, DEEPEST),
            is_part: false,
            order,
        }
    }

    /// Looks for the quotient of just the heaps up to `heaps`, which is taken as 1 where it is less,
    /// and as `LONGEST_PART` where it is more.
    pub fn of_part(alloc: A, heaps: usize, order: usize) -> Guesser<A>
        ensures { result ≡ max 1 (min heaps LARGEST_PART) }
    {
        Guesser {
            alloc,
            most: heaps.clamp(1, LONGEST_PART),
            is_part: true,
            order,
        }
    }

    /// Guesses the quotient of the code's game, or tells why there is no guess. Nothing is promised
    /// of a guess but its shape. The work is bounded, and the answer depends on the code, the heaps
    /// and the order alone.
    pub fn guess(&self, code: &Code) -> Result<Result<Guess<A>, Reason>, Memory>
        ensures formed { IfOk result
            (λ found.
            IfOk found
            (λ g. IsWellFormed g.order g.products.items g.in_portion.items g.heaps.items self.now)) }
        ensures period { IfOk result
            (λ found.
            IfOk found
            (λ g. IsPeriodGuess code.now g.heaps.items g.start g.period g.shown)) }
    {
        let extent = if self.is_part {
            Extent::Part(self.most)
        } else {
            Extent::Period(self.most)
        };
        match search_quotient(self.alloc, code, extent, self.order)?.quotient {
            Ok(quotient) => match guess_of(self.alloc, code, &quotient, self.most)? {
                Some(guess) => Ok(Ok(guess)),
                // there are no more heaps than are looked at, and an element
                None => Ok(Err(Reason::Work {
                    heap: self.most,
                    order: self.order,
                })),
            },
            Err(reason) => Ok(Err(reason)),
        }
    }
}
