//! A guessed quotient.
ghost use Rattle.std.specs.Prelude.{◌≡◌, ◌<◌, ◌≤◌, length, All, IfOk, IfSome};
ghost use Rattle.guesses.specs.Guesses.{IsWellFormed, IsPeriodOrNone, IsPeriodGuess};

use allocation::Memory;
use octal_code::Code;
use quotient_search::{HeapQuotient, is_shown, soonest_period};
use std::alloc::{Allocator, Global};

/// A guessed quotient of a game restricted to the heaps 1 to `heaps.len()`, of which nothing is
/// believed. The identity is element 0.
#[derive(Drop)]
pub struct Guess<A: Allocator = Global> {
    /// How many elements there are.
    pub order: usize,
    /// The products: x·y stands at x·order + y.
    pub products: Vec<u16, A>,
    /// Whether an element is in the portion, so that its positions are P-positions.
    pub in_portion: Vec<bool, A>,
    /// The elements of the heaps 1, 2, ..
    pub heaps: Vec<u16, A>,
    /// The heap from which on the elements repeat, or 0 where the heaps show no period twice.
    pub start: usize,
    /// After how many heaps they repeat, by the period that the fewest heaps show, or 0 likewise.
    pub period: usize,
    /// Whether there are so many heaps that the period is right if the elements are.
    pub shown: bool,
}

impl<A: Allocator> Guess<A> {
    /// A guess of the code's game by its elements, with the period that the heaps show.
    pub(crate) fn new(
        code: &Code,
        order: usize,
        products: Vec<u16, A>,
        in_portion: Vec<bool, A>,
        heaps: Vec<u16, A>,
    ) -> Guess<A>
        ensures order { result.order ≡ order }
        ensures products { result.products ≡ products }
        ensures in_portion { result.in_portion ≡ in_portion }
        ensures heaps { result.heaps ≡ heaps }
        ensures period { IsPeriodGuess code.now result.heaps.items result.start result.period
            result.shown }
    {
        let (start, period) = period_of(&heaps);
        let shown = is_shown(code, &heaps, start, period);
        Guess {
            order,
            products,
            in_portion,
            heaps,
            start,
            period,
            shown,
        }
    }
}

/// The number itself, where it is below the order, and 0 otherwise.
fn below(number: usize, order: usize) -> u16
    requires { 1 ≤ order }
    ensures { result < order }
{
    if number < order && number <= u16::MAX as usize {
        number as u16
    } else {
        0
    }
}

/// So many numbers below the order.
fn numbers_below<A: Allocator + Copy>(
    alloc: A,
    cells: &[u16],
    count: usize,
    order: usize,
) -> Result<Vec<u16, A>, Memory>
    requires { 1 ≤ order }
    ensures length { IfOk result (λ v. length v.items ≡ count) }
    ensures below { IfOk result (λ v. All (λ x. x < order) v.items) }
{
    let mut numbers: Vec<u16, A> = Vec::new(alloc);
    for place in 0..count {
        let number = cells.get(place).copied().unwrap_or(0);
        numbers.push(below(number as usize, order))?;
    }
    Ok(numbers)
}

/// The marks of the elements in the portion.
fn marks<A: Allocator + Copy>(
    alloc: A,
    quotient: &HeapQuotient<A>,
    order: usize,
) -> Result<Vec<bool, A>, Memory>
    ensures { IfOk result (λ v. length v.items ≡ order) }
{
    let mut in_portion: Vec<bool, A> = Vec::new(alloc);
    for element in 0..order {
        in_portion.push(quotient.is_in_portion(element))?;
    }
    Ok(in_portion)
}

/// The period that the fewest heaps would show, and its start before it, or twice 0 where none
/// stands twice.
fn period_of(heaps: &[u16]) -> (usize, usize)
    ensures { IsPeriodOrNone heaps.now result.0 result.1 }
{
    match soonest_period(heaps) {
        Some(found) => found,
        None => (0, 0),
    }
}

/// A quotient of the code's game as a guess of at most so many heaps.
pub fn guess_of<A: Allocator + Copy>(
    alloc: A,
    code: &Code,
    quotient: &HeapQuotient<A>,
    most: usize,
) -> Result<Option<Guess<A>>, Memory>
    ensures formed { IfOk result
        (λ found.
        IfSome found (λ g. IsWellFormed g.order g.products.items g.in_portion.items g.heaps.items most)) }
    ensures period { IfOk result
        (λ found.
        IfSome found (λ g. IsPeriodGuess code.now g.heaps.items g.start g.period g.shown)) }
{
    let order = quotient.order();
    let Some(size) = order.checked_mul(order) else {
        return Ok(None);
    };
    let count = quotient.heaps().len();
    if order == 0 || count > most {
        return Ok(None);
    }
    let heaps = numbers_below(alloc, quotient.heaps(), count, order)?;
    let products = numbers_below(alloc, quotient.products(), size, order)?;
    let in_portion = marks(alloc, quotient, order)?;
    Ok(Some(Guess::new(code, order, products, in_portion, heaps)))
}
