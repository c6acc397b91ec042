//! What a wrong quotient gives to begin with.
use crate::actions::{Actions, actions_behind};
use crate::generators::Generators;
use crate::letters::Letters;
use octal_code::Code;
use quotient_search::{Halt, HeapQuotient, Work};
use std::alloc::Allocator;

/// The letters of the heaps up to the last one. Those that the quotient lacks change no element.
pub fn letters_of<A: Allocator + Copy>(
    alloc: A,
    code: &Code,
    quotient: &HeapQuotient<A>,
    last: usize,
    work: &mut Work,
) -> Result<Letters<A>, Halt> {
    let mut generators = Generators::new(alloc, quotient, work)?;
    for _ in quotient.heaps().len()..last {
        generators.add_free()?;
    }
    Letters::new(alloc, code, generators, work)
}

/// What the letters do in a quotient.
pub fn actions_of<A: Allocator + Copy>(
    alloc: A,
    quotient: &HeapQuotient<A>,
    letters: &Letters<A>,
    work: &mut Work,
) -> Result<Actions<A>, Halt> {
    let order = quotient.order();
    let mut steps: Vec<usize, A> = Vec::new(alloc);
    for element in 0..order {
        for by in letters.generators.elements.iter() {
            steps.push(quotient.times(element, *by))?;
        }
    }
    actions_behind(alloc, letters, &steps, order, 0, work)
}
