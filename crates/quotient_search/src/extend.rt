//! One heap more.
use crate::cells::{small, word};
use crate::collapse::{LevelPairs, collapse};
use crate::levels::{Levels, finish, identify, raise};
use crate::lightest::lighten;
use crate::quotient::{HeapQuotient, heap_weight};
use crate::scene::Scene;
use crate::work::{Halt, Means};
use std::alloc::Allocator;
use std::mem;

/// What one heap more came to.
#[derive(Clone, Copy, PartialEq, Eq)]
pub enum Extended {
    /// The elements are others than before.
    Anew,
    /// The elements are those from before.
    Same,
    /// The elements are those from before, and with them another heap was added whose options have
    /// the same values.
    Twin,
}

/// Adds the heap n, the next one.
pub fn extend<A: Allocator + Copy>(
    means: &mut Means<'_, A>,
    scene: &Scene<A>,
    quotient: &mut HeapQuotient<A>,
    n: usize,
) -> Result<Extended, Halt> {
    quotient.add_moves(means.code, n, &mut means.work)?;
    if quotient.add_as_twin(n, &mut means.work)? {
        return Ok(Extended::Twin);
    }
    means.work.spend(quotient.rows.len())?;
    let mut levels = Levels::only(means.alloc, quotient)?;
    if extend_by(means, scene, quotient, &mut levels, n)? {
        return Ok(Extended::Anew);
    }
    quotient.note_moves(n)?;
    Ok(Extended::Same)
}

/// Adds the heap n, whose options have their values. The levels are level 0 alone. Answers whether
/// the elements are others than before.
fn extend_by<A: Allocator + Copy>(
    means: &mut Means<'_, A>,
    scene: &Scene<A>,
    quotient: &mut HeapQuotient<A>,
    levels: &mut Levels<A>,
    n: usize,
) -> Result<bool, Halt> {
    raise(means, scene, quotient, quotient.heap_moves(n), levels, 1)?;
    match identify(scene, quotient, levels, &mut means.work)? {
        Some(x) => add_as(means, quotient, n, x),
        None => {
            finish(means, scene, quotient, quotient.heap_moves(n), levels)?;
            grow(means, scene, quotient, levels, n)
        }
    }
}

/// Adds the heap n, whose element is x. Answers whether the elements are others than before.
fn add_as<A: Allocator + Copy>(
    means: &mut Means<'_, A>,
    quotient: &mut HeapQuotient<A>,
    n: usize,
    x: usize,
) -> Result<bool, Halt> {
    quotient.heaps.push(small(x))?;
    let is_lighter = heap_weight(n) < word(&quotient.weights, x);
    if is_lighter && !quotient.heap_moves(n).is_empty() {
        lighten(means, quotient)?;
        return Ok(true);
    }
    Ok(false)
}

/// Takes the elements that the levels of the heap n make: others than before.
fn grow<A: Allocator + Copy>(
    means: &mut Means<'_, A>,
    scene: &Scene<A>,
    quotient: &mut HeapQuotient<A>,
    levels: &Levels<A>,
    n: usize,
) -> Result<bool, Halt> {
    let mut next = HeapQuotient::empty(means.alloc);
    let pairs = LevelPairs {
        quotient,
        levels,
        heap: n,
        kept: &scene.kept,
        words: quotient.words,
    };
    let collapsed = collapse(means, &pairs, &mut next);
    if collapsed.is_ok() {
        mem::swap(quotient, &mut next);
    }
    drop(next);
    collapsed?;
    Ok(true)
}
