//! Generators of a table, out of some of its elements.
ghost use Rattle.std.specs.Prelude.{◌≡◌, ◌<◌, IfOk, All, Contains, vec_len};

use allocation::Memory;
use monoid_table::Table;
use std::alloc::Allocator;

/// Which elements are products of these.
fn generated<A: Allocator + Copy>(
    alloc: A,
    table: &Table<A>,
    elements: &[u16],
) -> Result<Vec<bool, A>, Memory>
    requires { All (λ e. e < table.now.order) elements.now }
    ensures { IfOk result (λ marks. vec_len marks ≡ table.now.order) }
{
    let order = table.order();
    let mut marks = vec![in alloc; false; order as usize]?;
    let mut found: Vec<u16, A> = Vec::new(alloc);
    marks[0] = true;
    found.push(0)?;
    for at in 0..order as usize {
        if at >= found.len() {
            return Ok(marks);
        }
        let x = found[at];
        for g in elements {
            let y = table.times(x, *g);
            if !marks[y as usize] {
                marks[y as usize] = true;
                found.push(y)?;
            }
        }
    }
    Ok(marks)
}

/// The elements but number `skip`.
fn others_of<A: Allocator>(
    alloc: A,
    elements: &[u16],
    skip: usize,
    bound: u16,
) -> Result<Vec<u16, A>, Memory>
    requires { All (λ e. e < bound) elements.now }
    ensures below { IfOk result (λ others. All (λ e. e < bound) others.items) }
    ensures among { IfOk result (λ others. All (Contains elements.now) others.items) }
{
    let _ = bound;
    let mut others: Vec<u16, A> = Vec::new(alloc);
    for i in 0..elements.len() {
        if i != skip {
            others.push(elements[i])?;
        }
    }
    Ok(others)
}

/// The elements that those before them don't generate.
fn new_ones<A: Allocator + Copy>(
    alloc: A,
    table: &Table<A>,
    elements: &[u16],
) -> Result<Vec<u16, A>, Memory>
    requires { All (λ e. e < table.now.order) elements.now }
    ensures below { IfOk result (λ kept. All (λ e. e < table.now.order) kept.items) }
    ensures among { IfOk result (λ kept. All (Contains elements.now) kept.items) }
{
    let mut kept: Vec<u16, A> = Vec::new(alloc);
    for e in elements {
        let marks = generated(alloc, table, kept.as_slice())?;
        if !marks[*e as usize] {
            kept.push(*e)?;
        }
    }
    Ok(kept)
}

/// The elements without those that the others generate, the last ones first.
fn needed<A: Allocator + Copy>(
    alloc: A,
    table: &Table<A>,
    elements: Vec<u16, A>,
) -> Result<Vec<u16, A>, Memory>
    requires { All (λ e. e < table.now.order) elements.items }
    ensures below { IfOk result (λ kept. All (λ e. e < table.now.order) kept.items) }
    ensures among { IfOk result (λ kept. All (Contains elements.items) kept.items) }
{
    let count = elements.len();
    let mut kept = elements;
    for k in 0..count {
        let i = count - 1 - k;
        if i < kept.len() {
            let e = kept[i];
            let others = others_of(alloc, kept.as_slice(), i, table.order())?;
            let marks = generated(alloc, table, others.as_slice())?;
            if marks[e as usize] {
                kept = others;
            }
        }
    }
    Ok(kept)
}

/// Generators among the elements: those that the others don't generate, the first ones preferred.
pub fn generators<A: Allocator + Copy>(
    alloc: A,
    table: &Table<A>,
    elements: &[u16],
) -> Result<Vec<u16, A>, Memory>
    requires { All (λ e. e < table.now.order) elements.now }
    ensures below { IfOk result (λ kept. All (λ e. e < table.now.order) kept.items) }
    ensures among { IfOk result (λ kept. All (Contains elements.now) kept.items) }
{
    let first = new_ones(alloc, table, elements)?;
    let kept = needed(alloc, table, first)?;
    Ok(kept)
}
