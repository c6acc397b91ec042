//! Rows and separators that a compact certificate leaves out, made of worked tables, and with memory
//! refused.
ghost use Rattle.std.specs.Prelude.{◌<◌, All, IsTrue};

use crate::comparing::compare;
use compact_certificates::products::push_product;
use compact_certificates::separators::least_separators;
use std::alloc::{AllocError, Allocator, Global};

/// Whether the numbers are below the limit.
fn are_below(numbers: &[u16], limit: u16) -> bool
    ensures { IsTrue result → All (λ z. z < limit) numbers.now }
{
    numbers.iter().all(|z| *z < limit)
}

/// Puts the row of a product behind the rows, and is whether these have rows for both.
fn put_product<A: Allocator>(
    rows: &mut Vec<u16, A>,
    order: u16,
    x: u16,
    y: u16,
) -> Result<bool, AllocError> {
    let (from, until) = (order as usize, rows.len());
    let there = x as usize * from + from <= until && y as usize * from + from <= until;
    if !there || !are_below(rows, order) {
        return Ok(false);
    }
    push_product(rows, order, x, y)?;
    Ok(true)
}

/// Puts the row of each product behind those before it.
fn put_products<A: Allocator>(
    rows: &mut Vec<u16, A>,
    order: u16,
    products: &[(u16, u16)],
) -> Result<bool, AllocError> {
    for (x, y) in products {
        if !put_product(rows, order, *x, *y)? {
            return Ok(false);
        }
    }
    Ok(true)
}

/// Which elements are in the portion.
fn inside<A: Allocator>(alloc: A, order: u16, portion: &[u16]) -> Result<Vec<bool, A>, AllocError> {
    let mut inside = Vec::new(alloc);
    for x in 0..order {
        inside.push(portion.contains(&x))?;
    }
    Ok(inside)
}

/// The least separators of the rows, or none where these have no entry below the order for each
/// pair.
fn separators<A: Allocator + Copy>(
    alloc: A,
    order: u16,
    rows: &[u16],
    portion: &[u16],
) -> Result<Vec<u16, A>, AllocError> {
    let inside = inside(alloc, order, portion)?;
    if rows.len() != order as usize * order as usize
        || inside.len() != order as usize
        || !are_below(rows, order)
    {
        return Ok(Vec::new(alloc));
    }
    least_separators(alloc, order, rows, &inside)
}

/// A table: its order, the products behind the first rows, all rows, the portion, and the
/// separators.
type Worked = (
    u16,
    &'static [(u16, u16)],
    &'static [u16],
    &'static [u16],
    &'static [u16],
);

/// Of Nim with heaps up to 2.
const OF_NIM: Worked = (
    6,
    &[(1, 2), (2, 2), (3, 2)],
    &[
        0, 1, 2, 3, 4, 5, 1, 0, 3, 2, 5, 4, 2, 3, 4, 5, 2, 3, 3, 2, 5, 4, 3, 2, 4, 5, 2, 3, 4, 5,
        5, 4, 3, 2, 5, 4,
    ],
    &[1, 4],
    &[0, 1, 1, 0, 4, 0, 0, 4, 0, 2, 0, 1, 0, 1, 0],
);

/// The products of 0.75's elements.
const EIGHT: &[u16] = &[
    0, 1, 2, 3, 4, 5, 6, 7, 1, 0, 5, 6, 7, 2, 3, 4, 2, 5, 7, 5, 5, 4, 2, 2, 3, 6, 5, 7, 7, 2, 4, 4,
    4, 7, 5, 7, 7, 2, 4, 4, 5, 2, 4, 2, 2, 7, 5, 5, 6, 3, 2, 4, 4, 5, 7, 7, 7, 4, 2, 4, 4, 5, 7, 7,
];

/// Of 0.75, whose later elements are the first four times the first.
const BEHIND_FOUR: &[(u16, u16)] = &[(1, 2), (1, 3), (1, 4)];

/// Where no portion tells two elements apart, the separators are 0.
static WORKED: [Worked; 7] = [
    OF_NIM,
    (
        8,
        BEHIND_FOUR,
        EIGHT,
        &[1, 7],
        &[
            0, 1, 1, 3, 1, 1, 0, 0, 0, 0, 0, 0, 4, 2, 1, 2, 2, 0, 1, 3, 3, 0, 1, 1, 0, 5, 0, 0,
        ],
    ),
    (8, BEHIND_FOUR, EIGHT, &[], &[0; 28]),
    (8, BEHIND_FOUR, EIGHT, &[0, 1, 2, 3, 4, 5, 6, 7], &[0; 28]),
    // the powers of an element whose third is its first
    (3, &[(1, 1)], &[0, 1, 2, 1, 2, 1, 2, 1, 2], &[2], &[1, 0, 0]),
    (1, &[], &[0], &[0], &[]),
    (2, &[], &[0, 1, 1, 1], &[1], &[0]),
];

/// Whether the rows and the separators are made of the first rows, or the number of the fault. If
/// memory is wanting, the rows stay as they were.
fn is_made<A: Allocator + Copy>(alloc: A, worked: &Worked) -> Result<bool, u8> {
    let (order, products, all, portion, apart) = *worked;
    let made = products.len().saturating_mul(order as usize);
    let Ok(mut rows) = all[..all.len().saturating_sub(made)].to_vec(alloc) else {
        return Err(9);
    };
    let Ok(is_put) = put_products(&mut rows, order, products) else {
        return Err(if all.starts_with(&rows) { 9 } else { 0 });
    };
    if is_put && rows.as_slice() == all {
        are_separators(alloc, order, &rows, portion, apart)
    } else {
        Ok(false)
    }
}

/// Whether these are the separators of the rows, or the number of the fault.
fn are_separators<A: Allocator + Copy>(
    alloc: A,
    order: u16,
    rows: &[u16],
    portion: &[u16],
    apart: &[u16],
) -> Result<bool, u8> {
    match separators(alloc, order, rows, portion) {
        Ok(found) => Ok(found.as_slice() == apart),
        Err(_) => Err(9),
    }
}

/// Whether those of Nim are made, or the number of the fault.
pub fn of_nim_is_made<A: Allocator + Copy>(alloc: A) -> Result<bool, u8> {
    is_made(alloc, &OF_NIM)
}

/// How many rows hold, up to the first that doesn't.
fn count_made(alloc: Global, rows: &[Worked]) -> usize {
    let mut held = 0usize;
    for worked in rows {
        if is_made(alloc, worked) != Ok(true) {
            return held;
        }
        held = held.saturating_add(1);
    }
    held
}

#[test]
fn rows_and_separators_are_made(rt: HostRuntime) {
    compare(&rt, "WORKED", count_made(rt.alloc(), &WORKED), 7);
}
