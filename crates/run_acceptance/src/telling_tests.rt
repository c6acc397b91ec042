//! Nim with heaps of 1 and 2 in misère play, and two monoids: its quotient ⟨a, b | a² = 1, b³ = b⟩ with the P-portion
//! {a, b²}, and ⟨a, b | a² = 1, b⁴ = b²⟩ with the same portion, which is too fine: b and b³ are indistinguishable. The
//! element aⁱbʲ is the label i + 2j.
use allocation::Memory;
use kept_positions::{LabelTables, NotTold, told_apart};
use std::alloc::Allocator;

/// The exponent of b to which a larger one comes, of which `top` is the largest.
fn reduced(exponent: u32, top: u32) -> u32 {
    if exponent <= top || top == 0 {
        return exponent;
    }
    let over = (exponent - top) % 2;
    if over == 0 { top } else { top - 1 }
}

/// The product of two labels.
fn product(x: u32, y: u32, top: u32) -> u32 {
    let exponent = reduced((x / 2).saturating_add(y / 2), top);
    exponent.saturating_mul(2).saturating_add((x % 2) ^ (y % 2))
}

/// The products of so many labels, without what is said of heaps.
fn tables<A: Allocator + Copy>(alloc: A, order: u32, top: u32) -> Result<LabelTables<A>, Memory> {
    let mut images = Vec::new(alloc);
    for x in 0..order {
        for y in 0..order {
            images.push(product(x, y, top))?;
        }
    }
    Ok(LabelTables {
        heaps: 0,
        labels: order as usize,
        classes: order as usize,
        start: 0,
        images,
        bad: Vec::new(alloc),
        next: Vec::new(alloc),
        weights: Vec::new(alloc),
    })
}

/// What is answered for marks.
fn answer<A: Allocator + Copy>(
    alloc: A,
    order: u32,
    top: u32,
    marks: &[bool],
) -> Result<Result<(), NotTold>, Memory> {
    let t = tables(alloc, order, top)?;
    Ok(told_apart(alloc, &t, marks))
}

/// The marks of a and b².
static MARKS: [bool; 8] = [false, true, false, false, true, false, false, false];

#[test]
fn elements_of_a_quotient_are_told_apart(rt: HostRuntime) {
    assert_eq!(rt; answer(rt.alloc(), 6, 2, &MARKS[..6]), Ok(Ok(())));
}

#[test]
fn a_monoid_that_is_too_fine_is_refused(rt: HostRuntime) {
    assert_eq!(rt;
        answer(rt.alloc(), 8, 3, &MARKS),
        Ok(Err(NotTold::Alike(6, 2)))
    );
}

#[test]
fn too_few_marks_decide_nothing(rt: HostRuntime) {
    assert_eq!(rt;
        answer(rt.alloc(), 6, 2, &MARKS[..5]),
        Ok(Err(NotTold::Undecided))
    );
}
