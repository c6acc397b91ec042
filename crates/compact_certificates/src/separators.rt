//! The least separators of a table whose rows lie one behind the other, by the contexts of its
//! elements.
ghost use Rattle.std.specs.Prelude.{◌≡◌, ◌≢◌, ◌+◌, ◌-◌, ◌*◌, ◌/◌, ◌^◌, ◌≤◌, ◌<◌, ◌++◌, ◌==◌, ℕ, List, All, OnOk, OnErr, IfOk, IfSome, IfNone, length, map, slice_index, slice_index_or, Bool, false};
ghost use Rattle.std.specs.List.{concat};
ghost use Rattle.std.specs.Int.{bit_at};
ghost use Rattle.misere_theory.specs.Quotients.{Claim};
ghost use Rattle.misere_theory.specs.Certificates.{Certificate, claim_of, pairs_with, pairs_from};
ghost use Rattle.compact_certificates.specs.Separators.{separator_of, separators_of};
ghost use Rattle.compact_certificates.specs.Compact.{HasTable};
ghost use Rattle.compact_certificates.specs.Lanes.{has, is_marked, AppendsContext, AreContexts, claim_in};

use std::alloc::{AllocError, Allocator};

/// Which of these elements are marked, a bit each from the lowest on.
fn lane(elements: &[u16], marked: &[bool]) -> u64
    requires short { length elements.now ≤ 64 }
    requires below { All (λ z. z < length marked.now) elements.now }
    ensures { (j : ℕ) → j < 64
        → (bit_at result j == 1) ≡ is_marked elements.now marked.now j }
{
    let mut lane = 0u64;
    for j in 0..elements.len() {
        lane |= (marked[elements[j] as usize] as u64) << j;
    }
    lane
}

/// The least number that is in exactly one of the sets.
fn least_difference(xs: &[u64], ys: &[u64]) -> Option<usize>
    requires long { length xs.now ≡ length ys.now }
    requires short { length xs.now ≤ 2 ^ 10 }
    ensures within { IfSome result (λ z. z < 2 ^ 16) }
    ensures some { IfSome result (λ z. (has xs.now z ≢ has ys.now z)
        × ((w : ℕ) → w < z → has xs.now w ≡ has ys.now w)) }
    ensures none { IfNone result ((z : ℕ) → has xs.now z ≡ has ys.now z) }
{
    for i in 0..xs.len() {
        let differ = xs[i] ^ ys[i];
        if differ != 0 {
            return Some(64 * i + differ.trailing_zeros() as usize);
        }
    }
    None
}

/// The least element that tells `x` and `y` apart, and 0 if none does. Each element has `count`
/// lanes.
fn separator(lanes: &[u64], count: usize, x: usize, y: usize) -> u16
    requires few { count ≤ 2 ^ 10 }
    requires x_there { x * count + count ≤ length lanes.now }
    requires y_there { y * count + count ≤ length lanes.now }
    ensures { (c : Claim) → AreContexts c count lanes.now → x < c.order → y < c.order
        → result ≡ separator_of c (x, y) }
{
    let of_x = &lanes[x * count..x * count + count];
    let of_y = &lanes[y * count..y * count + count];
    match least_difference(of_x, of_y) {
        Some(z) => z as u16,
        None => 0,
    }
}

/// Puts the separators of `x` and each later element behind those that were found before.
fn push_separators<A: Allocator>(
    found: &mut Vec<u16, A>,
    lanes: &[u64],
    count: usize,
    order: usize,
    x: usize,
) -> Result<(), AllocError>
    requires few { count ≤ 2 ^ 10 }
    requires known { x < order }
    requires all { length lanes.now ≡ order * count }
    ensures { OnOk result ((c : Claim) → AreContexts c count lanes.now → c.order ≡ order
        → found.new.items
        ≡ found.old.items ++ map (separator_of c) (pairs_with x (x + 1) (order - (x + 1)))) }
{
    for y in x + 1..order {
        found.push(separator(lanes, count, x, y))?;
    }
    Ok(())
}

/// The separators of all pairs of elements, told by their contexts.
fn told_separators<A: Allocator>(
    alloc: A,
    lanes: &[u64],
    count: usize,
    order: usize,
) -> Result<Vec<u16, A>, AllocError>
    requires few { count ≤ 2 ^ 10 }
    requires all { length lanes.now ≡ order * count }
    ensures { IfOk result (λ found. (c : Claim) → AreContexts c count lanes.now → c.order ≡ order
        → found.items ≡ separators_of c) }
{
    let mut found = Vec::new(alloc);
    for x in 0..order {
        push_separators(&mut found, lanes, count, order, x)?;
    }
    Ok(found)
}

/// Puts the lanes of a row behind the others: which of its entries are marked.
fn push_context<A: Allocator>(
    lanes: &mut Vec<u64, A>,
    row: &[u16],
    marked: &[bool],
) -> Result<(), AllocError>
    requires { All (λ z. z < length marked.now) row.now }
    ensures { OnOk result (AppendsContext lanes.old.items lanes.new.items row.now marked.now) }
{
    for i in 0..row.len().div_ceil(64) {
        let start = 64 * i;
        let end = row.len().min(start + 64);
        lanes.push(lane(&row[start..end], marked))?;
    }
    Ok(())
}

/// The contexts of all elements.
fn contexts<A: Allocator>(
    alloc: A,
    order: u16,
    rows: &[u16],
    marked: &[bool],
) -> Result<Vec<u64, A>, AllocError>
    requires rows_there { length rows.now ≡ order * order }
    requires all_marked { length marked.now ≡ order }
    requires below { All (λ z. z < order) rows.now }
    ensures { IfOk result (λ lanes.
        AreContexts (claim_in order rows.now marked.now) ((order + 63) / 64) lanes.items) }
{
    let order = order as usize;
    let mut lanes = Vec::new(alloc);
    for x in 0..order {
        push_context(&mut lanes, &rows[x * order..x * order + order], marked)?;
    }
    Ok(lanes)
}

/// The least separators of a table, pair by pair: of its rows one behind the other, and of which
/// elements are in the portion.
pub fn least_separators<A: Allocator + Copy>(
    alloc: A,
    order: u16,
    rows: &[u16],
    inside: &[bool],
) -> Result<Vec<u16, A>, AllocError>
    requires rows_there { length rows.now ≡ order * order }
    requires all_told { length inside.now ≡ order }
    requires below { All (λ z. z < order) rows.now }
    ensures { IfOk result (λ found.
        found.items ≡ separators_of (claim_in order rows.now inside.now)) }
{
    let lanes = contexts(alloc, order, rows, inside)?;
    told_separators(alloc, &lanes, (order as usize).div_ceil(64), order as usize)
}

/// A certificate's separators are those of its rows, one behind the other, and of which elements its
/// portion has.
pub fn flat_tables_have_the_same_separators()
    ensures { (c : Certificate) (inside : List Bool)
        → HasTable c
        → ((x : ℕ) → slice_index_or inside x false ≡ (claim_of c).portion x)
        → separators_of (claim_in c.order (concat c.rows) inside) ≡ separators_of (claim_of c) }
{}
