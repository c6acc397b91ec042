//! Elements that nothing takes apart.
ghost use Rattle.std.specs.Prelude.{◌≡◌, ◌<◌, ◌≤◌, ◌==◌, ℕ, All, IfOk, IfSome, false, length, slice_index_or};
ghost use Rattle.std.specs.List.{list_any};
ghost use Rattle.std.specs.Bool.{OnFalse};
ghost use Rattle.own_quotients.specs.Tables.{AreAlike};
ghost use Rattle.own_quotients.specs.Marked.{HaveSameMarks};

use crate::table::OwnTable;
use std::alloc::{AllocError, Allocator};

/// Which elements are in the portion.
fn portion_marks<A: Allocator>(
    alloc: A,
    order: u16,
    portion: &[u16],
) -> Result<Vec<bool, A>, AllocError>
    requires { All (λ x. x < order) portion.now }
    ensures long { IfOk result (λ marks. length marks.items ≡ order) }
    ensures marked { IfOk result (λ marks. (x : ℕ)
        → slice_index_or marks.items x false ≡ list_any (λ y. y == x) portion.now) }
{
    let mut marks = vec![in alloc; false; order as usize]?;
    for x in portion {
        marks[*x as usize] = true;
    }
    Ok(marks)
}

/// Whether one of the products of x and y with some element is marked, and the other isn't.
fn are_taken_apart<A: Allocator>(table: &OwnTable<A>, marks: &[bool], x: u16, y: u16) -> bool
    requires x_in { x < table.now.order }
    requires y_in { y < table.now.order }
    requires long { table.now.order ≤ length marks.now }
    ensures { OnFalse result (HaveSameMarks table.now marks.now x y) }
{
    for z in 0..table.order() {
        if marks[table.times(x, z) as usize] != marks[table.times(y, z) as usize] {
            return true;
        }
    }
    false
}

/// The first later element that nothing takes apart from x.
fn alike_to<A: Allocator>(table: &OwnTable<A>, marks: &[bool], x: u16) -> Option<u16>
    requires x_in { x < table.now.order }
    requires long { table.now.order ≤ length marks.now }
    ensures { IfSome result (λ y. (x < y) × (y < table.now.order)
        × HaveSameMarks table.now marks.now x y) }
{
    let order = table.order();
    for y in x + 1..order {
        if !are_taken_apart(table, marks, x, y) {
            return Some(y);
        }
    }
    None
}

/// The first two elements that nothing takes apart.
fn first_alike<A: Allocator>(table: &OwnTable<A>, marks: &[bool]) -> Option<(u16, u16)>
    requires { table.now.order ≤ length marks.now }
    ensures { IfSome result (λ p. (p.0 < p.1) × (p.1 < table.now.order)
        × HaveSameMarks table.now marks.now p.0 p.1) }
{
    for x in 0..table.order() {
        if let Some(y) = alike_to(table, marks, x) {
            return Some((x, y));
        }
    }
    None
}

/// Two elements that nothing takes apart, if there are any.
pub fn alike<A: Allocator, B: Allocator>(
    alloc: B,
    table: &OwnTable<A>,
) -> Result<Option<(u16, u16)>, AllocError>
    ensures { IfOk result (λ found. IfSome found (λ p. AreAlike table.now p.0 p.1)) }
{
    let marks = portion_marks(alloc, table.order(), table.portion())?;
    Ok(first_alike(table, &marks))
}
