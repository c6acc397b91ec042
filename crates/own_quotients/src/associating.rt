//! Whether a table is associative.
ghost use Rattle.std.specs.Prelude.{◌≡◌, ◌<◌, ◌==◌, ℕ, IfNone, IfSome, true};
ghost use Rattle.std.specs.List.{list_any};
ghost use Rattle.monoid_table.specs.Grids.{entry};
ghost use Rattle.monoid_table.specs.Light.{AssociatesAt};
ghost use Rattle.own_quotients.specs.Tables.{AreNotAssociating};

use crate::carrying::holds;
use crate::table::OwnTable;
use std::alloc::Allocator;

/// The first z with which (xy)z isn't x(yz).
fn not_associating_with<A: Allocator>(table: &OwnTable<A>, x: u16, y: u16) -> Option<u16>
    requires x_in { x < table.now.order }
    requires y_in { y < table.now.order }
    ensures some { IfSome result (AreNotAssociating table.now x y) }
    ensures none { IfNone result ((z : ℕ) → z < table.now.order
        → entry table.now.order table.now.rows (entry table.now.order table.now.rows x y) z
        ≡ entry table.now.order table.now.rows x (entry table.now.order table.now.rows y z)) }
{
    for z in 0..table.order() {
        if table.times(table.times(x, y), z) != table.times(x, table.times(y, z)) {
            return Some(z);
        }
    }
    None
}

/// The first x and z with which (xy)z isn't x(yz).
fn not_associating_at<A: Allocator>(table: &OwnTable<A>, y: u16) -> Option<(u16, u16)>
    requires { y < table.now.order }
    ensures some { IfSome result (λ p. AreNotAssociating table.now p.0 y p.1) }
    ensures none { IfNone result
        (AssociatesAt table.now.order (entry table.now.order table.now.rows) y) }
{
    for x in 0..table.order() {
        if let Some(z) = not_associating_with(table, x, y) {
            return Some((x, z));
        }
    }
    None
}

/// The same for an element that a heap has.
fn not_associating_by<A: Allocator>(table: &OwnTable<A>, y: u16) -> Option<(u16, u16)>
    requires { y < table.now.order }
    ensures some { IfSome result (λ p. AreNotAssociating table.now p.0 y p.1) }
    ensures none { IfNone result (list_any (λ z. z == y) table.now.heaps ≡ true
        → AssociatesAt table.now.order (entry table.now.order table.now.rows) y) }
{
    if !holds(table.heaps(), y) {
        return None;
    }
    not_associating_at(table, y)
}

/// The first three elements, a heap's in the middle, whose product depends on how they are grouped,
/// if there are any.
pub fn not_associating<A: Allocator>(table: &OwnTable<A>) -> Option<(u16, u16, u16)>
    ensures some { IfSome result (λ t. AreNotAssociating table.now t.0 t.1 t.2) }
    ensures none { IfNone result ((y : ℕ) → y < table.now.order
        → list_any (λ z. z == y) table.now.heaps ≡ true
        → AssociatesAt table.now.order (entry table.now.order table.now.rows) y) }
{
    for y in 0..table.order() {
        match not_associating_by(table, y) {
            Some((x, z)) => return Some((x, y, z)),
            None => {}
        }
    }
    None
}
