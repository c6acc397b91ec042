//! Whether a table is commutative.
ghost use Rattle.std.specs.Prelude.{◌≡◌, ◌<◌, ℕ, IfNone, IfSome};
ghost use Rattle.monoid_table.specs.Grids.{entry};
ghost use Rattle.own_quotients.specs.Tables.{AreNotCommuting};

use crate::table::OwnTable;
use std::alloc::Allocator;

/// The least element with which `x` has two products.
fn not_commuting_with<A: Allocator>(table: &OwnTable<A>, x: u16) -> Option<u16>
    requires { x < table.now.order }
    ensures some { IfSome result (AreNotCommuting table.now x) }
    ensures none { IfNone result ((y : ℕ) → y < table.now.order
        → entry table.now.order table.now.rows x y ≡ entry table.now.order table.now.rows y x) }
{
    for y in 0..table.order() {
        if table.times(x, y) != table.times(y, x) {
            return Some(y);
        }
    }
    None
}

/// The first two elements that have two products, if there are any.
pub fn not_commuting<A: Allocator>(table: &OwnTable<A>) -> Option<(u16, u16)>
    ensures some { IfSome result (λ p. AreNotCommuting table.now p.0 p.1) }
    ensures none { IfNone result ((x y : ℕ) → x < table.now.order → y < table.now.order
        → entry table.now.order table.now.rows x y ≡ entry table.now.order table.now.rows y x) }
{
    for x in 0..table.order() {
        if let Some(y) = not_commuting_with(table, x) {
            return Some((x, y));
        }
    }
    None
}
