//! The identity of a table.
ghost use Rattle.std.specs.Prelude.{◌≡◌, ◌<◌, ◌↔◌, ℕ, IfNone, IfSome, IsTrue};
ghost use Rattle.own_quotients.specs.Tables.{IsIdentity};

use crate::table::OwnTable;
use std::alloc::Allocator;

/// Whether each element stays if it is multiplied by `e`.
fn is_identity<A: Allocator>(table: &OwnTable<A>, e: u16) -> bool
    requires { e < table.now.order }
    ensures { IsTrue result ↔ IsIdentity table.now e }
{
    for x in 0..table.order() {
        if table.times(e, x) != x {
            return false;
        }
    }
    true
}

/// The least element that is an identity, if there is one.
pub fn identity<A: Allocator>(table: &OwnTable<A>) -> Option<u16>
    ensures some { IfSome result (λ e. (e < table.now.order) × IsIdentity table.now e) }
    ensures none { IfNone result ((e : ℕ) → e < table.now.order → IsIdentity table.now e → ⊥) }
{
    for e in 0..table.order() {
        if is_identity(table, e) {
            return Some(e);
        }
    }
    None
}
