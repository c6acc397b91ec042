//! What belongs to an idempotent: its archimedean component, its group, the idempotents that it covers.
ghost use Rattle.std.specs.Prelude.{◌≡◌, ◌<◌, ◌↔◌, ℕ, IsTrue, IfOk, All};
ghost use Rattle.descriptions.specs.Invariants.{AreThose};
ghost use Rattle.descriptions.specs.Structure.{BelongsTo, Covers, IsBelow, IsIdempotent, IsInComponent, IsInGroup, LiesBetween};

use crate::invariants::{divides, is_idempotent};
use allocation::Memory;
use monoid_table::{Table, is_monoid};
use std::alloc::Global;

/// What belongs to an idempotent.
#[derive(Clone, Copy, Debug, PartialEq, Eq)]
pub enum Share {
    /// Its archimedean component.
    Component,
    /// The maximal subgroup in which it is the identity.
    Group,
    /// The idempotents that it covers.
    NextBelow,
}

/// Whether the idempotent e is a power of x. Of the powers up to the first idempotent it can be the last
/// alone.
fn is_in_component(table: &Table, e: u16, x: u16) -> bool
    requires e_in { e < table.now.order }
    requires idempotent { IsIdempotent table.now e }
    requires x_in { x < table.now.order }
    ensures { IsTrue result ↔ IsInComponent table.now e x }
{
    is_monoid(table);
    let mut power = x;
    for _step in 0..table.order() {
        if is_idempotent(table, power) {
            return power == e;
        }
        power = table.times(x, power);
    }
    false
}

/// Whether x is a unit among the multiples of e.
fn is_in_group(table: &Table, e: u16, x: u16) -> bool
    requires e_in { e < table.now.order }
    requires x_in { x < table.now.order }
    ensures { IsTrue result ↔ IsInGroup table.now e x }
{
    table.times(e, x) == x && divides(table, x, e)
}

/// Whether f is below e.
fn is_below(table: &Table, e: u16, f: u16) -> bool
    requires e_in { e < table.now.order }
    requires f_in { f < table.now.order }
    ensures { IsTrue result ↔ IsBelow table.now e f }
{
    f != e && table.times(e, f) == f
}

/// Whether g is an idempotent between e and f.
fn lies_between(table: &Table, e: u16, f: u16, g: u16) -> bool
    requires e_in { e < table.now.order }
    requires f_in { f < table.now.order }
    requires g_in { g < table.now.order }
    ensures { IsTrue result ↔ LiesBetween table.now e f g }
{
    is_idempotent(table, g) && is_below(table, e, g) && is_below(table, g, f)
}

/// Whether some idempotent lies between e and f.
fn has_between(table: &Table, e: u16, f: u16) -> bool
    requires e_in { e < table.now.order }
    requires f_in { f < table.now.order }
    ensures { IsTrue result ↔ ((g : ℕ) × LiesBetween table.now e f g) }
{
    for g in 0..table.order() {
        if lies_between(table, e, f, g) {
            return true;
        }
    }
    false
}

/// Whether the idempotent e covers f.
fn covers(table: &Table, e: u16, f: u16) -> bool
    requires e_in { e < table.now.order }
    requires f_in { f < table.now.order }
    ensures { IsTrue result ↔ Covers table.now e f }
{
    is_idempotent(table, f) && is_below(table, e, f) && !has_between(table, e, f)
}

/// Whether x belongs to the idempotent e.
fn belongs_to(table: &Table, e: u16, share: Share, x: u16) -> bool
    requires e_in { e < table.now.order }
    requires idempotent { IsIdempotent table.now e }
    requires x_in { x < table.now.order }
    ensures { IsTrue result ↔ BelongsTo table.now e share x }
{
    match share {
        Share::Component => is_in_component(table, e, x),
        Share::Group => is_in_group(table, e, x),
        Share::NextBelow => covers(table, e, x),
    }
}

/// The elements of the list that belong to the idempotent e.
pub fn belonging(
    alloc: Global,
    table: &Table,
    e: u16,
    share: Share,
    listing: &[u16],
) -> Result<Vec<u16>, Memory>
    requires e_in { e < table.now.order }
    requires idempotent { IsIdempotent table.now e }
    requires listing { All (λ x. x < table.now.order) listing.now }
    ensures those { IfOk result (λ r. AreThose (BelongsTo table.now e share) listing.now r.items) }
    ensures within { IfOk result (λ r. All (λ x. x < table.now.order) r.items) }
{
    let mut found = Vec::new(alloc);
    for x in listing {
        if belongs_to(table, e, share, *x) {
            found.push(*x)?;
        }
    }
    Ok(found)
}
