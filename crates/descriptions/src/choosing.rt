//! The elements of a part: the portion, the units, the idempotents, the kernel.
ghost use Rattle.std.specs.Prelude.{◌≡◌, ◌<◌, ◌↔◌, IsTrue, IfOk, All};
ghost use Rattle.certificate.specs.Fields.{grid_of};
ghost use Rattle.descriptions.specs.Invariants.{AreThose, IsInKernel, IsOf};

use crate::invariants::{divides, is_idempotent, is_in_kernel};
use allocation::Memory;
use answers::Certified;
use monoid_table::Table;
use std::alloc::Global;

/// A part of a quotient.
#[derive(Clone, Copy, Debug, PartialEq, Eq)]
pub enum Part {
    Portion,
    Units,
    Idempotents,
    Kernel,
}

/// Whether the element is of the part; `low` is an element of the kernel.
fn is_of(certified: &Certified, table: &Table, low: u16, part: Part, x: u16) -> bool
    requires table { table.now ≡ grid_of certified.now }
    requires low_in { low < table.now.order }
    requires low { IsInKernel table.now low }
    requires x_in { x < certified.now.order }
    ensures { IsTrue result ↔ IsOf certified.now part x }
{
    match part {
        Part::Portion => certified.holds(x),
        Part::Units => divides(table, x, 0),
        Part::Idempotents => is_idempotent(table, x),
        Part::Kernel => is_in_kernel(table, low, x),
    }
}

/// The elements of the list that are of the part.
pub fn those(
    alloc: Global,
    certified: &Certified,
    table: &Table,
    low: u16,
    part: Part,
    listing: &[u16],
) -> Result<Vec<u16>, Memory>
    requires table { table.now ≡ grid_of certified.now }
    requires low_in { low < table.now.order }
    requires low { IsInKernel table.now low }
    requires listing { All (λ e. e < certified.now.order) listing.now }
    ensures those { IfOk result (λ r. AreThose (IsOf certified.now part) listing.now r.items) }
    ensures within { IfOk result (λ r. All (λ e. e < certified.now.order) r.items) }
{
    let mut found = Vec::new(alloc);
    for e in listing {
        if is_of(certified, table, low, part, *e) {
            found.push(*e)?;
        }
    }
    Ok(found)
}
