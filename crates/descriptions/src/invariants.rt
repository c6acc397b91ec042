//! Units, idempotents and the kernel of a table.
ghost use Rattle.std.specs.Prelude.{◌≡◌, ◌<◌, ◌↔◌, ℕ, IsTrue};
ghost use Rattle.monoid_table.specs.Grids.{times_in};
ghost use Rattle.descriptions.specs.Invariants.{Divides, IsInKernel};

use monoid_table::{Table, is_monoid};

/// Whether x is a product of y.
pub fn divides(table: &Table, y: u16, x: u16) -> bool
    requires { y < table.now.order }
    ensures { IsTrue result ↔ Divides table.now y x }
{
    for z in 0..table.order() {
        if table.times(y, z) == x {
            return true;
        }
    }
    false
}

/// The product of all elements, which is in the ideal of each.
pub fn lowest(table: &Table) -> u16
    ensures within { result < table.now.order }
    ensures kernel { IsInKernel table.now result }
{
    let mut all = 0;
    for x in 0..table.order() {
        all = table.times(all, x);
    }
    all
}

/// Whether x is in the kernel, of which `low` is an element.
pub fn is_in_kernel(table: &Table, low: u16, x: u16) -> bool
    requires low_in { low < table.now.order }
    requires low { IsInKernel table.now low }
    requires x_in { x < table.now.order }
    ensures { IsTrue result ↔ IsInKernel table.now x }
{
    is_monoid(table);
    divides(table, low, x)
}

/// Whether the element is its own square.
pub fn is_idempotent(table: &Table, x: u16) -> bool
    requires { x < table.now.order }
    ensures { IsTrue result ↔ (times_in table.now x x ≡ x) }
{
    table.times(x, x) == x
}
