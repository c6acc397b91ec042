//! Whether a table is a monoid, by Light's associativity test: only generators stand in the middle.
ghost use Rattle.std.specs.Prelude.{◌<◌, ◌↔◌, IsTrue};
ghost use Rattle.misere_theory.specs.Quotients.{Monoid};
ghost use Rattle.monoid_table.specs.Grids.{IsShaped, entry};
ghost use Rattle.monoid_table.specs.Light.{AssociatesAt, HoldsAtPairs, GeneratorsAssociate, AreComposite};

use crate::triples::{entry_at, first_breach, row_at};
use misere_theory::LARGEST_ORDER;

/// Whether the elements are a commutative monoid with identity 0.
pub fn is_lawful(rows: &[u16], order: usize) -> bool
    requires { IsShaped order rows.now }
    ensures { IsTrue result ↔ Monoid order (entry order rows.now) }
{
    holds_at_pairs(rows, order) && generators_associate(rows, order)
}

/// Whether 0 is the identity, and the products are commutative.
fn holds_at_pairs(rows: &[u16], order: usize) -> bool
    requires { IsShaped order rows.now }
    ensures { IsTrue result ↔ HoldsAtPairs order (entry order rows.now) }
{
    for x in 0..order {
        if entry_at(rows, order, 0, x) != x {
            return false;
        }
        for y in 0..x {
            if entry_at(rows, order, x, y) != entry_at(rows, order, y, x) {
                return false;
            }
        }
    }
    true
}

/// Whether (xy)z is x(yz) for all x and z, and y each generator.
fn generators_associate(rows: &[u16], order: usize) -> bool
    requires shaped { IsShaped order rows.now }
    requires pairs { HoldsAtPairs order (entry order rows.now) }
    ensures enough { IsTrue result → GeneratorsAssociate order (entry order rows.now) }
    ensures needed { Monoid order (entry order rows.now) → IsTrue result }
{
    let composite = composites(rows, order);
    for y in 1..order {
        if !composite[y] && !associates_at(rows, order, y) {
            return false;
        }
    }
    true
}

/// Marks products of two smaller elements.
fn composites(rows: &[u16], order: usize) -> [bool; LARGEST_ORDER as usize]
    requires { IsShaped order rows.now }
    ensures { AreComposite order rows.now result }
{
    let mut marks = [false; LARGEST_ORDER as usize];
    for x in 0..order {
        let row = row_at(rows, order, x);
        for y in x..order {
            let product = row[y] as usize;
            if y < product {
                marks[product] = true;
            }
        }
    }
    marks
}

/// Whether (xy)z is x(yz) for all x and z: with x and z in each other's place it's the same
/// equation.
fn associates_at(rows: &[u16], order: usize, y: usize) -> bool
    requires shaped { IsShaped order rows.now }
    requires pairs { HoldsAtPairs order (entry order rows.now) }
    requires y_in { y < order }
    ensures { IsTrue result ↔ AssociatesAt order (entry order rows.now) y }
{
    for x in 0..order {
        if first_breach(rows, order, x, y, x, order) < order {
            return false;
        }
    }
    true
}
