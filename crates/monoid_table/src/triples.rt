//! Looking at triples of elements: rows of any shape, and whether a law fails.
ghost use Rattle.std.specs.Prelude.{◌≡◌, ◌+◌, ◌-◌, ◌*◌, ◌/◌, ◌%◌, ◌<◌, ◌≤◌, ◌↔◌, ℕ, length, IsTrue, slice_index, All, true, false, not};
ghost use Rattle.misere_theory.specs.Quotients.{Monoid};
ghost use Rattle.monoid_table.specs.Grids.{IsShaped, entry};
ghost use Rattle.monoid_table.specs.Turns.{pair_holds, groups_alike, triple_holds, triples};

use misere_theory::LARGEST_ORDER;

/// Entry y of row x.
pub fn entry_at(rows: &[u16], order: usize, x: usize, y: usize) -> usize
    requires shaped { IsShaped order rows.now }
    requires x_in { x < order }
    requires y_in { y < order }
    ensures value { result ≡ entry order rows.now x y }
    ensures within { result < order }
{
    rows[x * order + y] as usize
}

/// The products of x with 0, 1, and so on.
pub fn row_at(rows: &[u16], order: usize, x: usize) -> &[u16]
    requires shaped { IsShaped order rows.now }
    requires x_in { x < order }
    ensures length_is { length result.now ≡ order }
    ensures products { (y : ℕ) → y < order → slice_index result.now y ≡ entry order rows.now x y }
    ensures within { All (λ e. e < order) result.now }
{
    let start = x * order;
    &rows[start..start + order]
}

/// Whether there are as many rows as the order says, each of so many numbers below it, and the
/// order is 1 to `LARGEST_ORDER`.
pub fn is_shaped(rows: &[u16], order: usize) -> bool
    ensures { IsTrue result ↔ IsShaped order rows.now }
{
    if order == 0 || order > LARGEST_ORDER as usize || rows.len() != order * order {
        return false;
    }
    for x in rows {
        if *x as usize >= order {
            return false;
        }
    }
    true
}

/// Whether 0·x is x and xy is yx.
fn holds_at_pair(rows: &[u16], order: usize, x: usize, y: usize) -> bool
    requires shaped { IsShaped order rows.now }
    requires x_in { x < order }
    requires y_in { y < order }
    ensures { result ≡ pair_holds order rows.now x y }
{
    entry_at(rows, order, 0, x) == x && entry_at(rows, order, x, y) == entry_at(rows, order, y, x)
}

/// The first z of `from..to` at which (xy)z isn't x(yz), or `to`.
pub fn first_breach(rows: &[u16], order: usize, x: usize, y: usize, from: usize, to: usize) -> usize
    requires shaped { IsShaped order rows.now }
    requires x_in { x < order }
    requires y_in { y < order }
    requires in_order { from ≤ to }
    requires to_in { to ≤ order }
    ensures within { (from ≤ result) × (result ≤ to) }
    ensures alike { (z : ℕ) → from ≤ z → z < result → groups_alike order rows.now x y z ≡ true }
    ensures breach { result < to → groups_alike order rows.now x y result ≡ false }
{
    let row_x = row_at(rows, order, x);
    let row_y = row_at(rows, order, y);
    let row_xy = row_at(rows, order, entry_at(rows, order, x, y));
    for z in from..to {
        if row_xy[z] != row_x[row_y[z] as usize] {
            return z;
        }
    }
    to
}

/// A run of triples: how many, and whether a law failed at the last of them.
#[derive(Drop)]
pub struct Run {
    pub units: u64,
    pub broken: bool,
}

/// Looks at triples from number `spent` on that have the same x and y, at most `units` of them.
pub fn run_from(rows: &[u16], order: usize, spent: u64, units: u64) -> Run
    requires shaped { IsShaped order rows.now }
    requires some { 0 < units }
    requires going { spent < triples order }
    ensures within { (0 < result.units) × (result.units ≤ units)
        × (spent + result.units ≤ triples order) }
    ensures passed { (i : ℕ) → spent ≤ i → i + 1 < spent + result.units
        → triple_holds order rows.now i ≡ true }
    ensures last { triple_holds order rows.now (spent + result.units - 1) ≡ not result.broken }
{
    let pair = spent as usize / order;
    let z = spent as usize % order;
    if !holds_at_pair(rows, order, pair / order, pair % order) {
        return Run {
            units: 1,
            broken: true,
        };
    }
    let to = z + units.min((order - z) as u64) as usize;
    let stop = first_breach(rows, order, pair / order, pair % order, z, to);
    if stop < to {
        return Run {
            units: (stop - z) as u64 + 1,
            broken: true,
        };
    }
    Run {
        units: (to - z) as u64,
        broken: false,
    }
}

/// The next run of triples, none of which needs to be looked at where every law is known to hold.
pub fn next_run(rows: &[u16], order: usize, lawful: bool, spent: u64, units: u64) -> Run
    requires shaped { IsShaped order rows.now }
    requires laws { lawful ≡ true → Monoid order (entry order rows.now) }
    requires some { 0 < units }
    requires going { spent < triples order }
    ensures within { (0 < result.units) × (result.units ≤ units)
        × (spent + result.units ≤ triples order) }
    ensures passed { (i : ℕ) → spent ≤ i → i + 1 < spent + result.units
        → triple_holds order rows.now i ≡ true }
    ensures last { triple_holds order rows.now (spent + result.units - 1) ≡ not result.broken }
{
    if !lawful {
        return run_from(rows, order, spent, units);
    }
    let order = order as u64;
    Run {
        units: units.min(order * order * order - spent),
        broken: false,
    }
}
