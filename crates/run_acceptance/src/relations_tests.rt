//! Tables that are described within the bounds, and others that are not.
use crate::comparing::compare;
use crate::rows::{Row, count_held};
use allocation::Memory;
use monoid_table::Table;
use presentations::LETTERS;
use relations::{Bound, Description, Form, Undescribed, described, presentable};
use std::alloc::Global;

/// A monoid, by its elements' numbers.
enum Monoid {
    /// The cyclic group of this order: x and y make their sum by it.
    Cyclic(u16),
    /// The identity, so many others, and one that is each product of two of these.
    Null(u16),
    /// The cyclic group of a, of this order, and its coset of a b with b·b = a·a.
    Double(u16),
}

/// How many elements it has.
fn order_of(monoid: &Monoid) -> u16 {
    match monoid {
        Monoid::Cyclic(order) => *order,
        Monoid::Null(others) => others.saturating_add(2),
        Monoid::Double(order) => order.saturating_mul(2),
    }
}

/// The product of two elements of a cyclic group.
fn sum(order: u16, x: u16, y: u16) -> u16 {
    let all = x.saturating_add(y);
    if all < order {
        all
    } else {
        all.saturating_sub(order)
    }
}

/// The product of two elements, of which the last is `last`, where the others than the identity make it.
fn last_or_other(last: u16, x: u16, y: u16) -> u16 {
    match (x, y) {
        (0, other) | (other, 0) => other,
        _ => last,
    }
}

/// The product of two elements of a cyclic group and its coset, which stands behind it: b·b = a·a.
fn sum_or_coset(order: u16, x: u16, y: u16) -> u16 {
    let order = order.max(1);
    let all = sum(order, x % order, y % order);
    match (x < order, y < order) {
        (true, true) => all,
        (false, false) => sum(order, all, 2),
        _ => all.saturating_add(order),
    }
}

/// The product of two elements.
fn times(monoid: &Monoid, x: u16, y: u16) -> u16 {
    match monoid {
        Monoid::Cyclic(order) => sum(*order, x, y),
        Monoid::Null(others) => last_or_other(others.saturating_add(1), x, y),
        Monoid::Double(order) => sum_or_coset(*order, x, y),
    }
}

/// The rows of its table.
fn rows_of(alloc: Global, monoid: &Monoid) -> Result<Vec<u16>, Memory> {
    let mut rows = Vec::new(alloc);
    for x in 0..order_of(monoid) {
        for y in 0..order_of(monoid) {
            rows.push(times(monoid, x, y))?;
        }
    }
    Ok(rows)
}

/// The table of a monoid.
fn table_of(alloc: Global, monoid: &Monoid) -> Option<Table> {
    match rows_of(alloc, monoid) {
        Ok(rows) => Table::new(order_of(monoid), rows).ok(),
        Err(_) => None,
    }
}

/// A monoid, whether its elements are given or none, and within which bound it is not described by
/// them, where it isn't.
struct Told(Monoid, bool, Option<Bound>);

/// Whether this is told of a table.
fn is_told(table: &Table, told: Result<Description, Undescribed>, bound: Option<Bound>) -> bool {
    match told {
        Ok(found) => bound.is_none() && found.words.len() == table.order() as usize,
        Err(Undescribed::Bound(met)) => bound == Some(met.bound()),
        Err(Undescribed::Memory) => false,
    }
}

/// What is told of the table by its elements.
fn by_elements(alloc: Global, table: &Table) -> Result<Description, Undescribed> {
    if table.order() == 0 {
        return described(alloc, table, &[], Form::Basis);
    }
    described(alloc, table, table.row(0), Form::Basis)
}

impl Row for Told {
    fn holds(&self, alloc: Global) -> bool {
        let Told(monoid, given, bound) = self;
        let Some(table) = table_of(alloc, monoid) else {
            return false;
        };
        let told = if *given {
            by_elements(alloc, &table)
        } else {
            described(alloc, &table, &[], Form::Basis)
        };
        is_told(&table, told, *bound)
    }
}

static ROWS: [Told; 8] = [
    Told(Monoid::Cyclic(2), true, None),
    Told(Monoid::Cyclic(64), true, None),
    Told(Monoid::Cyclic(65), true, Some(Bound::Exponents)),
    Told(Monoid::Cyclic(70), true, Some(Bound::Exponents)),
    Told(Monoid::Cyclic(300), true, Some(Bound::Exponents)),
    Told(Monoid::Null(26), true, None),
    Told(Monoid::Null(27), true, Some(Bound::Letters)),
    Told(Monoid::Cyclic(2), false, Some(Bound::Unshown)),
];

/// How many relations are given of the table as `present` takes them.
fn count_presentable(alloc: Global, table: &Table, found: &Description) -> usize {
    let order = table.order();
    if found.elements.len() > LETTERS || !found.elements.iter().all(|e| *e < order) {
        return 0;
    }
    match presentable(alloc, table, found) {
        Ok(Some(relations)) => relations.len(),
        _ => 0,
    }
}

/// How many relations are given of the table, and how many as `present` takes them.
fn counts(alloc: Global, table: &Table) -> (usize, usize) {
    match by_elements(alloc, table) {
        Ok(found) => (
            found.relations.len(),
            count_presentable(alloc, table, &found),
        ),
        Err(_) => (0, 0),
    }
}

/// The same of the group of a with a^20 = 1, and of b with b^2 = a^2. One more is given as `present`
/// takes them: b^20 = 1, which is between powers of b alone.
fn counts_of_double(alloc: Global) -> (usize, usize) {
    match table_of(alloc, &Monoid::Double(20)) {
        Some(table) => counts(alloc, &table),
        None => (0, 0),
    }
}

#[test]
fn describes_within_bounds(rt: HostRuntime) {
    compare(&rt, "ROWS", count_held(rt.alloc(), &ROWS), 8);
    compare(&rt, "relations", counts_of_double(rt.alloc()), (2, 3));
}
