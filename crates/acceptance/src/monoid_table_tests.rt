//! The monoid of a^3 = a, whose elements are 1, a and a^2, and rows that are no table.
ghost use Rattle.std.specs.Prelude.{◌≡◌};

use crate::comparing::compare;
use monoid_table::{LawFault, Table, TableJob, power, product};
use std::alloc::{AllocError, Global};

/// The products of the monoid, row after row.
const ROWS: [u16; 9] = [0, 1, 2, 1, 2, 1, 2, 1, 2];

/// The table of the rows.
fn table_of(alloc: Global, order: u16, rows: &[u16]) -> Result<Table, LawFault> {
    match rows.to_vec(alloc) {
        Ok(rows) => Table::new(order, rows),
        Err(_) => Err(LawFault::Shape),
    }
}

/// Products of two elements, of more and of none, and the powers of a and of a^2.
fn worked(table: &Table) -> ([u16; 5], [u16; 9])
    requires { table.now.order ≡ 3 }
{
    let products = [
        table.times(1, 1),
        table.times(2, 1),
        product(table, &[1, 1, 2]),
        table.product(&[1, 2, 1]),
        table.product(&[]),
    ];
    let powers = [
        power(table, &1, 0),
        power(table, &1, 1),
        power(table, &1, 2),
        power(table, &1, 3),
        power(table, &1, 6),
        power(table, &1, 7),
        power(table, &1, u64::MAX),
        table.power(1, 6),
        table.power(2, 0),
    ];
    (products, powers)
}

fn has_products(alloc: Global) -> bool {
    match table_of(alloc, 3, &ROWS) {
        Ok(table) => {
            table.order() == 3 && worked(&table) == ([2, 1, 2, 2, 0], [0, 1, 2, 1, 2, 1, 1, 2, 0])
        }
        Err(_) => false,
    }
}

/// What a job answers to so many units and then to so many more, and how many triples it looked at.
fn work_twice(
    alloc: Global,
    rows: [u16; 9],
    first: u64,
    more: u64,
) -> Option<([Result<bool, LawFault>; 2], u64)> {
    let Ok(rows) = rows.to_vec(alloc) else {
        return None;
    };
    match TableJob::new(3, rows) {
        Ok(mut job) => {
            let answers = [job.work(first), job.work(more)];
            Some((answers, job.done()))
        }
        Err(_) => None,
    }
}

#[test]
fn products_and_powers(rt: HostRuntime) {
    compare(&rt, "products", has_products(rt.alloc()), true);
}

/// The products of the second rows don't associate.
#[test]
fn triples_in_pieces(rt: HostRuntime) {
    for (rows, first, more, wanted) in [
        (ROWS, 26, 1, ([Ok(false), Ok(true)], 27)),
        (
            [0, 1, 2, 1, 2, 0, 2, 0, 2],
            14,
            u64::MAX,
            ([Ok(false), Err(LawFault::Law)], 15),
        ),
    ] {
        compare(
            &rt,
            "triples",
            work_twice(rt.alloc(), rows, first, more),
            Some(wanted),
        );
    }
}

/// Why the rows of two elements are refused, if they are.
fn refused(alloc: Global, rows: &[u16]) -> Option<LawFault> {
    match table_of(alloc, 2, rows) {
        Ok(_) => None,
        Err(fault) => Some(fault),
    }
}

/// Rows that are short, of no commutative product, and of another identity.
#[test]
fn rows_that_are_no_table(rt: HostRuntime) {
    let short = refused(rt.alloc(), &[0, 1, 1]);
    compare(&rt, "short", short, Some(LawFault::Shape));
    let not_commutative = refused(rt.alloc(), &[0, 1, 0, 1]);
    compare(&rt, "not commutative", not_commutative, Some(LawFault::Law));
    let of_another_identity = refused(rt.alloc(), &[1, 0, 0, 1]);
    compare(
        &rt,
        "another identity",
        of_another_identity,
        Some(LawFault::Law),
    );
}

/// The rows of the cyclic group of so many elements.
fn rows_of_group(alloc: Global, order: u16) -> Result<Vec<u16>, AllocError> {
    let mut rows = Vec::new(alloc);
    for x in 0..order {
        put_row(&mut rows, order, x)?;
    }
    Ok(rows)
}

/// Adds the products of x.
fn put_row(rows: &mut Vec<u16>, order: u16, x: u16) -> Result<(), AllocError> {
    for y in 0..order {
        rows.push(x.wrapping_add(y) % order.max(1))?;
    }
    Ok(())
}

/// The product of the last element with itself in the cyclic group of so many elements, or the
/// number of the fault.
fn last_squared(alloc: Global, order: u16) -> Result<u16, u8> {
    let Ok(rows) = rows_of_group(alloc, order) else {
        return Err(9);
    };
    match Table::new(order, rows) {
        Ok(table) => Ok(table.times(table.order() - 1, table.order() - 1)),
        Err(fault) => Err(fault.number()),
    }
}

/// No table has more than 4,096 elements.
#[test]
fn tables_of_many_elements(rt: HostRuntime) {
    for (order, product) in [
        (256, Ok(254)),
        (257, Ok(255)),
        (512, Ok(510)),
        (513, Ok(511)),
        (4096, Ok(4094)),
        (4097, Err(1)),
    ] {
        compare(
            &rt,
            "order and product",
            (order, last_squared(rt.alloc(), order)),
            (order, product),
        );
    }
}
