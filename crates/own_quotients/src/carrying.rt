//! Whether a certificate is a table in other numbers.
ghost use Rattle.std.specs.Prelude.{◌≡◌, ◌<◌, ◌≤◌, ◌==◌, ℕ, All, IsTrue, length, slice_index};
ghost use Rattle.std.specs.List.{list_any};
ghost use Rattle.misere_theory.specs.Certificates.{times_of};
ghost use Rattle.monoid_table.specs.Grids.{entry};
ghost use Rattle.own_quotients.specs.Carried.{AreInverse, IsCarried};

use crate::table::OwnTable;
use certificate::{Cert, claims_agree, in_ranges};
use std::alloc::Allocator;

/// Whether each element below the order has a number below it, and this number that element again.
fn are_inverse(order: u16, numbers: &[u16], elements: &[u16]) -> bool
    ensures long { IsTrue result → order ≤ length numbers.now }
    ensures inverse { IsTrue result → AreInverse order numbers.now elements.now }
{
    if numbers.len() < order as usize || elements.len() < order as usize {
        return false;
    }
    for x in 0..order {
        let number = numbers[x as usize];
        if number >= order || elements[number as usize] != x {
            return false;
        }
    }
    true
}

/// The product of two elements of a certificate.
fn product<B: Allocator>(cert: &Cert<B>, x: u16, y: u16) -> u16
    requires x_in { x < cert.now.order }
    requires y_in { y < cert.now.order }
    ensures { result ≡ times_of cert.now x y }
{
    claims_agree();
    in_ranges(cert);
    cert.rows()[x as usize * cert.order() as usize + y as usize]
}

/// Whether the products of `x` have the products of the numbers.
fn row_agrees<A: Allocator, B: Allocator>(
    table: &OwnTable<A>,
    cert: &Cert<B>,
    numbers: &[u16],
    x: u16,
) -> bool
    requires x_in { x < table.now.order }
    requires same { cert.now.order ≡ table.now.order }
    requires long { table.now.order ≤ length numbers.now }
    requires below { (y : ℕ) → y < table.now.order → slice_index numbers.now y < table.now.order }
    ensures { IsTrue result → (y : ℕ) → y < table.now.order
        → slice_index numbers.now (entry table.now.order table.now.rows x y)
        ≡ times_of cert.now (slice_index numbers.now x) (slice_index numbers.now y) }
{
    for y in 0..table.order() {
        let number = product(cert, numbers[x as usize], numbers[y as usize]);
        if numbers[table.times(x, y) as usize] != number {
            return false;
        }
    }
    true
}

/// The same of all products.
fn products_agree<A: Allocator, B: Allocator>(
    table: &OwnTable<A>,
    cert: &Cert<B>,
    numbers: &[u16],
) -> bool
    requires same { cert.now.order ≡ table.now.order }
    requires long { table.now.order ≤ length numbers.now }
    requires below { (y : ℕ) → y < table.now.order → slice_index numbers.now y < table.now.order }
    ensures { IsTrue result → (x y : ℕ) → x < table.now.order → y < table.now.order
        → slice_index numbers.now (entry table.now.order table.now.rows x y)
        ≡ times_of cert.now (slice_index numbers.now x) (slice_index numbers.now y) }
{
    for x in 0..table.order() {
        if !row_agrees(table, cert, numbers, x) {
            return false;
        }
    }
    true
}

/// Whether the elements have these numbers, place by place.
fn numbers_agree(elements: &[u16], found: &[u16], numbers: &[u16]) -> bool
    requires { All (λ x. x < length numbers.now) elements.now }
    ensures { IsTrue result → (i : ℕ) → i < length elements.now
        → slice_index numbers.now (slice_index elements.now i) ≡ slice_index found.now i }
{
    if elements.len() != found.len() {
        return false;
    }
    for i in 0..elements.len() {
        if numbers[elements[i] as usize] != found[i] {
            return false;
        }
    }
    true
}

/// Whether the element is one of these.
pub(crate) fn holds(portion: &[u16], x: u16) -> bool
    ensures { result ≡ list_any (λ y. y == x) portion.now }
{
    portion.iter().any(|y| *y == x)
}

/// Whether the elements of one portion have the numbers of the other.
fn portions_agree(order: u16, portion: &[u16], found: &[u16], numbers: &[u16]) -> bool
    requires { order ≤ length numbers.now }
    ensures { IsTrue result → (x : ℕ) → x < order
        → list_any (λ y. y == slice_index numbers.now x) found.now
        ≡ list_any (λ y. y == x) portion.now }
{
    for x in 0..order {
        if holds(found, numbers[x as usize]) != holds(portion, x) {
            return false;
        }
    }
    true
}

/// Whether the code and the numbers in front are the same.
fn fronts_agree<A: Allocator, B: Allocator>(table: &OwnTable<A>, cert: &Cert<B>) -> bool
    ensures code { IsTrue result → cert.now.code ≡ table.now.code }
    ensures order { IsTrue result → cert.now.order ≡ table.now.order }
    ensures start { IsTrue result → cert.now.start ≡ table.now.start }
    ensures period { IsTrue result → cert.now.period ≡ table.now.period }
{
    cert.code() == table.code()
        && cert.order() == table.order()
        && cert.start() == table.start() as u64
        && cert.period() == table.period() as u64
}

/// Whether these lists number the elements of the table so that it becomes the certificate: with the
/// identity at 0, and the same products, elements of heaps, and portion.
pub fn is_carried<A: Allocator, B: Allocator>(
    table: &OwnTable<A>,
    identity: u16,
    cert: &Cert<B>,
    numbers: &[u16],
    elements: &[u16],
) -> bool
    requires { identity < table.now.order }
    ensures { IsTrue result → IsCarried table.now identity cert.now numbers.now elements.now }
{
    let order = table.order();
    if !fronts_agree(table, cert)
        || !are_inverse(order, numbers, elements)
        || !are_inverse(order, elements, numbers)
    {
        return false;
    }
    if numbers[identity as usize] != 0
        || !numbers_agree(table.heaps(), cert.phi().entries(), numbers)
    {
        return false;
    }
    portions_agree(order, table.portion(), cert.portion(), numbers)
        && products_agree(table, cert, numbers)
}
