//! Whether a list of images is an isomorphism.
ghost use Rattle.std.specs.Prelude.{◌≡◌, ◌<◌, ◌≤◌, ◌↔◌, ℕ, IsTrue, All, length, slice_index};
ghost use Rattle.misere_theory.specs.Certificates.{claim_of, times_of};
ghost use Rattle.isomorphisms.specs.Isomorphism.{IsMap};
ghost use Rattle.isomorphisms.specs.Maps.{AreHit, AreNew, IsHit, IsNew, KeepsPortion, KeepsProducts};

use answers::Certified;
use std::alloc::Allocator;

/// Whether some element has the image y.
fn is_hit(map: &[u16], y: u16) -> bool
    ensures { IsTrue result ↔ IsHit map.now y }
{
    for x in 0..map.len() {
        if map[x] == y {
            return true;
        }
    }
    false
}

/// Whether each element below the order is an image.
fn are_hit(map: &[u16], order: u16) -> bool
    ensures { IsTrue result ↔ AreHit map.now order }
{
    for y in 0..order {
        if !is_hit(map, y) {
            return false;
        }
    }
    true
}

/// Whether no smaller element has the image of x.
fn is_new(map: &[u16], x: usize) -> bool
    requires { x < length map.now }
    ensures { IsTrue result ↔ IsNew map.now x }
{
    for z in 0..x {
        if map[z] == map[x] {
            return false;
        }
    }
    true
}

/// Whether no two elements have one image.
fn are_new(map: &[u16]) -> bool
    ensures { IsTrue result ↔ AreNew map.now }
{
    for x in 0..map.len() {
        if !is_new(map, x) {
            return false;
        }
    }
    true
}

/// Whether the portion, and nothing else, goes to the portion.
fn keeps_portion<A: Allocator>(a: &Certified<A>, b: &Certified<A>, map: &[u16]) -> bool
    requires long { length map.now ≡ a.now.order }
    requires within { All (λ y. y < b.now.order) map.now }
    ensures { IsTrue result ↔ KeepsPortion (claim_of a.now) (claim_of b.now) map.now }
{
    for x in 0..a.cert().order() {
        if b.holds(map[x as usize]) != a.holds(x) {
            return false;
        }
    }
    true
}

/// Whether the product of x and y goes to the product of their images.
fn keeps_product<A: Allocator>(
    a: &Certified<A>,
    b: &Certified<A>,
    map: &[u16],
    x: u16,
    y: u16,
) -> bool
    requires long { length map.now ≡ a.now.order }
    requires within { All (λ y. y < b.now.order) map.now }
    requires x_in { x < a.now.order }
    requires y_in { y < a.now.order }
    ensures { IsTrue result ↔ (slice_index map.now (times_of a.now x y)
        ≡ times_of b.now (slice_index map.now x) (slice_index map.now y)) }
{
    let product = a.times(x, y);
    let image = b.times(map[x as usize], map[y as usize]);
    map[product as usize] == image
}

/// Whether the products of x go to products.
fn keeps_products_of<A: Allocator>(a: &Certified<A>, b: &Certified<A>, map: &[u16], x: u16) -> bool
    requires long { length map.now ≡ a.now.order }
    requires within { All (λ y. y < b.now.order) map.now }
    requires x_in { x < a.now.order }
    ensures { IsTrue result ↔ KeepsProducts (claim_of a.now) (claim_of b.now) map.now x }
{
    for y in 0..a.cert().order() {
        if !keeps_product(a, b, map, x, y) {
            return false;
        }
    }
    true
}

/// Whether all products go to products.
fn keeps_products<A: Allocator>(a: &Certified<A>, b: &Certified<A>, map: &[u16]) -> bool
    requires long { length map.now ≡ a.now.order }
    requires within { All (λ y. y < b.now.order) map.now }
    ensures { IsTrue result ↔ ((x : ℕ) → x < a.now.order
        → KeepsProducts (claim_of a.now) (claim_of b.now) map.now x) }
{
    for x in 0..a.cert().order() {
        if !keeps_products_of(a, b, map, x) {
            return false;
        }
    }
    true
}

/// Whether the map, which has an image of each element, is an isomorphism.
pub fn is_map<A: Allocator>(a: &Certified<A>, b: &Certified<A>, map: &[u16]) -> bool
    requires long { length map.now ≡ a.now.order }
    requires within { All (λ y. y < b.now.order) map.now }
    ensures { IsTrue result ↔ IsMap (claim_of a.now) (claim_of b.now) map.now }
{
    let order = b.cert().order();
    let _ = a.cert().order();
    if map[0] != 0 {
        return false;
    }
    if !keeps_portion(a, b, map) {
        return false;
    }
    if !keeps_products(a, b, map) {
        return false;
    }
    if !are_hit(map, order) {
        return false;
    }
    are_new(map)
}
