//! Comparisons of certified quotients.
ghost use Rattle.std.specs.Prelude.{◌≡◌, ◌≢◌, ◌<◌, ℕ, IfOk, IfSome, IfNone, length, slice_index};
ghost use Rattle.misere_theory.specs.Certificates.{claim_of};
ghost use Rattle.isomorphisms.specs.Profiles.{HasColours};
ghost use Rattle.isomorphisms.specs.Comparisons.{AreCountedAlike, AreMet, Compares, Tells};

use crate::colouring::colours;
use crate::counting::{idempotents, portion_size};
use crate::searching::{MapSearch, search};
use allocation::Memory;
use answers::Certified;
use std::alloc::Allocator;

/// What tells two quotients apart.
#[derive(Clone, Copy, Debug, PartialEq, Eq)]
pub enum Difference {
    /// How many elements there are.
    Order,
    /// How many elements are in the portion.
    Portion,
    /// How many elements are their own squares.
    Idempotents,
    /// No element of the second has the colour of this one of the first.
    First(u16),
    /// No element of the first has the colour of this one of the second.
    Second(u16),
    /// No images of the heaps' elements make an isomorphism.
    Searched,
}

/// Whether two quotients are isomorphic.
#[derive(Drop)]
pub enum Comparison<B: Allocator> {
    /// They are, by the map that takes each element of the first to this one of the second.
    Same(Vec<u16, B>),
    /// They aren't.
    Different(Difference),
    /// There are more images to try than units.
    Long,
}

/// The first element whose colour is none of the others.
fn alone(colours: &[u64], others: &[u64]) -> Option<u16>
    requires { length colours.now < 65536 }
    ensures apart { IfSome result (λ x. (x < length colours.now) × ((y : ℕ) → y < length others.now
        → slice_index colours.now x ≢ slice_index others.now y)) }
    ensures met { IfNone result ((x : ℕ) → x < length colours.now
        → (y : ℕ) × (y < length others.now)
        × (slice_index colours.now x ≡ slice_index others.now y)) }
{
    for x in 0..colours.len() {
        if !others.contains(&colours[x]) {
            return Some(x as u16);
        }
    }
    None
}

/// What counts tell apart.
fn counted<A: Allocator>(a: &Certified<A>, b: &Certified<A>) -> Option<Difference>
    ensures told { IfSome result (Tells a.now b.now) }
    ensures alike { IfNone result (AreCountedAlike a.now b.now) }
{
    if a.cert().order() != b.cert().order() {
        return Some(Difference::Order);
    }
    if portion_size(a) != portion_size(b) {
        return Some(Difference::Portion);
    }
    if idempotents(a) != idempotents(b) {
        return Some(Difference::Idempotents);
    }
    None
}

/// What a search for an isomorphism says, of quotients of which colours tell nothing apart.
fn searched<A: Allocator, B: Allocator + Copy>(
    alloc: B,
    a: &Certified<A>,
    b: &Certified<A>,
    colours: &[u64],
    others: &[u64],
    units: u64,
) -> Result<Comparison<B>, Memory>
    requires colours_long { length colours.now ≡ a.now.order }
    requires others_long { length others.now ≡ b.now.order }
    requires colours { HasColours (claim_of a.now) colours.now }
    requires others { HasColours (claim_of b.now) others.now }
    requires alike { AreCountedAlike a.now b.now }
    requires met { AreMet (claim_of a.now) (claim_of b.now)
        × AreMet (claim_of b.now) (claim_of a.now) }
    ensures { IfOk result (Compares a.now b.now units) }
{
    let _ = a.cert();
    let mut left = units;
    match search(alloc, a, b, colours, others, &[], &mut left)? {
        MapSearch::Map(map) => Ok(Comparison::Same(map)),
        MapSearch::Nothing => Ok(Comparison::Different(Difference::Searched)),
        MapSearch::Long => Ok(Comparison::Long),
    }
}

/// What the colours of elements tell apart.
fn coloured<A: Allocator>(
    a: &Certified<A>,
    b: &Certified<A>,
    colours: &[u64],
    others: &[u64],
) -> Option<Difference>
    requires colours_long { length colours.now ≡ a.now.order }
    requires others_long { length others.now ≡ b.now.order }
    requires colours { HasColours (claim_of a.now) colours.now }
    requires others { HasColours (claim_of b.now) others.now }
    requires alike { AreCountedAlike a.now b.now }
    ensures told { IfSome result (Tells a.now b.now) }
    ensures met { IfNone result (AreMet (claim_of a.now) (claim_of b.now)
        × AreMet (claim_of b.now) (claim_of a.now)) }
{
    let _ = a.cert().order();
    let _ = b.cert().order();
    if let Some(x) = alone(colours, others) {
        return Some(Difference::First(x));
    }
    if let Some(y) = alone(others, colours) {
        return Some(Difference::Second(y));
    }
    None
}

/// Whether the two quotients are isomorphic as bipartite monoids, where at most so many images of
/// the heaps' elements are tried.
pub fn compared<A: Allocator, B: Allocator + Copy>(
    alloc: B,
    a: &Certified<A>,
    b: &Certified<A>,
    units: u64,
) -> Result<Comparison<B>, Memory>
    ensures { IfOk result (Compares a.now b.now units) }
{
    let _ = a.cert();
    if let Some(difference) = counted(a, b) {
        return Ok(Comparison::Different(difference));
    }
    let first = colours(alloc, a)?;
    let second = colours(alloc, b)?;
    if let Some(difference) = coloured(a, b, first.as_slice(), second.as_slice()) {
        return Ok(Comparison::Different(difference));
    }
    searched(alloc, a, b, first.as_slice(), second.as_slice(), units)
}
