//! The colours of elements.
ghost use Rattle.std.specs.Prelude.{◌≡◌, ◌<◌, ℕ, IfOk, All, length, slice_index};
ghost use Rattle.misere_theory.specs.Certificates.{claim_of};
ghost use Rattle.isomorphisms.specs.declared.TheConstants.{COLOURS};
ghost use Rattle.isomorphisms.specs.Profiles.{HasColours, mixed, recoloured, colour};

use crate::{COLOURS, FIRST, ROUNDS, SECOND};
use allocation::Memory;
use answers::Certified;
use std::alloc::Allocator;

/// A number for two colours.
#[tactic(auto, unfolding(crate::specs::Profiles::mixed))]
fn mixed(a: u64, b: u64) -> u64
    requires a_in { a < COLOURS }
    requires b_in { b < COLOURS }
    ensures value { result ≡ mixed a b }
    ensures within { result < COLOURS }
{
    let t = (a * FIRST + b) % COLOURS;
    let square = (t * t) % COLOURS;
    (square * t) % COLOURS
}

/// The next colour of x.
#[tactic(auto, unfolding(crate::specs::Profiles::recoloured))]
fn recoloured<A: Allocator>(quotient: &Certified<A>, colours: &[u64], x: u16) -> u64
    requires x_in { x < quotient.now.order }
    requires long { length colours.now ≡ quotient.now.order }
    requires within { All (λ k. k < COLOURS) colours.now }
    ensures value { result ≡ recoloured (claim_of quotient.now) (slice_index colours.now) x }
    ensures within { result < COLOURS }
{
    let mut sum: u64 = 0;
    for z in 0..quotient.cert().order() {
        let product = quotient.times(x, z);
        sum += mixed(colours[z as usize], colours[product as usize]);
    }
    (colours[x as usize] * SECOND + sum) % COLOURS
}

/// The next colours of all elements.
fn next_colours<A: Allocator, B: Allocator>(
    alloc: B,
    quotient: &Certified<A>,
    colours: &[u64],
) -> Result<Vec<u64, B>, Memory>
    requires long { length colours.now ≡ quotient.now.order }
    requires within { All (λ k. k < COLOURS) colours.now }
    ensures long { IfOk result (λ r. length r.items ≡ quotient.now.order) }
    ensures within { IfOk result (λ r. All (λ k. k < COLOURS) r.items) }
    ensures values { IfOk result (λ r. (x : ℕ) → x < quotient.now.order
        → slice_index r.items x ≡ recoloured (claim_of quotient.now) (slice_index colours.now) x) }
{
    let mut next = Vec::new(alloc);
    for x in 0..quotient.cert().order() {
        let colour = recoloured(quotient, colours, x);
        next.push(colour)?;
    }
    Ok(next)
}

/// The first colour of x: 1 in the portion, and else 0.
#[tactic(auto, unfolding(crate::specs::Profiles::colour))]
fn first_colour<A: Allocator>(quotient: &Certified<A>, x: u16) -> u64
    requires { x < quotient.now.order }
    ensures value { result ≡ colour (claim_of quotient.now) 0 x }
    ensures within { result < COLOURS }
{
    if quotient.holds(x) { 1 } else { 0 }
}

/// The first colours of all elements.
fn first_colours<A: Allocator, B: Allocator>(
    alloc: B,
    quotient: &Certified<A>,
) -> Result<Vec<u64, B>, Memory>
    ensures long { IfOk result (λ r. length r.items ≡ quotient.now.order) }
    ensures within { IfOk result (λ r. All (λ k. k < COLOURS) r.items) }
    ensures values { IfOk result (λ r. (x : ℕ) → x < quotient.now.order
        → slice_index r.items x ≡ colour (claim_of quotient.now) 0 x) }
{
    let mut first = Vec::new(alloc);
    for x in 0..quotient.cert().order() {
        let colour = first_colour(quotient, x);
        first.push(colour)?;
    }
    Ok(first)
}

/// The colours of all elements.
pub fn colours<A: Allocator, B: Allocator + Copy>(
    alloc: B,
    quotient: &Certified<A>,
) -> Result<Vec<u64, B>, Memory>
    ensures long { IfOk result (λ r. length r.items ≡ quotient.now.order) }
    ensures values { IfOk result (λ r. HasColours (claim_of quotient.now) r.items) }
{
    let _ = quotient.cert();
    let mut colours = first_colours(alloc, quotient)?;
    for _round in 0..ROUNDS {
        let next = next_colours(alloc, quotient, colours.as_slice())?;
        colours = next;
    }
    Ok(colours)
}
