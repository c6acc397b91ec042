//! The nim sums of elements.
ghost use Rattle.std.specs.Prelude.{◌≡◌, ◌≢◌, ◌<◌, ◌≤◌, ◌+◌, ◌↔◌, ℕ, bit_xor, IfOk, IsTrue, MatchResult, All, length, slice_index};
ghost use Rattle.std.specs.Option.{MatchOption};
ghost use Rattle.misere_theory.specs.Certificates.{claim_of, kind_of, phi_at, times_of};
ghost use Rattle.nim_tails.specs.declared.TheConstants.{NIM_BOUND};
ghost use Rattle.nim_tails.specs.Normal.{AreNimValues};
ghost use Rattle.nim_tails.specs.NormalTails.{AreNimSums, IsRegularKernel};
ghost use Rattle.nim_tails.specs.Tails.{AreElementSums, IsNormal, IsTailFault, AgreesWith, IsOnlyZero};

use crate::fault::TailFault;
use crate::{nim_sum, nim_values};
use allocation::Memory;
use answers::Certified;
use std::alloc::Global;

/// For each element the nim sum of the position that its keys spell.
fn element_sums(alloc: Global, certified: &Certified, values: &[u16]) -> Result<Vec<u16>, Memory>
    requires partial { 1 ≤ kind_of certified.now }
    requires listed { length values.now ≡ kind_of certified.now + 1 }
    requires low { All (λ v. v < NIM_BOUND) values.now }
    ensures { IfOk result (λ s. AreElementSums certified.now values.now s.items) }
{
    let mut sums = Vec::new(alloc);
    sums.push(0)?;
    for x in 1..certified.cert().order() {
        let position = certified.position_of(alloc, x)?;
        sums.push(nim_sum(values, position.heaps()))?;
    }
    Ok(sums)
}

/// Whether each element with this heap has the nim sum that it should.
fn agrees(certified: &Certified, values: &[u16], sums: &[u16], heap: u64) -> bool
    requires listed { length values.now ≡ kind_of certified.now + 1 }
    requires sums { length sums.now ≡ certified.now.order }
    requires heap { (1 ≤ heap) × (heap ≤ kind_of certified.now) }
    ensures { IsTrue result ↔ AgreesWith certified.now values.now sums.now heap }
{
    let element = certified.element(heap);
    for x in 0..certified.cert().order() {
        let product = certified.times(element, x);
        if sums[product as usize] != values[heap as usize] ^ sums[x as usize] {
            return false;
        }
    }
    true
}

/// The first heap with which one hasn't.
fn first_other(certified: &Certified, values: &[u16], sums: &[u16]) -> Option<u64>
    requires listed { length values.now ≡ kind_of certified.now + 1 }
    requires sums { length sums.now ≡ certified.now.order }
    ensures { MatchOption result
        ((n : ℕ) → 1 ≤ n → n ≤ kind_of certified.now → AgreesWith certified.now values.now sums.now n)
        (λ n. (1 ≤ n) × (n ≤ kind_of certified.now)
        × (AgreesWith certified.now values.now sums.now n → ⊥)) }
{
    for before in 0..certified.cert().heaps() {
        let heap = before + 1;
        if !agrees(certified, values, sums, heap) {
            return Some(heap);
        }
    }
    None
}

/// The first element of the kernel with the nim sum 0 that isn't its identity.
fn first_zero(certified: &Certified, sums: &[u16], one: u16) -> Option<u16>
    requires sums { length sums.now ≡ certified.now.order }
    requires one { one < certified.now.order }
    ensures { MatchOption result
        ((x : ℕ) → x < certified.now.order → IsOnlyZero certified.now sums.now one x)
        (λ x. (x < certified.now.order) × (IsOnlyZero certified.now sums.now one x → ⊥)) }
{
    for x in 0..certified.cert().order() {
        if sums[x as usize] == 0 && x != one && certified.times(one, x) == x {
            return Some(x);
        }
    }
    None
}

/// Whether the kernel with this identity is normal play.
fn is_normal_by(
    certified: &Certified,
    one: u16,
    values: &[u16],
    sums: &[u16],
) -> Result<(), TailFault>
    requires partial { 1 ≤ kind_of certified.now }
    requires regular { IsRegularKernel (claim_of certified.now) one }
    requires listed { length values.now ≡ kind_of certified.now + 1 }
    requires values { AreNimValues (kind_of certified.now) certified.now.code (slice_index values.now) }
    requires sums { AreElementSums certified.now values.now sums.now }
    ensures { MatchResult result (λ _. IsNormal certified.now one) (IsTailFault certified.now) }
{
    let _ = certified.cert();
    if let Some(heap) = first_other(certified, values, sums) {
        return Err(TailFault::Nim(heap));
    }
    match first_zero(certified, sums, one) {
        Some(x) => Err(TailFault::Zero(x)),
        None => Ok(()),
    }
}

/// Whether the kernel with this identity is normal play.
pub(crate) fn is_normal(alloc: Global, certified: &Certified, one: u16) -> Result<(), TailFault>
    requires partial { 1 ≤ kind_of certified.now }
    requires regular { IsRegularKernel (claim_of certified.now) one }
    ensures { MatchResult result (λ _. IsNormal certified.now one) (IsTailFault certified.now) }
{
    let cert = certified.cert();
    let values = nim_values(alloc, cert.code(), cert.heaps())?;
    let sums = element_sums(alloc, certified, values.as_slice())?;
    is_normal_by(certified, one, values.as_slice(), sums.as_slice())
}
