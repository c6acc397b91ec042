//! Weights of heaps, so that different positions have different sums, mostly: fewer heaps weigh less, and of as many
//! the smaller ones do. Nothing is promised.
use allocation::Memory;
use std::alloc::Allocator;

/// A number that looks like chance: Steele, Lea and Flood's SplitMix64.
fn mixed(n: u64) -> u64 {
    let a = n.wrapping_mul(0x9E37_79B9_7F4A_7C15);
    let b = (a ^ (a >> 30)).wrapping_mul(0xBF58_476D_1CE4_E5B9);
    let c = (b ^ (b >> 27)).wrapping_mul(0x94D0_49BB_1331_11EB);
    c ^ (c >> 31)
}

/// The weight of heap `g` of so many: a heap more outweighs the differences of 255 heaps, of which 12 bits are for the
/// heap's place and 36 for chance.
fn weight(g: usize, count: usize) -> u64 {
    let place = (g as u64).min(1 << 32) * 4095 / (count as u64).max(1);
    let chance = mixed((g as u64).wrapping_add(1)) >> 28;
    (1 << 56) + (place.min(4095) << 36) + chance
}

/// The weights of so many heaps.
pub fn weights<A: Allocator + Copy>(alloc: A, count: usize) -> Result<Vec<u64, A>, Memory> {
    let mut weights = Vec::new(alloc);
    for g in 0..count {
        weights.push(weight(g, count))?;
    }
    Ok(weights)
}
