//! The heaps that have options, in numbers.
ghost use Rattle.std.specs.Prelude.{◌≡◌, ◌<◌, ◌≤◌, ℕ, IsTrue, IfSome, IfOk, IfErr, true, false, length, slice_index};
ghost use Rattle.misere_theory.specs.Games.{HeapOption};
ghost use Rattle.kept_positions.specs.Kept.{IsMovable};
ghost use Rattle.presented_tables.specs.Faults.{IsTrueOf};
ghost use Rattle.presented_tables.specs.Tested.{HasWord};
ghost use Rattle.presented_tables.specs.Numbers.{IsSize, HasNumber, AreNumbers};

use crate::fault::TablesFault;
use crate::heaps::has_option;
use crate::presentation::Presented;
use allocation::Memory;
use std::alloc::{Allocator, Global};
use std::marker::Model;

/// The sizes of the heaps with a word and an option; and of each heap of the list its number among these, if it is
/// one of them.
#[derive(Drop)]
pub struct HeapNumbers<A: Allocator = Global> {
    pub sizes: Vec<u32, A>,
    pub numbers: Vec<u32, A>,
}

impl<A: Allocator> Model for HeapNumbers<A> {
    ghost use Rattle.presented_tables.specs.Numbers as sized;

    ghost Value = { sized.HeapNumbers };

    ghost view = { λ s. record { sizes = s.sizes.items; numbers = s.numbers.items } };
}

/// Number `x` of the list.
pub(crate) fn number(list: &[u32], x: usize) -> Option<usize>
    ensures { IfSome result (λ v. v ≡ slice_index list.now x) }
{
    match list.get(x) {
        Some(v) => Some(*v as usize),
        None => None,
    }
}

/// The number, if it is small enough.
pub(crate) fn small(y: usize) -> Option<u32>
    ensures { IfSome result (λ v. v ≡ y) }
{
    match u32::try_from(y) {
        Ok(v) => Some(v),
        Err(_) => None,
    }
}

/// Whether the heap has a word and an option.
fn is_movable<A: Allocator>(p: &Presented<A>, n: u64) -> bool
    ensures yes { result ≡ true → IsMovable (HasWord p.now) p.now.code n }
    ensures no { result ≡ false → IsMovable (HasWord p.now) p.now.code n → ⊥ }
{
    p.has_word(n) && has_option(&p.code, n)
}

/// A making of the lists, of which nothing is promised.
fn made<A: Allocator + Copy>(alloc: A, p: &Presented<A>) -> Result<HeapNumbers<A>, Memory> {
    let mut sizes = Vec::new(alloc);
    let mut numbers = Vec::new(alloc);
    for n in 0..p.heaps as u64 + 1 {
        numbers.push(sizes.len().min(u32::MAX as usize) as u32)?;
        if is_movable(p, n) {
            sizes.push(n as u32)?;
        }
    }
    Ok(HeapNumbers { sizes, numbers })
}

/// Whether heap `n` is seen to have its number, if it is movable.
fn has_number<A: Allocator>(p: &Presented<A>, s: &HeapNumbers<A>, n: u64) -> bool
    ensures { IsTrue result → IsMovable (HasWord p.now) p.now.code n → HasNumber s.now n }
{
    if !is_movable(p, n) {
        return true;
    }
    let Some(g) = number(&s.numbers, n as usize) else {
        return false;
    };
    g < s.sizes.len() && number(&s.sizes, g) == Some(n as usize)
}

/// The same of each heap of the list.
fn have_numbers<A: Allocator>(p: &Presented<A>, s: &HeapNumbers<A>) -> bool
    ensures { IsTrue result → (n : ℕ) → n ≤ p.now.heaps → IsMovable (HasWord p.now) p.now.code n
        → HasNumber s.now n }
{
    for n in 0..p.heaps as u64 + 1 {
        if !has_number(p, s, n) {
            return false;
        }
    }
    true
}

/// Whether size `g` is seen to be that of a movable heap with that number.
fn is_size<A: Allocator>(p: &Presented<A>, s: &HeapNumbers<A>, g: usize) -> bool
    ensures { IsTrue result → IsSize p.now s.now g }
{
    let Some(n) = number(&s.sizes, g) else {
        return false;
    };
    number(&s.numbers, n) == Some(g) && is_movable(p, n as u64)
}

/// The same of each size.
fn are_sizes<A: Allocator>(p: &Presented<A>, s: &HeapNumbers<A>) -> bool
    ensures { IsTrue result → (g : ℕ) → g < length s.now.sizes → IsSize p.now s.now g }
{
    for g in 0..s.sizes.len() {
        if !is_size(p, s, g) {
            return false;
        }
    }
    true
}

/// The movable heaps in numbers.
pub fn numbers_of<A: Allocator + Copy>(
    alloc: A,
    p: &Presented<A>,
) -> Result<HeapNumbers<A>, TablesFault>
    ensures numbers { IfOk result (λ s. AreNumbers p.now s) }
    ensures fault { IfErr result (λ f. IsTrueOf p.now f) }
{
    let made = made(alloc, p)?;
    if have_numbers(p, &made) && are_sizes(p, &made) {
        Ok(made)
    } else {
        Err(TablesFault::Undecided)
    }
}
