//! At which elements the options of a heap stand. There are no more of these than elements, however many options.
ghost use Rattle.std.specs.Prelude.{◌≡◌, ◌<◌, ℕ, List, [], IsTrue, IfSome, IfOk, IfErr, length, slice_index};
ghost use Rattle.std.specs.List.{Contains};
ghost use Rattle.presentations.specs.declared.TheConstants.{LETTERS};
ghost use Rattle.heap_options.specs.Exact.{heaps_of};
ghost use Rattle.normal_forms.specs.Forms.{word_of};
ghost use Rattle.presented_claims.specs.Claims.{heap_word};
ghost use Rattle.presented_tables.specs.Elements.{Takes, AreElements};
ghost use Rattle.presented_tables.specs.Faults.{IsTrueOf};
ghost use Rattle.presented_tables.specs.Reached.{StandsAt, AreReached, IsWith};
ghost use Rattle.presented_tables.specs.Rows.{AreNexts};

use crate::acting::{number_at, with_heap};
use crate::elements::ListedElements;
use crate::fault::TablesFault;
use crate::numbers::{HeapNumbers, number, small};
use crate::presentation::Presented;
use allocation::Memory;
use heap_options::{Left, options, options_are_exact};
use std::alloc::{Allocator, Global};
use std::marker::Model;

/// Elements, each once; and for each element a place of the list where it may stand, of which nothing is promised.
#[derive(Drop)]
struct Distinct<A: Allocator = Global> {
    list: Vec<u32, A>,
    places: Vec<u32, A>,
}

impl<A: Allocator> Model for Distinct<A> {
    ghost use Rattle.std.specs.Prelude.{ℕ, List};

    ghost Value = { List ℕ };

    ghost view = { λ s. s.list.items };
}

impl<A: Allocator + Copy> Distinct<A> {
    /// A list of nothing, for so many elements.
    fn new(alloc: A, count: usize) -> Result<Distinct<A>, Memory>
        ensures { IfOk result (λ s. s ≡ []) }
    {
        let mut places = Vec::new(alloc);
        for _ in 0..count {
            places.push(0)?;
        }
        Ok(Distinct {
            list: Vec::new(alloc),
            places,
        })
    }

    /// Whether the list is seen to have element `y`, at the place where it may stand.
    fn has(&self, y: u32) -> bool
        ensures { IsTrue result → Contains self.now y }
    {
        let Some(place) = self.places.get(y as usize) else {
            return false;
        };
        match self.list.get(*place as usize) {
            Some(there) => *there == y,
            None => false,
        }
    }

    /// Puts element `y` into the list, if it isn't seen there.
    fn add(&mut self, y: u32) -> Result<(), Memory>
        ensures { IfOk result (λ _. IsWith self.old y self.new) }
    {
        if self.has(y) {
            return Ok(());
        }
        let place = self.list.len().min(u32::MAX as usize) as u32;
        if let Some(hint) = self.places.get_mut(y as usize) {
            *hint = place;
        }
        self.list.push(y)?;
        Ok(())
    }
}

/// The number of heap `n`, if it has one.
fn number_of<A: Allocator>(s: &HeapNumbers<A>, n: u64) -> Option<usize>
    ensures { IfSome result (λ g. (g < length s.now.sizes) × (slice_index s.now.sizes g ≡ n)) }
{
    let g = number(&s.numbers, n as usize)?;
    if g < s.sizes.len() && number(&s.sizes, g) == Some(n as usize) {
        return Some(g);
    }
    None
}

/// The element to which heap `n` takes element `x`: by the table, if the heap has a number.
fn with_numbered<A: Allocator>(
    p: &Presented<A>,
    e: &ListedElements<A>,
    s: &HeapNumbers<A>,
    nexts: &[u32],
    x: usize,
    n: u64,
) -> Option<usize>
    requires elements { AreElements p.now e.now }
    requires nexts { AreNexts p.now e.now s.now nexts.now }
    requires inside { x < length e.now.words }
    ensures { IfSome result (λ y. Takes p.now e.now (heap_word p.now n) x y) }
{
    match number_of(s, n) {
        Some(g) => number_at(nexts, s.sizes.len(), x, g),
        None => with_heap(p, e, x, n),
    }
}

/// The element to which what is left of a heap does.
fn with_left<A: Allocator>(
    p: &Presented<A>,
    e: &ListedElements<A>,
    s: &HeapNumbers<A>,
    nexts: &[u32],
    x: usize,
    left: Left,
) -> Option<usize>
    requires elements { AreElements p.now e.now }
    requires nexts { AreNexts p.now e.now s.now nexts.now }
    requires inside { x < length e.now.words }
    ensures { IfSome result (λ y. Takes p.now e.now (word_of LETTERS (heap_word p.now) (heaps_of left)) x y) }
{
    match left {
        Left::Nothing => Some(x),
        Left::One(a) => with_numbered(p, e, s, nexts, x, a),
        Left::Two(a, b) => {
            let y = with_numbered(p, e, s, nexts, x, a)?;
            with_numbered(p, e, s, nexts, y, b)
        }
        Left::Three(a, b, c) => {
            let y = with_numbered(p, e, s, nexts, x, a)?;
            let z = with_numbered(p, e, s, nexts, y, b)?;
            with_numbered(p, e, s, nexts, z, c)
        }
    }
}

/// The element at which what is left of a heap stands.
fn stand<A: Allocator>(
    p: &Presented<A>,
    e: &ListedElements<A>,
    s: &HeapNumbers<A>,
    nexts: &[u32],
    left: Left,
) -> Result<u32, TablesFault>
    requires elements { AreElements p.now e.now }
    requires nexts { AreNexts p.now e.now s.now nexts.now }
    ensures stands { IfOk result (λ y. StandsAt p.now e.now (heaps_of left) y) }
    ensures fault { IfErr result (λ f. IsTrueOf p.now f) }
{
    let Some(y) = with_left(p, e, s, nexts, 0, left) else {
        return Err(TablesFault::Undecided);
    };
    match small(y) {
        Some(y) => Ok(y),
        None => Err(TablesFault::Limit),
    }
}

/// The elements at which the options of heap `n` stand.
pub(crate) fn reached<A: Allocator + Copy>(
    alloc: A,
    p: &Presented<A>,
    e: &ListedElements<A>,
    s: &HeapNumbers<A>,
    nexts: &[u32],
    n: u64,
) -> Result<Vec<u32, A>, TablesFault>
    requires elements { AreElements p.now e.now }
    requires nexts { AreNexts p.now e.now s.now nexts.now }
    ensures reached { IfOk result (λ ys. AreReached p.now e.now n ys.items) }
    ensures fault { IfErr result (λ f. IsTrueOf p.now f) }
{
    options_are_exact();
    let mut distinct = Distinct::new(alloc, e.words.len())?;
    for left in options(&p.code, n) {
        let y = stand(p, e, s, nexts, left)?;
        distinct.add(y)?;
    }
    Ok(distinct.list)
}
