//! Numbers for classes, by least keys.
ghost use Rattle.std.specs.Prelude.{◌≡◌, ◌≢◌, ◌+◌, ◌-◌, ◌*◌, ◌^◌, ◌<◌, ◌≤◌, ◌∷◌, [], ℕ, IfOk, OnErr, Err, length, slice_index};
ghost use Rattle.misere_theory.specs.declared.TheConstants.{LARGEST_FIRST_ORDER};
ghost use Rattle.presentations.specs.declared.TheConstants.{LETTERS};
ghost use Rattle.presentations.specs.Numberings.{NumberState, IsAssigned, IsNumbering, AreRoots, AreKeys, HasManyClasses};

use crate::axes::{Axis, next};
use crate::fault::PresFault;
use misere_theory::LARGEST_FIRST_ORDER;
use std::alloc::Allocator;
use std::marker::Model;

const NONE: u16 = LARGEST_FIRST_ORDER;

/// Classes with their numbers: the first vector of each, and for each number above 0 its key, which
/// is the place of a product of a smaller element with a generator, row after row.
#[derive(Drop)]
pub struct Numbers<A: Allocator> {
    numbers: Vec<u16, A>,
    firsts: Vec<u32, A>,
    keys: Vec<usize, A>,
}

impl<A: Allocator> Model for Numbers<A> {
    ghost use Rattle.presentations.specs.Numberings.{NumberState, AreNumbers};

    ghost Value = { NumberState };

    ghost use Rattle.std.specs.Prelude.{length};

    ghost view = { λ n.
        record { places = length n.numbers.items; firsts = n.firsts.items; keys = n.keys.items } };

    ghost invariant = { λ n. AreNumbers n.numbers.items n.firsts.items };
}

impl<A: Allocator + Copy> Numbers<A> {
    /// The class of the first vector alone, which is number 0.
    fn new(alloc: A, places: usize) -> Result<Numbers<A>, PresFault>
        requires some { 0 < places }
        requires small { places < 2 ^ 32 }
        ensures state { IfOk result
            (λ n. n ≡ record { places = places; firsts = 0 ∷ []; keys = [] }) }
        ensures refused { OnErr result (result ≡ Err PresFault.Memory) }
    {
        let mut numbers: Vec<u16, A> = vec![in alloc; NONE; places]?;
        numbers[0] = 0;
        let mut firsts = Vec::new(alloc);
        firsts.push(0)?;
        Ok(Numbers {
            numbers,
            firsts,
            keys: Vec::new(alloc),
        })
    }
}

impl<A: Allocator> Numbers<A> {
    /// How many classes have numbers.
    pub fn order(&self) -> usize
        ensures value { result ≡ length self.now.firsts }
        ensures range { (0 < result) × (result ≤ LARGEST_FIRST_ORDER) }
        ensures apart { (d e : ℕ) → d < result → e < result
            → slice_index self.now.firsts d ≡ slice_index self.now.firsts e → d ≡ e }
    {
        self.firsts.len()
    }

    /// The first vector of a numbered class.
    pub fn first(&self, element: usize) -> usize
        requires { element < length self.now.firsts }
        ensures value { result ≡ slice_index self.now.firsts element }
        ensures within { result < self.now.places }
    {
        self.firsts[element] as usize
    }

    /// The key of an element above 0.
    pub fn key(&self, element: usize) -> usize
        requires above { 0 < element }
        requires within { element ≤ length self.now.keys }
        ensures { result ≡ slice_index self.now.keys (element - 1) }
    {
        self.keys[element - 1]
    }

    /// The number of a class: its own, or the next one, with this key.
    fn number(&mut self, class: usize, key: usize) -> Result<u16, PresFault>
        requires { class < self.old.places }
        ensures assigned { IfOk result (λ n. IsAssigned self.old self.new class key n) }
        ensures places { self.new.places ≡ self.old.places }
        ensures full { (result ≡ Err PresFault.Limit) → (length self.old.firsts ≡ LARGEST_FIRST_ORDER)
            × ((e : ℕ) → e < LARGEST_FIRST_ORDER → slice_index self.old.firsts e ≢ class) }
        ensures only { OnErr result ((result ≢ Err PresFault.Text)
            × (result ≢ Err PresFault.Unbounded)) }
    {
        let known = self.numbers[class];
        if known != NONE {
            return Ok(known);
        }
        let next = self.firsts.len();
        if next == LARGEST_FIRST_ORDER as usize {
            return Err(PresFault::Limit);
        }
        self.keys.push(key)?;
        self.firsts.push(class as u32)?;
        self.numbers[class] = next as u16;
        Ok(next as u16)
    }
}

/// Numbered classes, and the number of each product of an element with a generator.
#[derive(Drop)]
pub struct Numbering<A: Allocator> {
    pub numbers: Numbers<A>,
    pub products: Vec<u16, A>,
}

/// Numbers the classes from that of the box's first vector on.
pub fn numbering_of<A: Allocator + Copy>(
    alloc: A,
    axes: &[Axis],
    classes: &[u32],
) -> Result<Numbering<A>, PresFault>
    requires roots { AreRoots axes.now classes.now }
    requires letters { length axes.now ≤ LETTERS }
    ensures numbering { IfOk result
        (λ n. IsNumbering axes.now classes.now n.numbers.firsts n.numbers.keys n.products.items) }
    ensures keys { IfOk result
        (λ n. AreKeys (length axes.now) (length n.numbers.firsts) n.numbers.keys n.products.items) }
    ensures limit { (result ≡ Err PresFault.Limit) → HasManyClasses axes.now classes.now }
    ensures only { OnErr result ((result ≢ Err PresFault.Text)
        × (result ≢ Err PresFault.Unbounded)) }
{
    let mut numbers = Numbers::new(alloc, classes.len())?;
    let mut products: Vec<u16, A> = Vec::new(alloc);
    while products.len() < numbers.order() * axes.len() {
        let place = products.len();
        let first = numbers.first(place / axes.len());
        let class = classes[next(axes, place % axes.len(), first)];
        let number = numbers.number(class as usize, place)?;
        products.push(number)?;
    }
    Ok(Numbering { numbers, products })
}
