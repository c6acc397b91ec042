//! The table of a presentation's least congruence, with names for its generators.
ghost use Rattle.std.specs.Prelude.{◌≡◌, ◌↔◌, ◌⊎◌, ◌+◌, ◌-◌, ◌*◌, ◌/◌, ◌%◌, ◌<◌, ◌≤◌, ◌≢◌, All, IfOk, OnErr, Err, length, map, take, slice_index};
ghost use Rattle.misere_theory.specs.declared.TheConstants.{LARGEST_FIRST_ORDER};
ghost use Rattle.presentations.specs.declared.TheConstants.{LETTERS};
ghost use Rattle.presentations.specs.Words.{letters_of};
ghost use Rattle.presentations.specs.Powers.{IsUnbounded, IsAboveLimit};
ghost use Rattle.presentations.specs.Merging.{letters_in, AreClasses};
ghost use Rattle.presentations.specs.Tables.{IsTableOf, HasMoreElements};
ghost use Rattle.presentations.specs.Numberings.{AreKeys, AreRows, AreRowsUpTo, AreRoots};

use crate::axes::Axis;
use crate::bounds::axes_of;
use crate::classes::classes_of;
use crate::fault::PresFault;
use crate::numbering::{Numbering, numbering_of};
use crate::read::{Presentation, Relation};
use monoid_table::Table;
use std::alloc::{Allocator, Global};

/// A letter and its element.
#[derive(Clone, Copy, Debug, PartialEq, Eq)]
pub struct NamedElement {
    pub letter: u8,
    pub element: u16,
}

/// A table, and each letter's element, in the order of the alphabet.
#[derive(Drop)]
pub struct Named<A: Allocator = Global> {
    pub table: Table<A>,
    pub generators: Vec<NamedElement, A>,
}

/// The table of the least congruence that holds every relation.
///
/// Answers `Unbounded` exactly where some letter that occurs has no relation between two different
/// powers of it alone. Otherwise answers `Limit` where the product of the letters' least larger
/// exponents of such relations is above `limit`, or there are more than `LARGEST_FIRST_ORDER` elements.
/// Element 0 is the identity, and the others are numbered by least keys: a smaller element and a
/// generator whose product they are.
pub fn table_of<A: Allocator + Copy>(
    alloc: A,
    presentation: &Presentation<A>,
    limit: u32,
) -> Result<Named<A>, PresFault>
    ensures table { IfOk result (λ n. IsTableOf presentation.now n.table n.generators.items) }
    ensures within { IfOk result (λ _. IsAboveLimit presentation.now limit → ⊥) }
    ensures unbounded { (result ≡ Err PresFault.Unbounded) ↔ IsUnbounded presentation.now }
    ensures limit { (result ≡ Err PresFault.Limit) → IsAboveLimit presentation.now limit
        ⊎ HasMoreElements presentation.now LARGEST_FIRST_ORDER }
    ensures not_text { OnErr result (result ≢ Err PresFault.Text) }
{
    let relations = presentation.relations();
    let (axes, size) = axes_of(alloc, relations, limit)?;
    let classes = classes_of(alloc, &axes, relations, size)?;
    table_in(alloc, relations, &axes, &classes)
}

/// The table of the classes of a box.
fn table_in<A: Allocator + Copy>(
    alloc: A,
    relations: &[Relation],
    axes: &[Axis],
    classes: &[u32],
) -> Result<Named<A>, PresFault>
    requires classes { AreClasses axes.now relations.now classes.now }
    requires roots { AreRoots axes.now classes.now }
    requires count { length axes.now ≤ LETTERS }
    requires letters { letters_in axes.now ≡ letters_of relations.now }
    ensures table { IfOk result (λ n. IsTableOf relations.now n.table n.generators.items) }
    ensures limit { (result ≡ Err PresFault.Limit) → HasMoreElements relations.now LARGEST_FIRST_ORDER }
    ensures only { OnErr result ((result ≢ Err PresFault.Text)
        × (result ≢ Err PresFault.Unbounded)) }
{
    let numbering = numbering_of(alloc, axes, classes)?;
    let generators = generators_of(alloc, axes, &numbering.products)?;
    let order = numbering.numbers.order();
    let rows = rows_of(alloc, axes.len(), &numbering)?;
    match Table::new(order as u16, rows) {
        Ok(table) => Ok(Named { table, generators }),
        Err(_) => unreachable!(),
    }
}

/// The letters, each with its element.
fn generators_of<A: Allocator + Copy>(
    alloc: A,
    axes: &[Axis],
    products: &[u16],
) -> Result<Vec<NamedElement, A>, PresFault>
    requires letters { All (λ a. a.letter < LETTERS) axes.now }
    requires products { length axes.now ≤ length products.now }
    ensures letters { IfOk result
        (λ gs. map (λ g. g.letter) gs.items ≡ map (λ a. 97 + a) (letters_in axes.now)) }
    ensures elements { IfOk result
        (λ gs. map (λ g. g.element) gs.items ≡ take (length axes.now) products.now) }
    ensures refused { OnErr result (result ≡ Err PresFault.Memory) }
{
    let mut generators = Vec::new(alloc);
    for i in 0..axes.len() {
        generators.push(NamedElement {
            letter: b'a' + axes[i].letter,
            element: products[i],
        })?;
    }
    Ok(generators)
}

/// The products, row after row: x times an element is x times its parent times its generator.
fn rows_of<A: Allocator + Copy>(
    alloc: A,
    letters: usize,
    numbering: &Numbering<A>,
) -> Result<Vec<u16, A>, PresFault>
    requires { AreKeys letters (length numbering.now.numbers.firsts) numbering.now.numbers.keys
        numbering.now.products.items }
    ensures rows { IfOk result
        (λ rows. AreRows letters (length numbering.now.numbers.firsts) numbering.now.numbers.keys
        numbering.now.products.items rows.items) }
    ensures refused { OnErr result (result ≡ Err PresFault.Memory) }
{
    let order = numbering.numbers.order();
    let mut rows: Vec<u16, A> = Vec::new(alloc);
    for x in 0..order {
        for e in 0..order {
            rows.push(product_of(&rows, letters, x, e, numbering))?;
        }
    }
    Ok(rows)
}

/// x times e, where the products so far stand in the rows.
fn product_of<A: Allocator>(
    rows: &[u16],
    letters: usize,
    x: usize,
    e: usize,
    numbering: &Numbering<A>,
) -> u16
    requires keys { AreKeys letters (length numbering.now.numbers.firsts) numbering.now.numbers.keys
        numbering.now.products.items }
    requires x_in { x < length numbering.now.numbers.firsts }
    requires e_in { e < length numbering.now.numbers.firsts }
    requires so_far { AreRowsUpTo letters (length numbering.now.numbers.firsts)
        numbering.now.numbers.keys numbering.now.products.items rows.now x e }
    ensures first { e ≡ 0 → result ≡ x }
    ensures later { 0 < e
        → result ≡ slice_index numbering.now.products.items
        (slice_index rows.now
        (x * length numbering.now.numbers.firsts + slice_index numbering.now.numbers.keys
        (e - 1) / letters) * letters + slice_index numbering.now.numbers.keys (e - 1) % letters) }
    ensures within { result < length numbering.now.numbers.firsts }
{
    let order = numbering.numbers.order();
    if e == 0 {
        return x as u16;
    }
    let key = numbering.numbers.key(e);
    let parent = rows[x * order + key / letters] as usize;
    numbering.products[parent * letters + key % letters]
}
