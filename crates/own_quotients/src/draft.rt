//! A draft of a table's certificate. Nothing is promised of it but that the call ends.
ghost use Rattle.std.specs.Prelude.{ℕ, ◌<◌};

use crate::OwnTable;
use allocation::Memory;
use guesses::{Drafts, Guess};
use misere_theory::LARGEST_ORDER;
use std::alloc::Global;

/// The element with 0 and the identity in each other's place.
fn exchanged(x: u16, identity: u16) -> u16
    ensures { (n : ℕ) → x < n → identity < n → result < n }
{
    if x == 0 {
        identity
    } else if x == identity {
        0
    } else {
        x
    }
}

/// The same of each element.
fn exchanged_all(alloc: Global, elements: &[u16], identity: u16) -> Result<Vec<u16>, Memory> {
    let mut found = Vec::new(alloc);
    for x in elements {
        found.push(exchanged(*x, identity))?;
    }
    Ok(found)
}

/// Adds the products of an element.
fn push_row(rows: &mut Vec<u16>, table: &OwnTable, identity: u16, x: u16) -> Result<(), Memory>
    requires x_in { x < table.now.order }
    requires identity_in { identity < table.now.order }
{
    for y in 0..table.order() {
        let product = table.times(exchanged(x, identity), exchanged(y, identity));
        rows.push(exchanged(product, identity))?;
    }
    Ok(())
}

/// All products, with 0 and the identity in each other's place.
fn rows(alloc: Global, table: &OwnTable, identity: u16) -> Result<Vec<u16>, Memory>
    requires { identity < table.now.order }
{
    let mut rows = Vec::new(alloc);
    for x in 0..table.order() {
        push_row(&mut rows, table, identity, x)?;
    }
    Ok(rows)
}

/// The marks of the portion.
fn marks(alloc: Global, table: &OwnTable, identity: u16) -> Result<Vec<bool>, Memory> {
    let mut marks = vec![in alloc; false; table.order() as usize]?;
    for x in table.portion() {
        if let Some(is_marked) = marks.get_mut(exchanged(*x, identity) as usize) {
            *is_marked = true;
        }
    }
    Ok(marks)
}

/// The table as a guess, in which 0 is the identity.
fn guess(alloc: Global, table: &OwnTable, identity: u16) -> Result<Guess, Memory>
    requires { identity < table.now.order }
{
    let products = rows(alloc, table, identity)?;
    let in_portion = marks(alloc, table, identity)?;
    let heaps = exchanged_all(alloc, table.heaps(), identity)?;
    Ok(Guess {
        order: table.order() as usize,
        products,
        in_portion,
        heaps,
        start: table.start() as usize,
        period: table.period() as usize,
        shown: true,
    })
}

/// The text of a certificate that the table makes, if one can be made.
pub(crate) fn draft(
    alloc: Global,
    table: &OwnTable,
    identity: u16,
) -> Result<Option<Vec<u8>>, Memory>
    requires { identity < table.now.order }
{
    let guess = guess(alloc, table, identity)?;
    let mut drafts = if table.period() == 0 {
        Drafts::of_part(alloc, guess)?
    } else {
        Drafts::new(alloc, guess)?
    };
    drafts.next(table.code(), LARGEST_ORDER as usize)
}
