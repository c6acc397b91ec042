//! The numbers that a certificate gives the elements of a table.
ghost use Rattle.std.specs.Prelude.{◌<◌, IfOk, IfSome};
ghost use Rattle.own_quotients.specs.Carried.{IsCarried};
ghost use Rattle.own_quotients.specs.Certified.{IsNumberingOf};

use crate::{OwnTable, is_carried};
use allocation::Memory;
use certificate::{Cert, Key, TextFault, read};
use std::alloc::Global;

/// The number of each element, and the element of each number.
#[derive(Drop)]
pub(crate) struct Numbering {
    pub numbers: Vec<u16>,
    pub elements: Vec<u16>,
}

/// The product of a key, or 0 if the table has none.
fn keyed(table: &OwnTable, elements: &[u16], key: Key) -> u16 {
    let Some(x) = elements.get(key.element as usize).copied() else {
        return 0;
    };
    let place = (key.heap as usize).saturating_sub(1);
    let Some(y) = table.heaps().get(place).copied() else {
        return 0;
    };
    if x < table.order() && y < table.order() {
        table.times(x, y)
    } else {
        0
    }
}

/// The elements of the table that the keys make, one after another.
fn elements_by(
    alloc: Global,
    table: &OwnTable,
    identity: u16,
    keys: &[Key],
) -> Result<Vec<u16>, Memory> {
    let mut elements = Vec::new(alloc);
    elements.push(identity)?;
    for key in keys {
        let element = keyed(table, &elements, *key);
        elements.push(element)?;
    }
    Ok(elements)
}

/// The place of each element.
fn places(alloc: Global, order: u16, elements: &[u16]) -> Result<Vec<u16>, Memory> {
    let mut places = vec![in alloc; 0u16; order as usize]?;
    let mut number = 0u16;
    for element in elements {
        if let Some(place) = places.get_mut(*element as usize) {
            *place = number;
        }
        number = number.saturating_add(1);
    }
    Ok(places)
}

/// The numbering of a certificate's keys, if with it the table is that certificate.
fn numbering_by(
    alloc: Global,
    table: &OwnTable,
    identity: u16,
    cert: &Cert,
) -> Result<Option<Numbering>, Memory>
    requires { identity < table.now.order }
    ensures { IfOk result (λ found. IfSome found
        (λ n. IsCarried table.now identity cert.now n.numbers.items n.elements.items)) }
{
    let elements = elements_by(alloc, table, identity, cert.words())?;
    let numbers = places(alloc, table.order(), &elements)?;
    if is_carried(table, identity, cert, &numbers, &elements) {
        Ok(Some(Numbering { numbers, elements }))
    } else {
        Ok(None)
    }
}

/// The numbering of the certificate that the bytes spell, if with it the table is that certificate.
pub(crate) fn numbering_in(
    alloc: Global,
    table: &OwnTable,
    identity: u16,
    bytes: &[u8],
) -> Result<Option<Numbering>, Memory>
    requires { identity < table.now.order }
    ensures { IfOk result (λ found. IfSome found
        (λ n. IsNumberingOf table.now identity bytes.now n.numbers.items n.elements.items)) }
{
    match read(alloc, bytes) {
        Ok(cert) => numbering_by(alloc, table, identity, &cert),
        Err(TextFault::Text) => Ok(None),
        Err(TextFault::Memory) => Err(Memory),
    }
}
