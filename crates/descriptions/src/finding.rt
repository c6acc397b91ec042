//! What is printed of a quotient.
ghost use Rattle.std.specs.Prelude.{◌≡◌, ◌<◌, IfOk, All, Contains, vec_len};
ghost use Rattle.certificate.specs.Fields.{grid_of};
ghost use Rattle.relations.specs.Printed.{ArePrintable};
ghost use Rattle.descriptions.specs.Described.{AreFindings, Describes, TellsFirstHeap, TellsFirstHeaps};

use crate::choosing::{Part, those};
use crate::invariants::lowest;
use crate::tame::tame;
use allocation::Memory;
use answers::Certified;
use certificate::claims_agree;
use monoid_table::Table;
use relations::{Description, Form, Undescribed, described};
use std::alloc::Global;

/// What is printed of a quotient.
#[derive(Drop)]
pub struct Findings {
    pub description: Description,
    pub heaps: Vec<u64>,
    pub portion: Vec<u16>,
    pub units: Vec<u16>,
    pub idempotents: Vec<u16>,
    pub kernel: Vec<u16>,
    pub tame: Option<u16>,
}

/// The table of the certificate.
pub fn table_of(alloc: Global, certified: &Certified) -> Result<Table, Memory>
    ensures { IfOk result (λ t. t ≡ grid_of certified.now) }
{
    claims_agree();
    let cert = certified.cert();
    let rows = cert.rows().to_vec(alloc)?;
    match Table::new(cert.order(), rows) {
        Ok(table) => Ok(table),
        Err(_) => unreachable!(),
    }
}

/// The first heap that has the element, if a heap has it.
fn first_heap(certified: &Certified, element: u16) -> Option<u64>
    ensures { TellsFirstHeap certified.now element result }
{
    let cert = certified.cert();
    for heap in 1..cert.start() + cert.period() {
        if certified.element(heap) == element {
            return Some(heap);
        }
    }
    None
}

/// The first heaps that have the elements, if heaps have all of them.
fn first_heaps(
    alloc: Global,
    certified: &Certified,
    elements: &[u16],
) -> Result<Option<Vec<u64>>, Memory>
    ensures { IfOk result (TellsFirstHeaps certified.now elements.now) }
{
    let mut heaps = Vec::new(alloc);
    for element in elements {
        let Some(heap) = first_heap(certified, *element) else {
            return Ok(None);
        };
        heaps.push(heap)?;
    }
    Ok(Some(heaps))
}

/// Relations, words and a list of all elements, with generators out of those of the heaps.
pub fn describe_table(
    alloc: Global,
    certified: &Certified,
    table: &Table,
    form: Form,
) -> Result<Description, Undescribed>
    requires { table.now ≡ grid_of certified.now }
    ensures describes { IfOk result (λ d. Describes certified.now form d.elements.items
        d.relations.items d.words.items d.listing.items) }
    ensures words { IfOk result (λ d. vec_len d.words ≡ certified.now.order) }
    ensures elements { IfOk result
        (λ d. All (λ e. e < certified.now.order) d.elements.items) }
    ensures among { IfOk result (λ d. All (Contains certified.now.phi) d.elements.items) }
    ensures printable { IfOk result
        (λ d. ArePrintable (vec_len d.elements) d.relations.items) }
{
    let cert = certified.cert();
    described(alloc, table, cert.phi().entries(), form)
}

/// All that is printed.
pub fn find(alloc: Global, certified: &Certified, form: Form) -> Result<Findings, Undescribed>
    ensures { IfOk result (AreFindings certified.now form) }
{
    let table = table_of(alloc, certified)?;
    let description = describe_table(alloc, certified, &table, form)?;
    let Some(heaps) = first_heaps(alloc, certified, &description.elements)? else {
        unreachable!()
    };
    let low = lowest(&table);
    let listing = description.listing.as_slice();
    let portion = those(alloc, certified, &table, low, Part::Portion, listing)?;
    let units = those(alloc, certified, &table, low, Part::Units, listing)?;
    let idempotents = those(alloc, certified, &table, low, Part::Idempotents, listing)?;
    let kernel = those(alloc, certified, &table, low, Part::Kernel, listing)?;
    let tame = tame(certified, &table);
    Ok(Findings {
        description,
        heaps,
        portion,
        units,
        idempotents,
        kernel,
        tame,
    })
}
