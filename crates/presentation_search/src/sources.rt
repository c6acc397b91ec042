//! Claims by values.
use crate::counts::Counts;
use crate::values::{Value, ValueTable};
use answers::Certified;
use octal_code::Code;
use quotient_search::Halt;
use running_pairs::{Fold, put_byte};
use std::alloc::Allocator;

/// A claim by values: the code; the heaps' values, those that are left out without one; after how many heaps they
/// repeat, or 0 if they don't; and the values' products.
#[derive(Drop)]
pub struct ClaimValues<A: Allocator> {
    pub code: Code,
    pub heaps: Vec<Option<Value>, A>,
    pub period: u64,
    pub values: ValueTable<A>,
}

/// The value of a position that has this element, where nothing is counted.
fn counted_nowhere(element: u16) -> Value {
    Value {
        element,
        counts: Counts::NONE,
    }
}

/// The elements of a certified quotient as values.
fn certified_values<A: Allocator + Copy, B: Allocator>(
    alloc: A,
    certified: &Certified<B>,
) -> Result<ValueTable<A>, Halt> {
    let cert = certified.cert();
    let order = cert.order() as usize;
    let mut values = ValueTable {
        order,
        rows: Vec::new(alloc),
        fold: Fold::flat(),
        inside: vec![in alloc; 0u8; order]?,
    };
    values.rows.extend_from_slice(cert.rows())?;
    for element in cert.portion().iter() {
        put_byte(&mut values.inside, *element as usize, 1);
    }
    Ok(values)
}

/// The claim of a certified quotient, by values: its elements, and nothing that is counted.
pub fn of_certified<A: Allocator + Copy, B: Allocator>(
    alloc: A,
    certified: &Certified<B>,
) -> Result<ClaimValues<A>, Halt> {
    let values = certified_values(alloc, certified)?;
    let cert = certified.cert();
    let mut heaps: Vec<Option<Value>, A> = Vec::new(alloc);
    for element in cert.phi().entries().iter() {
        heaps.push(Some(counted_nowhere(*element)))?;
    }
    Ok(ClaimValues {
        code: *cert.code(),
        heaps,
        period: cert.period(),
        values,
    })
}
