//! Worked presentations.
ghost use Rattle.std.specs.Prelude.{◌≡◌, length};

use crate::comparing::compare;
use presentations::{
    Named, NamedElement, PresFault, Presentation, Relation, VectorRelation, related_is_least,
    table_of,
};
use std::alloc::{AllocError, Allocator, Global};

fn named<A: Allocator + Copy>(alloc: A, text: &str) -> Result<Named<A>, PresFault> {
    let presentation = Presentation::read(alloc, text.as_bytes())?;
    table_of(alloc, &presentation, 65536)
}

/// A presentation of eight elements.
const OF_EIGHT: &str = "a^2=1 b^3=b c^4=c^2 bc=ab c^2=b^2";

/// The products of `a^2=1 b^3=b c^4=c^2 bc=ab c^2=b^2`, row after row.
const EIGHT: &[u16] = &[
    0, 1, 2, 3, 4, 5, 6, 7, 1, 0, 4, 5, 2, 3, 7, 6, 2, 4, 6, 4, 7, 2, 2, 4, 3, 5, 4, 6, 2, 7, 7, 6,
    4, 2, 7, 2, 6, 4, 4, 2, 5, 3, 2, 7, 4, 6, 6, 7, 6, 7, 2, 7, 4, 6, 6, 7, 7, 6, 4, 6, 2, 7, 7, 6,
];

/// Whether the letters have these elements.
fn are_elements(generators: &[NamedElement], elements: &[u16]) -> bool {
    for (generator, element) in generators.iter().zip(elements) {
        if generator.element != *element {
            return false;
        }
    }
    generators.len() == elements.len()
}

/// Whether the letters have these elements, and the elements these products.
fn is_named<A: Allocator>(named: Named<A>, elements: &[u16], products: &[u16]) -> bool {
    let Named { table, generators } = named;
    let rows = table.into_rows();
    are_elements(&generators, elements) && rows.as_slice() == products
}

/// Whether the text presents these elements of its letters, and these products.
fn presents<A: Allocator + Copy>(
    alloc: A,
    text: &str,
    elements: &[u16],
    products: &[u16],
) -> Result<bool, u8> {
    match named(alloc, text) {
        Ok(named) => Ok(is_named(named, elements, products)),
        Err(fault) => Err(fault.number()),
    }
}

/// Whether the presentation of eight elements has its table, or the number of the fault.
pub fn has_eight<A: Allocator + Copy>(alloc: A) -> Result<bool, u8> {
    presents(alloc, OF_EIGHT, &[1, 2, 3], EIGHT)
}

/// Whether these are the relations of `az^10a^2=1 b^32b^32=zz`.
fn have_exponents(relations: &[Relation]) -> bool {
    let mut left = [0u8; 26];
    left[0] = 3;
    left[25] = 10;
    match relations {
        [first, second] => {
            first.left == left
                && first.right == [0u8; 26]
                && second.left[1] == 64
                && second.right[25] == 2
        }
        _ => false,
    }
}

fn reads_words(alloc: Global) -> bool {
    match Presentation::read(alloc, b"az^10a^2=1 b^32b^32=zz") {
        Ok(presentation) => have_exponents(presentation.relations()),
        Err(_) => false,
    }
}

struct SameLength;

impl VectorRelation for SameLength {
    ghost relates = { λ u v. length u ≡ length v };
}

/// So many relations, each of which makes this power of a letter 1: of a to z, and of a again.
fn powers(alloc: Global, count: usize, exponent: u8) -> Result<Vec<Relation>, AllocError> {
    let mut relations = Vec::new(alloc);
    for i in 0..count {
        let mut left = [0u8; 26];
        left[i % 26] = exponent;
        relations.push(Relation {
            left,
            right: [0; 26],
        })?;
    }
    Ok(relations)
}

/// How many elements such relations present within the limit, or the number of the fault.
fn order_of(alloc: Global, count: usize, exponent: u8, limit: u32) -> Result<u16, u8> {
    let Ok(relations) = powers(alloc, count, exponent) else {
        return Err(0);
    };
    match table_of(alloc, &Presentation::new(relations), limit) {
        Ok(named) => Ok(named.table.order()),
        Err(fault) => Err(fault.number()),
    }
}

/// Tables within every limit, of all letters, of many relations and of large exponents.
#[test]
fn tables_within_limits(rt: HostRuntime) {
    for (count, exponent, limit, wanted) in [
        (64, 1, 1, Ok(1)),
        (300, 1, u32::MAX, Ok(1)),
        (1, 1, 0, Err(3)),
        (1, 255, 255, Ok(255)),
        (1, 255, 254, Err(3)),
        (3, 6, 216, Ok(216)),
        (3, 6, 215, Err(3)),
        (4, 4, u32::MAX, Ok(256)),
    ] {
        let row = (count, exponent, limit);
        let order = order_of(rt.alloc(), count, exponent, limit);
        compare(&rt, "row and order", (row, order), (row, wanted));
    }
}

#[test]
fn words_and_relations(rt: HostRuntime) {
    compare(&rt, "words", reads_words(rt.alloc()), true);
    related_is_least::<SameLength>();
}
