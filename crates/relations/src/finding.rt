//! Presentations of a table: generators, least words and relations, of which nothing is promised but
//! what is checked in the end.
ghost use Rattle.std.specs.Prelude.{◌≡◌, ◌<◌, ◌≤◌, IfOk, All, Contains, vec_len};
ghost use Rattle.presentations.specs.declared.TheConstants.{LETTERS};
ghost use Rattle.relations.specs.Bases.{AreOfForm};
ghost use Rattle.relations.specs.Presented.{AreNamed, ArePresentation, IsListing, LeadTo};
ghost use Rattle.relations.specs.Printed.{ArePrintable};

use crate::basis::are_of_form;
use crate::checking::is_shown;
use crate::fault::{Bound, Undescribed, met};
use crate::generating::generators;
use crate::least::{Least, least_words};
use crate::listing::{are_printable, is_listing, lead_to};
use crate::shortening::{independent, short, sort};
use allocation::Memory;
use monoid_table::Table;
use presentations::{LETTERS, Relation, Word};
use std::alloc::{Allocator, Global};

/// The most rewritings of one word.
pub const STEPS: u32 = 1000;

/// The most rules that are looked at for more, while relations are found and where they are checked.
pub const MOST: usize = 512;

/// The most rules that are looked at for more, where a relation is tried for whether the others give
/// it.
pub const FEW: usize = 64;

/// Which relations are given.
#[derive(Clone, Copy, Debug, PartialEq, Eq)]
pub enum Form {
    /// A short list: of at most `LARGEST_IRREDUNDANT` elements, none follows from the others.
    Short,
    /// The reduced Gröbner basis, by which words are multiplied by hand.
    Basis,
}

/// A presentation of a table: the elements of the letters a, b, .., a word for each element of the
/// table, the elements in the order of their words, and the relations.
#[derive(Drop)]
pub struct Description<A: Allocator = Global> {
    pub elements: Vec<u16, A>,
    pub words: Vec<Word, A>,
    pub listing: Vec<u16, A>,
    pub relations: Vec<Relation, A>,
}

/// The relations in this form, in their order.
fn formed<A: Allocator + Copy>(
    alloc: A,
    letters: usize,
    basis: Vec<Relation, A>,
    form: Form,
) -> Result<Vec<Relation, A>, Memory>
    requires { letters ≤ LETTERS }
{
    let mut kept = match form {
        Form::Basis => basis,
        Form::Short => {
            let few = independent(alloc, letters, basis.as_slice())?;
            short(alloc, letters, few)?
        }
    };
    sort(&mut kept);
    Ok(kept)
}

/// How many rules are looked at for more where relations in this form are shown: words are multiplied
/// by the basis as it is.
fn most_of(form: Form) -> usize {
    match form {
        Form::Basis => 0,
        Form::Short => MOST,
    }
}

/// A presentation of the table with generators out of these elements, where one is found with at most
/// `LETTERS` of them and no exponent above `LARGEST_EXPONENT`, and shown within the bounds.
pub fn described<A: Allocator + Copy>(
    alloc: A,
    table: &Table<A>,
    elements: &[u16],
    form: Form,
) -> Result<Description<A>, Undescribed>
    requires { All (λ e. e < table.now.order) elements.now }
    ensures presentation { IfOk result
        (λ d. ArePresentation table.now d.elements.items d.relations.items) }
    ensures words { IfOk result (λ d. AreNamed table.now d.elements.items d.words.items) }
    ensures letters { IfOk result (λ d. vec_len d.elements ≤ LETTERS) }
    ensures among { IfOk result (λ d. All (Contains elements.now) d.elements.items) }
    ensures listing { IfOk result (λ d. IsListing table.now.order d.listing.items) }
    ensures printable { IfOk result
        (λ d. ArePrintable (vec_len d.elements) d.relations.items) }
    ensures lead { IfOk result (λ d. LeadTo d.words.items d.relations.items) }
    ensures form { IfOk result
        (λ d. AreOfForm form (vec_len d.elements) d.words.items d.relations.items) }
{
    let found = generators(alloc, table, elements)?;
    let letters = found.len();
    if letters > LETTERS {
        return Err(met(Bound::Letters));
    }
    let Least {
        words,
        listing,
        basis,
    } = least_words(alloc, table, found.as_slice())?;
    let relations = formed(alloc, letters, basis, form)?;
    if !are_printable(letters, relations.as_slice()) {
        return Err(met(Bound::Exponents));
    }
    let shown = is_shown(
        alloc,
        table,
        found.as_slice(),
        relations.as_slice(),
        words.as_slice(),
        most_of(form),
        STEPS,
    )?;
    if !shown || !is_listing(table.order(), listing.as_slice()) {
        return Err(met(Bound::Unshown));
    }
    if !lead_to(words.as_slice(), relations.as_slice()) {
        return Err(met(Bound::Unshown));
    }
    if !are_of_form(alloc, letters, words.as_slice(), relations.as_slice(), form)? {
        return Err(met(Bound::Unshown));
    }
    Ok(Description {
        elements: found,
        words,
        listing,
        relations,
    })
}
