//! The relations as one word, and the bound of `present` that they are above.
ghost use Rattle.std.specs.Prelude.{◌≡◌, ◌<◌, ◌≤◌, IsTrue, IfOk, All, length, take, vec_len};
ghost use Rattle.std.specs.String.{string_bytes};
ghost use Rattle.presentations.specs.declared.TheConstants.{LETTERS};
ghost use Rattle.relations.specs.Presented.{ArePresentation};
ghost use Rattle.relations.specs.Printed.{ArePrintable};
ghost use Rattle.presentations.specs.Powers.{IsPowerOf};
ghost use Rattle.descriptions.specs.Described.{HasBeside, IsBetweenPowers};
ghost use Rattle.descriptions.specs.Presenting.{HaveBound, IsRelationsWord};

use crate::finding::{describe_table, table_of};
use allocation::Memory;
use answers::Certified;
use monoid_table::Table;
use presentations::{LARGEST_BOX, LETTERS, MOST_RELATIONS, PresFault, Presentation, Relation};
use relations::{
    Description, Form, Notation, Undescribed, presentable, relations_text, texts_spell,
};
use std::alloc::Global;

/// A bound of `present` that relations are above.
#[derive(Clone, Copy, Debug, PartialEq, Eq)]
pub enum PresentBound {
    /// There are more than `MOST_RELATIONS`.
    Relations,
    /// A letter has no relation between two different powers of it alone.
    Powers,
    /// The powers' box is above `LARGEST_BOX`, or there are more than `LARGEST_FIRST_ORDER` elements.
    Box,
}

/// Relations as one word, and the bound of `present` that they are above, if there is one.
#[derive(Drop)]
pub struct RelationsWord {
    pub word: String,
    pub beyond: Option<PresentBound>,
}

/// The first bound that the relations are above, if there is one.
fn bound_of(alloc: Global, presentation: &Presentation) -> Result<Option<PresentBound>, Memory>
    ensures { IfOk result (HaveBound presentation.now) }
{
    if presentation.relations().len() > MOST_RELATIONS {
        return Ok(Some(PresentBound::Relations));
    }
    match presentations::table_of(alloc, presentation, LARGEST_BOX) {
        Ok(_) => Ok(None),
        Err(PresFault::Unbounded) => Ok(Some(PresentBound::Powers)),
        Err(PresFault::Limit) => Ok(Some(PresentBound::Box)),
        Err(PresFault::Memory) => Err(Memory),
        Err(PresFault::Text) => unreachable!(),
    }
}

/// Whether both words of the relation are powers of this letter.
fn is_between_powers_of(relation: &Relation, letter: usize) -> bool
    ensures { IsTrue result
        → IsPowerOf relation.now.left letter × IsPowerOf relation.now.right letter }
{
    for i in 0..LETTERS {
        if i != letter && (relation.left[i] > 0 || relation.right[i] > 0) {
            return false;
        }
    }
    true
}

/// Whether both words of the relation are powers of one letter.
fn is_between_powers(relation: &Relation) -> bool
    ensures { IsTrue result → IsBetweenPowers relation.now }
{
    for letter in 0..LETTERS {
        if is_between_powers_of(relation, letter) {
            return true;
        }
    }
    false
}

/// Whether each relation is between powers of one letter.
fn are_between_powers(relations: &[Relation]) -> bool
    ensures { IsTrue result → All IsBetweenPowers relations.now }
{
    for relation in relations {
        if !is_between_powers(relation) {
            return false;
        }
    }
    true
}

/// Whether the first ones of these relations are all of those.
fn begins(relations: &[Relation], all: &[Relation]) -> bool
    ensures begins { IsTrue result → take (length relations.now) all.now ≡ relations.now }
    ensures long { IsTrue result → length relations.now ≤ length all.now }
{
    if relations.len() > all.len() {
        return false;
    }
    for i in 0..relations.len() {
        if relations[i].left != all[i].left || relations[i].right != all[i].right {
            return false;
        }
    }
    true
}

/// Whether these relations are all of those, and behind them others between powers of one letter each.
fn has_beside(relations: &[Relation], all: &[Relation]) -> bool
    ensures { IsTrue result → HasBeside relations.now all.now }
{
    if !begins(relations, all) {
        return false;
    }
    are_between_powers(&all[relations.len()..])
}

/// The relations of the description, and 1 = 1 where there are none.
fn own(alloc: Global, table: &Table, description: &Description) -> Result<Vec<Relation>, Memory>
    requires presentation { ArePresentation table.now description.now.elements.items
        description.now.relations.items }
    requires printable { ArePrintable (vec_len description.now.elements)
        description.now.relations.items }
    ensures presentation { IfOk result
        (λ r. ArePresentation table.now description.now.elements.items r.items) }
    ensures printable { IfOk result
        (λ r. ArePrintable (vec_len description.now.elements) r.items) }
    ensures beside { IfOk result (λ r. HasBeside description.now.relations.items r.items) }
    ensures some { IfOk result (λ r. 0 < vec_len r) }
{
    let _ = table;
    if description.relations.len() > 0 {
        let relations = description.relations.as_slice().to_vec(alloc)?;
        return Ok(relations);
    }
    let mut relations = Vec::new(alloc);
    relations.push(Relation {
        left: [0; LETTERS],
        right: [0; LETTERS],
    })?;
    Ok(relations)
}

/// The relations with one between two powers of each letter, or else those of the description.
fn chosen(alloc: Global, table: &Table, description: &Description) -> Result<Vec<Relation>, Memory>
    requires elements { All (λ e. e < table.now.order) description.now.elements.items }
    requires letters { vec_len description.now.elements ≤ LETTERS }
    requires presentation { ArePresentation table.now description.now.elements.items
        description.now.relations.items }
    requires printable { ArePrintable (vec_len description.now.elements)
        description.now.relations.items }
    ensures presentation { IfOk result
        (λ r. ArePresentation table.now description.now.elements.items r.items) }
    ensures printable { IfOk result
        (λ r. ArePrintable (vec_len description.now.elements) r.items) }
    ensures beside { IfOk result (λ r. HasBeside description.now.relations.items r.items) }
    ensures some { IfOk result (λ r. 0 < vec_len r) }
{
    let Some(relations) = presentable(alloc, table, description)? else {
        return own(alloc, table, description);
    };
    if !has_beside(description.relations.as_slice(), relations.as_slice()) {
        return own(alloc, table, description);
    }
    Ok(relations)
}

/// The relations of the certified quotient's monoid as one word for `present`, and the bound of
/// `present` that they are above, if there is one. Beside those of the description there is one
/// between two powers of each letter, unless they are then too many or an exponent of such a
/// relation is above `LARGEST_EXPONENT`.
/// Where the quotient isn't described, it tells the bound that the search for relations met.
pub fn relations_word(
    alloc: Global,
    certified: &Certified,
    form: Form,
) -> Result<RelationsWord, Undescribed>
    ensures { IfOk result
        (λ w. IsRelationsWord form certified.now (string_bytes w.word) w.beyond) }
{
    let table = table_of(alloc, certified)?;
    let description = describe_table(alloc, certified, &table, form)?;
    let relations = chosen(alloc, &table, &description)?;
    let presentation = Presentation::new(relations);
    let beyond = bound_of(alloc, &presentation)?;
    texts_spell();
    let letters = description.elements.len() as u8;
    let relations = presentation.relations();
    let word = relations_text(alloc, Notation::Plain, letters, " ", relations)?;
    Ok(RelationsWord { word, beyond })
}
