//! The tables of a presentation, or why there are none.
ghost use Rattle.std.specs.Prelude.{◌≡◌, ◌≤◌, ℕ, IfOk, IfErr, false};
ghost use Rattle.misere_theory.specs.Parts.{IsPart};
ghost use Rattle.presentations.specs.declared.TheConstants.{LETTERS};
ghost use Rattle.presentations.specs.Vectors.{zeros};
ghost use Rattle.presented_claims.specs.Claims.{in_portion};
ghost use Rattle.presented_tables.specs.Elements.{AreElements};
ghost use Rattle.presented_tables.specs.Tested.{HasWord, AreTestedTables};
ghost use Rattle.presented_tables.specs.Faults.{IsTrueOf};
ghost use Rattle.presented_tables.specs.Numbers.{HeapNumbers};
ghost use Rattle.presented_tables.specs.Rows.{AreLabelTables};

use crate::beside::bit;
use crate::elements::ListedElements;
use crate::fault::TablesFault;
use crate::heaps::heap_that_leaves;
use crate::idle::test_idle;
use crate::listing::listed;
use crate::numbers::numbers_of;
use crate::presentation::Presented;
use crate::rows::{images, marks, nexts};
use crate::standing::are_elements;
use crate::weights::weights;
use crate::within::test_within;
use kept_positions::LabelTables;
use std::alloc::{Allocator, Global};
use std::marker::Model;

/// The elements, and the tables of labels for the test of kept positions: each element is a label and a class, and
/// each heap with an option has a number.
#[derive(Drop)]
pub struct PresentedTables<A: Allocator = Global> {
    pub elements: ListedElements<A>,
    pub tables: LabelTables<A>,
}

impl<A: Allocator> Model for PresentedTables<A> {
    ghost use Rattle.presented_tables.specs.Tested as tested;

    ghost Value = { tested.PresentedTables };

    ghost view = { λ t. record { elements = t.elements; tables = t.tables } };
}

/// The elements, if they are all listed.
fn elements_of<A: Allocator + Copy>(
    alloc: A,
    p: &Presented<A>,
) -> Result<ListedElements<A>, TablesFault>
    ensures elements { IfOk result (λ e. AreElements p.now e) }
    ensures fault { IfErr result (λ f. IsTrueOf p.now f) }
{
    let listed = listed(alloc, p)?;
    if !are_elements(p, &listed) {
        return Err(TablesFault::Undecided);
    }
    Ok(listed)
}

/// Tests that the word of nothing isn't in the portion.
fn test_ended<A: Allocator>(p: &Presented<A>, e: &ListedElements<A>) -> Result<(), TablesFault>
    requires { AreElements p.now e.now }
    ensures ended { IfOk result (λ _. in_portion p.now (zeros LETTERS) ≡ false) }
    ensures fault { IfErr result (λ f. IsTrueOf p.now f) }
{
    match bit(p, e, 0) {
        Some(false) => Ok(()),
        Some(true) => Err(TablesFault::Ended),
        None => Err(TablesFault::Undecided),
    }
}

/// Tests the heaps of the list.
fn test_heaps<A: Allocator>(p: &Presented<A>) -> Result<(), TablesFault>
    ensures least { IfOk result (λ _. (n : ℕ) → HasWord p.now n → n ≤ p.now.heaps) }
    ensures part { IfOk result (λ _. IsPart (HasWord p.now) p.now.code) }
    ensures fault { IfErr result (λ f. IsTrueOf p.now f) }
{
    if p.period != 0 {
        return Err(TablesFault::Limit);
    }
    match heap_that_leaves(p) {
        Some(n) => Err(TablesFault::Leaves(n)),
        None => Ok(()),
    }
}

/// The tables of a presentation with finitely many elements and heaps.
///
/// # Errors
///
/// `Letters`, `Leaves`, `Ended`, `Idle` and `Moves` are true of the presentation, and refuse it. The others say
/// nothing of it: more elements than 4,096, heaps without end, a test that failed, and want of memory.
pub fn tables_of<A: Allocator + Copy>(
    alloc: A,
    p: &Presented<A>,
) -> Result<PresentedTables<A>, TablesFault>
    ensures tables { IfOk result (λ t. AreTestedTables p.now t) }
    ensures fault { IfErr result (λ f. IsTrueOf p.now f) }
{
    test_within(p)?;
    test_heaps(p)?;
    let elements = elements_of(alloc, p)?;
    test_ended(p, &elements)?;
    test_idle(p, &elements)?;
    let tables = label_tables(alloc, p, &elements)?;
    Ok(PresentedTables { elements, tables })
}

/// The tables of labels.
fn label_tables<A: Allocator + Copy>(
    alloc: A,
    p: &Presented<A>,
    e: &ListedElements<A>,
) -> Result<LabelTables<A>, TablesFault>
    requires { AreElements p.now e.now }
    ensures tables { IfOk result (λ t. (s : HeapNumbers) × AreLabelTables p.now e.now s t) }
    ensures fault { IfErr result (λ f. IsTrueOf p.now f) }
{
    let numbers = numbers_of(alloc, p)?;
    let next = nexts(alloc, p, e, &numbers)?;
    let images = images(alloc, p, e)?;
    let bad = marks(alloc, p, e, &numbers, &images, &next)?;
    let weights = weights(alloc, numbers.sizes.len())?;
    Ok(LabelTables {
        heaps: numbers.sizes.len(),
        labels: e.words.len(),
        classes: e.words.len(),
        start: 0,
        images,
        bad,
        next,
        weights,
    })
}
