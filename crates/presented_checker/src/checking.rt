//! A check of a presentation from its beginning to its end.
ghost use Rattle.std.specs.Prelude.{◌≡◌, ◌<◌, IfOk, IfErr, IsTrue, length};
ghost use Rattle.misere_theory.specs.Parts.{IsInfinite};
ghost use Rattle.kept_positions.specs.Numbers.{KeptPositions, AreFoundTested};
ghost use Rattle.kept_positions.specs.Told.{AreTold};
ghost use Rattle.presented_text.specs.Said.{PresentedSaid, IsInRanges};
ghost use Rattle.presented_text.specs.Spelling.{SpellsPresented};
ghost use Rattle.presented_claims.specs.Presents.{Presents};
ghost use Rattle.presented_forms.specs.Form.{IsInForm};
ghost use Rattle.presented_forms.specs.Only.{IsLeast};
ghost use Rattle.presented_tables.specs.Tested.{AreTestedTables, HasWord};
ghost use Rattle.presented_tables.specs.Faults.{IsTrueOf};
ghost use Rattle.presented_checker.specs.Endless.{IsEndless};
ghost use Rattle.answers.specs.InfiniteRefusals.{refused};
ghost use Rattle.presented_checker.specs.Refused.{Fits, HasOrder, IsOrder, IsRight, IsTrueOfBytes};

use crate::breaking::broken;
use crate::quotient::PresentedQuotient;
use crate::{is_endless, present_by_classes, roll, unroll};
use allocation::SmallAllocator;
use answers::InfiniteRefusal;
use kept_positions::{NotFound, NotTold, tested_positions, told_apart};
use normal_forms::{Basis, BasisFault};
use presented_forms::{is_in_form, is_least};
use presented_tables::{Presented, PresentedTables, TablesFault, tables_of};
use presented_text::{PresentedText, TextFault, read};
use std::alloc::Allocator;

/// The most relations that are taken.
const MOST_RELATIONS: usize = 4096;

/// The most positions that are kept.
const MOST_KEPT: usize = 65536;

/// How many elements are written down for each relation, and how many at most.
const ELEMENTS_EACH: usize = 64;

const MOST_ELEMENTS: usize = 32768;

/// The most that elements, letters and relations come to then, multiplied.
const MOST_LOOKS: usize = 1 << 28;

/// How many elements are written down.
fn known_elements(relations: usize, letters: usize) -> usize {
    let relations = relations.saturating_add(1);
    let each = letters.saturating_mul(relations);
    relations
        .saturating_mul(ELEMENTS_EACH)
        .min(MOST_ELEMENTS)
        .min(MOST_LOOKS.checked_div(each).unwrap_or(MOST_ELEMENTS))
}

/// The basis with elements written down, by which words are reduced faster.
fn remembering<A: SmallAllocator + Copy>(
    alloc: A,
    basis: Basis<A>,
    letters: usize,
) -> Result<Basis<A>, InfiniteRefusal<A>>
    ensures same { IfOk result (λ b. b ≡ basis) }
    ensures no { (c : PresentedSaid) → IfErr result (λ r. Fits c (refused r)) }
{
    let most = known_elements(basis.rules().len(), letters);
    match basis.remembering(alloc, letters, most) {
        Ok(basis) => Ok(basis),
        Err(_) => Err(InfiniteRefusal::Memory),
    }
}

/// The presentation with its relations as a basis.
fn with_basis<A: SmallAllocator + Copy>(
    alloc: A,
    text: PresentedText<A>,
) -> Result<Presented<A>, InfiniteRefusal<A>>
    ensures same { IfOk result (λ p. p ≡ text) }
    ensures no { IfErr result (λ r. Fits text (refused r)) }
{
    let PresentedText {
        code,
        heaps,
        period,
        letters,
        words,
        relations,
        cycles,
        portion,
    } = text;
    if relations.len() > MOST_RELATIONS {
        return Err(InfiniteRefusal::Limit);
    }
    match Basis::new(alloc, relations) {
        Ok(basis) => {
            let basis = remembering(alloc, basis, letters.len())?;
            Ok(Presented {
                code,
                heaps,
                period,
                letters,
                words,
                basis,
                cycles,
                portion,
            })
        }
        Err(BasisFault::Pair) => Err(InfiniteRefusal::Law),
        Err(BasisFault::Order) => Err(InfiniteRefusal::Law),
        Err(BasisFault::Long) => Err(InfiniteRefusal::Limit),
        Err(BasisFault::Memory) => Err(InfiniteRefusal::Memory),
    }
}

/// What a fault of the tables says.
fn fault_of_tables<A: SmallAllocator>(fault: TablesFault) -> InfiniteRefusal<A>
    ensures { (c : PresentedSaid) → IsTrueOf c fault → Fits c (refused result) }
{
    match fault {
        TablesFault::Leaves(n) => InfiniteRefusal::Part(n),
        TablesFault::Limit => InfiniteRefusal::Limit,
        TablesFault::Memory => InfiniteRefusal::Memory,
        _ => InfiniteRefusal::Undecided,
    }
}

/// The tables of a presentation.
fn tables<A: SmallAllocator + Copy>(
    alloc: A,
    said: &Presented<A>,
) -> Result<PresentedTables<A>, InfiniteRefusal<A>>
    ensures tested { IfOk result (AreTestedTables said.now) }
    ensures no { IfErr result (λ r. Fits said.now (refused r)) }
{
    match tables_of(alloc, said) {
        Ok(tables) => Ok(tables),
        Err(fault) => Err(fault_of_tables(fault)),
    }
}

/// Sees that positions of the tables are kept.
fn keep<A: SmallAllocator + Copy>(
    alloc: A,
    tables: &PresentedTables<A>,
) -> Result<(), InfiniteRefusal<A>>
    ensures kept { IfOk result (λ _. (k : KeptPositions) × AreFoundTested tables.now.tables k) }
    ensures no { (c : PresentedSaid) → IfErr result (λ r. Fits c (refused r)) }
{
    match tested_positions(alloc, &tables.tables, MOST_KEPT) {
        Ok(_) => Ok(()),
        Err(NotFound::Limit) => Err(InfiniteRefusal::Limit),
        Err(NotFound::Memory(_)) => Err(InfiniteRefusal::Memory),
        Err(_) => Err(InfiniteRefusal::Undecided),
    }
}

/// Sees that the elements are told apart.
fn tell<A: SmallAllocator + Copy>(
    alloc: A,
    tables: &PresentedTables<A>,
) -> Result<(), InfiniteRefusal<A>>
    ensures told { IfOk result (λ _. AreTold tables.now.tables tables.now.elements.bits) }
    ensures no { (c : PresentedSaid) → IfErr result (λ r. Fits c (refused r)) }
{
    let elements = &tables.elements;
    match told_apart(alloc, &tables.tables, elements.bits.as_slice()) {
        Ok(()) => Ok(()),
        Err(NotTold::Memory(_)) => Err(InfiniteRefusal::Memory),
        Err(_) => Err(InfiniteRefusal::Undecided),
    }
}

/// How many elements there are.
fn count<A: Allocator>(tables: &PresentedTables<A>) -> usize
    ensures { result ≡ length tables.now.elements.words }
{
    let elements = &tables.elements;
    elements.words.len()
}

/// Tests a presentation with finitely many elements that has the form that is asked for: how many it has, if it is right.
fn finite_order_of<A: SmallAllocator + Copy>(
    alloc: A,
    said: &Presented<A>,
) -> Result<usize, InfiniteRefusal<A>>
    requires ranges { IsInRanges said.now }
    requires in_form { IsInForm said.now }
    ensures yes { IfOk result (λ q. Presents said.now × HasOrder said.now q) }
    ensures no { IfErr result (λ r. Fits said.now (refused r)) }
{
    let tables = tables(alloc, said)?;
    keep(alloc, &tables)?;
    tell(alloc, &tables)?;
    Ok(count(&tables))
}

/// Sees that a presentation with infinitely many elements is right, and that infinitely many positions are told apart.
fn present_endless<A: SmallAllocator + Copy>(
    alloc: A,
    said: &Presented<A>,
) -> Result<(), InfiniteRefusal<A>>
    requires ranges { IsInRanges said.now }
    requires in_form { IsInForm said.now }
    requires endless { IsEndless said.now }
    ensures yes { IfOk result (λ _. Presents said.now) }
    ensures infinite { IfOk result (λ _. IsInfinite (HasWord said.now) said.now.code) }
    ensures no { IfErr result (λ r. Fits said.now (refused r)) }
{
    match present_by_classes(alloc, said) {
        Ok(()) => Ok(()),
        Err(fault) => Err(fault_of_tables(fault)),
    }
}

/// Tests a presentation that has the form that is asked for: how many elements it has, if it is right, or none if they are
/// infinitely many.
fn order_of<A: SmallAllocator + Copy>(
    alloc: A,
    said: &Presented<A>,
) -> Result<Option<usize>, InfiniteRefusal<A>>
    requires ranges { IsInRanges said.now }
    requires in_form { IsInForm said.now }
    ensures yes { IfOk result (λ q. Presents said.now × IsOrder said.now q) }
    ensures no { IfErr result (λ r. Fits said.now (refused r)) }
{
    if is_endless(said) {
        present_endless(alloc, said)?;
        return Ok(None);
    }
    let order = finite_order_of(alloc, said)?;
    Ok(Some(order))
}

/// The quotient that a presentation is, or why it isn't seen to be right, where it is known how many elements it has, or
/// why that isn't seen: then a position is looked for at which the rule fails.
fn settled<A: SmallAllocator + Copy>(
    alloc: A,
    said: Presented<A>,
    least: bool,
    order: Result<Option<usize>, InfiniteRefusal<A>>,
) -> Result<PresentedQuotient<A>, InfiniteRefusal<A>>
    requires ranges { IsInRanges said }
    requires in_form { IsInForm said }
    requires least { IsTrue least → IsLeast said }
    requires yes { IfOk order (λ q. Presents said × IsOrder said q) }
    requires no { IfErr order (λ r. Fits said (refused r)) }
    ensures same { IfOk result (λ q. q.said ≡ said) }
    ensures right { IfOk result IsRight }
    ensures no { IfErr result (λ r. Fits said (refused r)) }
{
    match order {
        Ok(order) => {
            if !least {
                return Err(InfiniteRefusal::Undecided);
            }
            Ok(PresentedQuotient::new(said, order))
        }
        Err(InfiniteRefusal::Undecided) => Err(broken(alloc, &said)),
        Err(refusal) => Err(refusal),
    }
}

/// The quotient that a presentation of the heaps of a list is.
fn judged_list<A: SmallAllocator + Copy>(
    alloc: A,
    said: Presented<A>,
    least: bool,
) -> Result<PresentedQuotient<A>, InfiniteRefusal<A>>
    requires ranges { IsInRanges said }
    requires in_form { IsInForm said }
    requires least { IsTrue least → IsLeast said }
    ensures same { IfOk result (λ q. q.said ≡ said) }
    ensures right { IfOk result IsRight }
    ensures no { IfErr result (λ r. Fits said (refused r)) }
{
    let order = order_of(alloc, &said);
    settled(alloc, said, least, order)
}

/// The quotient that a presentation of a whole game is: as many heaps as are enough are looked at.
fn judged_whole<A: SmallAllocator + Copy>(
    alloc: A,
    said: Presented<A>,
    least: bool,
) -> Result<PresentedQuotient<A>, InfiniteRefusal<A>>
    requires ranges { IsInRanges said }
    requires in_form { IsInForm said }
    requires least { IsTrue least → IsLeast said }
    requires whole { 0 < said.period }
    ensures same { IfOk result (λ q. q.said ≡ said) }
    ensures right { IfOk result IsRight }
    ensures no { IfErr result (λ r. Fits said (refused r)) }
{
    match unroll(alloc, said) {
        Ok(Some(whole)) => {
            let order = order_of(alloc, &whole.said);
            settled(alloc, roll(whole), least, order)
        }
        Ok(None) => Err(InfiniteRefusal::Limit),
        Err(_) => Err(InfiniteRefusal::Memory),
    }
}

/// The quotient that a presentation is, if it is seen to be right.
fn judged<A: SmallAllocator + Copy>(
    alloc: A,
    text: PresentedText<A>,
) -> Result<PresentedQuotient<A>, InfiniteRefusal<A>>
    requires ranges { IsInRanges text }
    ensures same { IfOk result (λ q. q.said ≡ text) }
    ensures right { IfOk result IsRight }
    ensures no { IfErr result (λ r. Fits text (refused r)) }
{
    if !is_in_form(&text) {
        return Err(InfiniteRefusal::Undecided);
    }
    let least = is_least(&text);
    let said = with_basis(alloc, text)?;
    if said.period == 0 {
        judged_list(alloc, said, least)
    } else {
        judged_whole(alloc, said, least)
    }
}

/// Whether the bytes are a presentation that is right: it is the misère quotient of its heaps, so that normal forms
/// tell the outcome of each of their positions, and which of them are indistinguishable. Each refusal is true of the
/// bytes: `Text`, `Law`, `Outcome`, `Limit`, `Memory`, `Part` or `Undecided`.
pub fn check_presented<A: SmallAllocator + Copy>(
    alloc: A,
    bytes: &[u8],
) -> Result<PresentedQuotient<A>, InfiniteRefusal<A>>
    // What is accepted is spelled, and right.
    ensures yes { IfOk result (λ q. SpellsPresented bytes.now q.said × IsRight q) }
    // A refusal is true of the bytes.
    ensures no { IfErr result (λ r. IsTrueOfBytes bytes.now (refused r)) }
{
    match read(alloc, bytes) {
        Ok(text) => judged(alloc, text),
        Err(TextFault::Text) => Err(InfiniteRefusal::Text),
        Err(TextFault::Memory) => Err(InfiniteRefusal::Memory),
    }
}
