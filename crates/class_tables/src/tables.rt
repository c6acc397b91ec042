//! The tables of a presentation by classes, or why there are none.
ghost use Rattle.std.specs.Prelude.{◌≡◌, ◌≤◌, ◌<◌, ℕ, IfOk, IfErr, IsTrue, false, length, slice_index_or};
ghost use Rattle.misere_theory.specs.Parts.{IsPart};
ghost use Rattle.presentations.specs.declared.TheConstants.{LETTERS};
ghost use Rattle.presentations.specs.Vectors.{zeros};
ghost use Rattle.presented_claims.specs.Claims.{in_portion};
ghost use Rattle.presented_tables.specs.Tested.{HasWord, IsOneIfIdle, AreWordsIn, AreHeapsTested};
ghost use Rattle.presented_tables.specs.Faults.{IsTrueOf};
ghost use Rattle.presented_tables.specs.Numbers.{AreNumbers};
ghost use Rattle.class_tables.specs.Classes.{word_at};
ghost use Rattle.class_tables.specs.Tables.{AreLists, AreClassTables};
ghost use Rattle.class_tables.specs.Separated.{AreBits, AreSettledClasses};
ghost use Rattle.class_tables.specs.Tested.{AreTestedClasses};

use crate::beside::heap_word;
use crate::classes::ListedWords;
use crate::lists::{ClassLists, Folds, lists_of};
use crate::rows::{images, marks, nexts};
use crate::separating::are_separated;
use crate::turning::turns_of;
use crate::untold::UntoldPairs;
use kept_positions::{ClassTurns, LabelTables};
use presentations::LETTERS;
use presented_tables::{
    HeapNumbers, Presented, TablesFault, has_option, heap_that_leaves, heap_weights, in_portion,
    is_in, numbers_of, test_within,
};
use std::alloc::{Allocator, Global};
use std::marker::Model;

/// The lists of classes, the tables of labels over them, where heaps take classes, and which images are in the portion.
#[derive(Drop)]
pub struct ClassTables<A: Allocator = Global> {
    pub lists: ClassLists<A>,
    pub tables: LabelTables<A>,
    pub turns: ClassTurns<A>,
    pub bits: Vec<bool, A>,
}

impl<A: Allocator> Model for ClassTables<A> {
    ghost use Rattle.class_tables.specs.Tested as tested;

    ghost Value = { tested.ClassTables };

    ghost view = { λ v. record {
      lists = v.lists;
      tables = v.tables;
      turns = v.turns;
      bits = v.bits.items;
    } };
}

/// Whether heap `n` is seen to have the word of nothing, if it has no option.
fn is_one_if_idle<A: Allocator>(p: &Presented<A>, n: u64) -> bool
    ensures { IsTrue result → IsOneIfIdle p.now n }
{
    if !p.has_word(n) {
        return true;
    }
    if has_option(&p.code, n) {
        return true;
    }
    match p.basis.normal_form(&heap_word(p, n)) {
        Some(form) => is_in(0, &form),
        None => false,
    }
}

/// The same of each heap of the list.
fn are_ones_if_idle<A: Allocator>(p: &Presented<A>) -> bool
    ensures { IsTrue result → (n : ℕ) → n ≤ p.now.heaps → IsOneIfIdle p.now n }
{
    for n in 0..p.heaps as u64 + 1 {
        if !is_one_if_idle(p, n) {
            return false;
        }
    }
    true
}

/// Tests the heaps, and that the word of nothing isn't in the portion.
fn test_heaps<A: Allocator>(p: &Presented<A>) -> Result<(), TablesFault>
    ensures tested { IfOk result (λ _. AreHeapsTested p.now) }
    ensures fault { IfErr result (λ f. IsTrueOf p.now f) }
{
    if p.period != 0 {
        return Err(TablesFault::Limit);
    }
    if let Some(n) = heap_that_leaves(p) {
        return Err(TablesFault::Leaves(n));
    }
    if in_portion(p, &[0; LETTERS]) {
        return Err(TablesFault::Ended);
    }
    if are_ones_if_idle(p) {
        Ok(())
    } else {
        Err(TablesFault::Undecided)
    }
}

/// Tests all that is seen without classes: letters, heaps, and the word of nothing.
///
/// # Errors
///
/// `Letters`, `Leaves` and `Ended` are true of the presentation, and refuse it; `Limit` and `Undecided` say nothing of it: heaps
/// without end, and a heap without options whose word isn't seen to be that of nothing.
pub fn test_presented<A: Allocator>(p: &Presented<A>) -> Result<(), TablesFault>
    ensures tested { IfOk result (λ _. AreHeapsTested p.now) }
    ensures fault { IfErr result (λ f. IsTrueOf p.now f) }
{
    test_within(p)?;
    test_heaps(p)
}

/// For each of the words whether it is in the portion.
fn bits_of<A: Allocator + Copy>(
    alloc: A,
    p: &Presented<A>,
    list: &ListedWords<A>,
) -> Result<Vec<bool, A>, TablesFault>
    ensures long { IfOk result (λ b. length b.items ≡ length list.now) }
    ensures bits { IfOk result (λ b. (k : ℕ) → k < length list.now
        → slice_index_or b.items k false ≡ in_portion p.now (word_at list.now k)) }
    ensures fault { IfErr result (λ f. IsTrueOf p.now f) }
{
    let mut bits = Vec::new(alloc);
    for k in 0..list.len() {
        let Some(word) = list.get(k) else {
            return Err(TablesFault::Undecided);
        };
        bits.push(in_portion(p, word))?;
    }
    Ok(bits)
}

/// The tables of labels.
fn label_tables<A: Allocator + Copy>(
    alloc: A,
    p: &Presented<A>,
    l: &ClassLists<A>,
    s: &HeapNumbers<A>,
) -> Result<LabelTables<A>, TablesFault>
    requires lists { AreLists p.now l.now }
    requires words { AreWordsIn p.now }
    requires numbers { AreNumbers p.now s.now }
    ensures tables { IfOk result (λ t. AreClassTables p.now l.now s.now t) }
    ensures fault { IfErr result (λ f. IsTrueOf p.now f) }
{
    let bad = marks(alloc, p, l, s)?;
    let next = nexts(alloc, p, l, s)?;
    let images = images(alloc, p, l)?;
    let weights = heap_weights(alloc, s.sizes.len())?;
    Ok(LabelTables {
        heaps: s.sizes.len(),
        labels: l.labels.len(),
        classes: l.classes.len(),
        start: 0,
        images,
        bad,
        next,
        weights,
    })
}

/// The most that classes and labels come to, multiplied: as many images are written down.
const MOST_IMAGES: u64 = 1 << 28;

/// The most that classes, labels and relations come to, multiplied: minutes of work.
const MOST_WORK: u64 = 1 << 36;

/// Whether what the tables would take is more than that.
fn is_too_much(classes: usize, labels: usize, relations: usize) -> bool {
    let images = (classes as u64).saturating_mul(labels as u64);
    images > MOST_IMAGES || images.saturating_mul((relations as u64).saturating_add(1)) > MOST_WORK
}

/// The tables of a presentation by classes, with such folds.
///
/// # Errors
///
/// `Letters`, `Leaves` and `Ended` are true of the presentation, and refuse it. The others say nothing of it: too many
/// classes, heaps without end, a test that failed, as it may where thresholds are too small; and want of memory.
pub fn class_tables_of<A: Allocator + Copy>(
    alloc: A,
    p: &Presented<A>,
    given: Folds<A>,
) -> Result<ClassTables<A>, TablesFault>
    ensures tables { IfOk result (λ v. AreTestedClasses p.now v) }
    ensures fault { IfErr result (λ f. IsTrueOf p.now f) }
{
    let _rules = p.basis.rules();
    test_within(p)?;
    test_heaps(p)?;
    let Folds {
        base,
        tops,
        folds,
        fine,
        labels,
    } = given;
    let lists = lists_of(alloc, p, base, tops, folds, labels)?;
    if is_too_much(
        lists.classes.len(),
        lists.labels.len(),
        p.basis.rules().len(),
    ) {
        return Err(TablesFault::Limit);
    }
    let numbers = numbers_of(alloc, p)?;
    let tables = label_tables(alloc, p, &lists, &numbers)?;
    let turns = turns_of(alloc, p, &lists, &numbers, &tables, fine)?;
    let bits = bits_of(alloc, p, &lists.images)?;
    Ok(ClassTables {
        lists,
        tables,
        turns,
        bits,
    })
}

impl<A: Allocator> ClassTables<A> {
    /// Whether all classes are seen to be settled, by such weights of letters; those that no label tells apart beside one
    /// of these labels. What is written down of the classes that are told apart is looked at first, and nothing is
    /// believed of it.
    pub fn are_settled(
        &self,
        p: &Presented<A>,
        untold: &UntoldPairs<A>,
        weights: &[u32],
        labels: &[u32],
    ) -> bool
        requires { AreTestedClasses p.now self.now }
        ensures { IsTrue result → AreSettledClasses p.now self.now.lists self.now.tables self.now.bits weights.now }
    {
        are_separated(
            p,
            &self.lists,
            &self.tables,
            &self.bits,
            untold,
            weights,
            labels,
        )
    }
}
