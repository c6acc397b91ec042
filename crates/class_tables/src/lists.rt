//! The lists of which the tables are made: folds, classes and labels.
ghost use Rattle.std.specs.Prelude.{◌≡◌, ◌<◌, ◌≤◌, ℕ, IfOk, IfErr, IsTrue, length};
ghost use Rattle.presentations.specs.declared.TheConstants.{LETTERS};
ghost use Rattle.presentations.specs.Vectors.{zeros};
ghost use Rattle.presented_claims.specs.Claims.{IsElement};
ghost use Rattle.presented_tables.specs.Faults.{IsTrueOf};
ghost use Rattle.presented_claims.specs.Folds.{AreFiner};
ghost use Rattle.class_tables.specs.Classes.{AreFolds, word_at};
ghost use Rattle.class_tables.specs.Tables.{AreLists};

use crate::classes::ListedWords;
use crate::listing::{are_elements, classes_of, is_first};
use crate::thresholds::{are_finer, are_folds};
use presented_tables::{Presented, TablesFault};
use presented_text::LetterCycle;
use std::alloc::{Allocator, Global};
use std::marker::Model;

/// Three folds, the classes of the second and the third one, and the labels.
#[derive(Drop)]
pub struct ClassLists<A: Allocator = Global> {
    pub base: Vec<LetterCycle, A>,
    pub tops: Vec<LetterCycle, A>,
    pub folds: Vec<LetterCycle, A>,
    pub images: ListedWords<A>,
    pub classes: ListedWords<A>,
    pub labels: ListedWords<A>,
}

impl<A: Allocator> Model for ClassLists<A> {
    ghost use Rattle.class_tables.specs.Tables as tables;

    ghost Value = { tables.ClassLists };

    ghost view = { λ l. record {
      base = l.base.items;
      tops = l.tops.items;
      folds = l.folds.items;
      images = l.images;
      classes = l.classes;
      labels = l.labels;
    } };
}

/// Thresholds and periods for the letters: from which on the portion repeats; and those of classes beside which each heap
/// does the same.
#[derive(Drop)]
pub struct Thresholds<A: Allocator = Global> {
    pub base: Vec<LetterCycle, A>,
    pub tops: Vec<LetterCycle, A>,
}

/// The same, and labels; thresholds and periods of classes that each label leads to one of those; and finer ones, each of
/// whose classes each heap leads to one of these.
#[derive(Drop)]
pub struct Folds<A: Allocator = Global> {
    pub base: Vec<LetterCycle, A>,
    pub tops: Vec<LetterCycle, A>,
    pub folds: Vec<LetterCycle, A>,
    pub fine: Vec<LetterCycle, A>,
    pub labels: ListedWords<A>,
}

/// The most classes of a list.
pub(crate) const MOST_CLASSES: usize = 65536;

/// The labels, if they are seen to be elements, the first one that of nothing.
fn tested_labels<A: Allocator>(
    p: &Presented<A>,
    list: ListedWords<A>,
) -> Result<ListedWords<A>, TablesFault>
    ensures some { IfOk result (λ l. 0 < length l) }
    ensures first { IfOk result (λ l. word_at l 0 ≡ zeros LETTERS) }
    ensures elements { IfOk result (λ l. (w : ℕ) → w < length l → IsElement p.now (word_at l w)) }
    ensures fault { IfErr result (λ f. IsTrueOf p.now f) }
{
    if is_first(&list) && are_elements(p, &list) {
        Ok(list)
    } else {
        Err(TablesFault::Undecided)
    }
}

/// Whether these are seen to be thresholds and periods that keep the portion apart.
fn are_portion_folds<A: Allocator>(p: &Presented<A>, folds: &[LetterCycle]) -> bool
    ensures folds { IsTrue result → AreFolds p.now folds.now }
    ensures finer { IsTrue result → AreFiner folds.now p.now.cycles }
{
    are_folds(p, folds) && are_finer(folds, p.cycles.as_slice())
}

/// The lists, with the first three folds and the labels.
pub(crate) fn lists_of<A: Allocator + Copy>(
    alloc: A,
    p: &Presented<A>,
    base: Vec<LetterCycle, A>,
    tops: Vec<LetterCycle, A>,
    folds: Vec<LetterCycle, A>,
    labels: ListedWords<A>,
) -> Result<ClassLists<A>, TablesFault>
    ensures lists { IfOk result (λ l. AreLists p.now l) }
    ensures fault { IfErr result (λ f. IsTrueOf p.now f) }
{
    if !are_portion_folds(p, &base) || !are_portion_folds(p, &tops) || !are_folds(p, &folds) {
        return Err(TablesFault::Undecided);
    }
    let images = classes_of(alloc, p, &tops, MOST_CLASSES)?;
    let classes = classes_of(alloc, p, &folds, MOST_CLASSES)?;
    let labels = tested_labels(p, labels)?;
    Ok(ClassLists {
        base,
        tops,
        folds,
        images,
        classes,
        labels,
    })
}
