//! The check of a presentation with infinitely many elements, by their classes.
ghost use Rattle.std.specs.Prelude.{◌<◌, ℕ, IfOk, IfErr, IsTrue, length};
ghost use Rattle.misere_theory.specs.Parts.{IsInfinite};
ghost use Rattle.presentations.specs.declared.TheConstants.{LETTERS};
ghost use Rattle.presentations.specs.Vectors.{only};
ghost use Rattle.kept_positions.specs.Numbers.{KeptPositions, AreFamiliesTested};
ghost use Rattle.presented_text.specs.Said.{PresentedSaid, IsInRanges};
ghost use Rattle.presented_claims.specs.Claims.{IsElement};
ghost use Rattle.presented_claims.specs.Presents.{Presents};
ghost use Rattle.presented_forms.specs.Form.{IsInForm};
ghost use Rattle.presented_tables.specs.Tested.{HasWord};
ghost use Rattle.presented_tables.specs.Faults.{IsTrueOf};
ghost use Rattle.class_tables.specs.Tested.{AreTestedClasses};
ghost use Rattle.presented_checker.specs.Endless.{IsEndless, AreSettled, HaveKept, HaveSettled};

use crate::weights::settling_for;
use class_tables::{
    ClassTables, ListedWords, Thresholds, class_tables_of, folds_for, is_unbounded, near_labels,
    telling_labels, test_presented, thresholds_for,
};
use kept_positions::{NotFound, tested_families};
use presented_tables::{Presented, TablesFault};
use std::alloc::Allocator;

/// The most positions that are kept.
const MOST_KEPT: usize = 65536;

/// How many times a position has a heap that is free at it.
const CAP: usize = 2;

/// How many letters of one kind the labels of kept positions have at most: one number after another. With four the rule is
/// seen to hold of nearly all quotients that are known; two are for those where four are too many.
const REACHES: [u16; 5] = [4, 8, 16, 24, 2];

/// How many letters of one kind more than relations labels have at most: one number after another.
const MORE: [u16; 6] = [1, 2, 4, 8, 12, 16];

/// How many more those of kept positions have.
const FAR: u16 = 16;

/// Whether each power of letter `i` is an element.
fn runs_on<A: Allocator>(p: &Presented<A>, i: usize) -> bool
    requires { i < length p.now.letters }
    ensures { IsTrue result → (k : ℕ) → IsElement p.now (only LETTERS i k) }
{
    let rules = p.basis.rules();
    is_unbounded(rules, i)
}

/// Whether there is a letter each power of which is an element.
pub fn is_endless<A: Allocator>(p: &Presented<A>) -> bool
    ensures { IsTrue result → IsEndless p.now }
{
    for i in 0..p.letters.len() {
        if runs_on(p, i) {
            return true;
        }
    }
    false
}

/// Whether the classes are seen to be settled by weights and labels that a search finds.
fn is_settled<A: Allocator + Copy>(
    alloc: A,
    p: &Presented<A>,
    v: &ClassTables<A>,
) -> Result<bool, TablesFault>
    requires { AreTestedClasses p.now v.now }
    ensures settled { IfOk result (λ b. IsTrue b → AreSettled p.now v.now) }
    ensures fault { IfErr result (λ f. IsTrueOf p.now f) }
{
    match settling_for(alloc, p, v)? {
        Some(found) => Ok(v.are_settled(p, &found.untold, &found.weights, &found.labels)),
        None => Ok(false),
    }
}

/// Sees that the classes are settled.
fn settle<A: Allocator + Copy>(
    alloc: A,
    p: &Presented<A>,
    v: &ClassTables<A>,
) -> Result<(), TablesFault>
    requires { AreTestedClasses p.now v.now }
    ensures settled { IfOk result (λ _. AreSettled p.now v.now) }
    ensures fault { IfErr result (λ f. IsTrueOf p.now f) }
{
    if is_settled(alloc, p, v)? {
        Ok(())
    } else {
        Err(TablesFault::Undecided)
    }
}

/// Sees that no position of the tables is bad beside nothing.
fn keep<A: Allocator + Copy>(
    alloc: A,
    p: &Presented<A>,
    v: &ClassTables<A>,
) -> Result<(), TablesFault>
    ensures kept { IfOk result (λ _. (k : KeptPositions) × AreFamiliesTested v.now.tables v.now.turns k) }
    ensures fault { IfErr result (λ f. IsTrueOf p.now f) }
{
    match tested_families(alloc, &v.tables, &v.turns, CAP, MOST_KEPT) {
        Ok(_) => Ok(()),
        Err(NotFound::Memory(_)) => Err(TablesFault::Memory),
        Err(NotFound::Limit) => Err(TablesFault::Limit),
        Err(_) => Err(TablesFault::Undecided),
    }
}

/// Sees that no position is bad beside nothing, with labels of up to `most` letters of one kind.
fn keep_with<A: Allocator + Copy>(
    alloc: A,
    p: &Presented<A>,
    thresholds: &Thresholds<A>,
    most: u16,
) -> Result<(), TablesFault>
    ensures kept { IfOk result (λ _. HaveKept p.now) }
    ensures fault { IfErr result (λ f. IsTrueOf p.now f) }
{
    let labels = near_labels(alloc, p, thresholds, FAR, most)?;
    let folds = folds_for(alloc, p, thresholds, labels)?;
    let tables = class_tables_of(alloc, p, folds)?;
    keep(alloc, p, &tables)?;
    Ok(())
}

/// Sees that classes are settled, with these labels.
fn settle_with<A: Allocator + Copy>(
    alloc: A,
    p: &Presented<A>,
    thresholds: &Thresholds<A>,
    labels: ListedWords<A>,
) -> Result<(), TablesFault>
    ensures settled { IfOk result (λ _. HaveSettled p.now) }
    ensures fault { IfErr result (λ f. IsTrueOf p.now f) }
{
    let folds = folds_for(alloc, p, thresholds, labels)?;
    let tables = class_tables_of(alloc, p, folds)?;
    settle(alloc, p, &tables)?;
    Ok(())
}

/// The same with few labels, and powers of up to `more` letters more than relations have; or with all labels that have no
/// letter more often.
fn settle_by<A: Allocator + Copy>(
    alloc: A,
    p: &Presented<A>,
    thresholds: &Thresholds<A>,
    more: u16,
    all: bool,
) -> Result<(), TablesFault>
    ensures settled { IfOk result (λ _. HaveSettled p.now) }
    ensures fault { IfErr result (λ f. IsTrueOf p.now f) }
{
    let labels = if all {
        near_labels(alloc, p, thresholds, more, u16::MAX)?
    } else {
        telling_labels(alloc, p, thresholds, more)?
    };
    settle_with(alloc, p, thresholds, labels)
}

/// What it is to give up.
fn given_up(is_limit: bool) -> TablesFault
    ensures { (c : PresentedSaid) → IsTrueOf c result }
{
    if is_limit {
        TablesFault::Limit
    } else {
        TablesFault::Undecided
    }
}

/// Sees that no position is bad beside nothing.
fn keep_by_classes<A: Allocator + Copy>(
    alloc: A,
    p: &Presented<A>,
    thresholds: &Thresholds<A>,
) -> Result<(), TablesFault>
    ensures kept { IfOk result (λ _. HaveKept p.now) }
    ensures fault { IfErr result (λ f. IsTrueOf p.now f) }
{
    let mut is_limit = true;
    for k in 0..REACHES.len() {
        match keep_with(alloc, p, thresholds, REACHES[k]) {
            Ok(()) => return Ok(()),
            Err(TablesFault::Undecided) => is_limit = false,
            Err(TablesFault::Limit) => {}
            Err(fault) => return Err(fault),
        }
    }
    Err(given_up(is_limit))
}

/// Sees that classes are settled: for each number of letters more first with few labels, then with all of them.
fn settle_by_classes<A: Allocator + Copy>(
    alloc: A,
    p: &Presented<A>,
    thresholds: &Thresholds<A>,
) -> Result<(), TablesFault>
    ensures settled { IfOk result (λ _. HaveSettled p.now) }
    ensures fault { IfErr result (λ f. IsTrueOf p.now f) }
{
    let mut is_limit = true;
    for k in 0..2 * MORE.len() {
        match settle_by(alloc, p, thresholds, MORE[k / 2], k % 2 == 1) {
            Ok(()) => return Ok(()),
            Err(TablesFault::Undecided) => is_limit = false,
            Err(TablesFault::Limit) => {}
            Err(fault) => return Err(fault),
        }
    }
    Err(given_up(is_limit))
}

/// Sees that a presentation is the misère quotient of its heaps, by classes of its elements; and that the quotient is
/// infinite, if each power of some letter is an element.
///
/// # Errors
///
/// `Letters`, `Leaves` and `Ended` are true of the presentation, and refuse it. The others say nothing of it: `Undecided`,
/// if no labels are found by which the rule is seen to hold, or none by which its classes are told apart; `Limit`, if in
/// one of the two there are too many classes, or positions to keep, for all labels that are tried; and want of memory.
pub fn present_by_classes<A: Allocator + Copy>(
    alloc: A,
    p: &Presented<A>,
) -> Result<(), TablesFault>
    requires ranges { IsInRanges p.now }
    requires in_form { IsInForm p.now }
    ensures yes { IfOk result (λ _. Presents p.now) }
    ensures infinite { IfOk result (λ _. IsEndless p.now → IsInfinite (HasWord p.now) p.now.code) }
    ensures fault { IfErr result (λ f. IsTrueOf p.now f) }
{
    test_presented(p)?;
    let thresholds = thresholds_for(alloc, p)?;
    keep_by_classes(alloc, p, &thresholds)?;
    settle_by_classes(alloc, p, &thresholds)?;
    Ok(())
}
