//! Thresholds and periods of letters, and tests of them.
ghost use Rattle.std.specs.Prelude.{◌≡◌, ◌<◌, ◌≤◌, ◌*◌, ℕ, IsTrue, length, slice_index};
ghost use Rattle.presentations.specs.declared.TheConstants.{LETTERS};
ghost use Rattle.presented_claims.specs.Folds.{at_letter, HavePeriods, AreAbove, AreFiner};
ghost use Rattle.class_tables.specs.Classes.{AreFolds};

use crate::folding::cycle_at;
use normal_forms::Rule;
use presentations::LETTERS;
use presented_tables::Presented;
use presented_text::LetterCycle;
use std::alloc::Allocator;

/// Whether the relation's left word is seen to have no more of letter `i` than its threshold.
fn is_above_at(folds: &[LetterCycle], rule: &Rule, i: usize) -> bool
    requires { i < length folds.now }
    ensures { IsTrue result → slice_index rule.now.0 i ≤ (at_letter folds.now i).0 }
{
    let fold = cycle_at(folds, i);
    i < LETTERS && rule.left[i] <= fold.start
}

/// The same of each letter.
fn is_above(folds: &[LetterCycle], rule: &Rule) -> bool
    ensures { IsTrue result → (i : ℕ) → i < length folds.now → slice_index rule.now.0 i ≤ (at_letter folds.now i).0 }
{
    for i in 0..folds.len() {
        if !is_above_at(folds, rule, i) {
            return false;
        }
    }
    true
}

/// The same of all relations.
fn are_above(folds: &[LetterCycle], rules: &[Rule]) -> bool
    ensures { IsTrue result → AreAbove folds.now rules.now }
{
    for k in 0..rules.len() {
        if !is_above(folds, &rules[k]) {
            return false;
        }
    }
    true
}

/// Whether the period of letter `i` is at least 1.
fn has_period(folds: &[LetterCycle], i: usize) -> bool
    requires { i < length folds.now }
    ensures { IsTrue result → 1 ≤ (at_letter folds.now i).1 }
{
    let fold = cycle_at(folds, i);
    fold.period > 0
}

/// Whether each period is.
fn have_periods(folds: &[LetterCycle]) -> bool
    ensures { IsTrue result → HavePeriods folds.now }
{
    for i in 0..folds.len() {
        if !has_period(folds, i) {
            return false;
        }
    }
    true
}

/// Whether these are seen to be thresholds and periods for the letters.
pub(crate) fn are_folds<A: Allocator>(p: &Presented<A>, folds: &[LetterCycle]) -> bool
    ensures { IsTrue result → AreFolds p.now folds.now }
{
    folds.len() <= LETTERS && have_periods(folds) && are_above(folds, p.basis.rules())
}

/// Whether a threshold is seen to be no smaller than another one, and its period a multiple.
fn is_finer(fold: &LetterCycle, cycle: &LetterCycle) -> bool
    ensures start { IsTrue result → cycle.now.0 ≤ fold.now.0 }
    ensures period { IsTrue result → (k : ℕ) × (fold.now.1 ≡ cycle.now.1 * k) }
{
    cycle.start <= fold.start && cycle.period != 0 && fold.period % cycle.period == 0
}

/// Whether letter `i` is seen to have such a threshold and period.
fn is_finer_at(folds: &[LetterCycle], cycles: &[LetterCycle], i: usize) -> bool
    requires inside { i < length folds.now }
    requires known { i < length cycles.now }
    ensures start { IsTrue result → (at_letter cycles.now i).0 ≤ (at_letter folds.now i).0 }
    ensures period { IsTrue result → (k : ℕ) × ((at_letter folds.now i).1 ≡ (at_letter cycles.now i).1 * k) }
{
    let (fold, cycle) = (cycle_at(folds, i), cycle_at(cycles, i));
    is_finer(&fold, &cycle)
}

/// Whether all are.
pub(crate) fn are_finer(folds: &[LetterCycle], cycles: &[LetterCycle]) -> bool
    ensures { IsTrue result → AreFiner folds.now cycles.now }
{
    if folds.len() != cycles.len() {
        return false;
    }
    for i in 0..folds.len() {
        if !is_finer_at(folds, cycles, i) {
            return false;
        }
    }
    true
}
