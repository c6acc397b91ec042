//! Whether a presentation has the form that is asked for.
ghost use Rattle.std.specs.Prelude.{◌≤◌, IsTrue, All, length};
ghost use Rattle.presentations.specs.declared.TheConstants.{LETTERS};
ghost use Rattle.presented_forms.specs.Form.{AreInOrder, AreReduced, AreRising, IsBelow, IsInForm, IsStandardIfSome, StandsForStandard};

use crate::basis::{are_in_order, are_reduced, are_words_standard};
use crate::letters::are_named;
use crate::order::are_rising;
use crate::portion::{are_below, stand_for_standard};
use normal_forms::{Exponents, Rule};
use presented_text::{LetterCycle, PresentedText};
use std::alloc::Allocator;

/// Whether the words of the portion have the form that is asked for.
fn is_portion_in_form(rules: &[Rule], cycles: &[LetterCycle], portion: &[Exponents]) -> bool
    requires { length cycles.now ≤ LETTERS }
    ensures rising { IsTrue result → AreRising portion.now }
    ensures below { IsTrue result → All (IsBelow cycles.now) portion.now }
    ensures standard { IsTrue result → All (StandsForStandard rules.now cycles.now) portion.now }
{
    if !are_rising(portion) {
        return false;
    }
    if !are_below(cycles, portion) {
        return false;
    }
    stand_for_standard(rules, cycles, portion)
}

/// Whether the relations, and the words of the heaps, have the form that is asked for.
fn is_basis_in_form(rules: &[Rule], words: &[Option<Exponents>]) -> bool
    ensures in_order { IsTrue result → AreInOrder rules.now }
    ensures reduced { IsTrue result → AreReduced rules.now }
    ensures words { IsTrue result → All (IsStandardIfSome rules.now) words.now }
{
    if !are_in_order(rules) {
        return false;
    }
    if !are_reduced(rules) {
        return false;
    }
    are_words_standard(rules, words)
}

/// Whether the presentation has the form that is asked for. A no says nothing.
pub fn is_in_form<A: Allocator>(text: &PresentedText<A>) -> bool
    requires { length text.now.cycles ≤ LETTERS }
    ensures { IsTrue result → IsInForm text.now }
{
    let rules = text.relations.as_slice();
    if !are_named(text) {
        return false;
    }
    if !is_basis_in_form(rules, text.words.as_slice()) {
        return false;
    }
    is_portion_in_form(rules, text.cycles.as_slice(), text.portion.as_slice())
}
