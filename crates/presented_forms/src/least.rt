//! Whether cycles and the list of heaps are the least ones.
ghost use Rattle.std.specs.Prelude.{◌≤◌, IsTrue, All, length};
ghost use Rattle.presentations.specs.declared.TheConstants.{LETTERS};
ghost use Rattle.normal_forms.specs.Forms.{IsIn, AreIn};
ghost use Rattle.presented_text.specs.Said.{IsInRanges};
ghost use Rattle.presented_forms.specs.Form.{IsInForm};
ghost use Rattle.presented_forms.specs.Only.{AreLeastCycles, IsLeast};

use crate::cycles::are_least_cycles;
use crate::list::is_least_list;
use crate::within::{are_rules_within, are_words_within};
use presented_text::PresentedText;
use std::alloc::Allocator;

/// Whether no other letters than those that are named occur in relations.
fn are_relations_within<A: Allocator>(text: &PresentedText<A>) -> bool
    ensures { IsTrue result → AreIn (length text.now.letters) text.now.relations }
{
    let rules = text.relations.as_slice();
    are_rules_within(text.letters.len(), rules)
}

/// Whether no other letters than those that are named occur in the portion.
fn is_portion_within<A: Allocator>(text: &PresentedText<A>) -> bool
    ensures { IsTrue result → All (IsIn (length text.now.letters)) text.now.portion }
{
    let words = text.portion.as_slice();
    are_words_within(text.letters.len(), words)
}

/// Whether each letter has its least cycle.
fn have_least_cycles<A: Allocator>(text: &PresentedText<A>) -> bool
    requires few { length text.now.cycles ≤ LETTERS }
    requires ranges { IsInRanges text.now }
    requires in_form { IsInForm text.now }
    ensures { IsTrue result → AreLeastCycles text.now }
{
    let cycles = text.cycles.as_slice();
    let words = text.portion.as_slice();
    are_least_cycles(cycles, words)
}

/// Whether a presentation that has the form that is asked for has no other letters than those that are named, and cycles
/// and the list of heaps are the least ones. A no says nothing.
pub fn is_least<A: Allocator>(text: &PresentedText<A>) -> bool
    requires few { length text.now.cycles ≤ LETTERS }
    requires ranges { IsInRanges text.now }
    requires in_form { IsInForm text.now }
    ensures { IsTrue result → IsLeast text.now }
{
    if !are_relations_within(text) {
        return false;
    }
    if !is_portion_within(text) {
        return false;
    }
    if !have_least_cycles(text) {
        return false;
    }
    is_least_list(text)
}
