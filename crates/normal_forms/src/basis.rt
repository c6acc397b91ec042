//! Relations by which each word has one normal form.
ghost use Rattle.std.specs.Prelude.{◌≡◌, ◌<◌, ◌≤◌, ◌↔◌, MatchOption, IsTrue, IfOk, IfSome, Err};
ghost use Rattle.presentations.specs.declared.TheConstants.{LETTERS};
ghost use Rattle.relations.specs.Bases.{letter_count};
ghost use Rattle.normal_forms.specs.declared.TheConstants.{MOST_LETTERS};
ghost use Rattle.normal_forms.specs.Reductions.{AreConvergent, AreOriented, AreShort};
ghost use Rattle.normal_forms.specs.Forms.{IsNormalForm, IsStandard};

use crate::MOST_LETTERS;
use crate::fault::BasisFault;
use crate::pairs::{are_oriented, are_short, do_pairs_join};
use crate::reducing::{letter_count, reduced};
use crate::remembering::KnownForms;
use crate::rule::{Exponents, Rule};
use crate::table::RuleTable;
use allocation::Memory;
use presentations::LETTERS;
use std::alloc::{Allocator, Global};
use std::marker::Model;

/// Relations that lead down and whose critical pairs join, with a table by which those are found that reduce a word.
#[derive(Drop)]
pub struct Basis<A: Allocator = Global> {
    rules: Vec<Rule, A>,
    table: RuleTable<A>,
    known: Option<KnownForms<A>>,
}

impl<A: Allocator> Model for Basis<A> {
    ghost use Rattle.std.specs.Prelude.{ℕ, List};
    ghost use Rattle.presentations.specs.declared.TheConstants.{LETTERS};
    ghost use Rattle.normal_forms.specs.Reductions.{AreConvergent};
    ghost use Rattle.normal_forms.specs.RuleTables.{IsRuleTable};
    ghost use Rattle.normal_forms.specs.Known.{AreKnown};
    ghost use Rattle.std.specs.Prelude.{IfSome};

    ghost Value = { List (List ℕ × List ℕ) };

    ghost view = { λ b. b.rules.items };

    ghost invariant = { λ b. AreConvergent LETTERS b.rules.items × IsRuleTable b.rules.items b.table
        × IfSome b.known (λ k. AreKnown b.rules.items k) };
}

impl<A: Allocator> Basis<A> {
    /// Tests the relations. Refuses `Long` first, then `Order`, then `Pair`.
    ///
    /// # Errors
    ///
    /// `Memory` is a growth that was refused; nothing is said of the relations then, which are gone after each error.
    pub fn new(alloc: A, rules: Vec<Rule, A>) -> Result<Basis<A>, BasisFault>
        ensures ok { IfOk result (λ b. (b ≡ rules.items) × AreShort LETTERS rules.items
            × AreConvergent LETTERS rules.items) }
        ensures long { (result ≡ Err BasisFault.Long) → AreShort LETTERS rules.items → ⊥ }
        ensures order { (result ≡ Err BasisFault.Order) → AreOriented LETTERS rules.items → ⊥ }
        ensures pair { (result ≡ Err BasisFault.Pair) → AreConvergent LETTERS rules.items → ⊥ }
    {
        if !are_short(rules.as_slice()) {
            return Err(BasisFault::Long);
        }
        if !are_oriented(rules.as_slice()) {
            return Err(BasisFault::Order);
        }
        let Ok(table) = RuleTable::of(alloc, rules.as_slice()) else {
            return Err(BasisFault::Memory);
        };
        if !do_pairs_join(rules.as_slice(), &table) {
            return Err(BasisFault::Pair);
        }
        Ok(Basis {
            rules,
            table,
            known: None,
        })
    }

    /// The relations.
    pub fn rules(&self) -> &[Rule]
        ensures value { result.now ≡ self.now }
        ensures convergent { AreConvergent LETTERS self.now }
    {
        self.rules.as_slice()
    }

    /// Whether no left word is in the word.
    pub fn is_standard(&self, word: &Exponents) -> bool
        ensures { IsTrue result ↔ IsStandard LETTERS self.now word.now }
    {
        match self.table.first_rule(self.rules.as_slice(), word) {
            Some(_) => false,
            None => true,
        }
    }

    /// The normal form of a word, unless it has more than `MOST_LETTERS` letters.
    pub fn normal_form(&self, word: &Exponents) -> Option<Exponents>
        ensures { MatchOption result (MOST_LETTERS < letter_count LETTERS word.now)
            (λ form. (letter_count LETTERS word.now ≤ MOST_LETTERS)
            × IsNormalForm LETTERS self.now word.now form) }
    {
        if letter_count(word) > MOST_LETTERS {
            return None;
        }
        if let Some(form) = self.known_form(word) {
            return Some(form);
        }
        Some(reduced(self.rules.as_slice(), &self.table, word))
    }

    /// The normal form of a word, if it is found by the elements that are known.
    fn known_form(&self, word: &Exponents) -> Option<Exponents>
        ensures { IfSome result (λ form. IsNormalForm LETTERS self.now word.now form) }
    {
        match &self.known {
            Some(known) => known.form(self.rules.as_slice(), word),
            None => None,
        }
    }
}

impl<A: Allocator + Copy> Basis<A> {
    /// The same relations, by which words in the first letters are reduced faster: about so many elements are written down,
    /// those of the fewest letters, and what each becomes with a letter more.
    ///
    /// # Errors
    ///
    /// A growth was refused; the relations are gone then.
    pub fn remembering(self, alloc: A, letters: usize, most: usize) -> Result<Basis<A>, Memory>
        ensures { IfOk result (λ b. b ≡ self) }
    {
        let known = KnownForms::of(alloc, self.rules.as_slice(), &self.table, letters, most)?;
        Ok(Basis {
            rules: self.rules,
            table: self.table,
            known,
        })
    }
}
