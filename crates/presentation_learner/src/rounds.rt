//! Rules that nothing contradicts, round by round.
use crate::earlier::Earlier;
use crate::faults::Blamed;
use crate::forms::Forms;
use crate::heap_words::{GENERATORS, HeapRule, HeapWord, exponent, is_in, product, with_exponent};
use crate::joining::open_pairs;
use crate::keeping::{failing_moves, failing_positions};
use crate::part::Part;
use crate::standard::{Standard, standard_words};
use crate::table::WordTable;
use quotient_search::{Halt, Work};
use std::alloc::Allocator;

/// The most rounds.
const MOST_ROUNDS: usize = 3000;

/// The most contexts.
const MOST_CONTEXTS: usize = 20_000;

/// How many contexts around one that tells are taken, on each side.
const NEAR: u8 = 3;

/// The largest exponent of a context that is taken up in a round.
const FARTHEST: u8 = 44;

/// Rules of the first `count` generators of a part that nothing contradicts, the contexts that tell their standard
/// words apart, and for each generator whether it runs as far as words were looked at.
#[derive(Drop)]
pub struct Stage<A: Allocator> {
    pub rules: Vec<HeapRule, A>,
    pub contexts: WordTable<A>,
    pub runs: Vec<u8, A>,
}

/// What a round comes to.
#[derive(Drop)]
enum Finding<A: Allocator> {
    Wrong(Blamed<A>),
    New(Vec<HeapRule, A>),
    Settled {
        contexts: WordTable<A>,
        runs: Vec<u8, A>,
    },
}

/// Rules and contexts on the way, and what was contradicted in earlier rounds.
#[derive(Drop)]
struct Rounds<A: Allocator> {
    alloc: A,
    rules: Vec<HeapRule, A>,
    contexts: WordTable<A>,
    earlier: Earlier<A>,
}

/// A position beside which a rule fails by its moves, if a context makes one.
fn failing_of<A: Allocator + Copy>(
    forms: &mut Forms<'_, A>,
    rule: &HeapRule,
    contexts: &WordTable<A>,
    work: &mut Work,
) -> Result<Option<HeapWord>, Halt> {
    let right = forms.form_of(&rule.right, work)?;
    for context in contexts.words.iter() {
        let form = forms.form_of(context, work)?;
        let beside = forms.table.word(form);
        let is_p = forms.is_p_beside(right, &beside, work)?;
        let word = product(&rule.left, &beside);
        if is_p != forms.is_p_by_moves(&word, work)? {
            return Ok(Some(word));
        }
    }
    Ok(None)
}

/// Takes for wrong what rules make wrong beside contexts.
fn test_rules<A: Allocator + Copy>(
    forms: &mut Forms<'_, A>,
    contexts: &WordTable<A>,
    blamed: &mut Blamed<A>,
    places: &mut WordTable<A>,
    work: &mut Work,
) -> Result<(), Halt> {
    let rules = forms.rules;
    for (number, rule) in rules.iter().enumerate() {
        if blamed.has(number) {
            continue;
        }
        if let Some(word) = failing_of(forms, rule, contexts, work)? {
            places.add(&blamed.blame(forms, &word, work)?)?;
        }
    }
    Ok(())
}

/// Takes for wrong each rule that is in a position at which play fails, where none is blamed.
fn blame_failing<A: Allocator + Copy>(
    forms: &mut Forms<'_, A>,
    failing: &[HeapWord],
    blamed: &mut Blamed<A>,
    places: &mut WordTable<A>,
    work: &mut Work,
) -> Result<(), Halt> {
    for word in failing.iter() {
        let before = blamed.contexts.len();
        places.add(&blamed.blame(forms, word, work)?)?;
        if blamed.contexts.len() == before {
            blamed.add_all_in(forms.rules, word)?;
        }
    }
    if !failing.is_empty() && blamed.is_empty() {
        return Err(Halt::Repairs);
    }
    Ok(())
}

/// The rules that aren't taken for wrong.
fn left_of<A: Allocator + Copy>(
    alloc: A,
    rules: &[HeapRule],
    blamed: &Blamed<A>,
) -> Result<Vec<HeapRule, A>, Halt> {
    let mut left: Vec<HeapRule, A> = Vec::new(alloc);
    for (number, rule) in rules.iter().enumerate() {
        if !blamed.has(number) {
            left.push(*rule)?;
        }
    }
    Ok(left)
}

/// Whether no other rule's left word is in a rule's left word; of equal ones the last is needed.
fn is_needed(rules: &[HeapRule], number: usize, rule: &HeapRule) -> bool {
    for (other, before) in rules.iter().enumerate() {
        let is_other = other > number || (other < number && !is_in(&rule.left, &before.left));
        if is_other && is_in(&before.left, &rule.left) {
            return false;
        }
    }
    true
}

/// The rules that are needed.
fn needed_of<A: Allocator + Copy>(alloc: A, rules: &[HeapRule]) -> Result<Vec<HeapRule, A>, Halt> {
    let mut needed: Vec<HeapRule, A> = Vec::new(alloc);
    for (number, rule) in rules.iter().enumerate() {
        if is_needed(rules, number, rule) {
            needed.push(*rule)?;
        }
    }
    Ok(needed)
}

impl<A: Allocator + Copy> Rounds<A> {
    /// Takes up the contexts around one along a letter.
    fn add_near(&mut self, context: &HeapWord, letter: usize) -> Result<(), Halt> {
        let count = exponent(context, letter);
        for more in 1..NEAR.saturating_add(1) {
            self.contexts.add(&with_exponent(context, letter, count.saturating_add(more)))?;
            self.contexts.add(&with_exponent(context, letter, count.saturating_sub(more)))?;
        }
        Ok(())
    }

    /// Takes up a context, and those around it.
    fn add_context(&mut self, context: &HeapWord) -> Result<(), Halt> {
        self.contexts.add(context)?;
        for letter in 0..GENERATORS {
            let count = exponent(context, letter);
            if count >= NEAR && count < FARTHEST {
                self.add_near(context, letter)?;
            }
        }
        if self.contexts.words.len() > MOST_CONTEXTS {
            return Err(Halt::TooLarge);
        }
        Ok(())
    }
}

/// Looks for critical pairs that don't join, and takes rules for wrong because of them.
fn join<A: Allocator + Copy>(
    alloc: A,
    forms: &mut Forms<'_, A>,
    contexts: &WordTable<A>,
    blamed: &mut Blamed<A>,
    places: &mut WordTable<A>,
    work: &mut Work,
) -> Result<Vec<HeapRule, A>, Halt> {
    let mut joining: Vec<HeapRule, A> = Vec::new(alloc);
    let open = open_pairs(alloc, forms, work)?;
    for pair in open.iter() {
        if let Some(place) = pair.resolve(forms, contexts, blamed, &mut joining, work)? {
            places.add(&place)?;
        }
    }
    Ok(joining)
}

/// What standard words, critical pairs and play show, of rules that no context contradicts.
fn finding_of<A: Allocator + Copy>(
    alloc: A,
    forms: &mut Forms<'_, A>,
    contexts: &WordTable<A>,
    earlier: &Earlier<A>,
    most: u8,
    places: &mut WordTable<A>,
    work: &mut Work,
) -> Result<Finding<A>, Halt> {
    let mut blamed = Blamed::new(alloc, forms.rules.len())?;
    earlier.test(forms, &mut blamed, places, work)?;
    if !blamed.is_empty() {
        return Ok(Finding::Wrong(blamed));
    }
    let standard = standard_words(alloc, forms, contexts, most, work)?;
    if !standard.rules.is_empty() {
        let Standard { rules, .. } = standard;
        return Ok(Finding::New(rules));
    }
    test_rules(forms, contexts, &mut blamed, places, work)?;
    if !blamed.is_empty() {
        return Ok(Finding::Wrong(blamed));
    }
    let joining = join(alloc, forms, contexts, &mut blamed, places, work)?;
    if !blamed.is_empty() {
        return Ok(Finding::Wrong(blamed));
    }
    if !joining.is_empty() {
        return Ok(Finding::New(joining));
    }
    played(alloc, forms, standard, blamed, most, places, work)
}

/// What play shows, of rules whose critical pairs join.
fn played<A: Allocator + Copy>(
    alloc: A,
    forms: &mut Forms<'_, A>,
    standard: Standard<'_, A>,
    blamed: Blamed<A>,
    most: u8,
    places: &mut WordTable<A>,
    work: &mut Work,
) -> Result<Finding<A>, Halt> {
    let mut wrong = blamed;
    let moves = failing_moves(alloc, forms, &standard, work)?;
    blame_failing(forms, &moves, &mut wrong, places, work)?;
    if wrong.is_empty() {
        let positions = failing_positions(alloc, forms, most, work)?;
        blame_failing(forms, &positions, &mut wrong, places, work)?;
    }
    if !wrong.is_empty() {
        return Ok(Finding::Wrong(wrong));
    }
    let contexts = standard.contexts_used(alloc)?;
    let Standard { runs, .. } = standard;
    Ok(Finding::Settled { contexts, runs })
}

impl<A: Allocator + Copy> Rounds<A> {
    /// Leaves out the rules that are taken for wrong, and takes up the contexts beside which they are seen to be.
    fn refute(&mut self, blamed: &Blamed<A>) -> Result<(), Halt> {
        self.rules = left_of(self.alloc, &self.rules, blamed)?;
        for context in blamed.contexts.iter() {
            self.add_context(context)?;
        }
        Ok(())
    }

    /// Takes up new rules.
    fn take(&mut self, new: &[HeapRule]) -> Result<(), Halt> {
        self.rules.extend_from_slice(new)?;
        let needed = needed_of(self.alloc, &self.rules)?;
        self.earlier.take_spared(&self.rules, &needed)?;
        self.rules = needed;
        Ok(())
    }

    /// A round. It hands out what the rules come to once nothing contradicts them.
    fn round(
        &mut self,
        part: &Part<A>,
        count: usize,
        most: u8,
        work: &mut Work,
    ) -> Result<Option<(WordTable<A>, Vec<u8, A>)>, Halt> {
        let mut places = WordTable::new(self.alloc)?;
        let mut forms = Forms::new(self.alloc, part, count, &self.rules)?;
        let finding = finding_of(
            self.alloc,
            &mut forms,
            &self.contexts,
            &self.earlier,
            most,
            &mut places,
            work,
        )?;
        drop(forms);
        match finding {
            Finding::Wrong(mut blamed) => {
                self.earlier
                    .take_places(&mut blamed, &self.rules, &places.words, &part.weights)?;
                self.earlier.take_rules(&blamed, &self.rules)?;
                self.refute(&blamed)?;
            }
            Finding::New(new) => self.take(&new)?,
            Finding::Settled { contexts, runs } => return Ok(Some((contexts, runs))),
        }
        Ok(None)
    }
}

/// Rules of the first `count` generators of a part that nothing contradicts, from rules that may be wrong on, where
/// words have at most so many of each generator.
pub fn settled_rules<A: Allocator + Copy>(
    alloc: A,
    part: &Part<A>,
    count: usize,
    rules: Vec<HeapRule, A>,
    contexts: WordTable<A>,
    most: u8,
    work: &mut Work,
) -> Result<Stage<A>, Halt> {
    let mut rounds = Rounds {
        alloc,
        rules,
        contexts,
        earlier: Earlier::new(alloc)?,
    };
    for _ in 0..MOST_ROUNDS {
        if let Some((contexts, runs)) = rounds.round(part, count, most, work)? {
            let Rounds { rules, .. } = rounds;
            return Ok(Stage {
                rules,
                contexts,
                runs,
            });
        }
    }
    Err(Halt::Repairs)
}
