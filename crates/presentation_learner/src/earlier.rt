//! What was contradicted in earlier rounds, and is looked at again first.
use crate::faults::Blamed;
use crate::forms::Forms;
use crate::heap_words::{HeapRule, HeapWord, beside, is_same, product};
use crate::parting::trace_parting;
use crate::routes::blame_route;
use crate::table::WordTable;
use quotient_search::{Halt, Work};
use running_pairs::{at, put};
use std::alloc::Allocator;

/// How often a contradiction comes at one position until all rules in it are taken for wrong.
const PATIENCE: usize = 4;

/// How often until all rules of smaller words are.
const MORE_PATIENCE: usize = 12;

/// The positions at which contradictions came, with how often they did; and words of wrong rules beside contexts.
#[derive(Drop)]
pub struct Earlier<A: Allocator> {
    alloc: A,
    places: WordTable<A>,
    counts: Vec<usize, A>,
    /// Words, and of each the part that came first when it was brought to its normal form.
    routes: WordTable<A>,
    parts: Vec<HeapWord, A>,
    /// Positions at which contradictions came again in the last round, and the rules that it took for wrong.
    again: Vec<HeapWord, A>,
    removed: Vec<HeapRule, A>,
    /// The rules that weren't needed beside those.
    spared: Vec<HeapRule, A>,
}

/// Whether a rule is in a list.
fn has_rule(list: &[HeapRule], rule: &HeapRule) -> bool {
    for other in list.iter() {
        if is_same(&other.left, &rule.left) && is_same(&other.right, &rule.right) {
            return true;
        }
    }
    false
}

impl<A: Allocator + Copy> Earlier<A> {
    /// Nothing yet.
    pub fn new(alloc: A) -> Result<Earlier<A>, Halt> {
        Ok(Earlier {
            alloc,
            places: WordTable::new(alloc)?,
            counts: Vec::new(alloc),
            routes: WordTable::new(alloc)?,
            parts: Vec::new(alloc),
            again: Vec::new(alloc),
            removed: Vec::new(alloc),
            spared: Vec::new(alloc),
        })
    }

    /// How often a contradiction came at a position, with this time.
    fn times_at(&mut self, word: &HeapWord) -> Result<usize, Halt> {
        let number = self.places.add(word)?;
        if number >= self.counts.len() {
            self.counts.push(0usize)?;
        }
        let count = at(&self.counts, number).saturating_add(1);
        put(&mut self.counts, number, count);
        Ok(count)
    }

    /// Takes up the positions at which contradictions came in a round, and takes for wrong all rules in those at which
    /// they come again and again.
    pub fn take_places(
        &mut self,
        blamed: &mut Blamed<A>,
        rules: &[HeapRule],
        places: &[HeapWord],
        weights: &[usize],
    ) -> Result<(), Halt> {
        self.again.truncate(0);
        for place in places.iter() {
            let times = self.times_at(place)?;
            if times > 1 {
                self.again.push(*place)?;
            }
            if times % PATIENCE == 0 {
                blamed.add_all_in(rules, place)?;
            }
            if times % MORE_PATIENCE == 0 {
                blamed.add_all_before(rules, weights, place)?;
            }
        }
        Ok(())
    }

    /// Takes up a word that is a part of another one.
    fn add_route(&mut self, part: &HeapWord, rest: &HeapWord) -> Result<(), Halt> {
        let number = self.routes.add(&product(part, rest))?;
        if number < self.parts.len() {
            self.parts[number] = *part;
            return Ok(());
        }
        self.parts.push(*part).map_err(Halt::from)
    }

    /// Takes up the rules that are taken for wrong.
    pub fn take_rules(&mut self, blamed: &Blamed<A>, rules: &[HeapRule]) -> Result<(), Halt> {
        for (number, context) in blamed.rules.iter().zip(blamed.contexts.iter()) {
            if let Some(rule) = rules.get(*number) {
                self.add_route(&rule.left, context)?;
                self.add_route(&rule.right, context)?;
            }
        }
        self.removed.truncate(0);
        for (number, rule) in rules.iter().enumerate() {
            if blamed.has(number) {
                self.removed.push(*rule)?;
            }
        }
        Ok(())
    }

    /// Takes up rules that aren't needed beside new ones, when nothing was taken for wrong in a round.
    pub fn take_spared(&mut self, rules: &[HeapRule], needed: &[HeapRule]) -> Result<(), Halt> {
        if !self.removed.is_empty() {
            self.spared.truncate(0);
            self.removed.truncate(0);
        }
        self.again.truncate(0);
        for rule in rules.iter() {
            if !has_rule(needed, rule) {
                self.spared.push(*rule)?;
            }
        }
        Ok(())
    }

    /// Takes for wrong what rules make wrong at positions at which contradictions came before.
    fn test_places(
        &self,
        forms: &mut Forms<'_, A>,
        blamed: &mut Blamed<A>,
        places: &mut WordTable<A>,
        work: &mut Work,
    ) -> Result<(), Halt> {
        for word in self.places.words.iter() {
            let before = blamed.contexts.len();
            let place = blamed.blame(forms, word, work)?;
            if blamed.contexts.len() > before {
                places.add(&place)?;
            }
        }
        Ok(())
    }

    /// Takes for wrong what changes outcomes on the way to normal forms.
    fn test_routes(
        &self,
        forms: &mut Forms<'_, A>,
        blamed: &mut Blamed<A>,
        places: &mut WordTable<A>,
        work: &mut Work,
    ) -> Result<(), Halt> {
        for (word, part) in self.routes.words.iter().zip(self.parts.iter()) {
            let rest = beside(word, part);
            if let Some(place) = blame_route(forms, part, &rest, blamed, work)? {
                places.add(&place)?;
            }
        }
        Ok(())
    }

    /// Takes for wrong what made contradictions come again, by some more rules that were there before.
    fn test_again(
        &self,
        forms: &mut Forms<'_, A>,
        more: &[HeapRule],
        blamed: &mut Blamed<A>,
        places: &mut WordTable<A>,
        work: &mut Work,
    ) -> Result<(), Halt> {
        if self.again.is_empty() || more.is_empty() {
            return Ok(());
        }
        let mut rules: Vec<HeapRule, A> = Vec::new(self.alloc);
        rules.extend_from_slice(forms.rules)?;
        rules.extend_from_slice(more)?;
        let mut other = Forms::new(self.alloc, forms.part, forms.count, &rules)?;
        for word in self.again.iter() {
            if let Some(place) = trace_parting(forms, &mut other, word, blamed, work)? {
                places.add(&place)?;
            }
        }
        Ok(())
    }

    /// Takes for wrong what contradicts what was seen before.
    pub fn test(
        &self,
        forms: &mut Forms<'_, A>,
        blamed: &mut Blamed<A>,
        places: &mut WordTable<A>,
        work: &mut Work,
    ) -> Result<(), Halt> {
        self.test_places(forms, blamed, places, work)?;
        self.test_routes(forms, blamed, places, work)?;
        self.test_again(forms, &self.removed, blamed, places, work)?;
        self.test_again(forms, &self.spared, blamed, places, work)
    }
}
