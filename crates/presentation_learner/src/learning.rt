//! The search from a code alone.
use crate::contexts::{far_contexts, first_contexts};
use crate::forms::Forms;
use crate::heap_words::HeapRule;
use crate::lettering::{Lettered, learned_words, letters_of};
use crate::part::{Part, Scope};
use crate::portion::{Listing, long_cycles};
use crate::rounds::{Stage, settled_rules};
use crate::table::WordTable;
use crate::{FoundLines, ONE, drafted, shortened};
use normal_forms::{Exponents, Rule};
use octal_code::Code;
use presented_text::LetterCycle;
use quotient_search::{Halt, Work};
use running_pairs::{NONE, at};
use std::alloc::Allocator;

/// How many of each letter words have at most, at the first attempt, and how many more at each further one.
const FIRST_MOST: u8 = 6;

const MORE: u8 = 3;

/// How often generators that run are looked at further out.
const PASSES: usize = 3;

/// What was learned of the code's heaps, one generator after another.
#[derive(Drop)]
pub struct Learner<A: Allocator> {
    alloc: A,
    code: Code,
    heaps: Vec<usize, A>,
    stages: Vec<Stage<A>, A>,
    work: Work,
}

/// The generators that run.
fn running_of<A: Allocator + Copy>(alloc: A, stage: &Stage<A>) -> Result<Vec<usize, A>, Halt> {
    let mut running: Vec<usize, A> = Vec::new(alloc);
    for (generator, runs) in stage.runs.iter().enumerate() {
        if *runs == 1 {
            running.push(generator)?;
        }
    }
    Ok(running)
}

/// A list once more.
fn again<A: Allocator + Copy>(alloc: A, rules: &[HeapRule]) -> Result<Vec<HeapRule, A>, Halt> {
    let mut list: Vec<HeapRule, A> = Vec::new(alloc);
    list.extend_from_slice(rules)?;
    Ok(list)
}

/// A stage looked at further out along the generators that run, until no others do.
fn farther<A: Allocator + Copy>(
    alloc: A,
    part: &Part<A>,
    stage: Stage<A>,
    most: u8,
    work: &mut Work,
) -> Result<Stage<A>, Halt> {
    let count = part.heaps.len();
    let mut last = stage;
    let mut running = running_of(alloc, &last)?;
    for _ in 0..PASSES {
        if running.is_empty() {
            break;
        }
        let contexts = far_contexts(alloc, &last.contexts.words, count, &running)?;
        let rules = again(alloc, &last.rules)?;
        last = settled_rules(alloc, part, count, rules, contexts, most, work)?;
        let after = running_of(alloc, &last)?;
        if after == running {
            break;
        }
        running = after;
    }
    Ok(last)
}

/// The words of the heaps from 1 on, none of those that aren't in the part.
fn words_of<A: Allocator + Copy>(
    alloc: A,
    forms: &mut Forms<'_, A>,
    found: &Lettered<A>,
    work: &mut Work,
) -> Result<Vec<Option<Exponents>, A>, Halt> {
    let part = forms.part;
    let mut words: Vec<Option<Exponents>, A> = Vec::new(alloc);
    for heap in 1..part.marks.len().saturating_add(1) {
        let generator = part.generator(heap);
        if !part.has(heap) {
            words.push(None)?;
        } else if generator == NONE {
            words.push(Some(ONE))?;
        } else {
            let form = forms.step(0, generator, work)?;
            let Some(word) = found.word_of(form) else {
                return Err(Halt::Repairs);
            };
            words.push(Some(word))?;
        }
    }
    Ok(words)
}

/// The least cycles and the portion of letters that have these relations.
fn portion_of<A: Allocator + Copy>(
    alloc: A,
    forms: &mut Forms<'_, A>,
    letters: &[usize],
    rules: &[Rule],
    work: &mut Work,
) -> Result<(Vec<LetterCycle, A>, Vec<Exponents, A>), Halt> {
    let long = long_cycles(alloc, rules, letters.len())?;
    let mut listing = Listing {
        letters,
        cycles: &long,
        rules,
        words: Vec::from_slice(alloc, &[ONE])?,
        forms: Vec::from_slice(alloc, &[0usize])?,
    };
    let portion = listing.portion(alloc, forms, work)?;
    shortened(alloc, &long, portion, work)
}

/// The text of a stage.
fn text_of<A: Allocator + Copy>(
    alloc: A,
    code: &Code,
    part: &Part<A>,
    rules: &[HeapRule],
    work: &mut Work,
) -> Result<Vec<u8, A>, Halt> {
    let mut forms = Forms::new(alloc, part, part.heaps.len(), rules)?;
    let letters = letters_of(alloc, &mut forms, work)?;
    let found = learned_words(alloc, &mut forms, &letters, work)?;
    let words = words_of(alloc, &mut forms, &found, work)?;
    let (cycles, portion) = portion_of(alloc, &mut forms, &letters, &found.rules, work)?;
    let mut heaps: Vec<usize, A> = Vec::new(alloc);
    for generator in letters.iter() {
        heaps.push(at(&part.heaps, *generator))?;
    }
    let Lettered { rules, .. } = found;
    drafted(
        alloc,
        &FoundLines {
            code: *code,
            period: 0,
            letters: heaps,
            words,
            rules,
            cycles,
            portion,
        },
    )
}

impl<A: Allocator + Copy> Learner<A> {
    /// Nothing is learned yet. All that is done is done within so much work.
    pub fn new(alloc: A, code: &Code, steps: u64) -> Learner<A> {
        Learner {
            alloc,
            code: *code,
            heaps: Vec::new(alloc),
            stages: Vec::new(alloc),
            work: Work::new(steps),
        }
    }

    /// How many generators a part has first that were learned already.
    fn known(&self, part: &Part<A>) -> usize {
        let mut known = 0usize;
        for (heap, other) in part.heaps.iter().zip(self.heaps.iter()) {
            if *heap != *other || known >= self.stages.len() {
                break;
            }
            known = known.saturating_add(1);
        }
        known
    }

    /// What the next generator begins with: rules and contexts.
    fn beginning(&self) -> Result<(Vec<HeapRule, A>, WordTable<A>), Halt> {
        let count = self.stages.len().saturating_add(1);
        match self.stages.get(self.stages.len().wrapping_sub(1)) {
            Some(stage) => Ok((
                again(self.alloc, &stage.rules)?,
                first_contexts(self.alloc, &stage.contexts.words, count)?,
            )),
            None => Ok((
                Vec::new(self.alloc),
                first_contexts(self.alloc, &[], count)?,
            )),
        }
    }

    /// Learns the part's next generator.
    fn learn(&mut self, part: &Part<A>, most: u8) -> Result<(), Halt> {
        let count = self.stages.len().saturating_add(1);
        let (rules, contexts) = self.beginning()?;
        let stage = settled_rules(
            self.alloc,
            part,
            count,
            rules,
            contexts,
            most,
            &mut self.work,
        )?;
        self.stages.push(stage)?;
        self.heaps.push(at(&part.heaps, count.wrapping_sub(1)))?;
        Ok(())
    }

    /// Forgets what was learned of generators that the part hasn't first, and of its last one if an attempt failed.
    fn forget(&mut self, part: &Part<A>, attempt: u16) {
        let mut known = self.known(part);
        if attempt > 0 {
            known = known.min(part.heaps.len().saturating_sub(1));
        }
        self.stages.truncate(known);
        self.heaps.truncate(known);
    }

    /// The part with this last heap, unless that has no moves, or the part was to be looked at as one of all heaps.
    fn part(&self, last: usize, scope: Scope) -> Result<Option<Part<A>>, Halt> {
        let part = Part::of(self.alloc, &self.code, last, scope)?;
        let is_left = part.generator(last) == NONE;
        let is_other = scope == Scope::Reached && !part.marks.contains(&0);
        if is_left || is_other {
            Ok(None)
        } else {
            Ok(Some(part))
        }
    }

    /// Learns the relations of the part with this last heap, and hands out the text of its quotient's presentation, or
    /// none if the heap has no moves, or if all heaps are reached. A further attempt looks at longer words.
    pub fn text_of_part(
        &mut self,
        last: usize,
        scope: Scope,
        attempt: u16,
    ) -> Result<Option<Vec<u8, A>>, Halt> {
        let more = MORE.saturating_mul(u8::try_from(attempt).unwrap_or(u8::MAX));
        let most = FIRST_MOST.saturating_add(more);
        let Some(part) = self.part(last, scope)? else {
            return Ok(None);
        };
        self.forget(&part, attempt);
        for _ in self.stages.len()..part.heaps.len() {
            self.learn(&part, most)?;
        }
        let Some(stage) = self.stages.pop() else {
            return Ok(None);
        };
        let stage = farther(self.alloc, &part, stage, most, &mut self.work)?;
        let text = text_of(self.alloc, &self.code, &part, &stage.rules, &mut self.work)?;
        self.stages.push(stage)?;
        Ok(Some(text))
    }
}
