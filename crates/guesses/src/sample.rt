//! A sample of positions, grouped by their outcomes beside others.
use crate::groups::{ALPHABET, Groups, Member, Row, position_of};
use crate::guess::Guess;
use crate::words::guess_by_relations;
use allocation::Memory;
use indexmap::IndexMap;
use octal_code::Code;
use outcome_search::{SearchFault, outcome};
use positions::{Outcome, Position};
use std::alloc::Global;
use std::hash::{BuildHasherDefault, FoldHasher};

/// The largest heap that is looked at.
const LARGEST_HEAP: usize = 12;

/// The most groups.
const MOST_GROUPS: usize = 64;

/// Through how many positions one outcome is searched.
const BUDGET: u32 = 256;

/// How many outcomes are searched in all.
const SEARCHES: usize = 2000;

/// How many positions are contexts from the beginning.
const SMALLEST: usize = 9;

/// How often the sample is grouped.
const ROUNDS: u32 = 5;

/// What is sampled: the contexts beside which outcomes are looked at, and the outcomes that were
/// searched.
#[derive(Drop)]
struct Sample {
    alloc: Global,
    code: Code,
    contexts: Vec<Position>,
    known: IndexMap<Position, Option<Outcome>, BuildHasherDefault<FoldHasher>>,
}

/// What a round came to.
#[derive(Drop)]
enum Round {
    /// So many groups, more or fewer than before.
    Other(usize),
    /// As many groups as before, or none: the guess, if there is one.
    Ended(Option<Guess>),
}

/// Whether a heap has been put into its group.
#[derive(Clone, Copy, PartialEq, Eq)]
enum Added {
    Yes,
    /// Its outcome isn't known, nor are those of larger ones looked at.
    Unknown,
    /// There are too many groups, or an outcome isn't found.
    No,
}

/// Guesses a quotient of a code's heaps 1 to at most `heaps` by a sample of positions of few heaps.
/// A position whose outcome isn't found within a budget is left out. There is no guess where more
/// than `order` groups are found.
pub fn sampled(
    alloc: Global,
    code: &Code,
    heaps: usize,
    order: usize,
) -> Result<Option<Guess>, Memory> {
    let mut sample = Sample::new(alloc, code);
    sample.begin()?;
    sample.guess(heaps, order.min(MOST_GROUPS))
}

impl Sample {
    /// No context yet.
    fn new(alloc: Global, code: &Code) -> Sample {
        Sample {
            alloc,
            code: *code,
            contexts: Vec::new(alloc),
            known: IndexMap::new(alloc),
        }
    }

    /// The contexts are the positions of at most two heaps that sum to at most 4.
    fn begin(&mut self) -> Result<(), Memory> {
        let smallest: [&[u64]; SMALLEST] = [
            &[],
            &[1],
            &[2],
            &[1, 1],
            &[3],
            &[1, 2],
            &[4],
            &[1, 3],
            &[2, 2],
        ];
        for heaps in smallest {
            let position = position_of(self.alloc, heaps)?;
            self.contexts.push(position)?;
        }
        Ok(())
    }

    /// Groups the sample until it has as many groups as before.
    fn guess(&mut self, heaps: usize, order: usize) -> Result<Option<Guess>, Memory> {
        let mut count = 0;
        for _ in 0..ROUNDS {
            match self.round(heaps, order, count)? {
                Round::Other(groups) => count = groups,
                Round::Ended(guess) => return Ok(guess),
            }
        }
        Ok(None)
    }

    /// Groups the sample, where there were so many groups before.
    fn round(&mut self, heaps: usize, order: usize, before: usize) -> Result<Round, Memory> {
        let mut groups = Groups::new(self.alloc);
        if !self.group(&mut groups, heaps, order)? {
            return Ok(Round::Ended(None));
        }
        let count = groups.members.len();
        if count == before {
            let guess = guess_by_relations(self.alloc, &self.code, &groups)?;
            return Ok(Round::Ended(guess));
        }
        self.look_beside(groups)?;
        Ok(Round::Other(count))
    }

    /// Takes the positions of the groups for contexts, and two heaps of each kind, beside the
    /// smallest ones.
    fn look_beside(&mut self, groups: Groups) -> Result<(), Memory> {
        let Groups {
            mut members,
            kinds,
            ..
        } = groups;
        self.contexts.truncate(SMALLEST);
        self.look_beside_kinds(&kinds)?;
        members.reverse();
        while let Some(member) = members.pop() {
            self.add_context(member.position)?;
        }
        Ok(())
    }

    /// Takes two heaps of each kind for contexts.
    fn look_beside_kinds(&mut self, kinds: &[u64]) -> Result<(), Memory> {
        for heap in kinds {
            let twice = position_of(self.alloc, &[*heap, *heap])?;
            self.add_context(twice)?;
        }
        Ok(())
    }

    /// Adds a context, unless it is there.
    fn add_context(&mut self, position: Position) -> Result<(), Memory> {
        if !self.contexts.contains(&position) {
            self.contexts.push(position)?;
        }
        Ok(())
    }

    /// The outcome of a position, if it is found.
    fn outcome(&mut self, position: Position) -> Result<Option<Outcome>, Memory> {
        if let Some(known) = self.known.get(&position) {
            return Ok(*known);
        }
        if self.known.len() >= SEARCHES {
            return Ok(None);
        }
        let found = match outcome(self.alloc, &self.code, &position, BUDGET) {
            Ok(found) => Some(found),
            Err(SearchFault::Budget) => None,
            Err(SearchFault::Memory) => return Err(Memory),
        };
        self.known.insert(position, found)?;
        Ok(found)
    }

    /// The outcome of a position beside a context.
    fn outcome_beside(&mut self, i: usize, position: &Position) -> Result<Option<Outcome>, Memory> {
        match self.contexts.get(i) {
            Some(context) => {
                let sum = context.add(position)?;
                self.outcome(sum)
            }
            None => Ok(None),
        }
    }

    /// The outcomes of a position beside the contexts.
    fn row(&mut self, position: &Position) -> Result<Row, Memory> {
        let mut row = Vec::new(self.alloc);
        for i in 0..self.contexts.len() {
            row.push(self.outcome_beside(i, position)?)?;
        }
        Ok(row)
    }

    /// Finds the groups that the heaps and products with them fall into, and answers whether it
    /// could.
    fn group(&mut self, groups: &mut Groups, heaps: usize, order: usize) -> Result<bool, Memory> {
        self.add_empty(groups)?;
        for heap in 1..heaps.min(LARGEST_HEAP) as u64 + 1 {
            match self.add_heap(groups, heap, order)? {
                Added::Yes => {}
                Added::Unknown => break,
                Added::No => return Ok(false),
            }
        }
        Ok(true)
    }

    /// Adds the group of no heap.
    fn add_empty(&mut self, groups: &mut Groups) -> Result<(), Memory> {
        let position = Position::new(self.alloc);
        let row = self.row(&position)?;
        groups.members.push(Member {
            position,
            word: Vec::new(self.alloc),
            row,
        })?;
        Ok(())
    }

    /// Puts a heap, the next one, into its group.
    fn add_heap(&mut self, groups: &mut Groups, heap: u64, order: usize) -> Result<Added, Memory> {
        let position = position_of(self.alloc, &[heap])?;
        let row = self.row(&position)?;
        if !is_known(&row) {
            return Ok(Added::Unknown);
        }
        match groups.find(&row) {
            Some(group) => {
                groups.heaps.push(group)?;
                Ok(Added::Yes)
            }
            None => self.add_kind(groups, heap, position, row, order),
        }
    }

    /// Adds a group for a heap, with a kind of its own, and finds all products anew.
    fn add_kind(
        &mut self,
        groups: &mut Groups,
        heap: u64,
        position: Position,
        row: Row,
        order: usize,
    ) -> Result<Added, Memory> {
        let Some(letter) = ALPHABET.get(groups.kinds.len()).copied() else {
            return Ok(Added::No);
        };
        let word = vec![in self.alloc; letter]?;
        let group = groups.members.len();
        groups.members.push(Member {
            position,
            word,
            row,
        })?;
        self.multiply_all(groups, heap, group, order)
    }

    /// Notes a heap with a kind and a group of its own, and finds all products anew.
    fn multiply_all(
        &mut self,
        groups: &mut Groups,
        heap: u64,
        group: usize,
        order: usize,
    ) -> Result<Added, Memory> {
        groups.heaps.push(group)?;
        groups.kinds.push(heap)?;
        groups.with.clear();
        for at in 0..order {
            if at < groups.members.len() && !self.multiply(groups, at, order)? {
                return Ok(Added::No);
            }
        }
        Ok(if groups.members.len() <= order {
            Added::Yes
        } else {
            Added::No
        })
    }

    /// Finds the groups of a group's position with a heap of each kind more, and answers whether it
    /// could.
    fn multiply(&mut self, groups: &mut Groups, at: usize, order: usize) -> Result<bool, Memory> {
        for k in 0..groups.kinds.len() {
            let Some(group) = self.product(groups, at, k, order)? else {
                return Ok(false);
            };
            groups.with.push(group)?;
        }
        Ok(true)
    }

    /// The group of a group's position with a heap of a kind more, which may be new.
    fn product(
        &mut self,
        groups: &mut Groups,
        at: usize,
        k: usize,
        order: usize,
    ) -> Result<Option<usize>, Memory> {
        let Some(position) = groups.longer_position(self.alloc, at, k)? else {
            return Ok(None);
        };
        let row = self.row(&position)?;
        if !is_known(&row) || groups.members.len() > order {
            return Ok(None);
        }
        match groups.find(&row) {
            Some(group) => Ok(Some(group)),
            None => groups.add_longer(self.alloc, at, k, position, row),
        }
    }
}

/// Whether the outcome of the position itself is known.
fn is_known(row: &[Option<Outcome>]) -> bool {
    matches!(row.first(), Some(Some(_)))
}
