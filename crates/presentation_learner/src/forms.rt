//! Normal forms by rules that are taken for right, and the outcomes of play on them.
use crate::heap_words::{
    HeapRule, HeapWord, ONE, changed_by, exponent, first_in, lengthened, shortened_by,
};
use crate::part::{Part, Rest};
use crate::table::WordTable;
use quotient_search::{Halt, Work};
use running_pairs::{NONE, at, byte, put, put_byte};
use std::alloc::Allocator;

/// The most normal forms.
const MOST_FORMS: usize = 400_000;

/// An outcome that isn't known.
const UNKNOWN: u8 = 2;

/// The outcomes P and N.
const LOST: u8 = 1;

const WON: u8 = 0;

/// What the moves of a position show: its outcome, or a normal form whose outcome has to be known first.
#[derive(Clone, Copy, PartialEq, Eq)]
enum Seen {
    Lost,
    Won,
    Below(usize),
}

/// The normal forms of words of the first `count` generators of a part, by rules, as far as they were met.
#[derive(Drop)]
pub struct Forms<'a, A: Allocator> {
    alloc: A,
    pub part: &'a Part<A>,
    pub count: usize,
    pub rules: &'a [HeapRule],
    pub table: WordTable<A>,
    /// For each form and generator the form of both together, or `NONE`.
    steps: Vec<usize, A>,
    outcomes: Vec<u8, A>,
}

impl<'a, A: Allocator + Copy> Forms<'a, A> {
    /// Forms by some rules. That of nothing has the number 0.
    pub fn new(
        alloc: A,
        part: &'a Part<A>,
        count: usize,
        rules: &'a [HeapRule],
    ) -> Result<Forms<'a, A>, Halt> {
        let mut forms = Forms {
            alloc,
            part,
            count,
            rules,
            table: WordTable::new(alloc)?,
            steps: Vec::new(alloc),
            outcomes: Vec::new(alloc),
        };
        forms.put(&ONE)?;
        Ok(forms)
    }
}

impl<A: Allocator + Copy> Forms<'_, A> {
    /// The number of a normal form.
    fn put(&mut self, form: &HeapWord) -> Result<usize, Halt> {
        let before = self.table.words.len();
        let number = self.table.add(form)?;
        if number >= before {
            if number >= MOST_FORMS {
                return Err(Halt::TooLarge);
            }
            self.outcomes.push(UNKNOWN)?;
            let room = self.steps.len().saturating_add(self.count);
            self.steps.resize(room, NONE)?;
        }
        Ok(number)
    }

    /// A word by the rules, until none is in it.
    fn reduced(&self, word: HeapWord, work: &mut Work) -> Result<HeapWord, Halt> {
        let mut form = word;
        for _ in 0..u64::MAX {
            work.spend(self.rules.len().saturating_mul(4).saturating_add(40))?;
            let Some(number) = first_in(self.rules, &form) else {
                return Ok(form);
            };
            let Some(rule) = self.rules.get(number) else {
                return Ok(form);
            };
            form = changed_by(rule, &form);
        }
        Err(Halt::Work)
    }

    /// The normal form of a form and a generator more.
    pub fn step(&mut self, form: usize, letter: usize, work: &mut Work) -> Result<usize, Halt> {
        let place = form.wrapping_mul(self.count).wrapping_add(letter);
        let known = at(&self.steps, place);
        if known != NONE {
            return Ok(known);
        }
        let longer = lengthened(&self.table.word(form), letter);
        let reduced = self.reduced(longer, work)?;
        let to = self.put(&reduced)?;
        put(&mut self.steps, place, to);
        Ok(to)
    }

    /// The normal form of a form and so many of a generator more.
    fn stepped(
        &mut self,
        form: usize,
        letter: usize,
        often: u8,
        work: &mut Work,
    ) -> Result<usize, Halt> {
        let mut to = form;
        for _ in 0..often {
            to = self.step(to, letter, work)?;
        }
        Ok(to)
    }

    /// The normal form of a form beside a word.
    pub fn times(&mut self, form: usize, word: &HeapWord, work: &mut Work) -> Result<usize, Halt> {
        work.spend(100)?;
        let mut to = form;
        for letter in 0..self.count {
            let often = exponent(word, letter);
            if often > 0 {
                to = self.stepped(to, letter, often, work)?;
            }
        }
        Ok(to)
    }

    /// The normal form of a form beside what a move leaves.
    pub fn times_rest(&mut self, form: usize, rest: &Rest, work: &mut Work) -> Result<usize, Halt> {
        let mut to = form;
        for generator in rest.iter() {
            if *generator != NONE {
                to = self.step(to, *generator, work)?;
            }
        }
        Ok(to)
    }

    /// The normal form of a word.
    pub fn form_of(&mut self, word: &HeapWord, work: &mut Work) -> Result<usize, Halt> {
        let known = self.table.find(word);
        if known != NONE {
            return Ok(known);
        }
        self.times(0, word, work)
    }

    /// Whether a move in one heap of a position wins, unless that isn't known yet.
    fn seen_at(&mut self, word: &HeapWord, letter: usize, work: &mut Work) -> Result<Seen, Halt> {
        let part = self.part;
        let from = self.form_of(&shortened_by(word, letter), work)?;
        for rest in part.rests_of(letter).iter() {
            work.spend(10)?;
            let to = self.times_rest(from, rest, work)?;
            match byte(&self.outcomes, to) {
                LOST => return Ok(Seen::Won),
                WON => {}
                _ => return Ok(Seen::Below(to)),
            }
        }
        Ok(Seen::Lost)
    }

    /// What the moves of a position show.
    fn seen(&mut self, word: &HeapWord, work: &mut Work) -> Result<Seen, Halt> {
        let mut seen = Seen::Won;
        for letter in 0..self.count {
            if exponent(word, letter) > 0 {
                seen = self.seen_at(word, letter, work)?;
                if seen != Seen::Lost {
                    break;
                }
            }
        }
        Ok(seen)
    }

    /// Finds the outcome of a form.
    fn settle(&mut self, form: usize, work: &mut Work) -> Result<(), Halt> {
        let mut open: Vec<usize, A> = Vec::from_slice(self.alloc, &[form])?;
        for _ in 0..u64::MAX {
            work.spend(40)?;
            let Some(last) = open.pop() else {
                return Ok(());
            };
            let word = self.table.word(last);
            match self.seen(&word, work)? {
                Seen::Lost => put_byte(&mut self.outcomes, last, LOST),
                Seen::Won => put_byte(&mut self.outcomes, last, WON),
                Seen::Below(below) => {
                    open.push(last)?;
                    open.push(below)?;
                }
            }
        }
        Err(Halt::Work)
    }

    /// Whether a form is P.
    pub fn is_p(&mut self, form: usize, work: &mut Work) -> Result<bool, Halt> {
        if byte(&self.outcomes, form) == UNKNOWN {
            self.settle(form, work)?;
        }
        Ok(byte(&self.outcomes, form) == LOST)
    }

    /// Whether a form is P beside a word.
    pub fn is_p_beside(
        &mut self,
        form: usize,
        word: &HeapWord,
        work: &mut Work,
    ) -> Result<bool, Halt> {
        let both = self.times(form, word, work)?;
        self.is_p(both, work)
    }

    /// Whether a position is P by the outcomes of its own options.
    pub fn is_p_by_moves(&mut self, word: &HeapWord, work: &mut Work) -> Result<bool, Halt> {
        for _ in 0..u64::MAX {
            match self.seen(word, work)? {
                Seen::Lost => return Ok(true),
                Seen::Won => return Ok(false),
                Seen::Below(form) => self.settle(form, work)?,
            }
        }
        Err(Halt::Work)
    }
}
