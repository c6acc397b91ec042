//! Positions at which the rule of play fails.
use crate::forms::Forms;
use crate::heap_words::{HeapWord, ONE, exponent, last_generator, lengthened, shortened_by};
use crate::standard::Standard;
use crate::table::WordTable;
use quotient_search::{Halt, Work};
use running_pairs::{NONE, at, greatest};
use std::alloc::Allocator;

/// The most positions that are kept.
const MOST_KEPT: usize = 100_000;

/// How many failing positions are looked at in a round.
const MOST_FAILING: usize = 60;

/// Positions that no lighter one settles, by their order: their forms, and those of their options. A position is
/// *covered* by a lighter one of the same form each of whose options has the form of an option of it.
#[derive(Drop)]
struct Kept<A: Allocator> {
    alloc: A,
    table: WordTable<A>,
    forms: Vec<usize, A>,
    /// Where the forms of each position's options begin, rising and different.
    ends: Vec<usize, A>,
    options: Vec<usize, A>,
    /// Of each kept position the one kept before it that has the same form, or `NONE`.
    before: Vec<usize, A>,
    /// Of each form the last kept position that has it, or `NONE`.
    last: Vec<usize, A>,
    /// Where the positions of each weight begin.
    starts: Vec<usize, A>,
    failing: Vec<HeapWord, A>,
}

/// Whether rising numbers are all among other rising numbers.
fn are_among(few: &[usize], many: &[usize]) -> bool {
    let mut place = 0usize;
    for number in many.iter() {
        if at(few, place) == *number && place < few.len() {
            place = place.wrapping_add(1);
        }
    }
    place == few.len()
}

/// Adds the forms of the options in one heap of a position.
fn add_options<A: Allocator + Copy>(
    forms: &mut Forms<'_, A>,
    options: &mut Vec<usize, A>,
    without: usize,
    letter: usize,
    work: &mut Work,
) -> Result<(), Halt> {
    let part = forms.part;
    for rest in part.rests_of(letter).iter() {
        work.spend(20)?;
        let form = forms.times_rest(without, rest, work)?;
        options.push(form)?;
    }
    Ok(())
}

/// Whether some of these forms is P.
fn has_p<A: Allocator + Copy>(
    forms: &mut Forms<'_, A>,
    list: &[usize],
    work: &mut Work,
) -> Result<bool, Halt> {
    for form in list.iter() {
        if forms.is_p(*form, work)? {
            return Ok(true);
        }
    }
    Ok(false)
}

impl<A: Allocator + Copy> Kept<A> {
    fn new(alloc: A) -> Result<Kept<A>, Halt> {
        let mut table = WordTable::new(alloc)?;
        table.add(&ONE)?;
        Ok(Kept {
            alloc,
            table,
            forms: Vec::from_slice(alloc, &[0usize])?,
            ends: Vec::from_slice(alloc, &[0usize])?,
            options: Vec::new(alloc),
            before: Vec::from_slice(alloc, &[NONE])?,
            last: Vec::from_slice(alloc, &[0usize])?,
            starts: Vec::from_slice(alloc, &[0usize])?,
            failing: Vec::new(alloc),
        })
    }

    /// The form of a position each of whose parts is kept, and the forms of its options, or none.
    fn options_of(
        &self,
        forms: &mut Forms<'_, A>,
        word: &HeapWord,
        work: &mut Work,
    ) -> Result<Option<(usize, Vec<usize, A>)>, Halt> {
        let mut options: Vec<usize, A> = Vec::new(self.alloc);
        let mut form = 0usize;
        for letter in 0..forms.count {
            if exponent(word, letter) == 0 {
                continue;
            }
            let number = self.table.find(&shortened_by(word, letter));
            if number == NONE {
                return Ok(None);
            }
            let without = at(&self.forms, number);
            form = forms.step(without, letter, work)?;
            add_options(forms, &mut options, without, letter, work)?;
        }
        options.sort()?;
        options.dedup();
        Ok(Some((form, options)))
    }

    /// The forms of the options of a kept position.
    fn options_at(&self, number: usize) -> &[usize] {
        let from = if number == 0 {
            0
        } else {
            at(&self.ends, number.wrapping_sub(1))
        };
        match self.options.get(from..at(&self.ends, number)) {
            Some(options) => options,
            None => &[],
        }
    }

    /// Whether a kept position covers another one that has this form and options of these forms.
    fn is_covered(&self, form: usize, options: &[usize], work: &mut Work) -> Result<bool, Halt> {
        let mut number = match self.last.get(form) {
            Some(last) => *last,
            None => NONE,
        };
        for _ in 0..self.forms.len() {
            if number == NONE {
                break;
            }
            work.spend(options.len().saturating_mul(2).saturating_add(10))?;
            if are_among(self.options_at(number), options) {
                return Ok(true);
            }
            number = at(&self.before, number);
        }
        Ok(false)
    }

    /// Keeps a position.
    fn keep(&mut self, word: &HeapWord, form: usize, options: &[usize]) -> Result<(), Halt> {
        let number = self.table.add(word)?;
        if number >= MOST_KEPT {
            return Err(Halt::TooLarge);
        }
        if form >= self.last.len() {
            self.last.resize(form.saturating_add(1), NONE)?;
        }
        self.before.push(at(&self.last, form))?;
        if form < self.last.len() {
            self.last[form] = number;
        }
        self.forms.push(form)?;
        self.options.extend_from_slice(options)?;
        self.ends.push(self.options.len()).map_err(Halt::from)
    }

    /// Looks at a position: it fails, is covered, or is kept.
    fn look(
        &mut self,
        forms: &mut Forms<'_, A>,
        word: &HeapWord,
        work: &mut Work,
    ) -> Result<(), Halt> {
        let Some((form, options)) = self.options_of(forms, word, work)? else {
            return Ok(());
        };
        if has_p(forms, &options, work)? == forms.is_p(form, work)? {
            return self.failing.push(*word).map_err(Halt::from);
        }
        if self.is_covered(form, &options, work)? {
            return Ok(());
        }
        self.keep(word, form, &options)
    }

    /// Looks at the positions of a weight whose last letter is this one.
    fn look_by(
        &mut self,
        forms: &mut Forms<'_, A>,
        weight: usize,
        letter: usize,
        most: u8,
        work: &mut Work,
    ) -> Result<(), Halt> {
        let each = at(&forms.part.weights, letter);
        if each > weight {
            return Ok(());
        }
        let lighter = weight.wrapping_sub(each);
        let (from, to) = (
            at(&self.starts, lighter),
            at(&self.starts, lighter.saturating_add(1)),
        );
        for number in from..to {
            let word = self.table.word(number);
            let longer = lengthened(&word, letter);
            if last_generator(&word) <= letter
                && exponent(&longer, letter) <= most
                && self.failing.len() < MOST_FAILING
            {
                self.look(forms, &longer, work)?;
            }
        }
        Ok(())
    }

    /// Looks at the positions of a weight.
    fn look_at_weight(
        &mut self,
        forms: &mut Forms<'_, A>,
        weight: usize,
        most: u8,
        work: &mut Work,
    ) -> Result<(), Halt> {
        self.starts.push(self.forms.len())?;
        for letter in 0..forms.count {
            self.look_by(forms, weight, letter, most, work)?;
        }
        Ok(())
    }

    /// Whether no position that was kept has one of the last weights, or enough fail.
    fn is_over(&self, greatest: usize) -> bool {
        let weights = self.starts.len();
        let is_empty = at(&self.starts, weights.wrapping_sub(greatest)) == self.forms.len();
        (weights > greatest && is_empty) || self.failing.len() >= MOST_FAILING
    }
}

/// Positions of at most so many of each letter at which the rule of play fails.
pub fn failing_positions<A: Allocator + Copy>(
    alloc: A,
    forms: &mut Forms<'_, A>,
    most: u8,
    work: &mut Work,
) -> Result<Vec<HeapWord, A>, Halt> {
    let mut kept = Kept::new(alloc)?;
    let greatest = greatest(&forms.part.weights).saturating_add(1);
    for weight in 1..u32::MAX as usize {
        work.spend(1000)?;
        kept.look_at_weight(forms, weight, most, work)?;
        if kept.is_over(greatest) {
            break;
        }
    }
    let Kept { failing, .. } = kept;
    Ok(failing)
}

/// Whether a standard word and a generator more are P, and so is what some move of the generator leaves.
fn has_lost_move<A: Allocator + Copy>(
    forms: &mut Forms<'_, A>,
    form: usize,
    letter: usize,
    work: &mut Work,
) -> Result<bool, Halt> {
    let both = forms.step(form, letter, work)?;
    if !forms.is_p(both, work)? {
        return Ok(false);
    }
    let part = forms.part;
    for rest in part.rests_of(letter).iter() {
        work.spend(20)?;
        let to = forms.times_rest(form, rest, work)?;
        if forms.is_p(to, work)? {
            return Ok(true);
        }
    }
    Ok(false)
}

/// Adds the positions at which a move leads from P to P: those of a standard word and a generator more.
fn add_moves_at<A: Allocator + Copy>(
    forms: &mut Forms<'_, A>,
    found: &mut Vec<HeapWord, A>,
    word: &HeapWord,
    form: usize,
    work: &mut Work,
) -> Result<(), Halt> {
    for letter in 0..forms.count {
        if found.len() < MOST_FAILING && has_lost_move(forms, form, letter, work)? {
            found.push(lengthened(word, letter))?;
        }
    }
    Ok(())
}

/// Positions of a standard word and a generator more at which a move leads from P to P.
pub fn failing_moves<A: Allocator + Copy>(
    alloc: A,
    forms: &mut Forms<'_, A>,
    standard: &Standard<'_, A>,
    work: &mut Work,
) -> Result<Vec<HeapWord, A>, Halt> {
    let mut found: Vec<HeapWord, A> = Vec::new(alloc);
    for (word, form) in standard.words.iter().zip(standard.forms.iter()) {
        add_moves_at(forms, &mut found, word, *form, work)?;
    }
    Ok(found)
}
