//! A search for all elements, of which nothing is promised: from that of nothing on, those to which letters lead.
ghost use Rattle.std.specs.Prelude.{IfErr};
ghost use Rattle.presented_tables.specs.Faults.{IsTrueOf};

use crate::elements::ListedElements;
use crate::fault::TablesFault;
use crate::portion::in_portion;
use crate::presentation::Presented;
use allocation::Memory;
use misere_theory::LARGEST_ORDER;
use normal_forms::Exponents;
use presentations::LETTERS;
use std::alloc::{Allocator, Global};
use std::cmp::Ordering;

/// The words so far, their numbers in the order of the words, and their rows.
#[derive(Drop)]
struct Search<A: Allocator = Global> {
    words: Vec<Exponents, A>,
    sorted: Vec<u32, A>,
    steps: Vec<u32, A>,
}

/// How two words compare, letter by letter.
fn compared(v: &Exponents, w: &Exponents) -> Ordering {
    for i in 0..LETTERS {
        if v[i] < w[i] {
            return Ordering::Less;
        }
        if v[i] > w[i] {
            return Ordering::Greater;
        }
    }
    Ordering::Equal
}

/// The word with letter `i` once more, if there is room.
fn more(word: &Exponents, i: usize) -> Option<Exponents> {
    if i >= LETTERS {
        return None;
    }
    let mut more = *word;
    more[i] = word[i].checked_add(1)?;
    Some(more)
}

impl<A: Allocator + Copy> Search<A> {
    /// The word of nothing.
    fn new(alloc: A) -> Result<Search<A>, Memory> {
        let mut words = Vec::new(alloc);
        words.push([0; LETTERS])?;
        let mut sorted = Vec::new(alloc);
        sorted.push(0)?;
        Ok(Search {
            words,
            sorted,
            steps: Vec::new(alloc),
        })
    }

    /// Where the word stands among the sorted ones, or would; and its number, if it is there.
    fn place(&self, word: &Exponents) -> (usize, Option<u32>) {
        let mut low: usize = 0;
        let mut high = self.sorted.len();
        for _ in 0..64 {
            if low >= high {
                break;
            }
            let middle = low + (high - low) / 2;
            let Some(number) = self.sorted.get(middle) else {
                break;
            };
            let Some(there) = self.words.get(*number as usize) else {
                break;
            };
            match compared(there, word) {
                Ordering::Less => low = middle + 1,
                Ordering::Greater => high = middle,
                Ordering::Equal => return (middle, Some(*number)),
            }
        }
        (low, None)
    }

    /// The number of the word, which is added if it isn't there.
    fn number_of(&mut self, word: Exponents) -> Result<u32, Memory> {
        let (at, found) = self.place(&word);
        if let Some(number) = found {
            return Ok(number);
        }
        let number = self.words.len().min(u32::MAX as usize) as u32;
        if at <= self.sorted.len() {
            self.sorted.insert(at, number)?;
        }
        self.words.push(word)?;
        Ok(number)
    }

    /// Adds the row of element `x`.
    fn add_row(&mut self, p: &Presented<A>, x: usize) -> Result<(), TablesFault>
        ensures { IfErr result (λ f. IsTrueOf p.now f) }
    {
        let word = match self.words.get(x) {
            Some(word) => *word,
            None => return Err(TablesFault::Undecided),
        };
        for i in 0..p.letters.len() {
            let Some(next) = more(&word, i) else {
                return Err(TablesFault::Undecided);
            };
            let Some(form) = p.basis.normal_form(&next) else {
                return Err(TablesFault::Limit);
            };
            let number = self.number_of(form)?;
            self.steps.push(number)?;
        }
        Ok(())
    }

    /// Adds rows until each word has one.
    fn add_rows(&mut self, p: &Presented<A>) -> Result<(), TablesFault>
        ensures { IfErr result (λ f. IsTrueOf p.now f) }
    {
        for x in 0..LARGEST_ORDER as usize {
            if x >= self.words.len() {
                return Ok(());
            }
            self.add_row(p, x)?;
        }
        if self.words.len() > LARGEST_ORDER as usize {
            return Err(TablesFault::Limit);
        }
        Ok(())
    }
}

/// For each of the words whether it is in the portion.
fn bits<A: Allocator + Copy>(
    alloc: A,
    p: &Presented<A>,
    words: &[Exponents],
) -> Result<Vec<bool, A>, Memory> {
    let mut bits = Vec::new(alloc);
    for word in words {
        bits.push(in_portion(p, word))?;
    }
    Ok(bits)
}

/// Words that may be all elements.
pub(crate) fn listed<A: Allocator + Copy>(
    alloc: A,
    p: &Presented<A>,
) -> Result<ListedElements<A>, TablesFault>
    ensures { IfErr result (λ f. IsTrueOf p.now f) }
{
    let mut search = Search::new(alloc)?;
    search.add_rows(p)?;
    let bits = bits(alloc, p, search.words.as_slice())?;
    Ok(ListedElements {
        words: search.words,
        steps: search.steps,
        bits,
    })
}
