//! Lists of classes, each the element of least exponents that is in it.
ghost use Rattle.std.specs.Prelude.{◌≡◌, ◌<◌, IfSome, length};
ghost use Rattle.class_tables.specs.Classes.{word_at};

use allocation::Memory;
use normal_forms::{Exponents, is_word};
use presentations::LETTERS;
use std::alloc::{Allocator, Global};
use std::cmp::Ordering;
use std::marker::Model;

/// Words, the first of which is that of nothing, and their numbers in the order of the words.
#[derive(Drop)]
pub struct ListedWords<A: Allocator = Global> {
    words: Vec<Exponents, A>,
    sorted: Vec<u32, A>,
}

impl<A: Allocator> Model for ListedWords<A> {
    ghost use Rattle.std.specs.Prelude.{ℕ, List};

    ghost Value = { List (List ℕ) };

    ghost view = { λ l. l.words.items };
}

/// How two words compare, letter by letter.
fn compared(v: &Exponents, w: &Exponents) -> Ordering {
    for i in 0..LETTERS {
        if v[i] < w[i] {
            return Ordering::Less;
        }
        if v[i] > w[i] {
            return Ordering::Greater;
        }
    }
    Ordering::Equal
}

impl<A: Allocator> ListedWords<A> {
    /// The word of nothing.
    pub fn new(alloc: A) -> Result<ListedWords<A>, Memory>
    where
        A: Copy,
    {
        let mut words = Vec::new(alloc);
        words.push([0; LETTERS])?;
        let mut sorted = Vec::new(alloc);
        sorted.push(0)?;
        Ok(ListedWords { words, sorted })
    }

    /// How many words there are.
    pub fn len(&self) -> usize
        ensures { result ≡ length self.now }
    {
        self.words.len()
    }

    /// Word `k`.
    pub fn get(&self, k: usize) -> Option<&Exponents>
        ensures { IfSome result (λ w. (k < length self.now) × (w.now ≡ word_at self.now k)) }
    {
        self.words.get(k)
    }

    /// Where the word stands among the sorted ones, or would; and its number, if it is there.
    fn place(&self, word: &Exponents) -> (usize, Option<u32>) {
        let mut low: usize = 0;
        let mut high = self.sorted.len();
        for _ in 0..64 {
            if low >= high {
                break;
            }
            let middle = low + (high - low) / 2;
            let Some(number) = self.sorted.get(middle) else {
                break;
            };
            let Some(there) = self.words.get(*number as usize) else {
                break;
            };
            match compared(there, word) {
                Ordering::Less => low = middle + 1,
                Ordering::Greater => high = middle,
                Ordering::Equal => return (middle, Some(*number)),
            }
        }
        (low, None)
    }

    /// The number of the word, if it is seen to be there.
    pub fn find(&self, word: &Exponents) -> Option<usize>
        ensures { IfSome result (λ k. (k < length self.now) × (word_at self.now k ≡ word.now)) }
    {
        let k = self.place(word).1? as usize;
        let there = self.words.get(k)?;
        if is_word(there, word) { Some(k) } else { None }
    }

    /// Adds the word, if it isn't there.
    pub fn add(&mut self, word: Exponents) -> Result<(), Memory> {
        let (at, found) = self.place(&word);
        if found.is_some() {
            return Ok(());
        }
        let number = self.words.len().min(u32::MAX as usize) as u32;
        if at <= self.sorted.len() {
            self.sorted.insert(at, number)?;
        }
        self.words.push(word)?;
        Ok(())
    }
}
