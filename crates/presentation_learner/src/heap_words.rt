//! Words of generators, and rules of such words.
use std::cmp::Ordering;

/// How many generators there may be.
pub const GENERATORS: usize = 64;

/// A word of generators: how often each is in it.
pub type HeapWord = [u8; GENERATORS];

/// A rule of words, used from left to right.
#[derive(Clone, Copy)]
pub struct HeapRule {
    pub left: HeapWord,
    pub right: HeapWord,
}

/// The word without generators.
pub const ONE: HeapWord = [0; GENERATORS];

/// How often a generator is in a word.
#[inline]
pub fn exponent(word: &HeapWord, generator: usize) -> u8 {
    match word.get(generator) {
        Some(count) => *count,
        None => 0,
    }
}

/// The word with so many of a generator.
#[inline]
pub fn with_exponent(word: &HeapWord, generator: usize, count: u8) -> HeapWord {
    let mut changed = *word;
    if generator < GENERATORS {
        changed[generator] = count;
    }
    changed
}

/// The word and a generator more.
#[inline]
pub fn lengthened(word: &HeapWord, generator: usize) -> HeapWord {
    with_exponent(word, generator, exponent(word, generator).saturating_add(1))
}

/// The word with a generator less.
#[inline]
pub fn shortened_by(word: &HeapWord, generator: usize) -> HeapWord {
    with_exponent(word, generator, exponent(word, generator).saturating_sub(1))
}

/// The last generator of a word, and the first one of all of a word without any.
pub fn last_generator(word: &HeapWord) -> usize {
    let mut last = 0usize;
    for generator in 0..GENERATORS {
        if word[generator] > 0 {
            last = generator;
        }
    }
    last
}

/// How many generators a word has in all.
pub fn length(word: &HeapWord) -> usize {
    let mut sum = 0usize;
    for count in word.iter() {
        sum = sum.saturating_add(*count as usize);
    }
    sum
}

/// Whether the first word is in the second one. No comparison is left out, so that many are made at once.
#[inline]
pub fn is_in(part: &HeapWord, whole: &HeapWord) -> bool {
    let mut is_more = false;
    for generator in 0..GENERATORS {
        is_more |= part[generator] > whole[generator];
    }
    !is_more
}

/// Whether two words are one.
#[inline]
pub fn is_same(one: &HeapWord, other: &HeapWord) -> bool {
    let mut differ = false;
    for generator in 0..GENERATORS {
        differ |= one[generator] != other[generator];
    }
    !differ
}

/// Whether the left word of some rule is in a word that has none but for the last of a generator.
pub fn is_reducible_at(rules: &[HeapRule], word: &HeapWord, generator: usize) -> bool {
    let count = exponent(word, generator);
    for rule in rules.iter() {
        if exponent(&rule.left, generator) == count && is_in(&rule.left, word) {
            return true;
        }
    }
    false
}

/// The product of two words.
pub fn product(one: &HeapWord, other: &HeapWord) -> HeapWord {
    let mut both = ONE;
    for generator in 0..GENERATORS {
        both[generator] = one[generator].saturating_add(other[generator]);
    }
    both
}

/// What is left of a word beside a part of it.
pub fn beside(word: &HeapWord, part: &HeapWord) -> HeapWord {
    let mut rest = ONE;
    for generator in 0..GENERATORS {
        rest[generator] = word[generator].saturating_sub(part[generator]);
    }
    rest
}

/// The least word that has two words in it.
pub fn common_multiple(one: &HeapWord, other: &HeapWord) -> HeapWord {
    let mut least = ONE;
    for generator in 0..GENERATORS {
        least[generator] = one[generator].max(other[generator]);
    }
    least
}

/// Whether two words have a generator in common.
pub fn have_common(one: &HeapWord, other: &HeapWord) -> bool {
    let mut is_common = false;
    for generator in 0..GENERATORS {
        is_common |= one[generator].min(other[generator]) > 0;
    }
    is_common
}

/// The weight of a word.
pub fn weight(weights: &[usize], word: &HeapWord) -> usize {
    let mut sum = 0usize;
    for (generator, each) in weights.iter().enumerate() {
        sum = sum.saturating_add(each.saturating_mul(exponent(word, generator) as usize));
    }
    sum
}

/// Words of one weight by their last generators, those with fewer of them first.
fn by_last_generators(one: &HeapWord, other: &HeapWord) -> Ordering {
    for generator in (0..GENERATORS).rev() {
        let (here, there) = (exponent(one, generator), exponent(other, generator));
        if here != there {
            return here.cmp(&there);
        }
    }
    Ordering::Equal
}

/// Whether a word comes before another one: it is lighter, or of the same weight and before it by its last generators.
pub fn is_before(weights: &[usize], one: &HeapWord, other: &HeapWord) -> bool {
    let (here, there) = (weight(weights, one), weight(weights, other));
    here < there || (here == there && by_last_generators(one, other) == Ordering::Less)
}

/// The number of the first rule whose left word is in a word.
pub fn first_in(rules: &[HeapRule], word: &HeapWord) -> Option<usize> {
    for (number, rule) in rules.iter().enumerate() {
        if is_in(&rule.left, word) {
            return Some(number);
        }
    }
    None
}

/// What a rule makes of a word that has its left word in it.
pub fn changed_by(rule: &HeapRule, word: &HeapWord) -> HeapWord {
    product(&beside(word, &rule.left), &rule.right)
}
