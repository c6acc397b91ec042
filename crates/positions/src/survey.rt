//! The sizes that a text names, looked over once.
ghost use Rattle.std.specs.Prelude.{◌≡◌, ◌≢◌, ◌<◌, ◌≤◌, ◌+◌, ◌++◌, [], ◌∷◌, ◌^◌, ℕ, List, length, slice_index, All, MatchOption};
ghost use Rattle.positions.specs.Surveys.{capped, IsSurvey, IsSurveyOf};
ghost use Rattle.positions.specs.Text.{number_of, words_of, IsNumeral};

use crate::position::{LARGEST_HEAP, MOST_SIZES};

/// What is kept of the sizes of a text: how many they are, the first 64, and whether one is too
/// large.
#[derive(Clone, Copy)]
pub(crate) struct Survey {
    pub(crate) sizes: [u64; 64],
    pub(crate) count: usize,
    pub(crate) large: bool,
}

impl Survey {
    /// No size was seen.
    fn new() -> Survey
        ensures { IsSurvey [] result }
    {
        Survey {
            sizes: [0; 64],
            count: 0,
            large: false,
        }
    }

    /// One more size was seen.
    fn note(&mut self, size: u64)
        requires { self.old.count + 1 < 2 ^ 64 }
        ensures { (sizes : List ℕ) → IsSurvey sizes self.old
            → IsSurvey (sizes ++ size ∷ []) self.new }
    {
        if self.count < MOST_SIZES {
            self.sizes[self.count] = size;
        }
        self.count += 1;
        self.large = self.large || size > LARGEST_HEAP;
    }
}

/// A survey of the words of a text, or `None` where one is no numeral.
pub(crate) fn survey_of(text: &[u8]) -> Option<Survey>
    ensures { MatchOption result (All IsNumeral (words_of text.now) → ⊥)
        (IsSurveyOf (words_of text.now)) }
{
    let mut survey = Survey::new();
    let mut rest = text;
    loop {
        let end = word_len(rest);
        let Some(size) = size_of(&rest[..end]) else {
            return None;
        };
        survey.note(size);
        if end == rest.len() {
            return Some(survey);
        }
        rest = &rest[end + 1..];
    }
}

/// The length of the first word of a text.
fn word_len(text: &[u8]) -> usize
    ensures within { result ≤ length text.now }
    ensures before { (k : ℕ) → k < result → slice_index text.now k ≢ 32 }
    ensures space { result < length text.now → slice_index text.now result ≡ 32 }
{
    for (i, byte) in text.iter().enumerate() {
        if *byte == b' ' {
            return i;
        }
    }
    text.len()
}

/// The number that a numeral writes, capped, or `None` where the word is no numeral.
fn size_of(word: &[u8]) -> Option<u64>
    ensures { MatchOption result (IsNumeral word.now → ⊥) (λ n. IsNumeral word.now
        × (n ≡ capped (number_of word.now))) }
{
    if word.is_empty() || word[0] == b'0' {
        return None;
    }
    let mut size = 0;
    for byte in word {
        if *byte < b'0' || *byte > b'9' {
            return None;
        }
        size = (10 * size + (*byte - b'0') as u64).min(LARGEST_HEAP + 1);
    }
    Some(size)
}
