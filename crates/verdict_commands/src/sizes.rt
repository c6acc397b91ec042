//! What is wrong with a text that is no position.
ghost use Rattle.std.specs.Prelude.{◌≡◌, ◌≢◌, ◌≤◌, ◌<◌, ◌+◌, ◌↔◌, ◌^◌, ℕ, All, Contains, IsTrue, MatchOption, MatchResult, codes, length, slice_index};
ghost use Rattle.positions.specs.Surveys.{capped};
ghost use Rattle.positions.specs.Text.{IsDigitByte, number_of};
ghost use Rattle.verdict_commands.specs.Sizes.{HasGoodWords, HasWordFault, IsGoodWord, IsPositionFault, IsPositionWord, IsWordFault};

use crate::faults::WrittenPositionFault;
use positions::{LARGEST_HEAP, MOST_SIZES};

/// The length of the first word of a text.
fn word_len(text: &[u8]) -> usize
    ensures within { result ≤ length text.now }
    ensures before { (k : ℕ) → k < result → slice_index text.now k ≢ 32 }
    ensures space { result < length text.now → slice_index text.now result ≡ 32 }
{
    for (i, byte) in text.iter().enumerate() {
        if *byte == b' ' {
            return i;
        }
    }
    text.len()
}

/// The number that a word writes, and one above the largest heap if it is larger; or the first byte
/// of the word that is no digit.
fn number_in(word: &[u8]) -> Result<u64, u8>
    ensures { MatchResult result
        (λ n. All IsDigitByte word.now × (n ≡ capped (number_of word.now)))
        (λ b. Contains word.now b × (IsDigitByte b → ⊥)) }
{
    let mut size = 0;
    for byte in word {
        if *byte < b'0' || *byte > b'9' {
            return Err(*byte);
        }
        size = (10 * size + (*byte - b'0') as u64).min(LARGEST_HEAP + 1);
    }
    Ok(size)
}

/// What is wrong with the word of this number.
fn word_fault(number: usize, word: &[u8]) -> Option<WrittenPositionFault>
    ensures { MatchOption result (IsGoodWord word.now) (IsWordFault number word.now) }
{
    let size = match number_in(word) {
        Ok(size) => size,
        Err(byte) => return Some(WrittenPositionFault::Byte { number, byte }),
    };
    match word {
        [] => Some(WrittenPositionFault::NoSize { number }),
        [b'0'] => Some(WrittenPositionFault::Zero { number }),
        [first, ..] if *first == b'0' => Some(WrittenPositionFault::Leading { number }),
        _ if size > LARGEST_HEAP => Some(WrittenPositionFault::Large { number }),
        _ => None,
    }
}

/// How many words the text has; or what is wrong with the first one that has a fault.
fn words_in(text: &[u8]) -> Result<usize, WrittenPositionFault>
    requires { length text.now + 1 < 2 ^ 64 }
    ensures { MatchResult result (HasGoodWords text.now) (HasWordFault text.now) }
{
    let mut rest = text;
    let mut number = 1;
    loop {
        let end = word_len(rest);
        if let Some(fault) = word_fault(number, &rest[..end]) {
            return Err(fault);
        }
        if end == rest.len() {
            return Ok(number);
        }
        rest = &rest[end + 1..];
        number += 1;
    }
}

/// Whether the text is that of the position without heaps.
fn is_zero(text: &[u8]) -> bool
    ensures { IsTrue result ↔ (text.now ≡ codes "0") }
{
    text == b"0".as_slice()
}

/// What is wrong with a text that is no position: the first of these faults, word by word. If it
/// names none, the text is a position.
pub fn position_fault(text: &[u8]) -> Option<WrittenPositionFault>
    ensures { MatchOption result (IsPositionWord text.now) (IsPositionFault text.now) }
{
    if text.is_empty() {
        return Some(WrittenPositionFault::Empty);
    }
    if is_zero(text) {
        return None;
    }
    let sizes = match words_in(text) {
        Ok(sizes) => sizes,
        Err(fault) => return Some(fault),
    };
    if sizes > MOST_SIZES {
        return Some(WrittenPositionFault::Many { sizes });
    }
    None
}
