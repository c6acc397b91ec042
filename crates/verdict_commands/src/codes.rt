//! What is wrong with a text that is no code.
ghost use Rattle.std.specs.Prelude.{◌≡◌, ◌≢◌, ◌≤◌, ◌<◌, ◌+◌, ◌↔◌, ℕ, IsTrue, MatchOption, length, slice_index, true};
ghost use Rattle.octal_code.specs.Spelling.{IsFirstByte};
ghost use Rattle.verdict_commands.specs.Codes.{HasFront, IsCodeFault, IsCodeWord, is_code_byte};

use crate::faults::WrittenCodeFault;

/// The length of the longest text of a code: a digit, a point and 16 digits.
const LONGEST: usize = 18;

fn is_code_byte(b: u8) -> bool
    ensures { result ≡ is_code_byte b }
{
    b == b'.' || (b >= b'0' && b <= b'9') || (b >= b'a' && b <= b'f')
}

/// The first byte that no code has.
fn fault_of_bytes(text: &[u8]) -> Option<WrittenCodeFault>
    ensures { MatchOption result
        ((i : ℕ) → i < length text.now → is_code_byte (slice_index text.now i) ≡ true)
        (IsCodeFault text.now) }
{
    for (index, byte) in text.iter().enumerate() {
        if !is_code_byte(*byte) {
            let (place, byte) = (index + 1, *byte);
            return Some(WrittenCodeFault::Byte { place, byte });
        }
    }
    None
}

/// Whether a code may begin with this byte.
fn is_first(byte: u8) -> bool
    ensures { IsTrue result ↔ IsFirstByte byte }
{
    byte == b'0' || byte == b'4' || byte == b'8' || byte == b'c'
}

/// What is wrong with the digit before the point, with the point, or with the number of digits
/// behind it.
fn fault_of_front(text: &[u8]) -> Option<WrittenCodeFault>
    requires { 1 ≤ length text.now }
    ensures { MatchOption result (HasFront text.now) (IsCodeFault text.now) }
{
    if !is_first(text[0]) {
        return Some(WrittenCodeFault::First);
    }
    if text.len() < 2 || text[1] != b'.' {
        return Some(WrittenCodeFault::Point);
    }
    if text.len() < 3 {
        return Some(WrittenCodeFault::NoDigit);
    }
    if text.len() > LONGEST {
        let digits = text.len() - 2;
        return Some(WrittenCodeFault::Long { digits });
    }
    None
}

/// A second point.
fn fault_of_points(text: &[u8]) -> Option<WrittenCodeFault>
    ensures { MatchOption result
        ((i : ℕ) → 2 ≤ i → i < length text.now → slice_index text.now i ≢ 46)
        (IsCodeFault text.now) }
{
    for (index, byte) in text.iter().enumerate() {
        if index > 1 && *byte == b'.' {
            return Some(WrittenCodeFault::SecondPoint { place: index + 1 });
        }
    }
    None
}

/// What is wrong with a text that is no code: the first of these faults. If it names none, the text
/// is a code.
pub fn code_fault(text: &[u8]) -> Option<WrittenCodeFault>
    ensures { MatchOption result (IsCodeWord text.now) (IsCodeFault text.now) }
{
    if text.is_empty() {
        return Some(WrittenCodeFault::Empty);
    }
    if let Some(fault) = fault_of_bytes(text) {
        return Some(fault);
    }
    if let Some(fault) = fault_of_front(text) {
        return Some(fault);
    }
    if let Some(fault) = fault_of_points(text) {
        return Some(fault);
    }
    if text[text.len() - 1] == b'0' {
        return Some(WrittenCodeFault::LastZero);
    }
    None
}
