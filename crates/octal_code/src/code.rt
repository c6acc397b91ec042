//! Octal and hexadecimal codes and their text.
ghost use Rattle.std.specs.Prelude.{◌≡◌, ◌-◌, ◌<◌, ◌≤◌, ◌↔◌, ◌⊎◌, ℕ, List, true, IsBitSet, IsTrue, IfOk, All, length, string_bytes};
ghost use Rattle.misere_theory.specs.Games.{digit, leaves_three, is_octal, IsCode};
ghost use Rattle.octal_code.specs.Bits.{allows, leaves_one, place_of, takes_all};
ghost use Rattle.octal_code.specs.Spelling.{IsDigitByte, IsFirstByte, IsSpelling, digit_of, digits_in};
ghost use Rattle.octal_code.specs.Text.{code_text, digit_byte, IsCodeText, IsLongCodeText, IsNoCodeText};

use crate::fault::CodeFault;
use crate::leaving::Leaving;
use allocation::Memory;
use std::alloc::Allocator;
use std::marker::Model;

/// The length of the longest text of a code: a digit, a point and 16 digits.
const LONGEST: usize = 18;

/// A hexadecimal code d0.d1d2..dk, seen as the list of its digits: d0 is 0, 4, 8 or 12, then come 1
/// to 16 digits 0 to 15, of which the last is not 0. Where no digit is above 7 it is an octal code.
#[derive(Clone, Copy)]
pub struct Code {
    digits: [u8; 17],
    count: u8,
}

impl Model for Code {
    ghost use Rattle.std.specs.Prelude.{ℕ, List, take, length};
    ghost use Rattle.octal_code.specs.Digits.{HoldsCode, padded, padded-take};

    ghost Value = { List ℕ };

    ghost view = { λ c. take c.count c.digits };

    ghost invariant = { λ c. HoldsCode c.digits c.count };

    ghost inverse = { λ xs. record { digits = padded xs; count = length xs } };

    ghost inverse_ok = { λ a h. padded-take a.digits a.count h };
}

/// Codes are equal where their digits are.
impl PartialEq for Code {
    ghost use Rattle.std.specs.Prelude.{nat_eq};
    ghost use Rattle.std.specs.Cmp.{partial_equiv_from_equiv};
    ghost use Rattle.std.specs.Cmp.Lexicographic.{pointwise, nat_list_eq_equiv};

    ghost eq = { pointwise nat_eq };

    ghost laws = { partial_equiv_from_equiv nat_list_eq_equiv };

    fn eq(&self, other: &Code) -> bool {
        self.digits[..self.count as usize] == other.digits[..other.count as usize]
    }
}

impl Eq for Code {
    ghost use Rattle.std.specs.Cmp.Lexicographic.{nat_list_eq_equiv};

    ghost laws = { nat_list_eq_equiv };
}

impl Code {
    /// Reads the text of a code: each code has one.
    pub fn read(text: &[u8]) -> Result<Code, CodeFault>
        ensures code { (digits : List ℕ) → (result ≡ Ok digits) ↔ IsCodeText text.now digits }
        ensures too_long { (result ≡ Err CodeFault.TooLong) ↔ IsLongCodeText text.now }
        ensures not_a_code { (result ≡ Err CodeFault.NotACode) ↔ IsNoCodeText text.now }
    {
        if !is_spelling(text) {
            return Err(CodeFault::NotACode);
        }
        if text.len() > LONGEST {
            return Err(CodeFault::TooLong);
        }
        Ok(Code::from_text(text))
    }

    /// The one text of the code.
    pub fn text<A: Allocator>(&self, alloc: A) -> Result<String<A>, Memory>
        ensures { IfOk result (λ text. string_bytes text ≡ code_text self.now) }
    {
        let mut text = String::with_capacity(alloc, self.last() as usize + 2)?;
        text.push(digit_char(self.digit(0)))?;
        text.push('.')?;
        for j in 1..self.last() as u64 + 1 {
            text.push(digit_char(self.digit(j)))?;
        }
        Ok(text)
    }

    /// The code that these bytes spell.
    fn from_text(text: &[u8]) -> Code
        requires spelling { IsSpelling text.now }
        requires short { length text.now ≤ LONGEST }
        ensures { result ≡ digits_in text.now }
    {
        let mut digits = [0; 17];
        digits[0] = digit_of(text[0]);
        for i in 1..text.len() - 1 {
            digits[i] = digit_of(text[i + 1]);
        }
        let count = (text.len() - 1) as u8;
        Code { digits, count }
    }

    /// The digit dj, which is 0 past the last one.
    pub fn digit(&self, j: u64) -> u8
        ensures value { result ≡ digit self.now j }
        ensures below { result < 16 }
        ensures octal { is_octal self.now ≡ true → result < 8 }
        ensures code { IsCode self.now }
    {
        if j < self.count as u64 {
            self.digits[j as usize]
        } else {
            0
        }
    }

    /// The byte of the digit dj in the code's text.
    pub fn digit_byte(&self, j: u64) -> u8
        ensures value { result ≡ digit_byte (digit self.now j) }
        ensures code { IsCode self.now }
    {
        byte_of(self.digit(j))
    }

    /// The place k of the last digit.
    pub fn last(&self) -> u8
        ensures value { result ≡ length self.now - 1 }
        ensures code { IsCode self.now }
        ensures some { 2 ≤ length self.now }
        ensures short { length self.now ≤ 17 }
    {
        self.count - 1
    }

    /// Whether it is an octal code: no digit is above 7.
    pub fn is_octal(&self) -> bool
        ensures { result ≡ is_octal self.now }
    {
        let count = self.count as usize;
        self.digits[..count].iter().all(|digit| *digit < 8)
    }

    /// Whether a move may leave three heaps: some digit has bit 8.
    pub fn leaves_three(&self) -> bool
        ensures { result ≡ leaves_three self.now }
    {
        let count = self.count as usize;
        self.digits[..count].iter().any(|digit| *digit & 8 != 0)
    }

    /// Whether the digit dj allows so much to stay.
    #[tactic(auto, using(crate::proofs::BitLaws::allowed))]
    pub fn allows(&self, j: u64, leaving: Leaving) -> bool
        ensures value { result ≡ allows self.now j leaving }
        ensures set { IsTrue result ↔ IsBitSet (digit self.now j) (place_of leaving) }
    {
        self.digit(j) & leaving.bit() != 0
    }

    /// Whether the whole heap n may be taken as j.
    #[tactic(auto, using(crate::proofs::BitLaws::takes))]
    pub fn takes_all(&self, n: u64, j: u64) -> bool
        ensures value { result ≡ takes_all self.now n j }
        ensures allowed { IsTrue result ↔ ((1 ≤ j) × (n ≡ j) × IsBitSet (digit self.now j) 0) }
    {
        self.allows(j, Leaving::NoHeap) && j != 0 && n == j
    }

    /// Whether one heap may stay of the heap n where j is taken away.
    #[tactic(auto, using(crate::proofs::BitLaws::leaves))]
    pub fn leaves_one(&self, n: u64, j: u64) -> bool
        ensures value { result ≡ leaves_one self.now n j }
        ensures allowed { IsTrue result ↔ ((1 ≤ j) × (j < n) × IsBitSet (digit self.now j) 1) }
    {
        self.allows(j, Leaving::OneHeap) && j != 0 && j < n
    }
}

/// Whether the bytes are 0, 4, 8 or c, a point, and digits 0 to f, at least one, the last not 0.
fn is_spelling(text: &[u8]) -> bool
    ensures { IsTrue result ↔ IsSpelling text.now }
{
    if text.len() < 3 || !is_first(text[0]) || text[1] != b'.' {
        return false;
    }
    are_digits(&text[2..]) && text[text.len() - 1] != b'0'
}

/// Whether a code may begin with this byte.
fn is_first(byte: u8) -> bool
    ensures { IsTrue result ↔ IsFirstByte byte }
{
    byte == b'0' || byte == b'4' || byte == b'8' || byte == b'c'
}

/// Whether the bytes are digits 0 to 9 and a to f.
fn are_digits(bytes: &[u8]) -> bool
    ensures { IsTrue result ↔ All IsDigitByte bytes.now }
{
    bytes.iter().all(|byte| is_digit(*byte))
}

/// Whether the byte is a digit.
fn is_digit(byte: u8) -> bool
    ensures { IsTrue result ↔ IsDigitByte byte }
{
    b'0' <= byte && byte <= b'9' || b'a' <= byte && byte <= b'f'
}

/// The digit that a byte spells.
fn digit_of(byte: u8) -> u8
    ensures { result ≡ digit_of byte }
{
    if byte <= b'9' {
        byte.saturating_sub(b'0')
    } else {
        byte.saturating_sub(b'a' - 10)
    }
}

/// The byte that spells a digit.
fn byte_of(digit: u8) -> u8
    requires { digit < 16 }
    ensures { result ≡ digit_byte digit }
{
    if digit < 10 {
        b'0' + digit
    } else {
        b'a' - 10 + digit
    }
}

fn digit_char(digit: u8) -> char
    requires { digit < 16 }
    ensures { result ≡ digit_byte digit }
{
    byte_of(digit) as char
}

/// The digits of a code lie in their ranges, and they are 2 to 17.
pub fn is_code(code: &Code)
    ensures code { IsCode code.now }
    ensures some { 2 ≤ length code.now }
    ensures short { length code.now ≤ 17 }
{
    let _ = code.last();
}
