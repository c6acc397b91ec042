//! Bytes that are read from the front.
ghost use Rattle.std.specs.Prelude.{length, ◌≡◌, ◌≢◌, ◌==◌, ◌<◌, ◌↔◌, ◌++◌, ◌∷◌, IfOk, IsTrue, MatchBool, MatchOption, All, Some, None, [], codes, position};
ghost use Rattle.std.specs.Bool.{OnFalse};
ghost use Rattle.certificate_lines.specs.Given.{Gives};
ghost use Rattle.certificate_text.specs.Reading.{fixed_at, number_at, code_digit_at};
ghost use Rattle.certificate_lines.specs.declared.fault.TextFault.{TextFault};

use crate::fault::TextFault;
use crate::numbers::{behind, number_in_front};
use crate::stop::{Stopped, Wanted};
use std::marker::Model;

/// Bytes that are read from the front. After a refusal nothing is said of what is left; where it stopped,
/// and what it wanted there, is noted.
#[derive(Drop)]
pub struct Reader<'a> {
    rest: &'a [u8],
    stop: Stopped,
}

impl<'a> Model for Reader<'a> {
    ghost use Rattle.std.specs.Prelude.{ℕ, List};

    ghost Value = { List ℕ };

    ghost view = { λ r. r.rest.now };
}

impl<'a> Reader<'a> {
    /// Nothing is read yet.
    pub fn new(bytes: &'a [u8]) -> Reader<'a>
        ensures { result ≡ bytes.entry.now }
    {
        Reader {
            rest: bytes,
            stop: Stopped {
                left: bytes.len(),
                wanted: Wanted::End,
            },
        }
    }

    /// Where it stopped, after a refusal of `Text`.
    pub fn stop(&self) -> Stopped {
        self.stop
    }

    /// Notes what was wanted when so many bytes were left.
    pub fn wants(&mut self, left: usize, wanted: Wanted)
        ensures { self.new ≡ self.old }
    {
        self.stop = Stopped { left, wanted };
    }

    /// Whether all is read.
    pub fn is_at_end(&self) -> bool
        ensures { IsTrue result ↔ (self.now ≡ []) }
    {
        self.rest.is_empty()
    }

    /// How many bytes are left.
    pub fn left(&self) -> usize
        ensures { result ≡ length self.now }
    {
        self.rest.len()
    }

    /// Takes these bytes if they stand in front.
    pub fn takes(&mut self, text: &[u8]) -> bool
        ensures taken { MatchBool result (fixed_at text.now self.old ≡ Some self.new)
            (fixed_at text.now self.old ≡ None) }
        ensures stays { OnFalse result (self.new ≡ self.old) }
    {
        match behind(self.rest, text) {
            Some(rest) => {
                self.rest = rest;
                true
            }
            None => false,
        }
    }

    /// Takes these bytes.
    pub fn fixed(&mut self, text: &'static [u8]) -> Result<(), TextFault>
        ensures { Gives (λ _. self.new) result (fixed_at text.now self.old) }
    {
        if self.takes(text) {
            Ok(())
        } else {
            self.wants(self.left(), Wanted::Bytes(text));
            Err(TextFault::Text)
        }
    }

    /// Takes a space. A text has one before nearly each number.
    #[tactic(auto, unfolding(certificate_text::specs::Reading::fixed_at))]
    pub fn space(&mut self) -> Result<(), TextFault>
        ensures { Gives (λ _. self.new) result (fixed_at (codes " ") self.old) }
    {
        match self.rest {
            [b' ', rest @ ..] => {
                self.rest = rest;
                Ok(())
            }
            _ => {
                self.wants(self.left(), Wanted::More);
                Err(TextFault::Text)
            }
        }
    }

    /// Takes a number below the limit, without leading zeros.
    pub fn number(&mut self, limit: u16) -> Result<u16, TextFault>
        requires { 0 < limit }
        ensures read { Gives (λ x. (x, self.new)) result (number_at limit self.old) }
        ensures below { IfOk result (λ x. x < limit) }
    {
        let Some((x, rest)) = number_in_front(self.rest, limit) else {
            self.wants(self.left(), Wanted::Number { least: 0, limit });
            return Err(TextFault::Text);
        };
        self.rest = rest;
        Ok(x)
    }

    /// Takes a hexadecimal digit, in lower case.
    #[tactic(auto, unfolding(certificate_text::specs::Reading::code_digit_at))]
    pub fn digit(&mut self) -> Result<u8, TextFault>
        ensures read { Gives (λ d. (d, self.new)) result (code_digit_at self.old) }
        ensures below { IfOk result (λ d. d < 16) }
    {
        self.wants(self.left(), Wanted::Digit);
        let [b, rest @ ..] = self.rest else {
            return Err(TextFault::Text);
        };
        let d = match *b {
            b'0'..=b'9' => *b - b'0',
            b'a'..=b'f' => *b - b'a' + 10,
            _ => return Err(TextFault::Text),
        };
        self.rest = rest;
        Ok(d)
    }

    /// Takes the bytes up to the first LF, and the LF.
    pub fn line(&mut self) -> Option<&'a [u8]>
        ensures { MatchOption result (All (λ b. b ≢ 10) self.old)
            (λ line. (self.old ≡ line.now ++ 10 ∷ self.new) × All (λ b. b ≢ 10) line.now) }
    {
        let end = first_lf(self.rest)?;
        let line = &self.rest[..end];
        self.rest = &self.rest[end + 1..];
        Some(line)
    }
}

/// Where the first LF stands.
fn first_lf(bytes: &[u8]) -> Option<usize>
    ensures { result ≡ position (λ b. b == 10) bytes.now }
{
    bytes.iter().position(|b| *b == b'\n')
}
