//! How a word is read.
ghost use Rattle.std.specs.Prelude.{◌≡◌, ◌<◌};
ghost use Rattle.presentations.specs.declared.TheConstants.{LETTERS};
ghost use Rattle.certificate_lines.specs.Given.{Gives};
ghost use Rattle.presented_text.specs.Read.{exponent_at, power_at, powers_at, letters_at, spelled_at};

use crate::LARGEST_POWER;
use certificate_lines::{Reader, TextFault, Wanted};
use normal_forms::{Exponents, letter_count};
use presentations::LETTERS;

/// An exponent above 1.
#[tactic(auto, unfolding(crate::specs::Read::exponent_at))]
fn exponent(reader: &mut Reader<'_>) -> Result<u16, TextFault>
    ensures { Gives (λ x. (x, reader.new)) result (exponent_at reader.old) }
{
    let x = reader.number(LARGEST_POWER + 1)?;
    if x < 2 {
        return Err(TextFault::Text);
    }
    Ok(x)
}

/// The exponent of a letter, 0 if it doesn't come next.
#[tactic(auto, unfolding(crate::specs::Read::power_at))]
fn power(reader: &mut Reader<'_>, letter: u8) -> Result<u16, TextFault>
    requires { letter < LETTERS }
    ensures { Gives (λ x. (x, reader.new)) result (power_at letter reader.old) }
{
    let name = [b'a' + letter];
    if !reader.takes(&name) {
        return Ok(0);
    }
    if !reader.takes(b"^") {
        return Ok(1);
    }
    exponent(reader)
}

/// The exponents of all letters.
fn powers(reader: &mut Reader<'_>) -> Result<Exponents, TextFault>
    ensures { Gives (λ word. (word, reader.new)) result (powers_at 0 LETTERS reader.old) }
{
    let mut word = [0u16; LETTERS];
    for i in 0..LETTERS {
        word[i] = power(reader, i as u8)?;
    }
    Ok(word)
}

/// Some letters.
#[tactic(auto, unfolding(crate::specs::Read::letters_at))]
fn letters(reader: &mut Reader<'_>) -> Result<Exponents, TextFault>
    ensures { Gives (λ word. (word, reader.new)) result (letters_at reader.old) }
{
    let word = powers(reader)?;
    if letter_count(&word) == 0 {
        reader.wants(reader.left(), Wanted::Words("a word"));
        return Err(TextFault::Text);
    }
    Ok(word)
}

/// A word: 1, or letters in order.
#[tactic(auto, unfolding(crate::specs::Read::spelled_at))]
pub fn word(reader: &mut Reader<'_>) -> Result<Exponents, TextFault>
    ensures { Gives (λ word. (word, reader.new)) result (spelled_at reader.old) }
{
    if reader.takes(b"1") {
        return Ok([0u16; LETTERS]);
    }
    letters(reader)
}
