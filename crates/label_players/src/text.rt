//! The text of a word with large exponents.
ghost use Rattle.std.specs.Prelude.{◌≡◌, ◌<◌, ◌≤◌, IfOk};
ghost use Rattle.std.specs.String.{string_bytes};
ghost use Rattle.presentations.specs.declared.TheConstants.{LETTERS};
ghost use Rattle.relations.specs.declared.text.Notation.TheVariants.{Plain};
ghost use Rattle.relations.specs.Printed.{factor_text, factors_text, word_text};

use crate::wide::WideWord;
use presentations::LETTERS;
use std::alloc::{AllocError, Global};

/// A letter with its exponent, or nothing for the exponent 0.
fn factor_text(alloc: Global, letter: u8, exponent: u128) -> Result<String, AllocError>
    requires { letter < LETTERS }
    ensures { IfOk result (λ t. string_bytes t ≡ factor_text Plain letter exponent) }
{
    let name = (b'a' + letter) as char;
    if exponent == 0 {
        return Ok(String::new(alloc));
    }
    if exponent == 1 {
        let text = format!(in alloc; "{name}")?;
        return Ok(text);
    }
    let text = format!(in alloc; "{name}^{exponent}")?;
    Ok(text)
}

/// The factors of the first letters.
fn factors_text(alloc: Global, letters: u8, word: &WideWord) -> Result<String, AllocError>
    requires { letters ≤ LETTERS }
    ensures { IfOk result (λ t. string_bytes t ≡ factors_text Plain letters word.now) }
{
    let mut text = String::new(alloc);
    for letter in 0..letters {
        let factor = factor_text(alloc, letter, word[letter as usize])?;
        text.push_str(factor.as_str())?;
    }
    Ok(text)
}

/// The factors of the first letters, or 1 if there are none.
fn product_text(alloc: Global, letters: u8, word: &WideWord) -> Result<String, AllocError>
    requires { letters ≤ LETTERS }
    ensures { IfOk result (λ t. string_bytes t ≡ word_text Plain letters word.now) }
{
    let text = factors_text(alloc, letters, word)?;
    if text.len() == 0 {
        let one = format!(in alloc; "1")?;
        return Ok(one);
    }
    Ok(text)
}

/// A word: its letters in order, each with its exponent if that is above 1, and 1 for the empty word.
pub fn form_text(alloc: Global, word: &WideWord) -> Result<String, AllocError>
    ensures { IfOk result (λ t. string_bytes t ≡ word_text Plain LETTERS word.now) }
{
    product_text(alloc, LETTERS as u8, word)
}
