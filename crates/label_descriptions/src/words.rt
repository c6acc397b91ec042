//! The texts of words and relations.
ghost use Rattle.std.specs.Prelude.{◌≡◌, ◌<◌, ◌≤◌, IfOk};
ghost use Rattle.std.specs.String.{string_bytes};
ghost use Rattle.presentations.specs.declared.TheConstants.{LETTERS};
ghost use Rattle.relations.specs.Printed.{factor_text, factors_text, or_one, word_text};
ghost use Rattle.label_descriptions.specs.Lists.{heap_word, left_out, relation_text};

use normal_forms::{Exponents, Rule};
use presentations::LETTERS;
use relations::Notation;
use std::alloc::{AllocError, Global};

/// A letter with its exponent, or nothing for the exponent 0.
fn factor_text(
    alloc: Global,
    notation: Notation,
    letter: u8,
    exponent: u16,
) -> Result<String, AllocError>
    requires { letter < LETTERS }
    ensures { IfOk result (λ t. string_bytes t ≡ factor_text notation letter exponent) }
{
    let name = (b'a' + letter) as char;
    if exponent == 0 {
        return Ok(String::new(alloc));
    }
    if exponent == 1 {
        let text = format!(in alloc; "{name}")?;
        return Ok(text);
    }
    let text = match notation {
        Notation::Plain => format!(in alloc; "{name}^{exponent}")?,
        Notation::Latex => format!(in alloc; "{name}^{{{exponent}}}")?,
        Notation::Json => format!(in alloc; "{name}^{exponent}")?,
    };
    Ok(text)
}

/// The factors of the first letters.
fn factors_text(
    alloc: Global,
    notation: Notation,
    letters: u8,
    word: &Exponents,
) -> Result<String, AllocError>
    requires { letters ≤ LETTERS }
    ensures { IfOk result (λ t. string_bytes t ≡ factors_text notation letters word.now) }
{
    let mut text = String::new(alloc);
    for letter in 0..letters {
        let factor = factor_text(alloc, notation, letter, word[letter as usize])?;
        text.push_str(factor.as_str())?;
    }
    Ok(text)
}

/// The same, or 1 if there are none.
fn product_text(
    alloc: Global,
    notation: Notation,
    letters: u8,
    word: &Exponents,
) -> Result<String, AllocError>
    requires { letters ≤ LETTERS }
    ensures { IfOk result (λ t. string_bytes t ≡ or_one (factors_text notation letters word.now)) }
{
    let text = factors_text(alloc, notation, letters, word)?;
    if text.len() == 0 {
        let one = format!(in alloc; "1")?;
        return Ok(one);
    }
    Ok(text)
}

/// A word in the first letters.
pub(crate) fn word_text(
    alloc: Global,
    notation: Notation,
    letters: u8,
    word: &Exponents,
) -> Result<String, AllocError>
    requires { letters ≤ LETTERS }
    ensures { IfOk result (λ t. string_bytes t ≡ word_text notation letters word.now) }
{
    let product = product_text(alloc, notation, letters, word)?;
    match notation {
        Notation::Plain | Notation::Latex => Ok(product),
        Notation::Json => {
            let text = format!(in alloc; "\"{product}\"")?;
            Ok(text)
        }
    }
}

/// A relation.
pub(crate) fn relation_text(
    alloc: Global,
    notation: Notation,
    letters: u8,
    rule: &Rule,
) -> Result<String, AllocError>
    requires { letters ≤ LETTERS }
    ensures { IfOk result (λ t. string_bytes t ≡ relation_text notation letters rule.now) }
{
    let left = word_text(alloc, notation, letters, &rule.left)?;
    let right = word_text(alloc, notation, letters, &rule.right)?;
    let text = match notation {
        Notation::Plain => format!(in alloc; "{left}={right}")?,
        Notation::Latex => format!(in alloc; "{left}={right}")?,
        Notation::Json => format!(in alloc; "[{left},{right}]")?,
    };
    Ok(text)
}

/// What stands in the place of the word of a heap that is left out.
fn left_out(notation: Notation) -> &'static str
    ensures { result.now ≡ left_out notation }
{
    match notation {
        Notation::Plain => "-",
        Notation::Latex => "-",
        Notation::Json => "null",
    }
}

/// The word of a heap, if it has one.
pub(crate) fn heap_word(
    alloc: Global,
    notation: Notation,
    letters: u8,
    word: &Option<Exponents>,
) -> Result<String, AllocError>
    requires { letters ≤ LETTERS }
    ensures { IfOk result (λ t. string_bytes t ≡ heap_word notation letters word.now) }
{
    match word {
        Some(word) => word_text(alloc, notation, letters, word),
        None => {
            let sign = left_out(notation);
            let text = format!(in alloc; "{sign}")?;
            Ok(text)
        }
    }
}
