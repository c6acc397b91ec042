//! The texts of words and relations.
ghost use Rattle.std.specs.Prelude.{◌≡◌, ◌<◌, ◌≤◌, [], IfOk, All, length, slice_index_or};
ghost use Rattle.std.specs.String.{string_bytes};
ghost use Rattle.presentations.specs.declared.TheConstants.{LETTERS};
ghost use Rattle.relations.specs.Printed.{factor_text, factors_text, or_one, word_text, relation_text, more_text, relations_text, more_words, words_text};

use presentations::{Relation, Word};
use std::alloc::{AllocError, Global};

/// How exponents are written.
#[derive(Clone, Copy, Debug, PartialEq, Eq)]
pub enum Notation {
    /// `a^12`, as `present` reads it.
    Plain,
    /// `a^{12}`, as LaTeX sets it in formulas.
    Latex,
    /// `"a^12"`, a string of JSON.
    Json,
}

/// A letter with its exponent, or nothing for the exponent 0.
pub fn factor_text(
    alloc: Global,
    notation: Notation,
    letter: u8,
    exponent: u8,
) -> Result<String, AllocError>
    requires { letter < LETTERS }
    ensures { IfOk result (λ t. string_bytes t ≡ factor_text notation letter exponent) }
{
    let name = (b'a' + letter) as char;
    if exponent == 0 {
        return Ok(String::new(alloc));
    }
    if exponent == 1 {
        let text = format!(in alloc; "{name}")?;
        return Ok(text);
    }
    let text = match notation {
        Notation::Plain => format!(in alloc; "{name}^{exponent}")?,
        Notation::Latex => format!(in alloc; "{name}^{{{exponent}}}")?,
        Notation::Json => format!(in alloc; "{name}^{exponent}")?,
    };
    Ok(text)
}

/// The factors of the first letters.
fn factors_text(
    alloc: Global,
    notation: Notation,
    letters: u8,
    word: &Word,
) -> Result<String, AllocError>
    requires { letters ≤ LETTERS }
    ensures { IfOk result (λ t. string_bytes t ≡ factors_text notation letters word.now) }
{
    let mut text = String::new(alloc);
    for letter in 0..letters {
        let factor = factor_text(alloc, notation, letter, word[letter as usize])?;
        text.push_str(factor.as_str())?;
    }
    Ok(text)
}

/// The factors of the first letters, or 1 if there are none.
fn product_text(
    alloc: Global,
    notation: Notation,
    letters: u8,
    word: &Word,
) -> Result<String, AllocError>
    requires { letters ≤ LETTERS }
    ensures { IfOk result
        (λ t. string_bytes t ≡ or_one (factors_text notation letters word.now)) }
{
    let text = factors_text(alloc, notation, letters, word)?;
    if text.len() == 0 {
        let one = format!(in alloc; "1")?;
        return Ok(one);
    }
    Ok(text)
}

/// A word in the first letters.
pub fn word_text(
    alloc: Global,
    notation: Notation,
    letters: u8,
    word: &Word,
) -> Result<String, AllocError>
    requires { letters ≤ LETTERS }
    ensures { IfOk result (λ t. string_bytes t ≡ word_text notation letters word.now) }
{
    let product = product_text(alloc, notation, letters, word)?;
    match notation {
        Notation::Plain | Notation::Latex => Ok(product),
        Notation::Json => {
            let text = format!(in alloc; "\"{product}\"")?;
            Ok(text)
        }
    }
}

/// A relation between words in the first letters.
pub fn relation_text(
    alloc: Global,
    notation: Notation,
    letters: u8,
    r: &Relation,
) -> Result<String, AllocError>
    requires { letters ≤ LETTERS }
    ensures { IfOk result (λ t. string_bytes t ≡ relation_text notation letters r.now) }
{
    let (left, right) = (
        word_text(alloc, notation, letters, &r.left)?,
        word_text(alloc, notation, letters, &r.right)?,
    );
    let text = match notation {
        Notation::Plain => format!(in alloc; "{left}={right}")?,
        Notation::Latex => format!(in alloc; "{left}={right}")?,
        Notation::Json => format!(in alloc; "[{left},{right}]")?,
    };
    Ok(text)
}

/// A text before each relation.
fn more_text(
    alloc: Global,
    notation: Notation,
    letters: u8,
    between: &str,
    relations: &[Relation],
) -> Result<String, AllocError>
    requires { letters ≤ LETTERS }
    ensures { IfOk result (λ t. string_bytes t ≡ more_text notation letters between.now relations.now) }
{
    let mut text = String::new(alloc);
    for relation in relations {
        let line = relation_text(alloc, notation, letters, relation)?;
        text.push_str(between)?;
        text.push_str(line.as_str())?;
    }
    Ok(text)
}

/// Relations between words in the first letters, with a text between each two.
pub fn relations_text(
    alloc: Global,
    notation: Notation,
    letters: u8,
    between: &str,
    relations: &[Relation],
) -> Result<String, AllocError>
    requires { letters ≤ LETTERS }
    ensures { IfOk result (λ t. string_bytes t ≡ relations_text notation letters between.now relations.now) }
{
    if relations.len() == 0 {
        return Ok(String::new(alloc));
    }
    let mut text = relation_text(alloc, notation, letters, &relations[0])?;
    let more = more_text(alloc, notation, letters, between, &relations[1..])?;
    text.push_str(more.as_str())?;
    Ok(text)
}

/// A text before the word of each element.
fn more_words(
    alloc: Global,
    notation: Notation,
    letters: u8,
    between: &str,
    words: &[Word],
    elements: &[u16],
) -> Result<String, AllocError>
    requires letters { letters ≤ LETTERS }
    requires elements { All (λ e. e < length words.now) elements.now }
    ensures { IfOk result
        (λ t. string_bytes t ≡ more_words notation letters between.now words.now elements.now) }
{
    let mut text = String::new(alloc);
    for element in elements {
        let word = element_text(alloc, notation, letters, words, *element)?;
        text.push_str(between)?;
        text.push_str(word.as_str())?;
    }
    Ok(text)
}

/// The word of an element.
fn element_text(
    alloc: Global,
    notation: Notation,
    letters: u8,
    words: &[Word],
    element: u16,
) -> Result<String, AllocError>
    requires letters { letters ≤ LETTERS }
    requires element_in { element < length words.now }
    ensures { IfOk result
        (λ t. string_bytes t ≡ word_text notation letters (slice_index_or words.now element [])) }
{
    let text = word_text(alloc, notation, letters, &words[element as usize])?;
    Ok(text)
}

/// The words of elements, with a text between each two.
pub fn words_text(
    alloc: Global,
    notation: Notation,
    letters: u8,
    between: &str,
    words: &[Word],
    elements: &[u16],
) -> Result<String, AllocError>
    requires letters { letters ≤ LETTERS }
    requires elements { All (λ e. e < length words.now) elements.now }
    ensures { IfOk result
        (λ t. string_bytes t ≡ words_text notation letters between.now words.now elements.now) }
{
    if elements.len() == 0 {
        return Ok(String::new(alloc));
    }
    let mut text = element_text(alloc, notation, letters, words, elements[0])?;
    let more = more_words(alloc, notation, letters, between, words, &elements[1..])?;
    text.push_str(more.as_str())?;
    Ok(text)
}
