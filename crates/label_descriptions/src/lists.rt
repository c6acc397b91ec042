//! Lists of a presentation in texts.
ghost use Rattle.std.specs.Prelude.{◌≡◌, ◌≤◌, ◌<◌, ◌+◌, ◌++◌, IfOk, length};
ghost use Rattle.std.specs.String.{string_bytes};
ghost use Rattle.presentations.specs.declared.TheConstants.{LETTERS};
ghost use Rattle.label_descriptions.specs.Lists.{before, before_cycle, before_heap, cycle_pieces, cycle_text, cycles_text, endless, front, generator_text, generators_text, heap_words_text, order_text, relations_text, words_text};

use crate::words::{heap_word, relation_text, word_text};
use normal_forms::{Exponents, Rule};
use presentations::LETTERS;
use presented_text::LetterCycle;
use relations::Notation;
use std::alloc::{AllocError, Global};

/// What stands before item `k` of a list.
pub(crate) fn front<'a>(first: &'a str, between: &'a str, k: usize) -> &'a str
    ensures { result.now ≡ front first.now between.now k }
{
    if k == 0 { first } else { between }
}

/// Three texts, one behind the other.
pub(crate) fn all_three(
    alloc: Global,
    first: &str,
    second: &str,
    third: &str,
) -> Result<String, AllocError>
    ensures { IfOk result (λ t. string_bytes t ≡ first.now ++ second.now ++ third.now) }
{
    let text = format!(in alloc; "{first}{second}{third}")?;
    Ok(text)
}

/// The name of a letter.
pub(crate) fn name(letter: usize) -> char
    requires { letter < LETTERS }
    ensures { result ≡ 97 + letter }
{
    (b'a' + letter as u8) as char
}

/// What stands before word or relation `k`.
fn before(notation: Notation, k: usize) -> &'static str
    ensures { result.now ≡ before notation k }
{
    match notation {
        Notation::Plain => front(" ", ", ", k),
        Notation::Latex => front("", "$, $", k),
        Notation::Json => front("", ",", k),
    }
}

/// Relations.
pub(crate) fn relations_text(
    alloc: Global,
    notation: Notation,
    letters: u8,
    rules: &[Rule],
) -> Result<String, AllocError>
    requires { letters ≤ LETTERS }
    ensures { IfOk result (λ t. string_bytes t ≡ relations_text notation letters rules.now (length rules.now)) }
{
    let mut text = String::new(alloc);
    for k in 0..rules.len() {
        let relation = relation_text(alloc, notation, letters, &rules[k])?;
        text.push_str(before(notation, k))?;
        text.push_str(relation.as_str())?;
    }
    Ok(text)
}

/// Words.
pub(crate) fn words_text(
    alloc: Global,
    notation: Notation,
    letters: u8,
    words: &[Exponents],
) -> Result<String, AllocError>
    requires { letters ≤ LETTERS }
    ensures { IfOk result (λ t. string_bytes t ≡ words_text notation letters words.now (length words.now)) }
{
    let mut text = String::new(alloc);
    for k in 0..words.len() {
        let word = word_text(alloc, notation, letters, &words[k])?;
        text.push_str(before(notation, k))?;
        text.push_str(word.as_str())?;
    }
    Ok(text)
}

/// What stands before the word of heap `k`.
fn before_heap(notation: Notation, k: usize) -> &'static str
    ensures { result.now ≡ before_heap notation k }
{
    match notation {
        Notation::Plain => " ",
        Notation::Latex | Notation::Json => before(notation, k),
    }
}

/// The words of heaps.
pub(crate) fn heap_words_text(
    alloc: Global,
    notation: Notation,
    letters: u8,
    words: &[Option<Exponents>],
) -> Result<String, AllocError>
    requires { letters ≤ LETTERS }
    ensures { IfOk result
        (λ t. string_bytes t ≡ heap_words_text notation letters words.now (length words.now)) }
{
    let mut text = String::new(alloc);
    for k in 0..words.len() {
        let word = heap_word(alloc, notation, letters, &words[k])?;
        text.push_str(before_heap(notation, k))?;
        text.push_str(word.as_str())?;
    }
    Ok(text)
}

/// The cycle of a letter, of its numbers.
fn cycle_pieces(
    alloc: Global,
    notation: Notation,
    name: char,
    start: u16,
    period: u16,
) -> Result<String, AllocError>
    ensures { IfOk result (λ t. string_bytes t ≡ cycle_pieces notation name start period) }
{
    let text = match notation {
        Notation::Plain => format!(in alloc; "{name} {start}:{period}")?,
        Notation::Latex => format!(in alloc;
            "along ${name}$ from exponent ${start}$ with period ${period}$"
        )?,
        Notation::Json => format!(in alloc; "\"{name}\":[{start},{period}]")?,
    };
    Ok(text)
}

/// The cycle of a letter.
fn cycle_text(
    alloc: Global,
    notation: Notation,
    letter: usize,
    cycle: &LetterCycle,
) -> Result<String, AllocError>
    requires { letter < LETTERS }
    ensures { IfOk result (λ t. string_bytes t ≡ cycle_text notation letter cycle.now) }
{
    cycle_pieces(alloc, notation, name(letter), cycle.start, cycle.period)
}

/// What stands before the cycle of a letter.
fn before_cycle(notation: Notation, letter: usize) -> &'static str
    ensures { result.now ≡ before_cycle notation letter }
{
    match notation {
        Notation::Plain => " ",
        Notation::Latex => front(" ", ", ", letter),
        Notation::Json => front("", ",", letter),
    }
}

/// The cycles of all letters.
pub(crate) fn cycles_text(
    alloc: Global,
    notation: Notation,
    cycles: &[LetterCycle],
) -> Result<String, AllocError>
    requires { length cycles.now ≤ LETTERS }
    ensures { IfOk result (λ t. string_bytes t ≡ cycles_text notation cycles.now (length cycles.now)) }
{
    let mut text = String::new(alloc);
    for k in 0..cycles.len() {
        let cycle = cycle_text(alloc, notation, k, &cycles[k])?;
        text.push_str(before_cycle(notation, k))?;
        text.push_str(cycle.as_str())?;
    }
    Ok(text)
}

/// A letter and its heap, behind what stands before it.
fn generator_text(
    alloc: Global,
    notation: Notation,
    letter: usize,
    heap: u16,
) -> Result<String, AllocError>
    requires { letter < LETTERS }
    ensures { IfOk result (λ t. string_bytes t ≡ generator_text notation letter heap) }
{
    let (name, front) = (name(letter), front("", ",", letter));
    let text = match notation {
        Notation::Plain => format!(in alloc; " {name}={heap}")?,
        Notation::Latex => format!(in alloc; " ${name}=\\Phi({heap})$")?,
        Notation::Json => format!(in alloc; "{front}\"{name}\":{heap}")?,
    };
    Ok(text)
}

/// All letters and their heaps.
pub(crate) fn generators_text(
    alloc: Global,
    notation: Notation,
    heaps: &[u16],
) -> Result<String, AllocError>
    requires { length heaps.now ≤ LETTERS }
    ensures { IfOk result
        (λ t. string_bytes t ≡ generators_text notation heaps.now (length heaps.now)) }
{
    let mut text = String::new(alloc);
    for k in 0..heaps.len() {
        let item = generator_text(alloc, notation, k, heaps[k])?;
        text.push_str(item.as_str())?;
    }
    Ok(text)
}

/// What stands for infinitely many elements.
fn endless(notation: Notation) -> &'static str
    ensures { result.now ≡ endless notation }
{
    match notation {
        Notation::Plain => "infinite",
        Notation::Latex => "\\infty",
        Notation::Json => "null",
    }
}

/// How many elements there are, if they are finitely many.
pub(crate) fn order_text(
    alloc: Global,
    notation: Notation,
    order: Option<usize>,
) -> Result<String, AllocError>
    ensures { IfOk result (λ t. string_bytes t ≡ order_text notation order) }
{
    let Some(order) = order else {
        let sign = endless(notation);
        let text = format!(in alloc; "{sign}")?;
        return Ok(text);
    };
    let text = match notation {
        Notation::Plain => format!(in alloc; "order {order}")?,
        Notation::Latex | Notation::Json => format!(in alloc; "{order}")?,
    };
    Ok(text)
}
