//! The lines of positions.
ghost use Rattle.std.specs.Prelude.{◌≡◌, IfOk};
ghost use Rattle.std.specs.String.{string_bytes};
ghost use Rattle.label_players.specs.Values.{triple_told};
ghost use Rattle.positions.specs.Text.{position_text};
ghost use Rattle.position_commands.specs.Lines.{alike_line, apart_line, form_line, form_pieces, heavy_line, many_line, outcome_letter, triple_line, untried_line, value_line};

use allocation::Memory;
use label_players::{WholeValue, WideWord, form_text as word_text};
use player::Outcome;
use positions::Position;
use std::alloc::{AllocError, Global};

fn letter(outcome: Outcome) -> &'static str
    ensures { result.now ≡ outcome_letter outcome }
{
    match outcome {
        Outcome::P => "P",
        Outcome::N => "N",
    }
}

/// The line of an element by its word, and its outcome, of their texts.
fn form_pieces(alloc: Global, word: &str, letter: &str) -> Result<String, AllocError>
    ensures { IfOk result (λ t. string_bytes t ≡ form_pieces word.now letter.now) }
{
    let text = format!(in alloc; "element {word} {letter}\n")?;
    Ok(text)
}

/// The line of an element by its word, and its outcome.
pub(crate) fn form_text(alloc: Global, form: &WideWord, outcome: Outcome) -> Result<String, Memory>
    ensures { IfOk result (λ t. string_bytes t ≡ form_line form.now outcome) }
{
    let word = word_text(alloc, form)?;
    let text = form_pieces(alloc, word.as_str(), letter(outcome))?;
    Ok(text)
}

/// The line of an element, its outcome and a position of this value.
pub(crate) fn value_text(
    alloc: Global,
    element: u16,
    outcome: Outcome,
    spelled: &Position,
) -> Result<String, Memory>
    ensures { IfOk result (λ t. string_bytes t ≡ value_line element outcome spelled.now) }
{
    let (letter, sizes) = (letter(outcome), spelled.text()?);
    let text = format!(in alloc; "element {element} {letter} {sizes}\n")?;
    Ok(text)
}

/// The line of a triple, and its outcome.
pub(crate) fn triple_text(
    alloc: Global,
    triple: WholeValue,
    outcome: Outcome,
) -> Result<String, Memory>
    ensures { IfOk result (λ t. string_bytes t ≡ triple_line (triple_told triple) outcome) }
{
    let (odd, letter) = (triple.odd as u8, letter(outcome));
    let (weight, lead) = (triple.weight, triple.lead);
    let text = format!(in alloc; "odd {odd} weight {weight} lead {lead} {letter}\n")?;
    Ok(text)
}

/// The line of a position that tells two apart, and the outcomes of their sums with it.
pub(crate) fn apart_text(
    alloc: Global,
    third: &Position,
    first: Outcome,
    second: Outcome,
) -> Result<String, Memory>
    ensures { IfOk result (λ t. string_bytes t ≡ apart_line third.now first second) }
{
    let (sizes, one, other) = (third.text()?, letter(first), letter(second));
    let text = format!(in alloc; "apart {sizes} {one} {other}\n")?;
    Ok(text)
}

/// That two positions are indistinguishable.
pub(crate) fn alike_text(alloc: Global) -> Result<String, AllocError>
    ensures { IfOk result (λ t. string_bytes t ≡ alike_line) }
{
    String::from_str(alloc, "indistinguishable\n")
}

/// That two positions aren't indistinguishable, if no third position that was tried shows it.
pub(crate) fn untried_text(alloc: Global) -> Result<String, AllocError>
    ensures { IfOk result (λ t. string_bytes t ≡ untried_line) }
{
    String::from_str(alloc, "distinguishable\n")
}

/// That a position is too heavy.
pub(crate) fn heavy_text(alloc: Global) -> Result<String, AllocError>
    ensures { IfOk result (λ t. string_bytes t ≡ heavy_line) }
{
    String::from_str(alloc, "a weight of 2^100 or more\n")
}

/// That a heap may have too many options to look at.
pub(crate) fn many_text(alloc: Global) -> Result<String, AllocError>
    ensures { IfOk result (λ t. string_bytes t ≡ many_line) }
{
    String::from_str(alloc, "more than 1000000 options of a heap\n")
}
