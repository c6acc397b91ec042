//! A presentation in lines, for readers or for LaTeX.
ghost use Rattle.std.specs.Prelude.{◌≡◌, ◌≤◌, ◌+◌, ◌-◌, IfOk, length};
ghost use Rattle.std.specs.String.{string_bytes};
ghost use Rattle.presentations.specs.declared.TheConstants.{LETTERS};
ghost use Rattle.label_descriptions.specs.Lines.{before, count_pieces, count_text, head_pieces, head_text, heap_text, heaps_pieces, index_text, last_pieces, letters_text, lines_text, monoid_text, notation_of, portion_pieces, portion_text, repeat_pieces, row, tail_text};

use crate::lists::{
    all_three, cycles_text, front, generators_text, heap_words_text, name, order_text,
    relations_text, words_text,
};
use allocation::Memory;
use presentations::LETTERS;
use presented_tables::Presented;
use relations::Notation;
use std::alloc::{AllocError, Allocator, Global};

/// For whom the lines are.
#[derive(Clone, Copy, Debug, PartialEq, Eq)]
pub(crate) enum Style {
    /// For readers.
    Plain,
    /// For LaTeX.
    Latex,
}

/// How exponents are written in them.
fn notation_of(style: Style) -> Notation
    ensures { result ≡ notation_of style }
{
    match style {
        Style::Plain => Notation::Plain,
        Style::Latex => Notation::Latex,
    }
}

/// The index of a quotient and of its portion: the last heap, and none of a whole game.
fn index_text<A: Allocator>(
    alloc: Global,
    style: Style,
    said: &Presented<A>,
) -> Result<String, AllocError>
    ensures { IfOk result (λ t. string_bytes t ≡ index_text style said.now) }
{
    let heaps = said.heaps;
    if said.period != 0 {
        return Ok(String::new(alloc));
    }
    let text = match style {
        Style::Plain => format!(in alloc; "_{heaps}")?,
        Style::Latex => format!(in alloc; "_{{{heaps}}}")?,
    };
    Ok(text)
}

/// What stands before a letter.
fn before(style: Style, k: usize) -> &'static str
    ensures { result.now ≡ before style k }
{
    match style {
        Style::Plain => front(" ", ",", k),
        Style::Latex => front("", ",", k),
    }
}

/// The first letters.
fn letters_text(alloc: Global, style: Style, letters: usize) -> Result<String, AllocError>
    requires { letters ≤ LETTERS }
    ensures { IfOk result (λ t. string_bytes t ≡ letters_text style letters) }
{
    let mut text = String::new(alloc);
    for k in 0..letters {
        text.push_str(before(style, k))?;
        text.push(name(k))?;
    }
    Ok(text)
}

/// The game, the letters and the relations, of their texts.
fn head_pieces(
    alloc: Global,
    style: Style,
    index: &str,
    code: &str,
    letters: &str,
    relations: &str,
) -> Result<String, AllocError>
    ensures { IfOk result
        (λ t. string_bytes t ≡ head_pieces style index.now code.now letters.now relations.now) }
{
    let text = match style {
        Style::Plain => format!(in alloc; "Q{index}({code}) = <{letters} |{relations} >\n")?,
        Style::Latex => format!(in alloc;
            "\\begin{{flushleft}}\n$\\mathcal{{Q}}{index}(\\mathbf{{{code}}})=\\langle {letters}\\mid {relations}\\rangle$\\\\\n"
        )?,
    };
    Ok(text)
}

/// The game, the letters and the relations.
fn head_text<A: Allocator>(
    alloc: Global,
    style: Style,
    said: &Presented<A>,
) -> Result<String, Memory>
    requires { length said.now.letters ≤ LETTERS }
    ensures { IfOk result (λ t. string_bytes t ≡ head_text style said.now) }
{
    let index = index_text(alloc, style, said)?;
    let code = said.code.text(alloc)?;
    let letters = letters_text(alloc, style, said.letters.len())?;
    let relations = relations_text(alloc, notation_of(style), LETTERS as u8, said.basis.rules())?;
    let text = head_pieces(
        alloc,
        style,
        index.as_str(),
        code.as_str(),
        letters.as_str(),
        relations.as_str(),
    )?;
    Ok(text)
}

/// The portion, of its texts.
fn portion_pieces(
    alloc: Global,
    style: Style,
    index: &str,
    words: &str,
) -> Result<String, AllocError>
    ensures { IfOk result (λ t. string_bytes t ≡ portion_pieces style index.now words.now) }
{
    let text = match style {
        Style::Plain => format!(in alloc; "P{index} = {{{words} }}\n")?,
        Style::Latex => format!(in alloc; "$\\mathcal{{P}}{index}=\\{{{words}\\}}$\\\\\n")?,
    };
    Ok(text)
}

/// The words of the portion.
fn portion_text<A: Allocator>(
    alloc: Global,
    style: Style,
    said: &Presented<A>,
) -> Result<String, AllocError>
    ensures { IfOk result (λ t. string_bytes t ≡ portion_text style said.now) }
{
    let index = index_text(alloc, style, said)?;
    let words = words_text(alloc, notation_of(style), LETTERS as u8, &said.portion)?;
    portion_pieces(alloc, style, index.as_str(), words.as_str())
}

/// A line of items behind their title.
fn row(alloc: Global, style: Style, title: &str, items: &str) -> Result<String, AllocError>
    ensures { IfOk result (λ t. string_bytes t ≡ row style title.now items.now) }
{
    let text = match style {
        Style::Plain => format!(in alloc; "{title}{items}\n")?,
        Style::Latex => format!(in alloc; "{title}{items}\\\\\n")?,
    };
    Ok(text)
}

/// The lines of the monoid: its letters and relations, its portion, and the cycles.
fn monoid_text<A: Allocator>(
    alloc: Global,
    style: Style,
    said: &Presented<A>,
) -> Result<String, Memory>
    requires letters { length said.now.letters ≤ LETTERS }
    requires cycles { length said.now.cycles ≤ LETTERS }
    ensures { IfOk result (λ t. string_bytes t ≡ monoid_text style said.now) }
{
    let head = head_text(alloc, style, said)?;
    let portion = portion_text(alloc, style, said)?;
    let items = cycles_text(alloc, notation_of(style), &said.cycles)?;
    let cycles = row(alloc, style, "cycles", items.as_str())?;
    let text = all_three(alloc, head.as_str(), portion.as_str(), cycles.as_str())?;
    Ok(text)
}

/// How many elements, relations and words of the portion there are, of their texts.
fn count_pieces(
    alloc: Global,
    style: Style,
    index: &str,
    order: &str,
    relations: usize,
    portion: usize,
) -> Result<String, AllocError>
    ensures { IfOk result
        (λ t. string_bytes t ≡ count_pieces style index.now order.now relations portion) }
{
    let text = match style {
        Style::Plain => { format!(in alloc; "{order} relations {relations} portion {portion}\n")? }
        Style::Latex => format!(in alloc;
            "$|\\mathcal{{Q}}{index}|={order}$, relations ${relations}$, portion ${portion}$\\\\\n"
        )?,
    };
    Ok(text)
}

/// How many elements, relations and words of the portion there are.
fn count_text<A: Allocator>(
    alloc: Global,
    style: Style,
    said: &Presented<A>,
    order: Option<usize>,
) -> Result<String, AllocError>
    ensures { IfOk result (λ t. string_bytes t ≡ count_text style said.now order) }
{
    let index = index_text(alloc, style, said)?;
    let order = order_text(alloc, notation_of(style), order)?;
    let (relations, portion) = (said.basis.rules().len(), said.portion.len());
    count_pieces(
        alloc,
        style,
        index.as_str(),
        order.as_str(),
        relations,
        portion,
    )
}

/// The line of the words of heaps, of their text.
fn heaps_pieces(alloc: Global, style: Style, words: &str) -> Result<String, AllocError>
    ensures { IfOk result (λ t. string_bytes t ≡ heaps_pieces style words.now) }
{
    let text = match style {
        Style::Plain => format!(in alloc; "heaps{words}\n")?,
        Style::Latex => format!(in alloc; "heaps ${words}$\\\\\n")?,
    };
    Ok(text)
}

/// Which heap is the last one.
fn last_pieces(alloc: Global, style: Style, heaps: u16) -> Result<String, AllocError>
    ensures { IfOk result (λ t. string_bytes t ≡ last_pieces style heaps) }
{
    let text = match style {
        Style::Plain => format!(in alloc; "heaps to {heaps}\n")?,
        Style::Latex => format!(in alloc; "heaps to ${heaps}$\n\\end{{flushleft}}\n")?,
    };
    Ok(text)
}

/// How the words repeat.
fn repeat_pieces(alloc: Global, style: Style, period: u16, start: u32) -> Result<String, AllocError>
    ensures { IfOk result (λ t. string_bytes t ≡ repeat_pieces style period start) }
{
    let text = match style {
        Style::Plain => format!(in alloc; "repeat {period} from {start}\n")?,
        Style::Latex => format!(in alloc;
            "$\\Phi(n+{period})=\\Phi(n)$ for $n\\ge{start}$\n\\end{{flushleft}}\n"
        )?,
    };
    Ok(text)
}

/// Which heap is the last one, or from which on and how the words repeat.
fn tail_text<A: Allocator>(
    alloc: Global,
    style: Style,
    said: &Presented<A>,
) -> Result<String, AllocError>
    ensures { IfOk result (λ t. string_bytes t ≡ tail_text style said.now) }
{
    if said.period == 0 {
        return last_pieces(alloc, style, said.heaps);
    }
    let start = said.heaps.saturating_sub(said.period) as u32 + 1;
    repeat_pieces(alloc, style, said.period, start)
}

/// The lines of the heaps.
fn heap_text<A: Allocator>(
    alloc: Global,
    style: Style,
    said: &Presented<A>,
) -> Result<String, AllocError>
    requires { length said.now.letters ≤ LETTERS }
    ensures { IfOk result (λ t. string_bytes t ≡ heap_text style said.now) }
{
    let items = generators_text(alloc, notation_of(style), &said.letters)?;
    let generators = row(alloc, style, "generators", items.as_str())?;
    let words = heap_words_text(alloc, notation_of(style), LETTERS as u8, &said.words)?;
    let heaps = heaps_pieces(alloc, style, words.as_str())?;
    let tail = tail_text(alloc, style, said)?;
    all_three(alloc, generators.as_str(), heaps.as_str(), tail.as_str())
}

/// All lines.
pub(crate) fn lines_text<A: Allocator>(
    alloc: Global,
    style: Style,
    said: &Presented<A>,
    order: Option<usize>,
) -> Result<String, Memory>
    requires letters { length said.now.letters ≤ LETTERS }
    requires cycles { length said.now.cycles ≤ LETTERS }
    ensures { IfOk result (λ t. string_bytes t ≡ lines_text style said.now order) }
{
    let monoid = monoid_text(alloc, style, said)?;
    let counts = count_text(alloc, style, said, order)?;
    let heaps = heap_text(alloc, style, said)?;
    let text = all_three(alloc, monoid.as_str(), counts.as_str(), heaps.as_str())?;
    Ok(text)
}
