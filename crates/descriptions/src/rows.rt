//! The rows of the pretending function in words, in lines and in arrays of LaTeX.
ghost use Rattle.std.specs.Prelude.{◌≡◌, ◌<◌, ◌≤◌, ◌+◌, ◌-◌, ◌*◌, IfOk, length};
ghost use Rattle.std.specs.String.{string_bytes};
ghost use Rattle.misere_theory.specs.declared.TheConstants.{MOST_ENTRIES};
ghost use Rattle.misere_theory.specs.Certificates.{IsHeapOf};
ghost use Rattle.presentations.specs.declared.TheConstants.{LETTERS};
ghost use Rattle.descriptions.specs.Rows.{arrays_text, cell, cells, heap_word, label, last_heap, padded, row, row_count, row_width, rows, spaces, IsRowsText};

use crate::arrays::{CLOSING, before_row};
use answers::Certified;
use presentations::Word;
use relations::{Notation, word_text};
use std::alloc::{AllocError, Global};

/// How many heaps stand in a row.
pub fn row_width(period: u64) -> u64
    requires { period ≤ MOST_ENTRIES }
    ensures value { result ≡ row_width period }
    ensures some { 0 < result }
    ensures small { result ≤ 16 }
{
    if period == 0 {
        return 12;
    }
    let width = (period + 7) / period * period;
    if width <= 16 { width } else { 12 }
}

/// Spaces.
fn spaces(alloc: Global, count: usize) -> Result<String, AllocError>
    ensures { IfOk result (λ t. string_bytes t ≡ spaces count) }
{
    let mut text = String::new(alloc);
    for _i in 0..count {
        text.push_str(" ")?;
    }
    Ok(text)
}

/// How many spaces make the text as wide.
fn missing(width: usize, text: &str) -> usize
    ensures { result ≡ width - length text.now }
{
    width.saturating_sub(text.len())
}

/// How rows stand.
#[derive(Clone, Copy)]
pub enum Frame {
    /// In lines, of words and of labels that are so wide.
    Lines { width: usize, wide: usize },
    /// In arrays of LaTeX.
    Arrays,
}

/// The word of a heap.
fn heap_text(
    alloc: Global,
    certified: &Certified,
    notation: Notation,
    letters: u8,
    words: &[Word],
    heap: u64,
) -> Result<String, AllocError>
    requires letters { letters ≤ LETTERS }
    requires words { length words.now ≡ certified.now.order }
    requires counts { IsHeapOf certified.now heap }
    ensures { IfOk result
        (λ t. string_bytes t ≡ heap_word notation certified.now letters words.now heap) }
{
    let element = certified.element(heap);
    let text = word_text(alloc, notation, letters, &words[element as usize])?;
    Ok(text)
}

/// The word of a heap with spaces behind it, or in its column.
fn cell(
    alloc: Global,
    frame: Frame,
    certified: &Certified,
    letters: u8,
    words: &[Word],
    heap: u64,
) -> Result<String, AllocError>
    requires letters { letters ≤ LETTERS }
    requires words { length words.now ≡ certified.now.order }
    requires counts { IsHeapOf certified.now heap }
    ensures { IfOk result
        (λ t. string_bytes t ≡ cell frame certified.now letters words.now heap) }
{
    match frame {
        Frame::Lines { width, .. } => {
            let word = heap_text(alloc, certified, Notation::Plain, letters, words, heap)?;
            let more = spaces(alloc, missing(width, word.as_str()))?;
            let text = format!(in alloc; "{word}{more} ")?;
            Ok(text)
        }
        Frame::Arrays => {
            let word = heap_text(alloc, certified, Notation::Latex, letters, words, heap)?;
            let text = format!(in alloc; "&{word}")?;
            Ok(text)
        }
    }
}

/// The cells of so many heaps behind heap number `from`.
fn cells(
    alloc: Global,
    frame: Frame,
    certified: &Certified,
    letters: u8,
    words: &[Word],
    from: u64,
    count: u64,
) -> Result<String, AllocError>
    requires letters { letters ≤ LETTERS }
    requires words { length words.now ≡ certified.now.order }
    requires within { from + count ≤ last_heap certified.now }
    ensures { IfOk result
        (λ t. string_bytes t ≡ cells frame certified.now letters words.now from count) }
{
    let mut text = String::new(alloc);
    // these bound the last heap
    certified.cert().start();
    certified.cert().period();
    for k in 0..count {
        let more = cell(alloc, frame, certified, letters, words, from + k + 1)?;
        text.push_str(more.as_str())?;
    }
    Ok(text)
}

fn label(alloc: Global, wide: usize, from: u64) -> Result<String, AllocError>
    ensures { IfOk result (λ t. string_bytes t ≡ label wide from) }
{
    let number = format!(in alloc; "{from}")?;
    let more = spaces(alloc, missing(wide, number.as_str()))?;
    let text = format!(in alloc; "{more}{number}+ ")?;
    Ok(text)
}

/// Row number k.
fn row(
    alloc: Global,
    frame: Frame,
    certified: &Certified,
    letters: u8,
    words: &[Word],
    k: u64,
) -> Result<String, AllocError>
    requires letters { letters ≤ LETTERS }
    requires words { length words.now ≡ certified.now.order }
    requires within { k < row_count certified.now }
    ensures { IfOk result (λ t. string_bytes t ≡ row frame certified.now letters words.now k) }
{
    let cert = certified.cert();
    let (many, last) = (row_width(cert.period()), cert.start() + cert.period() - 1);
    let (from, to) = (k * many, (k * many + many).min(last));
    match frame {
        Frame::Lines { wide, .. } => {
            let front = label(alloc, wide, from)?;
            let most = cells(alloc, frame, certified, letters, words, from, to - from - 1)?;
            let last = heap_text(alloc, certified, Notation::Plain, letters, words, to)?;
            let text = format!(in alloc;
                "{front}{most}{last}
"
            )?;
            Ok(text)
        }
        Frame::Arrays => {
            let front = before_row(alloc, many.min(last), k)?;
            let all = cells(alloc, frame, certified, letters, words, from, to - from)?;
            let text = format!(in alloc; "{front}{from}+{all}")?;
            Ok(text)
        }
    }
}

/// All rows.
fn rows(
    alloc: Global,
    frame: Frame,
    certified: &Certified,
    letters: u8,
    words: &[Word],
) -> Result<String, AllocError>
    requires letters { letters ≤ LETTERS }
    requires words { length words.now ≡ certified.now.order }
    ensures { IfOk result (λ t. string_bytes t
        ≡ rows frame certified.now letters words.now (row_count certified.now)) }
{
    let cert = certified.cert();
    let (many, last) = (row_width(cert.period()), cert.start() + cert.period() - 1);
    let mut text = String::new(alloc);
    for k in 0..(last + many - 1) / many {
        let line = row(alloc, frame, certified, letters, words, k)?;
        text.push_str(line.as_str())?;
    }
    Ok(text)
}

/// The length of the longest word of a heap that stands before another one in a row.
fn longest(
    alloc: Global,
    certified: &Certified,
    letters: u8,
    words: &[Word],
) -> Result<usize, AllocError>
    requires letters { letters ≤ LETTERS }
    requires words { length words.now ≡ certified.now.order }
{
    let cert = certified.cert();
    let mut most = 0;
    for heap in 1..cert.start() + cert.period() {
        let word = heap_text(alloc, certified, Notation::Plain, letters, words, heap)?;
        most = word.len().max(most);
    }
    Ok(most)
}

/// The rows of all heaps in lines.
pub fn rows_text(
    alloc: Global,
    certified: &Certified,
    letters: u8,
    words: &[Word],
) -> Result<String, AllocError>
    requires letters { letters ≤ LETTERS }
    requires words { length words.now ≡ certified.now.order }
    ensures { IfOk result (λ t. IsRowsText certified.now letters words.now (string_bytes t)) }
{
    let cert = certified.cert();
    let (many, last) = (row_width(cert.period()), cert.start() + cert.period() - 1);
    let label = format!(in alloc; "{}", (last - 1) / many * many)?;
    let width = longest(alloc, certified, letters, words)?;
    let frame = Frame::Lines {
        width,
        wide: label.len(),
    };
    let text = rows(alloc, frame, certified, letters, words)?;
    Ok(text)
}

/// The rows of all heaps in one array after another.
pub fn arrays_text(
    alloc: Global,
    certified: &Certified,
    letters: u8,
    words: &[Word],
) -> Result<String, AllocError>
    requires letters { letters ≤ LETTERS }
    requires words { length words.now ≡ certified.now.order }
    ensures { IfOk result
        (λ t. string_bytes t ≡ arrays_text certified.now letters words.now) }
{
    let mut text = rows(alloc, Frame::Arrays, certified, letters, words)?;
    text.push_str(CLOSING)?;
    Ok(text)
}
