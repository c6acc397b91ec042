//! A draft out of a guess.
use crate::candidates::Repeat;
use crate::canonical_form::CanonicalForm;
use crate::format::format_by;
use crate::guess::Guess;
use crate::lines::{push_keys, push_line, push_pair};
use allocation::Memory;
use certificate_text::LONGEST_TEXT;
use misere_theory::MOST_ENTRIES;
use octal_code::Code;
use quotient_search::DEEPEST;
use std::alloc::Global;

/// Whether a certificate has room for the entries of a start and a period, and no more heaps show them
/// than are looked at.
fn has_room(code: &Code, repeat: Repeat) -> bool {
    let parts = if code.leaves_three() { 3 } else { 2 };
    let entries = repeat.0.saturating_add(repeat.1);
    entries <= MOST_ENTRIES as usize + 1 && entries.saturating_mul(parts) <= DEEPEST
}

/// The text of the certificate of the code that the guess makes, where its heaps repeat from a
/// start on after a period, or of the heaps below the start alone where the period is 0: the
/// elements that products of heaps reach, numbered by least keys, with least separating elements.
///
/// There is none where `has_room` says no, where the guess has no such heaps or products, where more
/// than `most` elements are reached, or only one, where none of them is in the portion, where no
/// element separates two of them, or where the text has more than `LONGEST_TEXT`. Whatever numbers the
/// guess holds, the call ends.
pub(crate) fn draft(
    alloc: Global,
    code: &Code,
    guess: &Guess,
    repeat: Repeat,
    most: usize,
) -> Result<Option<Vec<u8>>, Memory> {
    let (start, period) = repeat;
    if !has_room(code, repeat) {
        return Ok(None);
    }
    let Some(length) = start.saturating_add(period).checked_sub(1) else {
        return Ok(None);
    };
    let Some(heaps) = guess.heaps.get(..length) else {
        return Ok(None);
    };
    let mut form = CanonicalForm::empty(alloc);
    if form.fill(alloc, guess, heaps, most)? {
        text(alloc, code, repeat, &form)
    } else {
        Ok(None)
    }
}

/// The lines.
fn text(
    alloc: Global,
    code: &Code,
    repeat: Repeat,
    form: &CanonicalForm,
) -> Result<Option<Vec<u8>>, Memory> {
    let mut text = Vec::new(alloc);
    let order = form.numbering.elements.len();
    let format = format_by(code, order, repeat.0, repeat.1);
    push_pair(&mut text, b"mqc", format)?;
    push_code(alloc, code, &mut text)?;
    push_numbers(repeat, form, &mut text)?;
    push_table(form, format, &mut text)?;
    text.extend_from_slice(b"end\n")?;
    Ok(if text.len() <= LONGEST_TEXT {
        Some(text)
    } else {
        None
    })
}

/// Adds the line of the code.
fn push_code(alloc: Global, code: &Code, text: &mut Vec<u8>) -> Result<(), Memory> {
    let name = code.text(alloc)?;
    text.extend_from_slice(b"code ")?;
    text.extend_from_slice(name.as_str().as_bytes())?;
    text.push(b'\n')?;
    Ok(())
}

/// Adds the lines between the code and the table.
fn push_numbers(repeat: Repeat, form: &CanonicalForm, text: &mut Vec<u8>) -> Result<(), Memory> {
    push_pair(text, b"order", form.numbering.elements.len())?;
    push_pair(text, b"start", repeat.0)?;
    push_pair(text, b"period", repeat.1)?;
    push_line(text, b"phi", &form.phi)?;
    push_line(text, b"portion", &form.portion)?;
    push_keys(text, &form.numbering.keys)
}

/// Adds the table and the line behind it; in the third format the rows of the first elements alone,
/// those whose keys have the element 0, since the other lines follow.
fn push_table(form: &CanonicalForm, format: usize, text: &mut Vec<u8>) -> Result<(), Memory> {
    if format == 3 {
        push_rows(form, 1, form.numbering.firsts().saturating_add(1), text)
    } else {
        push_rows(form, 0, form.numbering.elements.len(), text)?;
        push_line(text, b"apart", &form.apart)
    }
}

/// Adds the rows of the elements from `first` on, up to the one before `behind`.
fn push_rows(
    form: &CanonicalForm,
    first: usize,
    behind: usize,
    text: &mut Vec<u8>,
) -> Result<(), Memory> {
    let order = form.numbering.elements.len();
    for x in first..behind {
        let from = x.saturating_mul(order);
        if let Some(row) = form.rows.get(from..from.saturating_add(order)) {
            push_line(text, b"row", row)?;
        }
    }
    Ok(())
}
