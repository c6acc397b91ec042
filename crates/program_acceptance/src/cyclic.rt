//! Certificates over cyclic groups.
use std::alloc::Global;

/// The product of two elements of a cyclic group.
fn times(order: u16, x: u16, y: u16) -> u16 {
    x.wrapping_add(y) % order.max(1)
}

/// Whether an element of a cyclic group is in the portion: the odd ones but the last, or the odd
/// ones and the last but one.
fn is_in(order: u16, but_the_last: bool, x: u16) -> bool {
    if but_the_last {
        x % 2 == 1 && x.saturating_add(1) != order
    } else {
        x % 2 == 1 || x.saturating_add(2) == order
    }
}

/// The least element with exactly one of its products with x and with y in the portion.
fn separating(order: u16, but_the_last: bool, x: u16, y: u16) -> u16 {
    for z in 0..order {
        let takes_x = is_in(order, but_the_last, times(order, x, z));
        if takes_x != is_in(order, but_the_last, times(order, y, z)) {
            return z;
        }
    }
    0
}

/// Puts a text behind another. Whether memory suffices, as of each below.
fn put_text(text: &mut Vec<u8>, more: &str) -> bool {
    text.extend_from_slice(more.as_bytes()).is_ok()
}

/// A number of a line, behind a space.
fn put(alloc: Global, text: &mut Vec<u8>, number: u16) -> bool {
    match format!(in alloc; " {number}") {
        Ok(word) => put_text(text, word.as_str()),
        Err(_) => false,
    }
}

/// A line, or the part of one, that has an entry for each of some numbers.
#[derive(Clone, Copy)]
enum Line {
    /// The portion: those in it, of the order, but the last or not.
    Portion(u16, bool),
    Words,
    /// The row of an element, of the order.
    Row(u16, u16),
    /// The separating elements of an element and each greater one.
    Apart(u16, bool, u16),
}

/// The entry for x.
fn put_entry(alloc: Global, text: &mut Vec<u8>, line: Line, x: u16) -> bool {
    match line {
        Line::Portion(order, last) => !is_in(order, last, x) || put(alloc, text, x),
        Line::Words => put(alloc, text, x.saturating_sub(1)) && put_text(text, ":1"),
        Line::Row(order, y) => put(alloc, text, times(order, y, x)),
        Line::Apart(order, last, y) => put(alloc, text, separating(order, last, y, x)),
    }
}

/// The entries for the numbers from `from` to before `until`.
fn put_line(alloc: Global, text: &mut Vec<u8>, line: Line, from: u16, until: u16) -> bool {
    let mut done = true;
    for x in from..until {
        done &= put_entry(alloc, text, line, x);
    }
    done
}

/// The rows of a cyclic group.
fn put_rows(alloc: Global, text: &mut Vec<u8>, order: u16) -> bool {
    let mut done = true;
    for x in 0..order {
        done &= put_text(text, "\nrow") && put_line(alloc, text, Line::Row(order, x), 0, order);
    }
    done
}

/// The separating elements.
fn put_apart(alloc: Global, text: &mut Vec<u8>, order: u16, but_the_last: bool) -> bool {
    let mut done = true;
    for x in 0..order {
        let line = Line::Apart(order, but_the_last, x);
        done &= put_line(alloc, text, line, x.saturating_add(1), order);
    }
    done
}

/// The format of an order.
fn format_of(order: u16) -> u16 {
    if order > 512 {
        3
    } else if order > 256 {
        2
    } else {
        1
    }
}

/// The rows and the separating elements, or in the third format the row of the heap 1's element.
fn put_table(alloc: Global, text: &mut Vec<u8>, order: u16, but_the_last: bool) -> bool {
    if format_of(order) == 3 {
        return put_text(text, "\nrow") && put_line(alloc, text, Line::Row(order, 1), 0, order);
    }
    put_rows(alloc, text, order)
        && put_text(text, "\napart")
        && put_apart(alloc, text, order, but_the_last)
}

/// The lines up to the portion's first word.
fn put_front(alloc: Global, text: &mut Vec<u8>, order: u16) -> bool {
    put_text(text, "mqc")
        && put(alloc, text, format_of(order))
        && put_text(text, "\ncode 0.3\norder")
        && put(alloc, text, order)
        && put_text(text, "\nstart 1\nperiod 2\nphi 1 0\nportion")
}

/// The portion and the lines behind it.
fn put_back(alloc: Global, text: &mut Vec<u8>, order: u16, but_the_last: bool) -> bool {
    let portion = Line::Portion(order, but_the_last);
    put_line(alloc, text, portion, 0, order)
        && put_text(text, "\nwords")
        && put_line(alloc, text, Line::Words, 1, order)
        && put_table(alloc, text, order, but_the_last)
        && put_text(text, "\nend\n")
}

/// A certificate for 0.3 over a cyclic group of even order, in which a heap of odd size is 1 and
/// one of even size 0. The rule fails first at positions of many heaps.
pub fn cyclic(alloc: Global, order: u16, but_the_last: bool) -> Option<Vec<u8>> {
    let mut text = Vec::new(alloc);
    if put_front(alloc, &mut text, order) && put_back(alloc, &mut text, order, but_the_last) {
        Some(text)
    } else {
        None
    }
}
