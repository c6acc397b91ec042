//! A certificate in the third format, with lines changed that then say another table.
use crate::certificate_tests::comes_back;
use crate::comparing::compare;
use crate::texts::{Repeats, text_of};
use certificate::read;
use std::alloc::{Allocator, Global};

/// The table of 0.33, and elements of 1,026 heaps.
static OF_0_33: [(Repeats, usize); 1] = [(
    &[
        (b"mqc 3\ncode 0.33\norder 6\nstart 1\nperiod 1026\nphi", 1),
        (b" 1 2 0", 342),
        (
            b"\nportion 1 4\nwords 0:1 0:2 1:2 2:2 3:2\nrow 1 0 3 2 5 4\nrow 2 3 4 5 2 3\nend\n",
            1,
        ),
    ],
    1,
)];

/// Its rows, one behind the other, and its separators.
const ROWS: &[u16] = &[
    0, 1, 2, 3, 4, 5, 1, 0, 3, 2, 5, 4, 2, 3, 4, 5, 2, 3, 3, 2, 5, 4, 3, 2, 4, 5, 2, 3, 4, 5, 5, 4,
    3, 2, 5, 4,
];

const APART: &[u16] = &[0, 1, 1, 0, 4, 0, 0, 4, 0, 2, 0, 1, 0, 1, 0];

/// Whether that certificate is read, or the number of the fault.
pub fn is_read<A: Allocator + Copy>(alloc: A) -> Result<bool, u8> {
    let Ok(text) = text_of(alloc, &OF_0_33) else {
        return Err(9);
    };
    match read(alloc, &text) {
        Ok(cert) => Ok(cert.rows() == ROWS && cert.apart() == APART),
        Err(fault) => Err(fault.number()),
    }
}

/// Whether the bytes are read as a certificate of these rows and separators, and written as they
/// were.
fn has_table(alloc: Global, bytes: &[u8], rows: &[u16], apart: &[u16]) -> bool {
    match read(alloc, bytes) {
        Ok(cert) => cert.rows() == rows && cert.apart() == apart && comes_back(alloc, bytes, 0),
        Err(_) => false,
    }
}

/// The text with another one in place of a part that stands there once.
fn changed(alloc: Global, text: &str, old: &str, new: &str) -> Option<String> {
    let (before, behind) = text.split_once(old)?;
    if behind.contains(old) {
        return None;
    }
    format!(in alloc; "{before}{new}{behind}").ok()
}

/// What stands in the text, what is to stand there, and the rows and separators that are then made:
/// another code; another start; a key's heap that is the last; a portion of all elements; a key of
/// a first element behind those of the first ones; and a row of no monoid.
static KEPT: [(&str, &str, &[u16], &[u16]); 6] = [
    ("code 0.33", "code 8.b", ROWS, APART),
    ("start 1\nperiod 1026", "start 1026\nperiod 1", ROWS, APART),
    (" 0:1", " 0:1026", ROWS, APART),
    ("portion 1 4", "portion 0 1 2 3 4 5", ROWS, &[0; 15]),
    (
        " 2:2",
        " 0:2",
        &[
            0, 1, 2, 3, 4, 5, 1, 0, 3, 2, 5, 4, 2, 3, 4, 5, 2, 3, 3, 2, 5, 4, 3, 2, 2, 3, 4, 5, 2,
            3, 5, 4, 3, 2, 5, 4,
        ],
        &[0, 1, 1, 1, 4, 0, 0, 0, 0, 2, 0, 1, 2, 1, 1],
    ),
    (
        "row 2 3 4 5 2 3",
        "row 5 5 5 5 5 5",
        &[
            0, 1, 2, 3, 4, 5, 1, 0, 3, 2, 5, 4, 5, 5, 5, 5, 5, 5, 4, 4, 4, 4, 4, 4, 5, 5, 5, 5, 5,
            5, 4, 4, 4, 4, 4, 4,
        ],
        &[0, 1, 0, 1, 0, 0, 1, 0, 1, 0, 0, 0, 0, 0, 0],
    ),
];

/// Whether the changed text is read and written.
fn is_kept(alloc: Global, text: &str, row: &(&str, &str, &[u16], &[u16])) -> bool {
    let (old, new, rows, apart) = *row;
    match changed(alloc, text, old, new) {
        Some(other) => has_table(alloc, other.as_bytes(), rows, apart),
        None => false,
    }
}

/// How many changed texts are read and written, up to the first that isn't.
fn count_kept(alloc: Global, text: &str) -> usize {
    let mut held = 0usize;
    for row in &KEPT {
        if !is_kept(alloc, text, row) {
            return held;
        }
        held = held.saturating_add(1);
    }
    held
}

/// How many changed texts are read, if the text itself is.
fn count_read(alloc: Global) -> Option<usize> {
    let bytes = text_of(alloc, &OF_0_33).ok()?;
    let text = std::str::from_utf8(&bytes).ok()?;
    if !has_table(alloc, &bytes, ROWS, APART) {
        return None;
    }
    Some(count_kept(alloc, text))
}

#[test]
fn rows_and_separators_are_made(rt: HostRuntime) {
    compare(&rt, "KEPT", count_read(rt.alloc()), Some(6));
}
