//! Codes read and written.
use crate::comparing::compare;
use octal_code::{Code, CodeFault};
use std::alloc::{Allocator, Global};

/// Whether the code is written as the bytes, or the number of the fault.
pub fn is_written_as<A: Allocator>(alloc: A, code: &Code, bytes: &[u8]) -> Result<bool, u8> {
    match code.text(alloc) {
        Ok(text) => Ok(text.as_bytes() == bytes),
        Err(memory) => Err(memory.number()),
    }
}

/// Whether a code is read of the bytes and written as the same bytes, or the number of the fault.
pub fn comes_back<A: Allocator>(alloc: A, bytes: &[u8]) -> Result<bool, u8> {
    match Code::read(bytes) {
        Ok(code) => is_written_as(alloc, &code, bytes),
        Err(fault) => Err(fault.number()),
    }
}

/// What comes of a text: 1 is no code, and 2 is too long a one. Codes of each length are written.
static ROWS: [(&[u8], Result<bool, u8>); 43] = [
    (b"0.75", Ok(true)),
    (b"4.07", Ok(true)),
    (b"0.3", Ok(true)),
    (b"4.1", Ok(true)),
    (b"0.1", Ok(true)),
    (b"0.11", Ok(true)),
    (b"0.111", Ok(true)),
    (b"0.1111", Ok(true)),
    (b"0.11111", Ok(true)),
    (b"0.111111", Ok(true)),
    (b"0.1111111", Ok(true)),
    (b"0.11111111", Ok(true)),
    (b"0.111111111", Ok(true)),
    (b"0.1111111111", Ok(true)),
    (b"0.11111111111", Ok(true)),
    (b"0.111111111111", Ok(true)),
    (b"0.1111111111111", Ok(true)),
    (b"0.11111111111111", Ok(true)),
    (b"0.111111111111111", Ok(true)),
    (b"0.1111111111111111", Ok(true)),
    (b"0.11111111111111111", Err(2)),
    (b"0.", Err(1)),
    (b"0.30", Err(1)),
    (b"00.3", Err(1)),
    (b"1.3", Err(1)),
    (b".3", Err(1)),
    (b"0.8", Ok(true)),
    (b"0.b", Ok(true)),
    (b"8.1", Ok(true)),
    (b"c.0f", Ok(true)),
    (b"0.9abcdef", Ok(true)),
    (b"c.0123456789abcdef", Ok(true)),
    (b"8.00000000000000008", Err(2)),
    (b"c.123456789abcdef01", Err(2)),
    (b"2.11111111111111111", Err(1)),
    (b"0.123456789abcdef00", Err(1)),
    (b"0.b0", Err(1)),
    (b"0.B", Err(1)),
    (b"C.1", Err(1)),
    (b"0.g", Err(1)),
    (b"f.1", Err(1)),
    (b"9.1", Err(1)),
    (b"8.", Err(1)),
];

/// How many rows hold, up to the first that doesn't.
fn count_held(alloc: Global, rows: &[(&[u8], Result<bool, u8>)]) -> usize {
    let mut held = 0usize;
    for (bytes, wanted) in rows {
        if comes_back(alloc, bytes) != *wanted {
            return held;
        }
        held = held.saturating_add(1);
    }
    held
}

/// How many digits the code has after the point, its first four, and whether it is octal.
fn digits_of(bytes: &[u8]) -> Option<(u8, [u8; 4], bool)> {
    match Code::read(bytes) {
        Ok(code) => {
            let digits = [code.digit(0), code.digit(1), code.digit(2), code.digit(3)];
            Some((code.last(), digits, code.is_octal()))
        }
        Err(_) => None,
    }
}

#[test]
fn codes(rt: HostRuntime) {
    compare(&rt, "ROWS", count_held(rt.alloc(), &ROWS), 43);
    let numbers = [CodeFault::NotACode.number(), CodeFault::TooLong.number()];
    compare(&rt, "faults", numbers, [1, 2]);
    for (bytes, digits, is_octal) in [
        (b"4.07", [4, 0, 7, 0], true),
        (b"4.08", [4, 0, 8, 0], false),
        (b"8.07", [8, 0, 7, 0], false),
        (b"c.af", [12, 10, 15, 0], false),
        (b"0.9b", [0, 9, 11, 0], false),
    ] {
        compare(&rt, "digits", digits_of(bytes), Some((2, digits, is_octal)));
    }
}
