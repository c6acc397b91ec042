//! Tables of Nim with heaps of 1 and 2, the code 0.33 up to heap 2: ⟨a, b | a² = 1, b³ = b⟩, with the P-portion {a, b²}
//! (Plambeck and Siegel).
use kept_positions::tested_positions;
use normal_forms::{Basis, Exponents, Rule};
use octal_code::Code;
use presentations::LETTERS;
use presented_tables::{Presented, TablesFault, tables_of};
use presented_text::LetterCycle;
use std::alloc::Allocator;

/// A word in two letters.
const fn word(a: u16, b: u16) -> Exponents {
    let mut word = [0; LETTERS];
    word[0] = a;
    word[1] = b;
    word
}

/// The game with this word of heap 2 and this portion.
fn nim<A: Allocator + Copy>(
    alloc: A,
    two: Option<Exponents>,
    portion: &[Exponents],
) -> Option<Presented<A>> {
    let rules = [
        Rule {
            left: word(2, 0),
            right: word(0, 0),
        },
        Rule {
            left: word(0, 3),
            right: word(0, 1),
        },
    ];
    let cycles = [
        LetterCycle {
            start: 2,
            period: 1,
        },
        LetterCycle {
            start: 3,
            period: 1,
        },
    ];
    let basis = match Basis::new(alloc, Vec::from_slice(alloc, &rules).ok()?) {
        Ok(basis) => basis,
        Err(_) => return None,
    };
    Some(Presented {
        code: Code::read(b"0.33").ok()?,
        heaps: 2,
        period: 0,
        letters: Vec::from_slice(alloc, &[1, 2]).ok()?,
        words: Vec::from_slice(alloc, &[Some(word(1, 0)), two]).ok()?,
        basis,
        cycles: Vec::from_slice(alloc, &cycles).ok()?,
        portion: Vec::from_slice(alloc, portion).ok()?,
    })
}

/// How many elements the tables have and how many positions are kept, 0 if the rule fails; or why there are none.
fn answer<A: Allocator + Copy>(
    alloc: A,
    two: Option<Exponents>,
    portion: &[Exponents],
) -> Option<Result<(usize, usize), TablesFault>> {
    let p = nim(alloc, two, portion)?;
    let t = match tables_of(alloc, &p) {
        Ok(t) => t,
        Err(fault) => return Some(Err(fault)),
    };
    let kept = match tested_positions(alloc, &t.tables, 100) {
        Ok(kept) => kept.count,
        Err(_) => 0,
    };
    Some(Ok((t.elements.words.len(), kept)))
}

#[test]
fn nim_has_its_tables(rt: HostRuntime) {
    let found = answer(rt.alloc(), Some(word(0, 1)), &[word(1, 0), word(0, 2)]);
    assert_eq!(rt; found, Some(Ok((6, 4))));
}

#[test]
fn wrong_portions_are_refused(rt: HostRuntime) {
    let two = Some(word(0, 1));
    let found = answer(rt.alloc(), two, &[word(0, 0), word(1, 0), word(0, 2)]);
    assert_eq!(rt; found, Some(Err(TablesFault::Ended)));
    let found = answer(rt.alloc(), two, &[word(1, 0), word(0, 1)]);
    assert_eq!(rt; found, Some(Err(TablesFault::Moves(2, word(0, 0)))));
    let found = answer(rt.alloc(), two, &[word(1, 0)]);
    assert_eq!(rt; found, Some(Ok((6, 0))));
}

#[test]
fn faulty_heaps_are_refused(rt: HostRuntime) {
    let portion = [word(1, 0), word(0, 2)];
    let found = answer(rt.alloc(), Some(word(30, 0)), &portion);
    assert_eq!(rt; found, Some(Err(TablesFault::Moves(2, word(1, 0)))));
}
