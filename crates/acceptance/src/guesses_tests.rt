//! The sizes of known quotients.
use crate::comparing::compare;
use allocation::SmallAllocator;
use guesses::{Guess, Guesser, Reason, furthest};
use octal_code::Code;
use std::alloc::Global;

/// The order, the start and the period of the guess, if it has products for so many elements, and
/// whether its period shows.
fn numbers_of(guess: &Guess) -> Option<(usize, usize, usize, bool)> {
    if guess.products.len() < guess.order {
        return None;
    }
    Some((guess.order, guess.start, guess.period, guess.shown))
}

/// The numbers of the guess for the code.
fn guessed(alloc: Global, text: &[u8], heaps: usize) -> Option<(usize, usize, usize, bool)> {
    let Ok(code) = Code::read(text) else {
        return None;
    };
    match Guesser::new(alloc, heaps, 256).guess(&code) {
        Ok(Ok(guess)) => numbers_of(&guess),
        _ => None,
    }
}

/// Orders and periods of games from the literature: Plambeck and Siegel, 'Misère quotients for
/// impartial games'. Kayles repeats from the heap 71 on, so 64 heaps don't show its period. In
/// 0.b each move changes whether the sum of the heaps is odd.
#[test]
fn finds_known_quotients(rt: HostRuntime) {
    let rows: [(&[u8], usize, (usize, usize, usize)); 7] = [
        (b"0.77", 8210, (40, 71, 12)),
        (b"0.3", 64, (2, 1, 2)),
        (b"0.33", 64, (6, 1, 3)),
        (b"0.33", 9, (6, 1, 3)),
        (b"0.75", 64, (8, 8, 2)),
        (b"0.153", 64, (16, 32, 14)),
        (b"0.b", 64, (2, 1, 2)),
    ];
    for (text, heaps, wanted) in rows {
        let numbers = match guessed(rt.alloc(), text, heaps) {
            Some((order, start, period, _)) => (order, start, period),
            None => (0, 0, 0),
        };
        compare(&rt, "order, start and period", numbers, wanted);
    }
    let of_kayles = guessed(rt.alloc(), b"0.77", 64);
    let is_not_shown = matches!(of_kayles, Some((40, _, _, false)));
    compare(&rt, "Kayles to 64", is_not_shown, true);
}

/// Games of which more than 1,024 heaps come before their elements repeat.
#[test]
fn finds_long_periods(rt: HostRuntime) {
    let rows: [(&[u8], (usize, usize, usize, bool)); 4] = [
        (b"0.156", (34, 3479, 349, true)),
        (b"0.644", (172, 3256, 442, true)),
        (b"0.645", (172, 3256, 442, true)),
        (b"0.677", (172, 3256, 442, true)),
    ];
    for (text, wanted) in rows {
        compare(
            &rt,
            "a long period",
            guessed(rt.alloc(), text, 8210),
            Some(wanted),
        );
    }
    let is_shown = guessed(rt.alloc(), b"0.156", 7657) == Some((34, 3479, 349, true));
    compare(&rt, "0.156 to 7657", is_shown, false);
}

/// How many elements the heaps 1 to `last` have, or where a search for them ends.
fn of_part(alloc: Global, text: &[u8], last: usize, order: usize) -> Result<usize, usize> {
    let Ok(code) = Code::read(text) else {
        return Err(0);
    };
    match Guesser::of_part(alloc, last, order).guess(&code) {
        Ok(Ok(guess)) => Ok(guess.order),
        Ok(Err(Reason::TooLarge { heap })) => Err(heap),
        Ok(Err(_)) | Err(_) => Err(0),
    }
}

/// How many first heaps have at most so many elements.
fn furthest_of(alloc: Global, text: &[u8], order: usize) -> Option<usize> {
    let code = Code::read(text).ok()?;
    furthest(alloc, &code, order).ok()
}

/// Kayles to the heap 11 has 18 elements, and to the heap 20 it has 24; Dawson's Kayles to the heap
/// 33 has 638.
#[test]
fn finds_parts_of_games(rt: HostRuntime) {
    let parts = [
        of_part(rt.alloc(), b"0.77", 20, 512),
        of_part(rt.alloc(), b"0.77", 20, 23),
        of_part(rt.alloc(), b"0.07", 33, 4096),
    ];
    compare(&rt, "parts", parts, [Ok(24), Err(12), Ok(638)]);
    let lasts = [
        furthest_of(rt.alloc(), b"0.07", 637),
        furthest_of(rt.alloc(), b"0.3", 2),
        furthest_of(rt.alloc(), b"0.77", 23),
    ];
    compare(&rt, "last heaps", lasts, [Some(32), Some(1024), Some(11)]);
}

/// Whether the quotient of 0.75 is found to have eight elements.
pub fn is_of_eight<A: SmallAllocator + Copy>(alloc: A) -> Result<bool, u8> {
    let Ok(code) = Code::read(b"0.75") else {
        return Err(0);
    };
    match Guesser::new(alloc, 8210, 256).guess(&code) {
        Ok(Ok(guess)) => Ok(guess.order == 8),
        Ok(Err(_)) => Ok(false),
        Err(memory) => Err(memory.number()),
    }
}
