//! From where on, and after how many heaps, guessed elements may repeat.
use crate::guess::Guess;
use allocation::Memory;
use quotient_search::least_period;
use std::alloc::Global;

/// A start and a period.
pub(crate) type Repeat = (usize, usize);

/// How many pairs are tried.
const MOST_REPEATS: usize = 6;

/// How many ends of the list are looked at.
const ENDS: usize = 65;

/// The starts and periods that a guess's heaps suggest, the likeliest first: its period where there
/// are as many heaps as show that it goes on, if they are right, and the least ones by the ends of
/// the list.
pub(crate) fn candidates(alloc: Global, guess: &Guess) -> Result<Vec<Repeat>, Memory> {
    let heaps = &guess.heaps;
    let mut all: Vec<Repeat> = Vec::new(alloc);
    if guess.shown {
        all.push((guess.start, guess.period))?;
    }
    for end in (0..heaps.len() + 1).rev() {
        if all.len() >= MOST_REPEATS || heaps.len() - end >= ENDS {
            break;
        }
        if let Some(repeat) = least_period(&heaps[..end]) {
            if !all.contains(&repeat) {
                all.push(repeat)?;
            }
        }
    }
    Ok(all)
}
