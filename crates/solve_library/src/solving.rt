//! The search for a certificate.
ghost use Rattle.std.specs.Prelude.{◌↔◌, IfSome, IfOk, IfErr, IsSome, IsTrue};
ghost use Rattle.solve_library.specs.Found.{AreBounds, AreNumbersInRange, IsAim, IsAimInRange, IsInRange, IsUnfound, Tells};

use crate::causes::{GAVE_UP, Untold};
use crate::handing::Told;
use command_results::{Said, Stop};
use misere_theory::{LARGEST_FIRST_ORDER, LARGEST_ORDER, LARGEST_PART};
use quotient_search::DEEPEST;
use requests::{Aim, FEWEST_HEAPS, LARGEST_LIMIT, LEAST_ORDER, MOST_HEAPS, MOST_ROUNDS};
use solve_command::{SolveBounds, solve_bytes};
use std::alloc::Global;

/// What is asked of a search, and whether it tells why it is given up. Each number has the range that
/// it has on a command line; of a whole game as many heaps may be looked at as the certificate of an
/// octal code can need, and where they are more than 64, the order has the range that it has with
/// `--deep`.
#[derive(Clone, Copy)]
pub(crate) struct Asked {
    pub limit: u32,
    pub rounds: u32,
    pub aim: u32,
    pub heaps: u32,
    pub order: u32,
    pub tells_why: bool,
}

/// What the search aims at, where the numbers of it are in their ranges.
fn aim_of(asked: Asked) -> Option<Aim>
    ensures aim { IfSome result (IsAim asked.aim asked.heaps) }
    ensures range { IsSome result ↔ IsAimInRange asked }
{
    let heaps = asked.heaps;
    let is_order = MOST_HEAPS < heaps || asked.order <= LARGEST_FIRST_ORDER as u32;
    match asked.aim {
        0 if FEWEST_HEAPS <= heaps && heaps <= DEEPEST as u32 && is_order => Some(Aim::Whole {
            heaps,
        }),
        1 if 1 <= heaps && heaps <= LARGEST_PART as u32 => Some(Aim::Part { last: heaps }),
        2 => Some(Aim::Furthest),
        _ => None,
    }
}

/// Whether the other numbers are in their ranges.
fn are_in_range(asked: Asked) -> bool
    ensures { IsTrue result ↔ AreNumbersInRange asked }
{
    let is_limit = 1 <= asked.limit && asked.limit <= LARGEST_LIMIT;
    let are_rounds = 1 <= asked.rounds && asked.rounds <= MOST_ROUNDS;
    let is_order = LEAST_ORDER <= asked.order && asked.order <= LARGEST_ORDER as u32;
    is_limit && are_rounds && is_order
}

/// The bounds of the search, where all that is asked is in its range.
fn bounds_of(asked: Asked) -> Option<SolveBounds>
    ensures bounds { IfSome result (AreBounds asked) }
    ensures range { IsSome result ↔ IsInRange asked }
{
    let aim = aim_of(asked)?;
    if !are_in_range(asked) {
        return None;
    }
    Some(SolveBounds {
        limit: asked.limit,
        rounds: asked.rounds,
        order: asked.order,
        aim,
        tells_why: asked.tells_why,
    })
}

/// The text of the certificate that is found for the code that the bytes spell, or, where that is
/// asked, the text that says how the search was given up.
pub(crate) fn solved(alloc: Global, code: &[u8], asked: Asked) -> Result<Told, Untold>
    ensures tells { IfOk result (λ it. Tells code.now asked it.status it.text.items) }
    ensures why { IfErr result (IsUnfound code.now asked) }
{
    let Some(bounds) = bounds_of(asked) else {
        return Err(Untold::NotInRange);
    };
    match solve_bytes(alloc, code, bounds) {
        Ok(
            Said {
                text,
                succeeds: true,
            },
        ) => Ok(Told { status: 0, text }),
        Ok(Said { text, .. }) if asked.tells_why => Ok(Told {
            status: GAVE_UP,
            text,
        }),
        Ok(_) => Err(Untold::GaveUp),
        Err(Stop::NotACode) => Err(Untold::NotACode),
        Err(_) => Err(Untold::Memory),
    }
}
