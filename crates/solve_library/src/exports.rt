//! The calls.
ghost use Rattle.std.specs.Prelude.{◌≡◌, false, true};
ghost use Rattle.solve_library.specs.Found.{IsTextOf, IsUnfound, IsUntold, Tells};
ghost use Rattle.solve_library.specs.Asked.{IsOpenedText, IsOpenedUntold};
ghost use Rattle.solve_library.specs.Handed.{HandsOver, asked};

use crate::describing::described;
use crate::handing::hand_over;
use crate::opened_texts::opened_text;
use crate::solving::{Asked, solved};
use opened::Opened;
use std::alloc::Global;

/// Looks for a quotient of the game of a code, and tells the bytes of its certificate, and how many
/// they are. Where there is no room for them it tells how many they are alone.
///
/// `aim` is 0 for the whole game, of which the heaps 1 to `heaps` are looked at, from 2 to 8210; 1 for
/// the part of the heaps 1 to `heaps`, from 1 to 1024; 2 for the part of the most first heaps, whatever
/// `heaps`. The order is from 2 to 4096, but of the whole game by at most 64 heaps to 256.
#[unsafe(no_mangle)]
pub extern "C" fn misere_solve(
    alloc: Global,
    code: &[u8],
    limit: u32,
    rounds: u32,
    aim: u32,
    heaps: u32,
    order: u32,
    told: &mut [u8],
    count: &mut u64,
) -> u32
    ensures { let a = asked limit rounds aim heaps order false in
        HandsOver (Tells code.now a) (IsUnfound code.now a) told.old told.new count.old count.new result }
{
    let asked = Asked {
        limit,
        rounds,
        aim,
        heaps,
        order,
        tells_why: false,
    };
    hand_over(solved(alloc, code, asked), told, count)
}

/// Looks for a quotient as `misere_solve` does. Where the search is given up it tells how, with the
/// reason, in the lines of `misere solve CODE --why`, and how many bytes they are; they too need room.
#[unsafe(no_mangle)]
pub extern "C" fn misere_solve_why(
    alloc: Global,
    code: &[u8],
    limit: u32,
    rounds: u32,
    aim: u32,
    heaps: u32,
    order: u32,
    told: &mut [u8],
    count: &mut u64,
) -> u32
    ensures { let a = asked limit rounds aim heaps order true in
        HandsOver (Tells code.now a) (IsUnfound code.now a) told.old told.new count.old count.new result }
{
    let asked = Asked {
        limit,
        rounds,
        aim,
        heaps,
        order,
        tells_why: true,
    };
    hand_over(solved(alloc, code, asked), told, count)
}

/// Describes the quotient that the bytes certify: `output` is 0 for its description, 1 for that for
/// LaTeX, 2 for its relations as one word, 3 for its description in JSON, 4 and 5 for the ideal of its
/// relations for Singular and for GAP; `form` is 0 for a short list of relations, 1 for the reduced
/// Gröbner basis. Tells the text, and how many bytes it has; where there is no room for them, how many
/// they are alone.
#[unsafe(no_mangle)]
pub extern "C" fn misere_describe(
    alloc: Global,
    bytes: &[u8],
    limit: u32,
    output: u32,
    form: u32,
    told: &mut [u8],
    count: &mut u64,
) -> u32
    ensures { HandsOver (λ status text. (status ≡ 0) × IsTextOf bytes.now limit output form text)
        (IsUntold bytes.now limit output form) told.old told.new count.old count.new result }
{
    hand_over(described(alloc, bytes, limit, output, form), told, count)
}

/// Describes the quotient that is opened, as `misere_describe` that of bytes.
#[unsafe(no_mangle)]
pub extern "C" fn misere_opened_describe(
    alloc: Global,
    opened: &mut Opened,
    output: u32,
    form: u32,
    told: &mut [u8],
    count: &mut u64,
) -> u32
    ensures described { let c = opened.old.handle.value in
        HandsOver (λ status text. (status ≡ 0) × IsOpenedText c output form text)
        (IsOpenedUntold c output form) told.old told.new count.old count.new result }
    ensures same { opened.new.handle.value ≡ opened.old.handle.value }
{
    hand_over(opened_text(alloc, opened, output, form), told, count)
}
