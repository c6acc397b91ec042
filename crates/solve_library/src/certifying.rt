//! The call that certifies tables.
ghost use Rattle.std.specs.Prelude.{◌≡◌, ◌≢◌, IfOk, IfErr};
ghost use Rattle.solve_command.specs.Certifies.{TellsBytes};
ghost use Rattle.solve_library.specs.Handed.{HandsOver};

use crate::causes::Untold;
use crate::handing::{Told, hand_over};
use solve_command::{ToldTable, certify_bytes};
use std::alloc::Global;

/// What is told of the table that the bytes spell.
fn certified(alloc: Global, table: &[u8], limit: u32) -> Result<Told, Untold>
    ensures tells { IfOk result (λ it. TellsBytes table.now limit it.text.items it.status
        × (it.status ≢ 9) × (it.status ≢ 14)) }
    ensures why { IfErr result (λ why. why ≡ Untold.Memory) }
{
    match certify_bytes(alloc, table, limit) {
        Ok(ToldTable { text, status }) => Ok(Told { status, text }),
        Err(_) => Err(Untold::Memory),
    }
}

/// Certifies the quotient of the table that the bytes spell, in whatever numbers, and tells the bytes
/// of its certificate, and how many they are. Of another table, and of bytes that spell none, it tells
/// the lines of `misere certify`, which say in the table's own numbers what is wrong. Where there is
/// no room for what it tells, it tells how many bytes they are alone.
#[unsafe(no_mangle)]
pub extern "C" fn misere_certify(
    alloc: Global,
    table: &[u8],
    limit: u32,
    told: &mut [u8],
    count: &mut u64,
) -> u32
    ensures { HandsOver (λ status text. TellsBytes table.now limit text status × (status ≢ 9) × (status ≢ 14))
        (λ why. why ≡ Untold.Memory) told.old told.new count.old count.new result }
{
    hand_over(certified(alloc, table, limit), told, count)
}
