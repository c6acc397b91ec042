//! What is asked of bytes: each question has them checked.
ghost use Rattle.std.specs.Prelude.{◌≡◌, ◌≢◌, ◌≤◌, All, IfOk, IfErr, length};
ghost use Rattle.misere_theory.specs.Certificates.{Accepted, IsHeapOf};
ghost use Rattle.certificate_text.specs.Spelling.{Spells};
ghost use Rattle.answers.specs.ByteVerdicts.{refused};
ghost use Rattle.answers.specs.ByteVerdicts.ByteVerdict.{Yes};
ghost use Rattle.check_machine.specs.Turns.{verdict};
ghost use Rattle.positions.specs.Positions.{IsSize};
ghost use Rattle.misere_library.specs.Numbers.{status_of};
ghost use Rattle.misere_library.specs.Queries.{Certify, IsNo, IsNoToMany, IsStatus};
ghost use Rattle.misere_library.specs.Questions.{TellsAsked};
ghost use Rattle.player.specs.Many.{AreEnds, TellAll};

use crate::asking::{Question, fit, number_at};
use crate::many::fill;
use answers::{Certified, Refusal};
use checker::check;
use player::{DONE, NOT_A_HEAP, NOT_ENDS, are_ends, are_sizes};
use std::alloc::Global;

/// The number of a refusal.
pub(crate) fn status(refusal: &Refusal) -> u32
    ensures number { result ≡ status_of (refused refusal.now) }
    ensures from_one { 1 ≤ result }
{
    refusal.number() as u32
}

/// The accepted certificate that the bytes are, or the number of the refusal.
pub(crate) fn certified(alloc: Global, bytes: &[u8], limit: u32) -> Result<Certified, u32>
    ensures yes { IfOk result (λ c. Spells bytes.now c × Accepted c) }
    ensures verdict { IfOk result (λ c. verdict bytes.now limit ≡ Yes c) }
    ensures status_yes { IfOk result (λ c. IsStatus bytes.now limit 0) }
    ensures no { IfErr result (λ s. s ≢ 0 × IsStatus bytes.now limit s) }
{
    match check(alloc, bytes, limit) {
        Ok(certified) => Ok(certified),
        Err(refusal) => Err(status(&refusal)),
    }
}

/// The accepted certificate that the bytes are, if it speaks of the heaps; else why not.
pub(crate) fn certified_of(
    alloc: Global,
    bytes: &[u8],
    limit: u32,
    heaps: &[u64],
) -> Result<Certified, u32>
    ensures yes { IfOk result (λ c. Spells bytes.now c × Accepted c) }
    ensures verdict { IfOk result (λ c. verdict bytes.now limit ≡ Yes c) }
    ensures sizes { IfOk result (λ c. All IsSize heaps.now) }
    ensures speaks { IfOk result (λ c. All (IsHeapOf c) heaps.now) }
    ensures no { IfErr result (λ s. s ≢ 0 × IsNo bytes.now limit heaps.now s) }
{
    if !are_sizes(heaps) {
        return Err(NOT_A_HEAP);
    }
    let certified = certified(alloc, bytes, limit)?;
    match fit(&certified, heaps) {
        Ok(()) => Ok(certified),
        Err(status) => Err(status),
    }
}

/// The accepted certificate that the bytes are, if the ends cut the heaps into as many positions as
/// there is room for, and it speaks of them; else why not.
pub(crate) fn certified_of_all(
    alloc: Global,
    bytes: &[u8],
    limit: u32,
    heaps: &[u64],
    ends: &[u64],
    room: usize,
) -> Result<Certified, u32>
    ensures yes { IfOk result (λ c. Spells bytes.now c × Accepted c) }
    ensures verdict { IfOk result (λ c. verdict bytes.now limit ≡ Yes c) }
    ensures sizes { IfOk result (λ c. All IsSize heaps.now) }
    ensures speaks { IfOk result (λ c. All (IsHeapOf c) heaps.now) }
    ensures ends { IfOk result (λ c. AreEnds (length heaps.now) ends.now) }
    ensures room { IfOk result (λ c. room ≡ length ends.now) }
    ensures no { IfErr result
        (λ s. s ≢ 0 × IsNoToMany bytes.now limit heaps.now ends.now room s) }
{
    if room != ends.len() || !are_ends(heaps.len(), ends) {
        return Err(NOT_ENDS);
    }
    certified_of(alloc, bytes, limit, heaps)
}

/// Tells what is asked of the position of the heaps, by the certificate that the bytes are.
pub(crate) fn tell(
    alloc: Global,
    bytes: &[u8],
    limit: u32,
    question: Question,
    heaps: &[u64],
    told: &mut u32,
) -> u32
    ensures yes { result ≡ 0 → Certify bytes.now limit (TellsAsked question heaps.now told.new) }
    ensures no { result ≢ 0 → IsNo bytes.now limit heaps.now result }
    ensures stays { result ≢ 0 → told.new ≡ told.old }
{
    match certified_of(alloc, bytes, limit, heaps) {
        Ok(certified) => {
            *told = number_at(question, &certified, heaps);
            DONE
        }
        Err(status) => status,
    }
}

/// Tells what is asked of each position, by the certificate that the bytes are.
pub(crate) fn tell_all(
    alloc: Global,
    bytes: &[u8],
    limit: u32,
    question: Question,
    heaps: &[u64],
    ends: &[u64],
    told: &mut [u32],
) -> u32
    ensures yes { result ≡ 0
        → Certify bytes.now limit (TellAll (TellsAsked question) heaps.now ends.now told.new) }
    ensures no { result ≢ 0
        → IsNoToMany bytes.now limit heaps.now ends.now (length told.old) result }
    ensures stays { result ≢ 0 → told.new ≡ told.old }
{
    match certified_of_all(alloc, bytes, limit, heaps, ends, told.len()) {
        Ok(certified) => {
            fill(question, &certified, heaps, ends, told);
            DONE
        }
        Err(status) => status,
    }
}
