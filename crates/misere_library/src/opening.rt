//! What is asked of a quotient that was opened, and its owners.
ghost use Rattle.std.specs.Prelude.{◌≡◌, ◌≢◌, IfOk, IfErr, length};
ghost use Rattle.misere_library.specs.Queries.{Certify, IsStatus};
ghost use Rattle.misere_library.specs.Questions.{TellsAsked};
ghost use Rattle.misere_library.specs.Asked.{IsNoAnswer, IsNoAnswerToMany};
ghost use Rattle.player.specs.Asked.{IsOpened};
ghost use Rattle.player.specs.Many.{TellAll};

use crate::asking::{Question, tell_in};
use crate::bytes::certified;
use crate::many::tell_all_in;
use allocation::Memory;
use answers::{Certified, true_answers};
use opened::{Opened, Quotient};
use player::{MEMORY, NOT_OPEN};
use std::alloc::Global;

/// The first owner of the certificate, in a box.
fn boxed(alloc: Global, certified: Certified) -> Result<Box<Quotient>, Memory>
    ensures { IfOk result (λ b. b.value ≡ certified) }
{
    let quotient = Quotient::new(alloc, certified)?;
    Ok(Box::new(alloc, quotient)?)
}

/// The first owner of the certificate that the bytes are, or the number of the refusal.
pub(crate) fn owner(alloc: Global, bytes: &[u8], limit: u32) -> Result<Box<Quotient>, u32>
    ensures yes { IfOk result (λ b. Certify bytes.now limit (λ c. b.value ≡ c)) }
    ensures no { IfErr result (λ s. s ≢ 0 × IsStatus bytes.now limit s) }
{
    let certified = certified(alloc, bytes, limit)?;
    match boxed(alloc, certified) {
        Ok(quotient) => Ok(quotient),
        Err(_) => {
            true_answers();
            Err(MEMORY)
        }
    }
}

/// One more owner, in a box.
pub(crate) fn another(alloc: Global, quotient: &Quotient) -> Result<Box<Quotient>, Memory>
    ensures { IfOk result (λ b. b.value ≡ quotient.now) }
{
    let other = quotient.shared()?;
    Ok(Box::new(alloc, other)?)
}

/// Tells what is asked of the position of the heaps, by what is opened.
pub(crate) fn tell_opened(
    alloc: Global,
    opened: &mut Opened,
    question: Question,
    heaps: &[u64],
    told: &mut u32,
) -> u32
    ensures yes { result ≡ 0
        → IsOpened opened.old.handle.value (TellsAsked question heaps.now told.new) }
    ensures no { result ≢ 0 → IsNoAnswer opened.old.handle.value heaps.now result }
    ensures same { opened.new.handle.value ≡ opened.old.handle.value }
    ensures stays { result ≢ 0 → told.new ≡ told.old }
{
    let Some(quotient) = opened.take(alloc) else {
        return NOT_OPEN;
    };
    let status = tell_in(question, quotient.certified(), heaps, told);
    opened.put(alloc, quotient);
    status
}

/// Tells what is asked of each position, by what is opened.
pub(crate) fn tell_all_opened(
    alloc: Global,
    opened: &mut Opened,
    question: Question,
    heaps: &[u64],
    ends: &[u64],
    told: &mut [u32],
) -> u32
    ensures yes { result ≡ 0 → IsOpened opened.old.handle.value
        (TellAll (TellsAsked question) heaps.now ends.now told.new) }
    ensures no { result ≢ 0
        → IsNoAnswerToMany opened.old.handle.value heaps.now ends.now (length told.old) result }
    ensures same { opened.new.handle.value ≡ opened.old.handle.value }
    ensures stays { result ≢ 0 → told.new ≡ told.old }
{
    let Some(quotient) = opened.take(alloc) else {
        return NOT_OPEN;
    };
    let status = tell_all_in(question, quotient.certified(), heaps, ends, told);
    opened.put(alloc, quotient);
    status
}
