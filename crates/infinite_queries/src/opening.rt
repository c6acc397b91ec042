//! Opening and closing.
ghost use Rattle.std.specs.Prelude.{◌≡◌, ◌≢◌, IfOk, IfErr};
ghost use Rattle.std.specs.declared.option.Option.TheVariants.{None, Some};
ghost use Rattle.infinite_queries.specs.Asked.{AreRefused, AreShown};
ghost use Rattle.player.specs.Asked.{IsOpened, IsUnopened, IsUnshared};

use crate::bytes::shown;
use allocation::Memory;
use opened::{AcceptedText, InfiniteQuotient, OpenedInfinite};
use player::{DONE, MEMORY, NOT_OPEN};
use std::alloc::Global;

/// The first owner of the text, in a box.
fn boxed(alloc: Global, shown: AcceptedText) -> Result<Box<InfiniteQuotient>, Memory>
    ensures { IfOk result (λ b. b.value ≡ shown) }
{
    let quotient = InfiniteQuotient::new(alloc, shown)?;
    Ok(Box::new(alloc, quotient)?)
}

/// The first owner of what the bytes show, or the number of the refusal.
fn owner(alloc: Global, bytes: &[u8]) -> Result<Box<InfiniteQuotient>, u32>
    ensures yes { IfOk result (λ b. AreShown bytes.now (λ k. b.value ≡ k)) }
    ensures no { IfErr result (λ s. s ≢ 0 × AreRefused bytes.now s) }
{
    let shown = shown(alloc, bytes)?;
    match boxed(alloc, shown) {
        Ok(quotient) => Ok(quotient),
        Err(_) => Err(MEMORY),
    }
}

/// Opens the quotient that the bytes show, in place of what was opened there: 0, or the number of the refusal. The bytes
/// aren't needed any more.
pub fn open(alloc: Global, bytes: &[u8], told: &mut OpenedInfinite) -> u32
    ensures yes { result ≡ 0 → AreShown bytes.now (λ k. told.new.handle.value ≡ Some k) }
    ensures no { result ≢ 0 → AreRefused bytes.now result }
    ensures stays { result ≢ 0 → told.new ≡ told.old }
{
    match owner(alloc, bytes) {
        Ok(quotient) => {
            told.put(alloc, quotient);
            DONE
        }
        Err(status) => status,
    }
}

/// One more owner, in a box.
fn another(alloc: Global, quotient: &InfiniteQuotient) -> Result<Box<InfiniteQuotient>, Memory>
    ensures { IfOk result (λ b. b.value ≡ quotient.now) }
{
    let other = quotient.shared()?;
    Ok(Box::new(alloc, other)?)
}

/// Makes a second owner of what is opened, in place of what was opened there.
pub fn share(alloc: Global, opened: &mut OpenedInfinite, told: &mut OpenedInfinite) -> u32
    ensures yes { result ≡ 0 → IsOpened opened.old.handle.value (λ k. told.new.handle.value ≡ Some k) }
    ensures no { result ≢ 0 → IsUnshared opened.old.handle.value result }
    ensures same { opened.new.handle.value ≡ opened.old.handle.value }
    ensures stays { result ≢ 0 → told.new ≡ told.old }
{
    let Some(quotient) = opened.take(alloc) else {
        return NOT_OPEN;
    };
    let other = another(alloc, &quotient);
    opened.put(alloc, quotient);
    match other {
        Ok(other) => {
            told.put(alloc, other);
            DONE
        }
        Err(_) => MEMORY,
    }
}

/// Closes what is opened: 0, or the number for nothing that is opened.
pub fn close(alloc: Global, opened: &mut OpenedInfinite) -> u32
    ensures closed { opened.new.handle.value ≡ None }
    ensures yes { result ≡ 0 → IsOpened opened.old.handle.value (λ k. Unit {0}) }
    ensures no { result ≢ 0 → IsUnopened opened.old.handle.value result }
{
    match opened.take(alloc) {
        Some(_) => DONE,
        None => NOT_OPEN,
    }
}
