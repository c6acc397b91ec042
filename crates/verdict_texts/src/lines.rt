//! The text of a verdict.
ghost use Rattle.std.specs.Prelude.{◌≡◌, ◌++◌, IfOk, codes};
ghost use Rattle.std.specs.String.{string_bytes};
ghost use Rattle.answers.specs.ByteVerdicts.{answer_of};
ghost use Rattle.answers.specs.ByteVerdicts.ByteVerdict.{Outcome as Refuted};
ghost use Rattle.verdict_texts.specs.Lines.{full_line, partial_line, yes_line, no_line, first_line, IsOutcomeLine, IsTextOf, is_yes, lent_answer};

use allocation::{Memory, SmallAllocator};
use answers::{Certified, Refusal};
use certificate::Cert;
use octal_code::Code;
use outcome_search::{SearchFault, outcome};
use positions::{Outcome, Position};
use std::alloc::{Allocator, Global};

/// The most positions through which the outcome of a refused position is searched.
pub const OUTCOME_BUDGET: u32 = 65536;

/// The line of a yes for the whole game.
fn full_text<A: SmallAllocator + Copy>(alloc: A, cert: &Cert<A>) -> Result<String<A>, Memory>
    ensures { IfOk result (λ t. string_bytes t ≡ full_line cert.now) }
{
    let code = cert.code().text(alloc)?;
    let (order, start, period) = (cert.order(), cert.start(), cert.period());
    let text = format!(in alloc; "yes {code} order {order} start {start} period {period}\n")?;
    Ok(text)
}

/// The line of a yes for the heaps of a partial certificate.
fn partial_text<A: SmallAllocator + Copy>(alloc: A, cert: &Cert<A>) -> Result<String<A>, Memory>
    ensures { IfOk result (λ t. string_bytes t ≡ partial_line cert.now) }
{
    let code = cert.code().text(alloc)?;
    let (order, last) = (cert.order(), cert.heaps());
    let text = format!(in alloc; "yes {code} order {order} heaps {last}\n")?;
    Ok(text)
}

/// The line of a yes.
fn yes_text<A: SmallAllocator + Copy>(alloc: A, cert: &Cert<A>) -> Result<String<A>, Memory>
    ensures { IfOk result (λ t. string_bytes t ≡ yes_line cert.now) }
{
    if cert.heaps() == 0 {
        full_text(alloc, cert)
    } else {
        partial_text(alloc, cert)
    }
}

/// The line of a no.
fn no_text<A: SmallAllocator + Copy>(alloc: A, number: u8, name: &str) -> Result<String<A>, Memory>
    ensures { IfOk result (λ t. string_bytes t ≡ no_line number name.now) }
{
    let text = format!(in alloc; "no {number} {name}\n")?;
    Ok(text)
}

/// The line of the outcome of the position.
fn outcome_line<A: SmallAllocator + Copy>(
    alloc: A,
    code: &Code,
    position: &Position<A>,
) -> Result<&'static str, Memory>
    ensures { IfOk result (λ t. IsOutcomeLine code.now position.now t.now) }
{
    match outcome(alloc, code, position, OUTCOME_BUDGET) {
        Ok(Outcome::P) => Ok("outcome P\n"),
        Ok(Outcome::N) => Ok("outcome N\n"),
        Err(SearchFault::Budget) => Ok("outcome unknown\n"),
        Err(SearchFault::Memory) => Err(Memory),
    }
}

/// Three lines: the first, the place, and the last.
fn three_lines<A: SmallAllocator + Copy>(
    alloc: A,
    first: &str,
    place: &str,
    last: &str,
) -> Result<String<A>, Memory>
    ensures { IfOk result (λ t. string_bytes t ≡ first.now ++ codes "rule fails at " ++ place.now ++ codes "\n" ++ last.now) }
{
    let text = format!(in alloc; "{first}rule fails at {place}\n{last}")?;
    Ok(text)
}

/// The lines of a refusal by a position.
fn outcome_text<A: SmallAllocator + Copy>(
    alloc: A,
    code: &Code,
    position: &Position<A>,
) -> Result<String<A>, Memory>
    ensures { IfOk result (λ t. IsTextOf (Refuted code.now position.now) (string_bytes t)) }
{
    let first = no_text(alloc, 7, "Outcome")?;
    let place = position.text()?;
    let line = outcome_line(alloc, code, position)?;
    three_lines(alloc, first.as_str(), place.as_str(), line)
}

/// The first line of the text of a verdict. Want of memory has one here, which stands in no text.
pub fn verdict_line<A: SmallAllocator + Copy>(
    alloc: A,
    verdict: Result<&Certified<A>, &Refusal<A>>,
) -> Result<String<A>, Memory>
    ensures { IfOk result (λ t. string_bytes t ≡ first_line (lent_answer verdict.entry)) }
{
    match verdict {
        Ok(certified) => yes_text(alloc, certified.cert()),
        Err(refusal) => no_text(alloc, refusal.number(), refusal.name()),
    }
}

/// The text of a verdict: one line, and two more where a position refutes the certificate. Want of
/// memory has no text, and is handed on.
pub fn verdict_text<A: SmallAllocator + Copy>(
    alloc: A,
    verdict: Result<&Certified<A>, &Refusal<A>>,
) -> Result<String<A>, Memory>
    ensures { IfOk result (λ t. IsTextOf (lent_answer verdict.entry) (string_bytes t)) }
{
    match verdict {
        Err(Refusal::Outcome(code, position)) => outcome_text(alloc, code, position),
        Err(Refusal::Memory) => Err(Memory),
        _ => verdict_line(alloc, verdict),
    }
}

/// The text of a verdict, and whether it is yes.
#[derive(Drop)]
pub struct VerdictText<A: Allocator = Global> {
    pub accepted: bool,
    pub text: String<A>,
}

/// The text of a verdict, which is dropped here.
pub(crate) fn told<A: SmallAllocator + Copy>(
    alloc: A,
    verdict: Result<Certified<A>, Refusal<A>>,
) -> Result<VerdictText<A>, Memory>
    ensures yes { IfOk result (λ v. v.accepted ≡ is_yes (answer_of verdict)) }
    ensures text { IfOk result (λ v. IsTextOf (answer_of verdict) (string_bytes v.text)) }
{
    let accepted = verdict.is_ok();
    let text = verdict_text(alloc, verdict.as_ref());
    drop(verdict);
    Ok(VerdictText {
        accepted,
        text: text?,
    })
}
