//! The lines of quotients.
ghost use Rattle.std.specs.Prelude.{◌≡◌, ◌+◌, ◌-◌, IfOk};
ghost use Rattle.std.specs.String.{string_bytes};
ghost use Rattle.given_quotients.specs.Says.{SaysFound};
ghost use Rattle.given_quotients.specs.Told.{whole_line};
ghost use Rattle.verdict_commands.specs.QuotientLines.{TellsQuotient, endless_line, finite_line, presented_line, quotient_line};
ghost use Rattle.verdict_commands.specs.QuotientLines as told;

use allocation::Memory;
use command_results::Said;
use given_quotients::Quotient;
use presented_checker::PresentedQuotient;
use std::alloc::Global;
use verdict_texts::verdict_line;
use whole_checker::WholeGame;

/// The heap from which on the words of a whole game repeat.
fn start_of(quotient: &PresentedQuotient) -> u32
    ensures { result ≡ quotient.now.said.heaps - quotient.now.said.period + 1 }
{
    quotient.heaps().saturating_sub(quotient.period()) as u32 + 1
}

/// The heaps: the last one that has a word of its own, or in a whole game where and how words repeat.
fn heaps_text(alloc: Global, quotient: &PresentedQuotient) -> Result<String, Memory>
    ensures { IfOk result (λ t. string_bytes t ≡ told.heaps_text quotient.now.said) }
{
    let period = quotient.period();
    if period == 0 {
        let heaps = quotient.heaps();
        let text = format!(in alloc; "heaps {heaps}")?;
        return Ok(text);
    }
    let start = start_of(quotient);
    let text = format!(in alloc; "start {start} period {period}")?;
    Ok(text)
}

/// The line of a presentation with finitely many elements.
fn finite_text(alloc: Global, quotient: &PresentedQuotient, order: usize) -> Result<String, Memory>
    ensures { IfOk result (λ t. string_bytes t ≡ finite_line quotient.now.said order) }
{
    let code = quotient.code().text(alloc)?;
    let heaps = heaps_text(alloc, quotient)?;
    let text = format!(in alloc; "yes {code} order {order} {heaps}\n")?;
    Ok(text)
}

/// The line of one with infinitely many.
fn endless_text(
    alloc: Global,
    quotient: &PresentedQuotient,
    relations: usize,
) -> Result<String, Memory>
    ensures { IfOk result (λ t. string_bytes t ≡ endless_line quotient.now.said relations) }
{
    let code = quotient.code().text(alloc)?;
    let heaps = heaps_text(alloc, quotient)?;
    let text = format!(in alloc; "infinite {code} {heaps} relations {relations}\n")?;
    Ok(text)
}

/// The line of a presentation that is right: how many elements its quotient has, or that they are infinitely many.
pub fn yes_text(alloc: Global, quotient: &PresentedQuotient) -> Result<String, Memory>
    ensures { IfOk result (λ t. string_bytes t ≡ presented_line quotient.now) }
{
    match quotient.order() {
        Some(order) => finite_text(alloc, quotient, order),
        None => endless_text(alloc, quotient, quotient.relations()),
    }
}

/// The line of a whole game.
fn whole_text(alloc: Global, game: &WholeGame) -> Result<String, Memory>
    ensures { IfOk result (λ t. string_bytes t ≡ whole_line game.now.code) }
{
    let code = game.code().text(alloc)?;
    let text = format!(in alloc; "infinite {code} whole\n")?;
    Ok(text)
}

/// The line of a quotient.
fn quotient_text(alloc: Global, quotient: &Quotient) -> Result<String, Memory>
    ensures { IfOk result (λ t. string_bytes t ≡ quotient_line quotient.now) }
{
    match quotient {
        Quotient::Finite(certified) => verdict_line(alloc, Ok(certified)),
        Quotient::Whole(game) => whole_text(alloc, game),
        Quotient::Presented(presented) => yes_text(alloc, presented),
    }
}

/// What is said of what was found: the line of the quotient, or the text of a no.
pub(crate) fn line_said(alloc: Global, found: Result<Quotient, Vec<u8>>) -> Result<Said, Memory>
    ensures { IfOk result (λ s. SaysFound TellsQuotient found s.text.items s.succeeds) }
{
    match found {
        Ok(quotient) => Ok(Said::done(quotient_text(alloc, &quotient)?)),
        Err(no) => Ok(Said::no(no)),
    }
}
