//! What is told of a search that was given up.
ghost use Rattle.std.specs.Prelude.{◌≡◌, IfOk, false, string_bytes, true};
ghost use Rattle.solve_command.specs.Searches.{IsGivingUpText, IsReasonLine, reason_line};

use allocation::Memory;
use quotient_finder::Reason;
use std::alloc::Global;

/// The line of a reason.
fn reason_text(alloc: Global, reason: Reason) -> Result<String, Memory>
    ensures { IfOk result (λ t. string_bytes t ≡ reason_line reason) }
{
    let text = match reason {
        Reason::TooLarge { heap } => format!(in alloc; "too large {heap}\n")?,
        Reason::Repairs { heap, order } => format!(in alloc; "repairs {heap} {order}\n")?,
        Reason::Work { heap, order } => format!(in alloc; "work {heap} {order}\n")?,
        Reason::NoPeriod { heaps, order } => format!(in alloc; "no period {heaps} {order}\n")?,
        Reason::OneElement => format!(in alloc; "one element\n")?,
        Reason::Members => format!(in alloc; "members\n")?,
        Reason::Refused => format!(in alloc; "refused\n")?,
    };
    Ok(text)
}

/// What is told where no proposer has a draft left, with the line of a reason.
fn text_with(alloc: Global, line: &str) -> Result<String, Memory>
    ensures { IsReasonLine line.now → IfOk result (λ t. IsGivingUpText true (string_bytes t)) }
{
    let text = format!(in alloc; "gave up 2 Empty\n{line}")?;
    Ok(text)
}

/// The same with the reason.
fn text_with_reason(alloc: Global, reason: Reason) -> Result<String, Memory>
    ensures { IfOk result (λ t. IsGivingUpText true (string_bytes t)) }
{
    let line = reason_text(alloc, reason)?;
    text_with(alloc, line.as_str())
}

/// The same without one.
fn text_alone(alloc: Global) -> Result<String, Memory>
    ensures { IfOk result (λ t. IsGivingUpText false (string_bytes t)) }
{
    let text = format!(in alloc; "gave up 2 Empty\n")?;
    Ok(text)
}

/// What is told where no proposer has a draft left, with the reason where it is asked for.
pub(crate) fn empty_text(alloc: Global, reason: Reason, tells_why: bool) -> Result<String, Memory>
    ensures { IfOk result (λ t. IsGivingUpText tells_why (string_bytes t)) }
{
    if tells_why {
        text_with_reason(alloc, reason)
    } else {
        text_alone(alloc)
    }
}
