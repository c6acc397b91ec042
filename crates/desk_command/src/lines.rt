//! The line of a reply.
ghost use Rattle.std.specs.Prelude.{◌≡◌, IfOk, string_bytes};
ghost use Rattle.desk.specs.Replies.{refusal, reply_of};
ghost use Rattle.desk_command.specs.Lines.{IsLineOf, opened_line, outcome_line};

use allocation::Memory;
use desk::{Reply, StepFault};
use player::Outcome;
use position_commands::answer_text;
use std::alloc::Global;
use verdict_texts::verdict_line;

/// The text as a line of its own.
fn line(alloc: Global, text: &str) -> Result<String, Memory>
    ensures { IfOk result (λ t. string_bytes t ≡ text.now) }
{
    Ok(String::from_str(alloc, text)?)
}

/// The line of a new job.
fn opened_line(alloc: Global, number: u8) -> Result<String, Memory>
    ensures { IfOk result (λ t. string_bytes t ≡ opened_line number) }
{
    Ok(format!(in alloc; "opened {number}\n")?)
}

/// The line of an outcome.
fn outcome_line(outcome: Outcome) -> &'static str
    ensures { result.now ≡ outcome_line outcome }
{
    match outcome {
        Outcome::P => "P\n",
        Outcome::N => "N\n",
    }
}

/// The line of a refusal. Want of memory has none, and is handed on.
fn refused_line(fault: StepFault) -> Result<&'static str, Memory>
    ensures { IfOk result (λ t. IsLineOf (refusal fault) t.now) }
{
    match fault {
        StepFault::Full => Ok("refused 20 Full\n"),
        StepFault::NoJob => Ok("refused 21 NoJob\n"),
        StepFault::NotCertified => Ok("refused 22 NotCertified\n"),
        StepFault::Beyond => Ok("refused 23 Beyond\n"),
        StepFault::Memory => Err(Memory),
    }
}

/// The line of a reply. Want of memory for a new job has none, and is handed on.
pub(crate) fn reply_line(alloc: Global, reply: Reply<'_>) -> Result<String, Memory>
    ensures { IfOk result (λ t. IsLineOf (reply_of reply.entry) (string_bytes t)) }
{
    match reply {
        Reply::Opened(number) => opened_line(alloc, number),
        Reply::Going => line(alloc, "going\n"),
        Reply::Yes(certified) => verdict_line(alloc, Ok(certified)),
        Reply::No(refusal) => verdict_line(alloc, Err(refusal)),
        Reply::Dropped => line(alloc, "dropped\n"),
        Reply::Outcome(outcome) => line(alloc, outcome_line(outcome)),
        Reply::Answer(answer) => Ok(answer_text(alloc, answer)?),
        Reply::Refused(fault) => line(alloc, refused_line(fault)?),
    }
}
