//! The texts of refusals.
ghost use Rattle.std.specs.Prelude.{◌≡◌, IfOk};
ghost use Rattle.std.specs.String.{string_bytes};
ghost use Rattle.answers.specs.InfiniteRefusals.{refused};
ghost use Rattle.given_quotients.specs.Told.{IsRefusalText};
ghost use Rattle.verdict_texts.specs.Lines.{no_line};

use allocation::Memory;
use answers::{InfiniteRefusal, Refusal};
use std::alloc::Global;
use verdict_texts::verdict_text;

/// The line of a no.
fn no_text(alloc: Global, number: u8, name: &str) -> Result<String, Memory>
    ensures { IfOk result (λ t. string_bytes t ≡ no_line number name.now) }
{
    let text = format!(in alloc; "no {number} {name}\n")?;
    Ok(text)
}

/// The text of a refusal: a line, and two more if the rule fails at a position, as for certificates
/// without tracks. Want of memory has none, and is handed on.
pub fn refusal_text(alloc: Global, refusal: InfiniteRefusal) -> Result<String, Memory>
    ensures { IfOk result (λ t. IsRefusalText (refused refusal) (string_bytes t)) }
{
    match refusal {
        InfiniteRefusal::Text => no_text(alloc, 1, "Text"),
        InfiniteRefusal::Law => no_text(alloc, 2, "Law"),
        InfiniteRefusal::Outcome(code, position) => {
            verdict_text(alloc, Err(&Refusal::Outcome(code, position)))
        }
        InfiniteRefusal::Limit => no_text(alloc, 8, "Limit"),
        InfiniteRefusal::Memory => Err(Memory),
        InfiniteRefusal::Part(_) => no_text(alloc, 31, "Part"),
        InfiniteRefusal::Undecided => no_text(alloc, 33, "Undecided"),
        InfiniteRefusal::Finite => no_text(alloc, 34, "Finite"),
    }
}
