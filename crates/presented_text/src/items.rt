//! What stands in the lines: numbers, words of heaps, relations and cycles.
ghost use Rattle.std.specs.Prelude.{◌≡◌, ◌≤◌, ◌<◌, IfOk};
ghost use Rattle.certificate_lines.specs.Given.{Gives};
ghost use Rattle.presented_text.specs.Reading.{positive_at, heap_word_at, relation_at, cycle_at};

use crate::{LARGEST_CYCLE, LetterCycle, word};
use certificate_lines::{Reader, TextFault, Wanted};
use normal_forms::{Exponents, Rule};

/// A number from 1 up to below the limit.
#[tactic(auto, unfolding(crate::specs::Reading::positive_at))]
pub fn positive(reader: &mut Reader<'_>, limit: u16) -> Result<u16, TextFault>
    requires { 0 < limit }
    ensures read { Gives (λ x. (x, reader.new)) result (positive_at limit reader.old) }
    ensures range { IfOk result (λ x. (1 ≤ x) × (x < limit)) }
{
    let x = reader.number(limit)?;
    if x < 1 {
        reader.wants(reader.left(), Wanted::Number { least: 1, limit });
        return Err(TextFault::Text);
    }
    Ok(x)
}

/// The word of a heap, or the sign that it is left out.
#[tactic(auto, unfolding(crate::specs::Reading::heap_word_at))]
pub fn heap_word(reader: &mut Reader<'_>) -> Result<Option<Exponents>, TextFault>
    ensures { Gives (λ x. (x, reader.new)) result (heap_word_at reader.old) }
{
    if reader.takes(b"-") {
        return Ok(None);
    }
    let word = word(reader)?;
    Ok(Some(word))
}

/// Two words with a space between them, and the end of the line.
#[tactic(auto, unfolding(crate::specs::Reading::relation_at))]
pub fn relation(reader: &mut Reader<'_>) -> Result<Rule, TextFault>
    ensures { Gives (λ x. (x, reader.new)) result (relation_at reader.old) }
{
    let left = word(reader)?;
    reader.fixed(b" ")?;
    let right = word(reader)?;
    reader.fixed(b"\n")?;
    Ok(Rule { left, right })
}

/// A start and a period with a colon between them.
#[tactic(auto, unfolding(crate::specs::Reading::cycle_at))]
pub fn cycle(reader: &mut Reader<'_>) -> Result<LetterCycle, TextFault>
    ensures { Gives (λ x. (x, reader.new)) result (cycle_at reader.old) }
{
    let start = reader.number(LARGEST_CYCLE + 1)?;
    reader.fixed(b":")?;
    let period = positive(reader, LARGEST_CYCLE + 1)?;
    Ok(LetterCycle { start, period })
}
