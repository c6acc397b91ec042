//! The lines up to the period.
ghost use Rattle.std.specs.Prelude.{◌≤◌, ◌+◌, IfOk};
ghost use Rattle.misere_theory.specs.declared.TheConstants.{LARGEST_ORDER, MOST_ENTRIES};
ghost use Rattle.certificate_lines.specs.Given.{Gives};
ghost use Rattle.certificate_text.specs.Reading.{front_at};

use crate::format::format_by;
use certificate_lines::{Front, Reader, TextFault, Wanted, field, number_lines};

/// The format, the code, the order, the start and the period.
#[tactic(auto, unfolding(certificate_text::specs::Reading::front_at))]
pub fn front_lines(reader: &mut Reader<'_>) -> Result<Front, TextFault>
    ensures read { Gives (λ x. ((x.code, x.order, x.start, x.period), reader.new)) result
        (front_at reader.old) }
    ensures order { IfOk result (λ x. (2 ≤ x.order) × (x.order ≤ LARGEST_ORDER)) }
    ensures period { IfOk result (λ x. (1 ≤ x.start) × (2 ≤ x.start + x.period)
        × (x.start + x.period ≤ MOST_ENTRIES + 1)) }
{
    let format = field(reader, b"mqc", 1, 4)?;
    let front = number_lines(reader)?;
    if format == format_by(&front.code, front.order, front.start, front.period) {
        return Ok(front);
    }
    reader.wants(
        reader.left(),
        Wanted::Words("numbers of the format of line 1"),
    );
    Err(TextFault::Text)
}
