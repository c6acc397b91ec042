//! The lines up to the period.
ghost use Rattle.std.specs.Prelude.{◌≡◌, ◌≤◌, ◌+◌, IfOk};
ghost use Rattle.misere_theory.specs.declared.TheConstants.{LARGEST_ORDER, MOST_ENTRIES, LARGEST_PART};
ghost use Rattle.certificate_lines.specs.Given.{Gives};
ghost use Rattle.certificate_text.specs.Reading.{code_line_at, least_period, numbers_at};

use crate::fault::TextFault;
use crate::lines::field;
use crate::reader::Reader;
use crate::stop::Wanted;
use misere_theory::{LARGEST_ORDER, LARGEST_PART, MOST_ENTRIES};
use octal_code::Code;

/// What the lines up to the period hold.
#[derive(Clone, Copy)]
pub struct Front {
    pub code: Code,
    pub order: u16,
    pub start: u16,
    pub period: u16,
}

/// The code up to the end of its line.
pub fn code_line(reader: &mut Reader<'_>) -> Result<Code, TextFault>
    ensures { Gives (λ x. (x, reader.new)) result (code_line_at reader.old) }
{
    certificate_text::code_lines_are_codes();
    let left = reader.left();
    let Some(line) = reader.line() else {
        reader.wants(left, Wanted::Code);
        return Err(TextFault::Text);
    };
    match Code::read(line) {
        Ok(code) => Ok(code),
        Err(_) => {
            reader.wants(left, Wanted::Code);
            Err(TextFault::Text)
        }
    }
}

/// The least period beside a start: there is no part where the start is 1, nor where it is above the
/// largest part's.
fn least_period(start: u16) -> u16
    ensures { result ≡ least_period start }
{
    if LARGEST_PART + 1 < start {
        1
    } else {
        2u16.saturating_sub(start)
    }
}

/// The code, the order, the start and the period.
#[tactic(auto, unfolding(certificate_text::specs::Reading::numbers_at))]
pub fn number_lines(reader: &mut Reader<'_>) -> Result<Front, TextFault>
    ensures read { Gives (λ x. ((x.code, x.order, x.start, x.period), reader.new)) result
        (numbers_at reader.old) }
    ensures order { IfOk result (λ x. (2 ≤ x.order) × (x.order ≤ LARGEST_ORDER)) }
    ensures period { IfOk result (λ x. (1 ≤ x.start) × (2 ≤ x.start + x.period)
        × (x.start + x.period ≤ MOST_ENTRIES + 1)) }
{
    reader.fixed(b"code ")?;
    let code = code_line(reader)?;
    let order = field(reader, b"order", 2, LARGEST_ORDER + 1)?;
    let start = field(reader, b"start", 1, MOST_ENTRIES + 2)?;
    let least = least_period(start);
    let period = field(reader, b"period", least, MOST_ENTRIES + 2 - start)?;
    Ok(Front {
        code,
        order,
        start,
        period,
    })
}
