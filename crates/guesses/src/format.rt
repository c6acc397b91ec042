//! The three formats of certificates.
ghost use Rattle.std.specs.Prelude.{◌≡◌};
ghost use Rattle.misere_theory.specs.Certificates.{format_by};

use misere_theory::{LARGEST_FIRST_ORDER, LARGEST_SECOND_ORDER, MOST_SECOND_ENTRIES};
use octal_code::Code;

/// The number of the format for a code, an order, a start and a period: 3 where the order or the
/// entries are above the second format's; else 2 where the code isn't octal, the order is above the
/// first format's or the period is 0; and else 1.
pub(crate) fn format_by(code: &Code, order: usize, start: usize, period: usize) -> usize
    ensures { result ≡ format_by code.now order start period }
{
    let heaps = start.saturating_add(period);
    let (order_of_two, entries_of_two) = (
        LARGEST_SECOND_ORDER as usize,
        MOST_SECOND_ENTRIES as usize,
    );
    if order_of_two < order || entries_of_two + 1 < heaps {
        3
    } else if code.is_octal() && (order <= LARGEST_FIRST_ORDER as usize && 0 < period) {
        1
    } else {
        2
    }
}
