//! The three formats.
ghost use Rattle.std.specs.Prelude.{◌≡◌};
ghost use Rattle.misere_theory.specs.Certificates.{format_by, format_of};

use crate::cert::Cert;
use misere_theory::{LARGEST_FIRST_ORDER, LARGEST_SECOND_ORDER, MOST_SECOND_ENTRIES};
use octal_code::Code;
use std::alloc::Allocator;

/// The number of the format for a code, an order, a start and a period: 3 where the order or the
/// entries are above the second format's; else 2 where the code isn't octal, the order is above the
/// first format's or the period is 0; and else 1.
pub fn format_by(code: &Code, order: u16, start: u16, period: u16) -> u16
    ensures { result ≡ format_by code.now order start period }
{
    let heaps = start as u32 + period as u32;
    if LARGEST_SECOND_ORDER < order || MOST_SECOND_ENTRIES as u32 + 1 < heaps {
        3
    } else if code.is_octal() && (order <= LARGEST_FIRST_ORDER && 0 < period) {
        1
    } else {
        2
    }
}

/// The number of a certificate's format.
pub fn format_of<A: Allocator>(cert: &Cert<A>) -> u16
    ensures { result ≡ format_of cert.now }
{
    format_by(
        cert.code(),
        cert.order(),
        cert.start() as u16,
        cert.period() as u16,
    )
}
