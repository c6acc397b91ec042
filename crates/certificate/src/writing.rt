//! How certificates are written.
ghost use Rattle.certificate_text.specs.Spelling.{Spells, lines, text};
ghost use Rattle.streams.specs.Stream.{Counts, Puts};
ghost use Rattle.certificate.specs.LineKinds.{lines_of};

use crate::cert::{Cert, in_ranges};
use crate::fault::WriteFault;
use crate::format::format_of;
use crate::putting::{put_apart, put_code_line, put_key_line, put_line, put_rows};
use std::alloc::Allocator;
use streams::{DeviceFault, Sink, write_whole};

/// What a line says; the rows are many lines.
#[derive(Clone, Copy)]
enum LineKind {
    Version,
    Code,
    Order,
    Start,
    Period,
    Phi,
    Portion,
    Words,
    Rows,
    Apart,
    End,
}

/// The lines in their order.
const LINES: [LineKind; 11] = [
    LineKind::Version,
    LineKind::Code,
    LineKind::Order,
    LineKind::Start,
    LineKind::Period,
    LineKind::Phi,
    LineKind::Portion,
    LineKind::Words,
    LineKind::Rows,
    LineKind::Apart,
    LineKind::End,
];

/// The line or the lines of this kind.
fn put_lines<A: Allocator, W: Sink>(
    cert: &Cert<A>,
    kind: LineKind,
    sink: &mut W,
) -> Result<(), DeviceFault>
    ensures puts { Puts (W.taken sink.old) (W.taken sink.new) result
        (text (lines_of cert.now kind)) }
    ensures cause { Counts (W.failures sink.old) (W.failures sink.new) result }
{
    match kind {
        LineKind::Version => put_line(sink, b"mqc", &[format_of(cert)]),
        LineKind::Code => put_code_line(sink, cert.code()),
        LineKind::Order => put_line(sink, b"order", &[cert.order()]),
        LineKind::Start => put_line(sink, b"start", &[cert.start() as u16]),
        LineKind::Period => put_line(sink, b"period", &[cert.period() as u16]),
        LineKind::Phi => put_line(sink, b"phi", cert.phi().entries()),
        LineKind::Portion => put_line(sink, b"portion", cert.portion()),
        LineKind::Words => put_key_line(sink, cert.words()),
        LineKind::Rows => put_rows(sink, cert),
        LineKind::Apart => put_apart(sink, cert),
        LineKind::End => write_whole(sink, b"end\n"),
    }
}

/// Writes the spelling of a certificate, without taking memory.
///
/// Refuses `Write` only where the sink fails in this call; what went out is then a beginning of the
/// spelling.
pub fn write<A: Allocator, W: Sink>(cert: &Cert<A>, sink: &mut W) -> Result<(), WriteFault>
    ensures puts { Puts (W.taken sink.old) (W.taken sink.new) result (text (lines cert.now)) }
    ensures spelled { Spells (text (lines cert.now)) cert.now }
    ensures cause { Counts (W.failures sink.old) (W.failures sink.new) result }
{
    in_ranges(cert);
    for kind in LINES {
        put_lines(cert, kind, sink)?;
    }
    Ok(())
}
