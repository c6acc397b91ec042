//! Text on standard output.
ghost use Rattle.std.specs.Prelude.{◌≡◌, ◌≤◌};
ghost use Rattle.streams.specs.Printers.{printer};
ghost use Rattle.command_results.specs.Printed.{Printed};

use crate::stop::Stop;
use streams::{Sink, write_whole};

/// Prints the text, and answers the status of its run; where standard output fails, tells so.
pub fn print<W: Sink, E: Sink>(text: &[u8], status: u8, out: &mut W, err: &mut E) -> u8
    ensures printed { Printed (printer (W.taken out.old) (W.failures out.old))
        (printer (W.taken out.new) (W.failures out.new))
        (printer (E.taken err.old) (E.failures err.old))
        (printer (E.taken err.new) (E.failures err.new)) text.now status result }
    ensures quiet { result ≤ 1 → err.new ≡ err.old }
{
    match write_whole(out, text) {
        Ok(()) => status,
        Err(_) => {
            Stop::Write.tell(err);
            3
        }
    }
}
