//! What a command says.
ghost use Rattle.std.specs.Prelude.{◌≡◌, ◌≤◌, true, false};
ghost use Rattle.std.specs.String.{string_bytes};
ghost use Rattle.streams.specs.Printers.{printer};
ghost use Rattle.command_results.specs.Printed.{Printed, status_if};

use crate::printing::print;
use streams::Sink;

/// The text that a command prints, and whether it ends well: a no and a refusal don't.
#[derive(Drop)]
pub struct Said {
    pub text: Vec<u8>,
    pub succeeds: bool,
}

impl Said {
    /// The text of what is done.
    pub fn done(text: String) -> Said
        ensures text { result.text.items ≡ string_bytes text }
        ensures succeeds { result.succeeds ≡ true }
    {
        Said {
            text: text.into_bytes(),
            succeeds: true,
        }
    }

    /// The text of a no.
    pub fn no(text: Vec<u8>) -> Said
        ensures text { result.text ≡ text }
        ensures succeeds { result.succeeds ≡ false }
    {
        Said {
            text,
            succeeds: false,
        }
    }

    /// The exit status.
    pub fn status(&self) -> u8
        ensures { result ≡ status_if self.now.succeeds }
    {
        if self.succeeds { 0 } else { 1 }
    }

    /// Prints it, and answers the exit status; where standard output fails, tells so.
    pub fn print<W: Sink, E: Sink>(&self, out: &mut W, err: &mut E) -> u8
        ensures printed { Printed (printer (W.taken out.old) (W.failures out.old))
            (printer (W.taken out.new) (W.failures out.new))
            (printer (E.taken err.old) (E.failures err.old))
            (printer (E.taken err.new) (E.failures err.new))
            self.now.text.items (status_if self.now.succeeds) result }
        ensures quiet { result ≤ 1 → err.new ≡ err.old }
    {
        print(&self.text, self.status(), out, err)
    }
}
