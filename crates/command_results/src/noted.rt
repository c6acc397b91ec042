//! What a command says, and what it tells beside that.
ghost use Rattle.std.specs.Prelude.{◌≡◌, ◌≤◌, None, option_map};
ghost use Rattle.streams.specs.Printers.{printer};
ghost use Rattle.command_results.specs.Printed.{PrintedWith, TellsNote, status_if};

use crate::said::Said;
use crate::telling::tell;
use streams::Sink;

/// What a command says, and a line for standard error beside it, if there is one: a whole line, with
/// its newline.
#[derive(Drop)]
pub struct Noted {
    pub said: Said,
    pub note: Option<&'static str>,
}

impl Noted {
    /// What is said, with no line beside it.
    pub fn plain(said: Said) -> Noted
        ensures said { result.said ≡ said }
        ensures silent { result.note ≡ None }
    {
        Noted { said, note: None }
    }

    /// Prints what is said, tells the line beside it, and answers the exit status; where standard
    /// output fails, tells that alone.
    pub fn print<W: Sink, E: Sink>(&self, out: &mut W, err: &mut E) -> u8
        ensures printed { PrintedWith (printer (W.taken out.old) (W.failures out.old))
            (printer (W.taken out.new) (W.failures out.new))
            (printer (E.taken err.old) (E.failures err.old))
            (printer (E.taken err.new) (E.failures err.new))
            self.now.said.text.items (option_map (λ line. line.now) self.now.note)
            (status_if self.now.said.succeeds) result }
        ensures quiet { self.now.note ≡ None → result ≤ 1 → err.new ≡ err.old }
    {
        let status = self.said.print(out, err);
        if status <= 1 {
            self.tell_note(err);
        }
        status
    }

    /// Tells the line, if there is one.
    fn tell_note<E: Sink>(&self, err: &mut E)
        ensures told { TellsNote (printer (E.taken err.old) (E.failures err.old))
            (printer (E.taken err.new) (E.failures err.new))
            (option_map (λ line. line.now) self.now.note) }
        ensures quiet { self.now.note ≡ None → err.new ≡ err.old }
    {
        if let Some(note) = self.note {
            tell(err, note, "", "");
        }
    }
}
