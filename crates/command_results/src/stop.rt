//! What ends a run before anything is printed.
ghost use Rattle.std.specs.Prelude.{◌≡◌, ◌≤◌, ◌++◌};
ghost use Rattle.command_results.specs.Stops.{stop_line, stop_status};
ghost use Rattle.streams.specs.Printers.{PrintsLine, printer};
ghost use Rattle.command_results.specs.declared.stop.Stop.TheVariants.{«Memory» as OutOfMemory};

use crate::telling::tell;
use allocation::Memory;
use std::alloc::AllocError;
use streams::Sink;

/// Why a run ends with another status than 0 or 1.
#[derive(Clone, Copy, Debug, PartialEq, Eq)]
pub enum Stop<'a> {
    /// The file or stream of this name could not be read.
    Read(&'a str),
    /// Standard output or a file could not be written.
    Write,
    /// A growth was refused.
    Memory,
    /// A word is not a position.
    NotAPosition,
    /// A word is not a code.
    NotACode,
    /// A word is not text.
    NotUtf8,
}

impl Stop<'_> {
    /// The exit status.
    pub fn status(self) -> u8
        ensures status { result ≡ stop_status self.entry }
        ensures late { 2 ≤ result }
    {
        match self {
            Stop::NotAPosition | Stop::NotACode | Stop::NotUtf8 => 2,
            Stop::Read(_) | Stop::Write | Stop::Memory => 3,
        }
    }

    /// Tells the reason on standard error.
    pub fn tell<E: Sink>(self, err: &mut E)
        ensures { PrintsLine (printer (E.taken err.old) (E.failures err.old))
            (printer (E.taken err.new) (E.failures err.new)) (stop_line self.entry) }
    {
        let (front, name, back) = self.pieces();
        tell(err, front, name, back);
    }

    /// The line that is told, in three pieces.
    fn pieces(&self) -> (&str, &str, &str)
        ensures { stop_line self.now ≡ result.0.now ++ (result.1.now ++ result.2.now) }
    {
        match self {
            Stop::Read(name) => ("misere: cannot read ", name, "\n"),
            Stop::Write => ("misere: cannot write\n", "", ""),
            Stop::Memory => ("misere: out of memory\n", "", ""),
            Stop::NotAPosition => ("misere: not a position\n", "", ""),
            Stop::NotACode => ("misere: not a code\n", "", ""),
            Stop::NotUtf8 => ("misere: a word isn't UTF-8\n", "", ""),
        }
    }
}

impl From<AllocError> for Stop<'_> {
    ghost from_gives = { λ _ stop. stop ≡ OutOfMemory };

    fn from(_: AllocError) -> Self {
        Stop::Memory
    }
}

impl From<Memory> for Stop<'_> {
    ghost from_gives = { λ _ stop. stop ≡ OutOfMemory };

    fn from(_: Memory) -> Self {
        Stop::Memory
    }
}
