//! Why a script ends before its end, and the reading of files.
ghost use Rattle.std.specs.Prelude.{◌≡◌, ◌≤◌, ◌+◌, ◌++◌, IfErr, IfOk, codes, decimal};
ghost use Rattle.streams.specs.Printers.{PrintsLine, printer};
ghost use Rattle.streams.specs.Files.{BeginsWith};
ghost use Rattle.verdict_texts.specs.declared.stream.TheConstants.{MOST_BYTES};
ghost use Rattle.desk_command.specs.Stops.{IsReadCause, desk_stop_line, desk_stop_status, stop_of};
ghost use Rattle.desk_command.specs.declared.stop.DeskStop.TheVariants.{«Memory» as OutOfMemory, Write as NotWritten};

use allocation::Memory;
use command_results::{Stop, tell};
use desk::ScriptFault;
use itoa::Buffer;
use streams::{DeviceFault, FileFault, Folder, Sink};
use verdict_texts::MOST_BYTES;

/// Why a script ends before its end.
#[derive(Clone, Copy, Debug, PartialEq, Eq)]
pub enum DeskStop<'a> {
    /// The line of this number, counted from 1, is the first that isn't a step.
    NotAStep(usize),
    /// The file of this name can't be read.
    Read(&'a str),
    /// What is printed can't be written.
    Write,
    /// A growth was refused.
    Memory,
}

impl From<Memory> for DeskStop<'_> {
    ghost from_gives = { λ _ stop. stop ≡ OutOfMemory };

    fn from(_: Memory) -> Self {
        DeskStop::Memory
    }
}

impl From<DeviceFault> for DeskStop<'_> {
    ghost from_gives = { λ _ stop. stop ≡ NotWritten };

    fn from(_: DeviceFault) -> Self {
        DeskStop::Write
    }
}

impl From<ScriptFault> for DeskStop<'_> {
    ghost from_gives = { λ fault stop. stop ≡ stop_of fault };

    fn from(fault: ScriptFault) -> Self {
        match fault {
            ScriptFault::NotAStep(number) => DeskStop::NotAStep(number),
            ScriptFault::Memory => DeskStop::Memory,
        }
    }
}

impl DeskStop<'_> {
    /// The exit status.
    pub fn status(self) -> u8
        ensures status { result ≡ desk_stop_status self.entry }
        ensures late { 2 ≤ result }
    {
        match self {
            DeskStop::NotAStep(_) => 2,
            DeskStop::Read(_) | DeskStop::Write | DeskStop::Memory => 3,
        }
    }

    /// Tells the reason on standard error.
    pub fn tell<E: Sink>(self, err: &mut E)
        ensures { PrintsLine (printer (E.taken err.old) (E.failures err.old))
            (printer (E.taken err.new) (E.failures err.new)) (desk_stop_line self.entry) }
    {
        match self {
            DeskStop::NotAStep(number) => tell_line(number, err),
            DeskStop::Read(name) => Stop::Read(name).tell(err),
            DeskStop::Write => Stop::Write.tell(err),
            DeskStop::Memory => Stop::Memory.tell(err),
        }
    }
}

/// Tells that the line of this number isn't a step.
fn tell_line<E: Sink>(number: usize, err: &mut E)
    ensures { PrintsLine (printer (E.taken err.old) (E.failures err.old))
        (printer (E.taken err.new) (E.failures err.new))
        (codes "misere: line " ++ (decimal number ++ codes " isn't a step\n")) }
{
    let mut buffer = Buffer::new();
    tell(
        err,
        "misere: line ",
        buffer.format(number),
        " isn't a step\n",
    );
}

/// The bytes with which a certificate's file begins: all of them, or one more than are read of one.
pub(crate) fn read_front<'a, F: Folder>(
    folder: &mut F,
    name: &'a str,
) -> Result<Vec<u8>, DeskStop<'a>>
    ensures bytes { IfOk result
        (λ v. BeginsWith (F.files folder.old) name.entry.now (MOST_BYTES + 1) v.items) }
    ensures kept { F.files folder.new ≡ F.files folder.old }
    ensures succeeds { IfOk result (λ _. F.failed_reads folder.new ≡ F.failed_reads folder.old) }
    ensures stops { IfErr result
        (IsReadCause name.entry.now (F.failed_reads folder.old) (F.failed_reads folder.new)) }
{
    match folder.read_front(name, MOST_BYTES) {
        Ok(bytes) => Ok(bytes),
        Err(FileFault::Device) => Err(DeskStop::Read(name)),
        Err(FileFault::Memory) => Err(DeskStop::Memory),
    }
}
