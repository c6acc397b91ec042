//! A file replaced whole, or not at all.
ghost use Rattle.std.specs.Prelude.{◌≡◌, ◌<◌, ◌≤◌, ℕ, List, Option, IfOk, OnErr, string_bytes};
ghost use Rattle.streams.specs.Files.{Counts, Replaces};
ghost use Rattle.streams.specs.Disks.{AreTaken, CountsCall, CountsStage, Leaves, Moves, Removes, Renames, Spares, Stages, name_beside};

use crate::{DeviceFault, FileFault};
use std::alloc::{AllocError, Global};

/// How many names of files beside a file are tried.
pub const TRIES: u32 = 1000;

/// Why a new file was not made.
#[derive(Clone, Copy, Debug, PartialEq, Eq)]
pub enum StageFault {
    /// There is a file of this name. Every file is as it was.
    Taken,
    /// The device made no file. Every file is as it was.
    Unmade,
    /// The device made the file and failed then. A part of the bytes may be there.
    Unfilled,
}

/// The calls by which a file is replaced.
pub trait Disk {
    /// What the file of each name holds, and nothing where there is none, if the files are known.
    ghost files: { Self → Option (List ℕ → Option (List ℕ)) };

    /// How often a call has failed.
    ghost failures: { Self → ℕ };

    /// Makes a new file of the bytes, which lie on the device when it returns.
    fn stage(&mut self, name: &str, bytes: &[u8]) -> Result<(), StageFault>
        ensures staged { Stages (files self.old) (files self.new) result name.now bytes.now }
        ensures cause { CountsStage (failures self.old) (failures self.new) result };

    /// Gives the file another name, in place of the file that had it.
    fn rename(&mut self, from: &str, to: &str) -> Result<(), DeviceFault>
        ensures renamed { Renames (files self.old) (files self.new) result from.now to.now }
        ensures cause { CountsCall (failures self.old) (failures self.new) result };

    /// Takes the file away.
    fn remove(&mut self, name: &str) -> Result<(), DeviceFault>
        ensures removed { Removes (files self.old) (files self.new) result name.now }
        ensures cause { CountsCall (failures self.old) (failures self.new) result };

    /// Counts as a failure that there is a file of each name beside this one that is tried.
    fn crowd(&mut self, name: &str)
        requires { AreTaken (files self.old) name.now TRIES }
        ensures kept { files self.new ≡ files self.old }
        ensures cause { failures self.old < failures self.new };
}

/// A name for a file beside the file.
fn name_beside(alloc: Global, name: &str, number: u32) -> Result<String, AllocError>
    ensures { IfOk result (λ t. string_bytes t ≡ name_beside name.now number) }
{
    let text = format!(in alloc; "{name}.{number}.new")?;
    Ok(text)
}

/// Takes away what is left of a file that isn't put in place. Where that fails too there is nothing
/// left to do.
fn give_up<D: Disk>(disk: &mut D, staged: &str) -> FileFault
    ensures spared { Spares (D.files disk.old) (D.files disk.new) staged.now }
    ensures cause { result ≡ FileFault.Device }
    ensures counts { D.failures disk.old ≤ D.failures disk.new }
{
    let _ = disk.remove(staged);
    FileFault::Device
}

/// Puts the file beside in place of the file, or takes it away again.
fn settle<D: Disk>(disk: &mut D, staged: &str, name: &str) -> Result<(), FileFault>
    ensures put { IfOk result (λ _. Moves (D.files disk.old) (D.files disk.new) staged.now name.now) }
    ensures spared { OnErr result (Spares (D.files disk.old) (D.files disk.new) staged.now) }
    ensures cause { Counts (D.failures disk.old) (D.failures disk.new) result }
{
    match disk.rename(staged, name) {
        Ok(()) => Ok(()),
        Err(DeviceFault) => Err(give_up(disk, staged)),
    }
}

/// Puts the bytes in place of the file's, whole or not at all: they are written to a new file
/// beside it, in the same folder, which then takes its name. So the file holds what it held until
/// all of the bytes lie on the device. Every other file stays as it is. A device is told to have
/// failed only where the disk counted a failure in this call, and memory only where it counted none.
pub fn replace<D: Disk>(
    alloc: Global,
    disk: &mut D,
    name: &str,
    bytes: &[u8],
) -> Result<(), FileFault>
    ensures replaced { IfOk result
        (λ _. Replaces (D.files disk.old) (D.files disk.new) name.now bytes.now) }
    ensures left { OnErr result (Leaves (D.files disk.old) (D.files disk.new) name.now) }
    ensures cause { Counts (D.failures disk.old) (D.failures disk.new) result }
{
    for number in 1..=TRIES {
        let beside = name_beside(alloc, name, number)?;
        let staged = beside.as_str();
        match disk.stage(staged, bytes) {
            Ok(()) => return settle(disk, staged, name),
            Err(StageFault::Taken) => {}
            Err(StageFault::Unmade) => return Err(FileFault::Device),
            Err(StageFault::Unfilled) => return Err(give_up(disk, staged)),
        }
    }
    disk.crowd(name);
    Err(FileFault::Device)
}
