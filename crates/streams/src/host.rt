//! The files of the machine.
ghost use Rattle.std.specs.Prelude.{◌+◌, ◌≤◌, None, IfOk, vec_len};
ghost use Rattle.streams.specs.Disks.{CountsCall};

use crate::replacing::{Disk, StageFault, replace};
use crate::{DeviceFault, Failures, FileFault, Folder, ReaderSource, StreamFault, read_whole};
use std::fs::{File, OpenFile};
use std::io::{ErrorKind, Write};
use std::rt::Files;
use std::{fs, io};

/// The disk of the machine.
#[derive(Drop)]
pub struct HostDisk<'a, R> {
    rt: &'a R,
    failures: Failures,
}

impl<'a, R: Files> HostDisk<'a, R> {
    /// Nothing failed yet.
    pub fn new(rt: &'a R) -> HostDisk<'a, R> {
        HostDisk {
            rt,
            failures: Failures::new(),
        }
    }

    /// Counts a call that failed.
    fn counted(&mut self, told: io::Result<()>) -> Result<(), DeviceFault>
        ensures { CountsCall self.old.failures.count self.new.failures.count result }
    {
        match told {
            Ok(()) => Ok(()),
            Err(_) => {
                self.failures.add();
                Err(DeviceFault)
            }
        }
    }
}

/// Writes the whole file, and waits until it lies on the device.
fn fill<W: Write + OpenFile + Drop>(file: W, bytes: &[u8]) -> io::Result<()> {
    let mut file = file;
    file.write_all(bytes)?;
    file.sync_all()
}

impl<R: Files> Disk for HostDisk<'_, R> {
    ghost files = { λ _. None };

    ghost failures = { λ s. s.failures.count };

    fn stage(&mut self, name: &str, bytes: &[u8]) -> Result<(), StageFault> {
        match File::create_new(self.rt, name) {
            Ok(file) => {
                if fill(file, bytes).is_err() {
                    self.failures.add();
                    return Err(StageFault::Unfilled);
                }
                Ok(())
            }
            Err(e) if e.kind() == ErrorKind::AlreadyExists => Err(StageFault::Taken),
            Err(_) => {
                self.failures.add();
                Err(StageFault::Unmade)
            }
        }
    }

    fn rename(&mut self, from: &str, to: &str) -> Result<(), DeviceFault> {
        let told = fs::rename(self.rt, from, to);
        self.counted(told)
    }

    fn remove(&mut self, name: &str) -> Result<(), DeviceFault> {
        let told = fs::remove_file(self.rt, name);
        self.counted(told)
    }

    fn crowd(&mut self, _name: &str) {
        self.failures.add();
    }
}

/// Reads the file to its end, but no more than one byte past `most`.
fn bytes_of<R: Files + AllocGlobal>(rt: &R, name: &str, most: usize) -> Result<Vec<u8>, StreamFault>
    ensures { IfOk result (λ v. vec_len v ≤ most + 1) }
{
    match File::open(rt, name) {
        Ok(file) => read_whole(rt.alloc(), &mut ReaderSource::new(file), most),
        Err(e) if e.kind() == ErrorKind::OutOfMemory => Err(StreamFault::Memory),
        Err(_) => Err(StreamFault::Read),
    }
}

/// The files of the machine, of whose bytes nothing is claimed. A file is replaced whole or not at
/// all.
#[derive(Drop)]
pub struct HostFolder<'a, R> {
    rt: &'a R,
    failed_reads: Failures,
    disk: HostDisk<'a, R>,
}

impl<'a, R: Files> HostFolder<'a, R> {
    /// Nothing failed yet.
    pub fn new(rt: &'a R) -> HostFolder<'a, R> {
        HostFolder {
            rt,
            failed_reads: Failures::new(),
            disk: HostDisk::new(rt),
        }
    }
}

impl<R: Files + AllocGlobal> Folder for HostFolder<'_, R> {
    ghost files = { λ _. None };

    ghost failed_reads = { λ s. s.failed_reads.count };

    ghost failed_writes = { λ s. s.disk.failures.count };

    fn read_front(&mut self, name: &str, most: usize) -> Result<Vec<u8>, FileFault> {
        match bytes_of(self.rt, name, most) {
            Ok(bytes) => Ok(bytes),
            Err(StreamFault::Memory) => Err(FileFault::Memory),
            Err(StreamFault::Read | StreamFault::Write) => {
                self.failed_reads.add();
                Err(FileFault::Device)
            }
        }
    }

    fn exceed(&mut self, _name: &str, _most: usize) {
        self.failed_reads.add();
    }

    fn write(&mut self, name: &str, bytes: &[u8]) -> Result<(), FileFault> {
        replace(self.rt.alloc(), &mut self.disk, name, bytes)
    }
}
