//! Files in memory.
ghost use Rattle.std.specs.Prelude.{◌≡◌, ◌≢◌, ◌+◌, Option, Some, None, IfOk, OnErr, option_map, take, true, false};
ghost use Rattle.std.specs.BTreeMap.{get_by_text};
ghost use Rattle.streams.specs.Files.{Replaces, file_of};
ghost use Rattle.streams.specs.Disks.{Loses, Moves, Spares};

use crate::replacing::{Disk, StageFault};
use crate::{DeviceFault, Failures, FileFault, Folder};
use allocation::Memory;
use std::alloc::Global;
use std::collections::BTreeMap;

/// Files in memory, all of them known. One call may fail. As a disk it may be the making of a new
/// file that fails, the writing, the waiting for the device, or the renaming.
#[derive(Drop)]
pub struct MemoryFolder {
    alloc: Global,
    files: BTreeMap<String, Vec<u8>>,
    calls: Calls,
    failed_reads: Failures,
    failed_writes: Failures,
}

/// Calls, one of which fails.
#[derive(Drop)]
struct Calls {
    until: u64,
}

impl Calls {
    /// Whether this is the call that fails.
    fn fails(&mut self) -> bool {
        let fails = self.until == 1;
        self.until = self.until.saturating_sub(1);
        fails
    }
}

impl MemoryFolder {
    /// No file, and no call fails but reads of files that aren't there.
    pub fn new(alloc: Global) -> MemoryFolder
        ensures { ⟦<MemoryFolder as Folder>⟧.files result ≡ Some (λ _. None) }
    {
        MemoryFolder::failing(alloc, 0)
    }

    /// No file. The read or write of this number fails, from 1.
    pub fn failing(alloc: Global, number: u64) -> MemoryFolder
        ensures { ⟦<MemoryFolder as Folder>⟧.files result ≡ Some (λ _. None) }
    {
        MemoryFolder {
            alloc,
            files: BTreeMap::new(alloc),
            calls: Calls { until: number },
            failed_reads: Failures::new(),
            failed_writes: Failures::new(),
        }
    }

    /// Puts the bytes in place of the file's, or makes the file. It is no call that may fail.
    pub fn put(&mut self, name: &str, bytes: &[u8]) -> Result<(), Memory>
        ensures put { let files = ⟦<MemoryFolder as Folder>⟧.files in
            IfOk result (λ _. Replaces (files self.old) (files self.new) name.now bytes.now) }
        ensures kept { let files = ⟦<MemoryFolder as Folder>⟧.files in
            OnErr result (files self.new ≡ files self.old) }
        ensures reads { self.new.failed_reads ≡ self.old.failed_reads }
        ensures writes { self.new.failed_writes ≡ self.old.failed_writes }
    {
        let key = String::from_str(self.alloc, name)?;
        let bytes = bytes.to_vec(self.alloc)?;
        self.files.insert(key, bytes)?;
        Ok(())
    }

    /// The bytes of the file.
    pub fn bytes(&self, name: &str) -> Option<&[u8]>
        ensures { option_map (λ b. b.now) result
            ≡ file_of (⟦<MemoryFolder as Folder>⟧.files self.now) name.now }
    {
        self.files.get(name).map(|bytes| bytes.as_slice())
    }

    /// A call that may fail, which puts the bytes there or tells that it doesn't.
    fn puts(&mut self, name: &str, bytes: &[u8]) -> bool
        ensures put { let files = ⟦<MemoryFolder as Folder>⟧.files in
            result ≡ true → Replaces (files self.old) (files self.new) name.now bytes.now }
        ensures kept { let files = ⟦<MemoryFolder as Folder>⟧.files in
            result ≡ false → files self.new ≡ files self.old }
        ensures writes { self.new.failed_writes ≡ self.old.failed_writes }
    {
        if self.calls.fails() {
            return false;
        }
        self.put(name, bytes).is_ok()
    }

    /// Takes the file away, if it is there.
    fn forget(&mut self, name: &str)
        ensures lost { let files = ⟦<MemoryFolder as Folder>⟧.files in
            Loses (files self.old) (files self.new) name.now }
        ensures writes { self.new.failed_writes ≡ self.old.failed_writes }
    {
        let _ = self.files.remove(name);
    }

    /// Gives the file another name.
    fn give(&mut self, from: &str, to: &str) -> Result<(), Memory>
        ensures moved { let files = ⟦<MemoryFolder as Folder>⟧.files in
            from.now ≢ to.now
            → IfOk result (λ _. Moves (files self.old) (files self.new) from.now to.now) }
        ensures kept { let files = ⟦<MemoryFolder as Folder>⟧.files in
            OnErr result (files self.new ≡ files self.old) }
        ensures writes { self.new.failed_writes ≡ self.old.failed_writes }
    {
        if let Some(bytes) = self.files.get(from) {
            let bytes = bytes.clone()?;
            self.put(to, &bytes)?;
            self.forget(from);
            return Ok(());
        }
        Err(Memory)
    }

    /// Puts half of the bytes into the file, and then all of them.
    fn fills(&mut self, name: &str, bytes: &[u8]) -> bool
        ensures put { let files = ⟦<MemoryFolder as Folder>⟧.files in
            result ≡ true → Replaces (files self.old) (files self.new) name.now bytes.now }
        ensures spared { let files = ⟦<MemoryFolder as Folder>⟧.files in
            Spares (files self.old) (files self.new) name.now }
        ensures writes { self.new.failed_writes ≡ self.old.failed_writes }
    {
        if !self.puts(name, &bytes[..bytes.len() / 2]) {
            return false;
        }
        self.puts(name, bytes)
    }
}

/// The first of the bytes, no more than one past `most`.
fn front(bytes: &[u8], most: usize) -> &[u8]
    ensures { result.now ≡ take (most + 1) bytes.now }
{
    if bytes.len() <= most {
        bytes
    } else {
        &bytes[..=most]
    }
}

impl Folder for MemoryFolder {
    ghost files = { λ s. Some (λ name. option_map (λ v. v.items) (get_by_text s.files name)) };

    ghost failed_reads = { λ s. s.failed_reads.count };

    ghost failed_writes = { λ s. s.failed_writes.count };

    fn read_front(&mut self, name: &str, most: usize) -> Result<Vec<u8>, FileFault> {
        if !self.calls.fails() {
            if let Some(bytes) = self.files.get(name) {
                return Ok(front(bytes, most).to_vec(self.alloc)?);
            }
        }
        self.failed_reads.add();
        Err(FileFault::Device)
    }

    fn exceed(&mut self, _name: &str, _most: usize) {
        self.failed_reads.add();
    }

    fn write(&mut self, name: &str, bytes: &[u8]) -> Result<(), FileFault> {
        if self.calls.fails() {
            self.failed_writes.add();
            return Err(FileFault::Device);
        }
        self.put(name, bytes)?;
        Ok(())
    }
}

impl Disk for MemoryFolder {
    ghost files = { λ s. ⟦<MemoryFolder as Folder>⟧.files s };

    ghost failures = { λ s. s.failed_writes.count };

    fn stage(&mut self, name: &str, bytes: &[u8]) -> Result<(), StageFault> {
        if self.files.get(name).is_some() {
            return Err(StageFault::Taken);
        }
        if !self.puts(name, b"") {
            self.failed_writes.add();
            return Err(StageFault::Unmade);
        }
        if !self.fills(name, bytes) {
            self.failed_writes.add();
            return Err(StageFault::Unfilled);
        }
        Ok(())
    }

    fn rename(&mut self, from: &str, to: &str) -> Result<(), DeviceFault> {
        if self.calls.fails() {
            self.failed_writes.add();
            return Err(DeviceFault);
        }
        if from == to {
            return Ok(());
        }
        match self.give(from, to) {
            Ok(()) => Ok(()),
            Err(Memory) => {
                self.failed_writes.add();
                Err(DeviceFault)
            }
        }
    }

    fn remove(&mut self, name: &str) -> Result<(), DeviceFault> {
        if self.files.get(name).is_none() {
            self.failed_writes.add();
            return Err(DeviceFault);
        }
        self.forget(name);
        Ok(())
    }

    fn crowd(&mut self, _name: &str) {
        self.failed_writes.add();
    }
}
