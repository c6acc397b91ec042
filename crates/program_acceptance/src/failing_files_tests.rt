//! Files of the machine, of which one kind of call fails.
use crate::comparing::compare;
use crate::folders_tests::{is_absent, is_read_as, temporary};
use std::alloc::{Allocator, Global};
use std::fs::{File, Metadata, OpenFile, OpenOptions};
use std::io::{ErrorKind, Read, Seek, SeekFrom, Write};
use std::rt::Files;
use std::{fs, io};
use streams::{FileFault, Folder, HostFolder};

/// A kind of call.
#[derive(Clone, Copy, PartialEq, Eq)]
enum Call {
    Open,
    Write,
    Sync,
    Rename,
    Other,
}

/// Passes the calls on, or fails where they are of this kind.
fn passes(failing: Call, call: Call) -> io::Result<()> {
    if failing == call {
        return Err(io::Error::from(ErrorKind::Other));
    }
    Ok(())
}

/// A file of the machine.
#[derive(Drop)]
struct FailingFile {
    file: File,
    failing: Call,
}

impl Read for FailingFile {
    fn read(&mut self, buf: &mut [u8]) -> io::Result<usize> {
        self.file.read(buf)
    }
}

impl Write for FailingFile {
    fn write(&mut self, buf: &[u8]) -> io::Result<usize> {
        passes(self.failing, Call::Write)?;
        self.file.write(buf)
    }

    fn flush(&mut self) -> io::Result<()> {
        self.file.flush()
    }
}

impl Seek for FailingFile {
    fn seek(&mut self, to: SeekFrom) -> io::Result<u64> {
        self.file.seek(to)
    }
}

impl OpenFile for FailingFile {
    fn metadata(&self) -> io::Result<Metadata> {
        self.file.metadata()
    }

    fn set_len(&self, size: u64) -> io::Result<()> {
        self.file.set_len(size)
    }

    fn sync_all(&self) -> io::Result<()> {
        passes(self.failing, Call::Sync)?;
        self.file.sync_all()
    }

    fn sync_data(&self) -> io::Result<()> {
        passes(self.failing, Call::Sync)?;
        self.file.sync_data()
    }
}

/// The machine.
#[derive(Drop)]
struct Failing<'a> {
    rt: &'a HostRuntime,
    failing: Call,
}

impl Alloc for Failing<'_> {
    type A = Global;

    fn alloc(&self) -> Global {
        self.rt.alloc()
    }
}

impl Files for Failing<'_> {
    type File = FailingFile;

    type Dir = <HostRuntime as Files>::Dir;

    fn open_file(&self, how: &OpenOptions, path: &str) -> io::Result<FailingFile> {
        passes(self.failing, Call::Open)?;
        let file = self.rt.open_file(how, path)?;
        Ok(FailingFile {
            file,
            failing: self.failing,
        })
    }

    fn open_dir(&self, path: &str) -> io::Result<<HostRuntime as Files>::Dir> {
        self.rt.open_dir(path)
    }

    fn metadata(&self, path: &str) -> io::Result<Metadata> {
        Files::metadata(self.rt, path)
    }

    fn symlink_metadata(&self, path: &str) -> io::Result<Metadata> {
        self.rt.symlink_metadata(path)
    }

    fn copy(&self, from: &str, to: &str) -> io::Result<u64> {
        self.rt.copy(from, to)
    }

    fn rename(&self, from: &str, to: &str) -> io::Result<()> {
        passes(self.failing, Call::Rename)?;
        self.rt.rename(from, to)
    }

    fn remove_file(&self, path: &str) -> io::Result<()> {
        self.rt.remove_file(path)
    }

    fn create_dir(&self, path: &str) -> io::Result<()> {
        self.rt.create_dir(path)
    }

    fn remove_dir(&self, path: &str) -> io::Result<()> {
        self.rt.remove_dir(path)
    }

    fn remove_dir_all<B: Allocator>(&self, alloc: B, path: &str) -> io::Result<()> {
        self.rt.remove_dir_all(alloc, path)
    }
}

/// The kind of call that fails, whether the file is replaced then, and what it holds.
static ROWS: [(Call, Result<(), FileFault>, &str); 5] = [
    (Call::Open, Err(FileFault::Device), "old text"),
    (Call::Write, Err(FileFault::Device), "old text"),
    (Call::Sync, Err(FileFault::Device), "old text"),
    (Call::Rename, Err(FileFault::Device), "old text"),
    (Call::Other, Ok(()), "new text"),
];

/// Puts a new text into the file.
fn put<R: Files + AllocGlobal>(rt: &R, name: &str) -> Result<(), FileFault> {
    HostFolder::new(rt).write(name, b"new text")
}

/// Whether the file is replaced or not, and holds the text then, and nothing is left beside it.
fn replaces(
    rt: &HostRuntime,
    name: &str,
    beside: &str,
    row: &(Call, Result<(), FileFault>, &str),
) -> bool {
    let (failing, wanted, held) = *row;
    let failing = Failing { rt, failing };
    let mut folder = HostFolder::new(rt);
    folder.write(name, b"old text").is_ok()
        && put(&failing, name) == wanted
        && matches!(is_read_as(&mut folder, name, held), Ok(true))
        && is_absent(&mut folder, beside)
}

/// How many rows hold, up to the first that doesn't.
fn count_replaced(rt: &HostRuntime, name: &str, beside: &str) -> usize {
    let mut count = 0usize;
    for row in &ROWS {
        if !replaces(rt, name, beside, row) {
            return count;
        }
        count = count.saturating_add(1);
    }
    count
}

/// How many rows hold of the file, which is removed then.
fn count_of(rt: &HostRuntime, name: &str, beside: &str) -> usize {
    let count = count_replaced(rt, name, beside);
    match fs::remove_file(rt, name) {
        Ok(()) => count,
        Err(_) => 0,
    }
}

/// How many rows hold of a file of the machine.
fn count_on_the_machine(rt: &HostRuntime) -> usize {
    match temporary(rt, "failing_files") {
        Some((name, beside)) => count_of(rt, name.as_str(), beside.as_str()),
        None => 0,
    }
}

#[test]
fn replaces_whole_where_a_call_fails(rt: HostRuntime) {
    compare(&rt, "ROWS", count_on_the_machine(&rt), 5);
}
