//! Files in memory, of which one call fails, also as a disk, and those of the machine.
use crate::comparing::compare;
use std::alloc::Global;
use std::fs;
use std::test::Fail;
use streams::{FileFault, Folder, HostFolder, MemoryFolder, read_all, replace};

/// Whether the file is read as the text, or why it isn't read.
pub fn is_read_as<F: Folder>(folder: &mut F, name: &str, text: &str) -> Result<bool, FileFault> {
    match folder.read(name) {
        Ok(bytes) => Ok(bytes.as_slice() == text.as_bytes()),
        Err(fault) => Err(fault),
    }
}

/// Whether there is no such file.
pub fn is_absent<F: Folder>(folder: &mut F, name: &str) -> bool {
    matches!(is_read_as(folder, name, ""), Err(FileFault::Device))
}

/// Whether the file is read as the text, and lent so.
fn holds(folder: &mut MemoryFolder, name: &str, text: &str) -> bool {
    matches!(is_read_as(folder, name, text), Ok(true))
        && folder.bytes(name) == Some(text.as_bytes())
}

/// Whether three files are written, one of them again.
fn fills(folder: &mut MemoryFolder) -> bool {
    folder.put("a", b"one").is_ok()
        && folder.put("b", b"two").is_ok()
        && folder.write("a", b"three").is_ok()
        && folder.write("c", b"").is_ok()
}

/// Whether just these files are held.
fn is_filled(folder: &mut MemoryFolder) -> bool {
    holds(folder, "a", "three")
        && holds(folder, "b", "two")
        && holds(folder, "c", "")
        && folder.bytes("d").is_none()
}

/// Whether what is written is kept, and nothing else.
fn keeps_what_is_written(alloc: Global) -> bool {
    let mut folder = MemoryFolder::new(alloc);
    is_absent(&mut folder, "a") && fills(&mut folder) && is_filled(&mut folder)
}

/// The call that fails, which of three calls fail then, and what the file holds behind them.
static CALLS: [(u64, [bool; 3], &str); 4] = [
    (1, [true, false, false], "two"),
    (2, [false, true, false], "one"),
    (3, [false, false, true], "two"),
    (4, [false, false, false], "two"),
];

/// Whether just these fail of reading, writing and reading a file, and the text is held then.
fn fails_so(alloc: Global, number: u64, failed: &[bool; 3], held: &str) -> bool {
    let mut folder = MemoryFolder::failing(alloc, number);
    folder.put("a", b"one").is_ok()
        && folder.read("a").is_err() == failed[0]
        && folder.write("a", b"two").is_err() == failed[1]
        && folder.read("a").is_err() == failed[2]
        && folder.bytes("a") == Some(held.as_bytes())
}

/// How many rows hold, up to the first that doesn't.
fn count_failed(alloc: Global, rows: &[(u64, [bool; 3], &str)]) -> usize {
    let mut count = 0usize;
    for (number, failed, held) in rows {
        if !fails_so(alloc, *number, failed, held) {
            return count;
        }
        count = count.saturating_add(1);
    }
    count
}

/// The step that fails, whether the file is replaced then, and what it holds.
static STEPS: [(u64, bool, &str); 5] = [
    (1, false, "old text"),
    (2, false, "old text"),
    (3, false, "old text"),
    (4, false, "old text"),
    (5, true, "new text"),
];

/// Whether there is the file, another's file under the first name that is tried beside it, and none
/// under the second.
fn holds_both(disk: &MemoryFolder, held: &str) -> bool {
    disk.bytes("a") == Some(held.as_bytes())
        && disk.bytes("a.1.new") == Some(b"of another")
        && disk.bytes("a.2.new").is_none()
}

/// Whether the file is replaced or not, and the text is held then beside the other file.
fn replaces(alloc: Global, number: u64, done: bool, held: &str) -> bool {
    let mut disk = MemoryFolder::failing(alloc, number);
    disk.put("a", b"old text").is_ok()
        && disk.put("a.1.new", b"of another").is_ok()
        && replace(alloc, &mut disk, "a", b"new text").is_ok() == done
        && holds_both(&disk, held)
}

/// How many rows hold, up to the first that doesn't.
fn count_replaced(alloc: Global, rows: &[(u64, bool, &str)]) -> usize {
    let mut count = 0usize;
    for (number, done, held) in rows {
        if !replaces(alloc, *number, *done, held) {
            return count;
        }
        count = count.saturating_add(1);
    }
    count
}

/// The most bytes that are read, how the file of the text `abc` begins then, and whether it is read
/// whole.
static BOUNDS: [(usize, &str, bool); 6] = [
    (0, "a", false),
    (1, "ab", false),
    (2, "abc", false),
    (3, "abc", true),
    (4, "abc", true),
    (usize::MAX, "abc", true),
];

/// Whether so much is read of a file.
fn reads_within<F: Folder>(folder: &mut F, name: &str, bound: (usize, &str, bool)) -> bool {
    let (most, front, whole) = bound;
    matches!(folder.read_front(name, most), Ok(bytes) if bytes.as_slice() == front.as_bytes())
        && read_all(folder, name, most).is_ok() == whole
}

/// How many rows hold of a file of the text `abc`, up to the first that doesn't.
fn count_within<F: Folder>(folder: &mut F, name: &str, rows: &[(usize, &str, bool)]) -> usize {
    let mut count = 0usize;
    for row in rows {
        if !reads_within(folder, name, *row) {
            return count;
        }
        count = count.saturating_add(1);
    }
    count
}

/// How many rows hold of a file in memory.
fn count_within_memory(alloc: Global) -> usize {
    let mut folder = MemoryFolder::new(alloc);
    match folder.put("a", b"abc") {
        Ok(()) => count_within(&mut folder, "a", &BOUNDS),
        Err(_) => 0,
    }
}

#[test]
fn files_in_memory(rt: HostRuntime) {
    compare(
        &rt,
        "what is written",
        keeps_what_is_written(rt.alloc()),
        true,
    );
    compare(&rt, "CALLS", count_failed(rt.alloc(), &CALLS), 4);
    compare(&rt, "STEPS", count_replaced(rt.alloc(), &STEPS), 5);
    compare(&rt, "BOUNDS", count_within_memory(rt.alloc()), 6);
}

/// Whether the text is written, and read again.
fn keeps<F: Folder>(folder: &mut F, name: &str, text: &str) -> bool {
    folder.write(name, text.as_bytes()).is_ok()
        && matches!(is_read_as(folder, name, text), Ok(true))
}

/// Whether a file that isn't there is made, and replaced by a long text and twice more, and none is
/// in no folder.
fn is_replaced<F: Folder>(folder: &mut F, name: &str, long: &str) -> bool {
    is_absent(folder, name)
        && keeps(folder, name, "a longer text")
        && keeps(folder, name, long)
        && keeps(folder, name, "a text")
        && keeps(folder, name, "")
        && matches!(folder.write("/nowhere/a", b"x"), Err(FileFault::Device))
}

/// Whether a file is replaced so while another has the first name that is tried beside it, and the
/// other is as it was then.
fn is_replaced_beside<F: Folder>(folder: &mut F, name: &str, other: &str, long: &str) -> bool {
    keeps(folder, other, "of another")
        && is_replaced(folder, name, long)
        && matches!(is_read_as(folder, other, "of another"), Ok(true))
}

/// Whether what bears the name of a folder is refused, and nothing is left beside it.
fn is_no_file<F: Folder>(folder: &mut F, name: &str, beside: &str) -> bool {
    matches!(folder.write(name, b"x"), Err(FileFault::Device)) && is_absent(folder, beside)
}

/// The name of a file of this run, and the first that is tried beside it.
pub fn temporary(rt: &HostRuntime, name: &str) -> Option<(String, String)> {
    let name = name_of(rt, name)?;
    let beside = format!(in rt.alloc(); "{}.1.new", name.as_str()).ok()?;
    Some((name, beside))
}

/// The name of a file of this run.
fn name_of(rt: &HostRuntime, name: &str) -> Option<String> {
    let place = std::env::temp_dir(rt).ok()?;
    let number = std::process::id(rt.process());
    format!(in rt.alloc(); "{}/{name}_{number}", place.as_str()).ok()
}

#[test]
fn replaces_on_the_machine(rt: HostRuntime) -> Result<(), Fail> {
    let place = std::env::temp_dir(&rt)?;
    let name = format!(in rt.alloc();
        "{}/folders_{}",
        place.as_str(),
        std::process::id(rt.process())
    )?;
    let other = format!(in rt.alloc(); "{}.1.new", name.as_str())?;
    let long = "0123456789".repeat(rt.alloc(), 7000)?;
    let mut folder = HostFolder::new(&rt);
    assert!(rt; is_replaced_beside(&mut folder, name.as_str(), other.as_str(), long.as_str()));
    assert!(rt; keeps(&mut folder, name.as_str(), "abc"));
    assert_eq!(rt; count_within(&mut folder, name.as_str(), &BOUNDS), 6);
    assert!(rt; matches!(folder.read_front("/dev/zero", 9), Ok(bytes) if bytes.len() == 10));
    fs::remove_file(&rt, name.as_str())?;
    fs::remove_file(&rt, other.as_str())?;
    fs::create_dir(&rt, name.as_str())?;
    assert!(rt; is_no_file(&mut folder, name.as_str(), other.as_str()));
    fs::remove_dir(&rt, name.as_str())?;
    Ok(())
}
