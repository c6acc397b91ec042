//! Files that commands read.
ghost use Rattle.std.specs.Prelude.{◌≡◌, ◌+◌, ◌≤◌, IfOk, IfErr, vec_len};
ghost use Rattle.streams.specs.Files.{BeginsWith, Holds};
ghost use Rattle.command_results.specs.Stops.{IsFileCause};

use crate::stop::Stop;
use streams::{FileFault, Folder, read_all};

/// All bytes of the file, which are at most so many: a larger file can't be read.
pub fn read_file<'a, F: Folder>(
    folder: &mut F,
    name: &'a str,
    most: usize,
) -> Result<Vec<u8>, Stop<'a>>
    ensures bytes { IfOk result (λ v. Holds (F.files folder.old) name.entry.now v.items) }
    ensures bound { IfOk result (λ v. vec_len v ≤ most) }
    ensures kept { F.files folder.new ≡ F.files folder.old }
    ensures succeeds { IfOk result (λ _. F.failed_reads folder.new ≡ F.failed_reads folder.old) }
    ensures stops { IfErr result
        (IsFileCause name.entry.now (F.failed_reads folder.old) (F.failed_reads folder.new)) }
    ensures writes { F.failed_writes folder.new ≡ F.failed_writes folder.old }
{
    match read_all(folder, name, most) {
        Ok(bytes) => Ok(bytes),
        Err(FileFault::Device) => Err(Stop::Read(name)),
        Err(FileFault::Memory) => Err(Stop::Memory),
    }
}

/// The bytes with which the file begins: all of them, or one more than `most` of a larger file.
pub fn read_front<'a, F: Folder>(
    folder: &mut F,
    file: &'a str,
    most: usize,
) -> Result<Vec<u8>, Stop<'a>>
    ensures bytes { IfOk result
        (λ v. BeginsWith (F.files folder.old) file.entry.now (most + 1) v.items) }
    ensures bound { IfOk result (λ v. vec_len v ≤ most + 1) }
    ensures kept { F.files folder.new ≡ F.files folder.old }
    ensures succeeds { IfOk result (λ _. F.failed_reads folder.new ≡ F.failed_reads folder.old) }
    ensures stops { IfErr result
        (IsFileCause file.entry.now (F.failed_reads folder.old) (F.failed_reads folder.new)) }
    ensures writes { F.failed_writes folder.new ≡ F.failed_writes folder.old }
{
    match folder.read_front(file, most) {
        Ok(bytes) => Ok(bytes),
        Err(FileFault::Device) => Err(Stop::Read(file)),
        Err(FileFault::Memory) => Err(Stop::Memory),
    }
}
