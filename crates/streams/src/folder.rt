//! Where files are.
ghost use Rattle.std.specs.Prelude.{◌≡◌, ◌+◌, ◌<◌, ◌≤◌, ℕ, List, Option, IfOk, vec_len};
ghost use Rattle.streams.specs.declared.folder.TheConstants.{LARGEST_FILE};
ghost use Rattle.streams.specs.Files.{BeginsWith, Counts, Holds, HoldsMore, Writes};

use crate::FileFault;

/// The most bytes of a file that is read whole: 256 MiB.
pub const LARGEST_FILE: usize = 268435456;

/// Named files.
pub trait Folder {
    /// What the file of each name holds, and nothing where there is none, if the files are known.
    ghost files: { Self → Option (List ℕ → Option (List ℕ)) };

    /// How often a read has failed, or was given up since the file holds more than is read of one.
    ghost failed_reads: { Self → ℕ };

    /// How often a write has failed.
    ghost failed_writes: { Self → ℕ };

    /// Reads the file to its end, but no more than one byte past `most`: more than `most` bytes say
    /// that the end wasn't reached. Every file stays as it is.
    fn read_front(&mut self, name: &str, most: usize) -> Result<Vec<u8>, FileFault>
        ensures bytes { IfOk result
            (λ v. BeginsWith (files self.old) name.now (most + 1) v.items) }
        ensures bound { IfOk result (λ v. vec_len v ≤ most + 1) }
        ensures kept { files self.new ≡ files self.old }
        ensures cause { Counts (failed_reads self.old) (failed_reads self.new) result }
        ensures writes { failed_writes self.new ≡ failed_writes self.old };

    /// Counts as a failed read that the file holds more than `most` bytes.
    fn exceed(&mut self, name: &str, most: usize)
        requires { HoldsMore (files self.old) name.now most }
        ensures kept { files self.new ≡ files self.old }
        ensures cause { failed_reads self.old < failed_reads self.new }
        ensures writes { failed_writes self.new ≡ failed_writes self.old };

    /// All bytes of the file, where it holds no more than [`LARGEST_FILE`]. Every file stays as it is.
    fn read(&mut self, name: &str) -> Result<Vec<u8>, FileFault>
        ensures bytes { IfOk result (λ v. Holds (files self.old) name.now v.items) }
        ensures bound { IfOk result (λ v. vec_len v ≤ LARGEST_FILE) }
        ensures kept { files self.new ≡ files self.old }
        ensures cause { Counts (failed_reads self.old) (failed_reads self.new) result }
        ensures writes { failed_writes self.new ≡ failed_writes self.old }
    {
        let bytes = self.read_front(name, LARGEST_FILE)?;
        if bytes.len() > LARGEST_FILE {
            self.exceed(name, LARGEST_FILE);
            return Err(FileFault::Device);
        }
        Ok(bytes)
    }

    /// Puts the bytes in place of the file's, or makes the file. Every other file stays as it is,
    /// and after a call that fails every file is as it was.
    fn write(&mut self, name: &str, bytes: &[u8]) -> Result<(), FileFault>
        ensures written { Writes (files self.old) (files self.new) result name.now bytes.now }
        ensures cause { Counts (failed_writes self.old) (failed_writes self.new) result }
        ensures reads { failed_reads self.new ≡ failed_reads self.old };
}
