//! Whole files.
ghost use Rattle.std.specs.Prelude.{◌≡◌, ◌≤◌, IfOk, vec_len};
ghost use Rattle.streams.specs.Files.{Counts, Holds};

use crate::{FileFault, Folder};

/// All bytes of the file, which are at most so many: a larger file is told as a failed read, and no
/// more than one byte past `most` is read of it. Every file stays as it is.
pub fn read_all<F: Folder>(folder: &mut F, name: &str, most: usize) -> Result<Vec<u8>, FileFault>
    ensures bytes { IfOk result (λ v. Holds (F.files folder.old) name.now v.items) }
    ensures bound { IfOk result (λ v. vec_len v ≤ most) }
    ensures kept { F.files folder.new ≡ F.files folder.old }
    ensures cause { Counts (F.failed_reads folder.old) (F.failed_reads folder.new) result }
    ensures writes { F.failed_writes folder.new ≡ F.failed_writes folder.old }
{
    let bytes = folder.read_front(name, most)?;
    if bytes.len() > most {
        folder.exceed(name, most);
        return Err(FileFault::Device);
    }
    Ok(bytes)
}
