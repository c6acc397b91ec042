//! The files of an action: what stops it is a read or a write.
ghost use Rattle.std.specs.Prelude.{◌≡◌, ◌+◌, ◌≤◌, IfErr, IfOk, OnOk, OnErr, vec_len};
ghost use Rattle.streams.specs.Files.{BeginsWith, Holds, Replaces};
ghost use Rattle.verdict_texts.specs.declared.stream.TheConstants.{MOST_BYTES};
ghost use Rattle.catalogue_command.specs.Stops.{StopsCreate, StopsList, failed};

use command_results::Stop;
use streams::{FileFault, Folder};
use verdict_texts::MOST_BYTES;

/// Reads a catalogue, of at most [`LARGEST_FILE`](streams::LARGEST_FILE) bytes.
pub(crate) fn read<'a, F: Folder>(folder: &mut F, name: &'a str) -> Result<Vec<u8>, Stop<'a>>
    ensures bytes { IfOk result (λ v. Holds (F.files folder.old) name.entry.now v.items) }
    ensures kept { F.files folder.new ≡ F.files folder.old }
    ensures succeeds { IfOk result (λ _. F.failed_reads folder.new ≡ F.failed_reads folder.old) }
    ensures writes { F.failed_writes folder.new ≡ F.failed_writes folder.old }
    ensures stops { IfErr result (StopsList name.entry.now
        (failed (F.failed_reads folder.old) (F.failed_writes folder.old))
        (failed (F.failed_reads folder.new) (F.failed_writes folder.new))) }
{
    match folder.read(name) {
        Ok(bytes) => Ok(bytes),
        Err(FileFault::Device) => Err(Stop::Read(name)),
        Err(FileFault::Memory) => Err(Stop::Memory),
    }
}

/// The bytes with which a certificate's file begins: all of them, or one more than are read of one.
pub(crate) fn read_front<'a, F: Folder>(
    folder: &mut F,
    certificate: &'a str,
) -> Result<Vec<u8>, Stop<'a>>
    ensures bytes { IfOk result
        (λ v. BeginsWith (F.files folder.old) certificate.entry.now (MOST_BYTES + 1) v.items) }
    ensures bound { IfOk result (λ v. vec_len v ≤ MOST_BYTES + 1) }
    ensures kept { F.files folder.new ≡ F.files folder.old }
    ensures succeeds { IfOk result (λ _. F.failed_reads folder.new ≡ F.failed_reads folder.old) }
    ensures writes { F.failed_writes folder.new ≡ F.failed_writes folder.old }
    ensures stops { IfErr result (StopsList certificate.entry.now
        (failed (F.failed_reads folder.old) (F.failed_writes folder.old))
        (failed (F.failed_reads folder.new) (F.failed_writes folder.new))) }
{
    match folder.read_front(certificate, MOST_BYTES) {
        Ok(bytes) => Ok(bytes),
        Err(FileFault::Device) => Err(Stop::Read(certificate)),
        Err(FileFault::Memory) => Err(Stop::Memory),
    }
}

/// Puts bytes in place of a file's.
pub(crate) fn put<F: Folder>(folder: &mut F, name: &str, bytes: &[u8]) -> Result<(), Stop<'static>>
    ensures written { OnOk result
        (Replaces (F.files folder.old) (F.files folder.new) name.now bytes.now) }
    ensures kept { OnErr result (F.files folder.new ≡ F.files folder.old) }
    ensures stops { IfErr result (StopsCreate
        (failed (F.failed_reads folder.old) (F.failed_writes folder.old))
        (failed (F.failed_reads folder.new) (F.failed_writes folder.new))) }
{
    match folder.write(name, bytes) {
        Ok(()) => Ok(()),
        Err(FileFault::Device) => Err(Stop::Write),
        Err(FileFault::Memory) => Err(Stop::Memory),
    }
}
