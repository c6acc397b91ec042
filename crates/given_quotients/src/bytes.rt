//! The bytes of certificates.
ghost use Rattle.std.specs.Prelude.{◌≡◌, false, IfOk, IfErr, is_none, is_some, option_map};
ghost use Rattle.verdict_texts.specs.Streams.{AreKnownAs};
ghost use Rattle.given_quotients.specs.Checks.{AreGiven, IsFrontOf, IsGivenCause, IsInputCause, failed};

use command_results::{Stop, read_front};
use std::alloc::Global;
use streams::{Folder, Source, StreamFault, read_whole};
use verdict_texts::MOST_BYTES;

/// What is left of standard input, or one byte more than is read of a certificate.
fn input_bytes<S: Source>(alloc: Global, input: &mut S) -> Result<Vec<u8>, Stop<'static>>
    ensures bytes { IfOk result (λ v. IsFrontOf (AreKnownAs (S.left input.old)) v.items) }
    ensures succeeds { IfOk result (λ _. S.failures input.new ≡ S.failures input.old) }
    ensures stops { IfErr result (IsInputCause (S.failures input.old) (S.failures input.new)) }
{
    match read_whole(alloc, input, MOST_BYTES) {
        Ok(bytes) => Ok(bytes),
        Err(StreamFault::Read) => Err(Stop::Read("standard input")),
        Err(StreamFault::Write | StreamFault::Memory) => Err(Stop::Memory),
    }
}

/// The bytes of the certificate in the file, or on standard input where no file is named: all of
/// them, or one more than [`MOST_BYTES`], by which they are no certificate as all of them are none.
pub fn given_bytes<'a, F: Folder, S: Source>(
    alloc: Global,
    file: Option<&'a str>,
    folder: &mut F,
    input: &mut S,
) -> Result<Vec<u8>, Stop<'a>>
    ensures bytes { let named = option_map (λ f. f.now) file.entry in
        IfOk result (λ v. IsFrontOf (AreGiven (S.left input.old) (F.files folder.old) named) v.items) }
    ensures kept { F.files folder.new ≡ F.files folder.old }
    ensures succeeds { IfOk result
        (λ _. failed (S.failures input.new) (F.failed_reads folder.new)
        ≡ failed (S.failures input.old) (F.failed_reads folder.old)) }
    ensures stops { IfErr result (IsGivenCause (option_map (λ f. f.now) file.entry)
        (failed (S.failures input.old) (F.failed_reads folder.old))
        (failed (S.failures input.new) (F.failed_reads folder.new))) }
    ensures writes { F.failed_writes folder.new ≡ F.failed_writes folder.old }
    ensures input { is_none (option_map (λ f. f.now) file.entry) ≡ false → input.new ≡ input.old }
    ensures folder { is_some (option_map (λ f. f.now) file.entry) ≡ false
        → folder.new ≡ folder.old }
{
    match file {
        Some(name) => read_front(folder, name, MOST_BYTES),
        None => input_bytes(alloc, input),
    }
}
