//! The bytes of tables.
ghost use Rattle.std.specs.Prelude.{◌≡◌, IfErr, IfOk, false, is_none, is_some, option_map};
ghost use Rattle.verdict_texts.specs.Streams.{AreKnownAs};
ghost use Rattle.given_quotients.specs.Checks.{AreGiven, failed};
ghost use Rattle.solve_command.specs.Certifies.{IsTableCause, IsTableInputCause};

use command_results::{Stop, read_file};
use std::alloc::Global;
use streams::{Folder, Source, StreamFault, read_whole};

/// The most bytes of a table: 96 MiB. The longest text of a table has less.
pub const LARGEST_TABLE: usize = 100663296;

/// All that is left of standard input, which is at most [`LARGEST_TABLE`] bytes.
fn input_bytes<S: Source>(alloc: Global, input: &mut S) -> Result<Vec<u8>, Stop<'static>>
    ensures bytes { IfOk result (λ v. AreKnownAs (S.left input.old) v.items) }
    ensures succeeds { IfOk result (λ _. S.failures input.new ≡ S.failures input.old) }
    ensures stops { IfErr result (IsTableInputCause (AreKnownAs (S.left input.old))
        (S.failures input.old) (S.failures input.new)) }
{
    match read_whole(alloc, input, LARGEST_TABLE) {
        Ok(bytes) => {
            if bytes.len() <= LARGEST_TABLE {
                Ok(bytes)
            } else {
                Err(Stop::Read("standard input"))
            }
        }
        Err(StreamFault::Read) => Err(Stop::Read("standard input")),
        Err(StreamFault::Write | StreamFault::Memory) => Err(Stop::Memory),
    }
}

/// The bytes in the file, or on standard input where no file is named: at most [`LARGEST_TABLE`].
pub(crate) fn given_bytes<'a, F: Folder, S: Source>(
    alloc: Global,
    file: Option<&'a str>,
    folder: &mut F,
    input: &mut S,
) -> Result<Vec<u8>, Stop<'a>>
    ensures bytes { let named = option_map (λ f. f.now) file.entry in
        IfOk result (λ v. AreGiven (S.left input.old) (F.files folder.old) named v.items) }
    ensures kept { F.files folder.new ≡ F.files folder.old }
    ensures succeeds { IfOk result
        (λ _. failed (S.failures input.new) (F.failed_reads folder.new)
        ≡ failed (S.failures input.old) (F.failed_reads folder.old)) }
    ensures stops { let named = option_map (λ f. f.now) file.entry in
        IfErr result (IsTableCause (AreKnownAs (S.left input.old)) named
        (failed (S.failures input.old) (F.failed_reads folder.old))
        (failed (S.failures input.new) (F.failed_reads folder.new))) }
    ensures input { is_none (option_map (λ f. f.now) file.entry) ≡ false → input.new ≡ input.old }
    ensures folder { is_some (option_map (λ f. f.now) file.entry) ≡ false
        → folder.new ≡ folder.old }
{
    match file {
        Some(name) => read_file(folder, name, LARGEST_TABLE),
        None => input_bytes(alloc, input),
    }
}
