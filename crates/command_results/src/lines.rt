//! Lines on standard input.
ghost use Rattle.std.specs.Prelude.{◌≡◌, ◌≤◌, IfOk, IfErr, vec_len};
ghost use Rattle.command_results.specs.Lines.{AreLinesOf, IsFirstLine, IsLinesCause};

use crate::stop::Stop;
use std::alloc::Global;
use streams::{Source, StreamFault, read_whole};

/// The most bytes of lines on standard input: 4 MiB.
pub const LARGEST_INPUT: usize = 4194304;

/// All that is left of standard input, which is at most [`LARGEST_INPUT`] bytes: more can't be read.
pub fn input_lines<S: Source>(alloc: Global, input: &mut S) -> Result<Vec<u8>, Stop<'static>>
    ensures bytes { IfOk result (λ v. AreLinesOf (S.left input.old) v.items) }
    ensures bound { IfOk result (λ v. vec_len v ≤ LARGEST_INPUT) }
    ensures succeeds { IfOk result (λ _. S.failures input.new ≡ S.failures input.old) }
    ensures stops { IfErr result (IsLinesCause (AreLinesOf (S.left input.old))
        (S.failures input.old) (S.failures input.new)) }
{
    match read_whole(alloc, input, LARGEST_INPUT) {
        Ok(bytes) => {
            if bytes.len() <= LARGEST_INPUT {
                Ok(bytes)
            } else {
                Err(Stop::Read("standard input"))
            }
        }
        Err(StreamFault::Read) => Err(Stop::Read("standard input")),
        Err(StreamFault::Write | StreamFault::Memory) => Err(Stop::Memory),
    }
}

/// The bytes up to the first LF, and those behind it; all of them and none where there is no LF.
pub fn first_line(bytes: &[u8]) -> (&[u8], &[u8])
    ensures { IsFirstLine bytes.now result.0.now result.1.now }
{
    match bytes.iter().position(|b| *b == b'\n') {
        Some(end) => (&bytes[..end], &bytes[end + 1..]),
        None => (bytes, &[]),
    }
}
