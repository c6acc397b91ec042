//! Checks of bytes and of whole streams, by whatever checks.
ghost use Rattle.std.specs.Prelude.{◌≡◌, ◌<◌, ◌⊎◌, IfOk, IsErrOf};
ghost use Rattle.std.specs.String.{string_bytes};
ghost use Rattle.streams.specs.Stream.{«CountsReads» as CountsSourceReads};
ghost use Rattle.verdict_texts.specs.Streams.{CountsReads, ReadsEnough, IsDueText, IsDueTextOfStream, WritesOfStream, WritesSomeOfStream};

use crate::lines::{VerdictText, told};
use allocation::{Memory, SmallAllocator};
use answers::{Checks, Refusal};
use streams::{Sink, Source, StreamFault, read_whole, write_whole};

/// The greatest length of a stream that is checked.
pub const MOST_BYTES: usize = 4194304;

/// Checks the bytes: the text of the verdict, and whether it is yes.
pub fn checked_bytes<C: Checks<A>, A: SmallAllocator + Copy>(
    checker: &C,
    alloc: A,
    bytes: &[u8],
    limit: u32,
) -> Result<VerdictText<A>, Memory>
    ensures { IfOk result
        (λ v. IsDueText (C.due checker.now) bytes.now limit (string_bytes v.text) v.accepted) }
{
    told(alloc, checker.check(alloc, bytes, limit))
}

/// Reads the source to its end, and checks all bytes that it had left: the text of the verdict, and
/// whether it is yes.
///
/// Of a source with more than [`MOST_BYTES`] bytes one more is read, and it is no certificate.
pub fn checked_stream<C: Checks<A>, R: Source, A: SmallAllocator + Copy>(
    checker: &C,
    alloc: A,
    source: &mut R,
    limit: u32,
) -> Result<VerdictText<A>, StreamFault>
    ensures read { IfOk result (λ _. ReadsEnough (R.left source.old) (R.left source.new)) }
    ensures text { IfOk result
        (λ v. IsDueTextOfStream (C.due checker.now) (R.left source.old) limit
        (string_bytes v.text) v.accepted) }
    ensures cause { CountsSourceReads (R.failures source.old) (R.failures source.new) result }
{
    let bytes = read_whole(alloc, source, MOST_BYTES)?;
    if bytes.len() > MOST_BYTES {
        return Ok(told(alloc, Err(Refusal::Text))?);
    }
    Ok(checked_bytes(checker, alloc, &bytes, limit)?)
}

/// Reads the source to its end, writes the text of the verdict on all bytes that it had left, and
/// answers whether that is yes.
///
/// Of a source with more than [`MOST_BYTES`] bytes one more is read, and it is no certificate.
/// Nothing is written before the end was reached: not after a failure of the source or want of
/// memory. After a failure of the sink a beginning of the text was written.
pub fn check_stream<C: Checks<A>, R: Source, W: Sink, A: SmallAllocator + Copy>(
    checker: &C,
    alloc: A,
    source: &mut R,
    sink: &mut W,
    limit: u32,
) -> Result<bool, StreamFault>
    ensures read { IfOk result (λ _. ReadsEnough (R.left source.old) (R.left source.new)) }
    ensures ok { IfOk result
        (WritesOfStream (C.due checker.now) (R.left source.old) limit (W.taken sink.old)
        (W.taken sink.new)) }
    ensures write { IsErrOf result StreamFault.Write
        → WritesSomeOfStream (C.due checker.now) (R.left source.old) limit (W.taken sink.old)
        (W.taken sink.new) }
    ensures write_cause { IsErrOf result StreamFault.Write
        → W.failures sink.old < W.failures sink.new }
    ensures read_cause { CountsReads (R.failures source.old) (R.failures source.new) result }
    ensures unwritten { IsErrOf result StreamFault.Read ⊎ IsErrOf result StreamFault.Memory
        → sink.new ≡ sink.old }
{
    let verdict = checked_stream(checker, alloc, source, limit)?;
    match write_whole(sink, verdict.text.as_bytes()) {
        Ok(()) => Ok(verdict.accepted),
        Err(_) => Err(StreamFault::Write),
    }
}
