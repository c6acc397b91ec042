//! Checks from stream to stream: byte by byte, with devices that fail at one call, and of damaged
//! texts.
use crate::certificates::{OF_0_3, OF_0_33, OF_0_75};
use crate::comparing::compare;
use allocation::SmallAllocator;
use checker::Checker;
use devices::{FailingSink, FailingSource, SlowSink, SlowSource};
use std::alloc::Global;
use streams::{MemorySink, MemorySource, Source, StreamFault};
use verdict_texts::{MOST_BYTES, check_stream};

static VERDICT: &[u8] = b"yes 0.33 order 6 start 1 period 3\n";

static NO_TEXT: &[u8] = b"no 1 Text\n";

/// What a check says, or the number of its fault.
#[derive(Clone, Copy, PartialEq, Eq)]
enum Said {
    Yes,
    No,
    Fault(u8),
}

/// What a check says, and how many bytes were written, if these are a beginning of a text.
type End = (Said, Option<usize>);

/// The end where these bytes were written.
fn end_of(checked: Result<bool, StreamFault>, bytes: &[u8], text: &[u8]) -> End {
    let said = match checked {
        Ok(true) => Said::Yes,
        Ok(false) => Said::No,
        Err(fault) => Said::Fault(fault.number()),
    };
    if text.starts_with(bytes) {
        (said, Some(bytes.len()))
    } else {
        (said, None)
    }
}

/// The end of the check of what a source gives, where the text is to be written. The sink takes from
/// `ample`.
fn ended<A: SmallAllocator + Copy, S: Source>(
    alloc: A,
    ample: Global,
    source: &mut S,
    text: &[u8],
) -> End {
    let mut sink = MemorySink::new(ample);
    let checked = check_stream(&Checker, alloc, source, &mut sink, 1000);
    end_of(checked, sink.bytes(), text)
}

/// Whether a check ends in the fault behind so many bytes, or says yes.
fn is_end(end: End, fails: bool, fault: StreamFault, count: usize) -> bool {
    if fails {
        end == (Said::Fault(fault.number()), Some(count))
    } else {
        end == (Said::Yes, Some(34))
    }
}

/// The first read, up to 240, where the check of a source that fails at it doesn't fail so. Each of
/// the 225 bytes takes a read, and the end one more.
fn first_wrong_read(alloc: Global) -> u64 {
    for n in 0..240u64 {
        let mut source = FailingSource::new(SlowSource::new(OF_0_33.as_bytes()), n);
        let end = ended(alloc, alloc, &mut source, VERDICT);
        if !is_end(end, n >= 1 && n <= 226, StreamFault::Read, 0) {
            return n;
        }
    }
    240
}

/// The end where the sink takes a byte at a time and fails at this one.
fn end_at_a_byte(alloc: Global, n: u64) -> End {
    let mut source = MemorySource::new(OF_0_33.as_bytes());
    let mut sink = FailingSink::new(SlowSink::new(alloc), n);
    let checked = check_stream(&Checker, alloc, &mut source, &mut sink, 1000);
    end_of(checked, sink.within().bytes(), VERDICT)
}

/// The first byte, up to 40, where the check doesn't fail so. Each of the 34 bytes takes a write.
fn first_wrong_byte(alloc: Global) -> u64 {
    for n in 0..40u64 {
        let before = n.saturating_sub(1) as usize;
        let end = end_at_a_byte(alloc, n);
        if !is_end(end, n >= 1 && n <= 34, StreamFault::Write, before) {
            return n;
        }
    }
    40
}

#[test]
fn fails_where_a_device_does(rt: HostRuntime) {
    compare(&rt, "reads", first_wrong_read(rt.alloc()), 240);
    compare(&rt, "writes", first_wrong_byte(rt.alloc()), 40);
}

/// Whether a check says yes, or 9 where it wants memory and nothing was written. The sink takes from
/// `ample`.
pub fn is_checked<A: SmallAllocator + Copy>(alloc: A, ample: Global) -> Result<bool, u8> {
    let mut source = MemorySource::new(OF_0_33.as_bytes());
    match ended(alloc, ample, &mut source, VERDICT) {
        (Said::Yes, count) => Ok(count == Some(34)),
        (Said::Fault(9), Some(0)) => Err(9),
        _ => Err(0),
    }
}

/// Whether the text of the verdict begins so.
fn begins_so(alloc: Global, bytes: &[u8], beginning: &[u8]) -> bool {
    let mut sink = MemorySink::new(alloc);
    check_stream(
        &Checker,
        alloc,
        &mut MemorySource::new(bytes),
        &mut sink,
        1000,
    )
    .is_ok()
        && sink.bytes().starts_with(beginning)
}

/// Whether what a source gives is refused as no text, and nothing more is said.
fn refuses_as_no_text(alloc: Global, source: &mut MemorySource<'_>) -> bool {
    ended(alloc, alloc, source, NO_TEXT) == (Said::No, Some(NO_TEXT.len()))
}

/// How long the first beginning of a text is that is not refused as no text.
fn first_read(alloc: Global, text: &[u8]) -> usize {
    for n in 0..text.len() {
        if !refuses_as_no_text(alloc, &mut MemorySource::new(&text[..n])) {
            return n;
        }
    }
    text.len()
}

/// Whether a text is refused with each change of one byte.
fn is_refused_at(alloc: Global, text: &mut [u8], at: usize) -> bool {
    for bits in 1..=255u8 {
        change(text, at, bits);
        let is_refused = begins_so(alloc, text, b"no ");
        change(text, at, bits);
        if !is_refused {
            return false;
        }
    }
    true
}

/// Changes the given bits of a byte.
fn change(text: &mut [u8], at: usize, bits: u8) {
    if let Some(byte) = text.get_mut(at) {
        *byte ^= bits;
    }
}

/// The first byte of a text from `from` to before `until` at which a change is not refused, or else
/// `until`.
fn first_accepted(alloc: Global, text: &mut [u8], from: usize, until: usize) -> usize {
    for at in from..until {
        if !is_refused_at(alloc, text, at) {
            return at;
        }
    }
    until
}

/// The first byte before the second line of a text at which a change is not refused, or else 6, and
/// the first from `behind` on, or else the text's length. The second line has the code: only a
/// change there could make the certificate of another game.
fn first_changes(alloc: Global, text: &[u8], behind: usize) -> (usize, usize) {
    match text.to_vec(alloc) {
        Ok(mut changed) => {
            let before = first_accepted(alloc, &mut changed, 0, 6);
            (
                before,
                first_accepted(alloc, &mut changed, behind, text.len()),
            )
        }
        Err(_) => (0, 0),
    }
}

#[test]
fn refuses_beginnings_and_changes(rt: HostRuntime) {
    for (name, text) in [("0.33", OF_0_33), ("0.75", OF_0_75)] {
        let bytes = text.as_bytes();
        compare(&rt, name, first_read(rt.alloc(), bytes), bytes.len());
        compare(&rt, name, begins_so(rt.alloc(), bytes, b"yes 0."), true);
    }
    for (name, text, behind) in [("0.3", OF_0_3, 15), ("0.33", OF_0_33, 16)] {
        let first = first_changes(rt.alloc(), text.as_bytes(), behind);
        compare(&rt, name, first, (6, text.len()));
    }
}

/// Whether the bytes are refused as no text, and just so many are left once a check has answered.
fn leaves(alloc: Global, bytes: &[u8], left: usize) -> bool {
    let mut source = MemorySource::new(bytes);
    let is_refused = refuses_as_no_text(alloc, &mut source);
    match source.read(&mut [0u8; 8]) {
        Ok(count) => is_refused && count == left,
        Err(_) => false,
    }
}

/// The same of so many bytes.
fn leaves_of_many(alloc: Global, count: usize, left: usize) -> bool {
    match vec![in alloc; b'x'; count] {
        Ok(bytes) => leaves(alloc, &bytes, left),
        Err(_) => false,
    }
}

/// How many bytes there are, and how many are left of them. More than 2^16 bytes; as many as are
/// read, with none left then; and more, of which one more is read.
static LONG: [(usize, usize); 4] = [(70000, 0), (4_194_304, 0), (4_194_305, 0), (4_194_307, 2)];

/// How many rows hold, up to the first that doesn't.
fn count_held(alloc: Global, rows: &[(usize, usize)]) -> usize {
    let mut held = 0usize;
    for (count, left) in rows {
        if !leaves_of_many(alloc, *count, *left) {
            return held;
        }
        held = held.saturating_add(1);
    }
    held
}

#[test]
fn long_streams_are_no_text(rt: HostRuntime) {
    compare(
        &rt,
        "LONG",
        (MOST_BYTES, count_held(rt.alloc(), &LONG)),
        (4_194_304, 4),
    );
}
