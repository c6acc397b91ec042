//! Streams read and written whole, byte by byte, and with a failure at each call in turn.
use crate::comparing::compare;
use devices::{FailingSink, FailingSource, Ration, SlowSink, SlowSource};
use std::alloc::Global;
use streams::{MemorySink, MemorySource, Source, StreamFault, read_whole, write_whole};

/// Whether the bytes are what the source holds, or the number of the fault.
fn is_read<S: Source>(alloc: Global, source: &mut S, bytes: &[u8]) -> Result<bool, u8> {
    match read_whole(alloc, source, 1_000_000) {
        Ok(all) => Ok(all.as_slice() == bytes),
        Err(fault) => Err(fault.number()),
    }
}

/// Whether five bytes come one by one, and then the end, in six reads of which this one fails.
fn is_read_or_fails(alloc: Global, n: u64) -> bool {
    let mut source = FailingSource::new(SlowSource::new(b"hello"), n);
    let wanted = if n >= 1 && n <= 6 { Err(1) } else { Ok(true) };
    is_read(alloc, &mut source, b"hello") == wanted
}

/// How many of the reads from 0 on, up to 9, may fail so.
fn count_of_reads(alloc: Global) -> u64 {
    for n in 0..9u64 {
        if !is_read_or_fails(alloc, n) {
            return n;
        }
    }
    9
}

/// Whether just so many bytes are written to a sink that fails at this write.
fn is_written_until(alloc: Global, n: u64, count: usize) -> bool {
    let mut sink = FailingSink::new(SlowSink::new(alloc), n);
    let is_well = write_whole(&mut sink, b"hello").is_ok();
    let bytes = sink.within().bytes();
    is_well == (n == 0 || n > 5) && b"hello".starts_with(bytes) && bytes.len() == count
}

/// A write that fails, and how many bytes are written.
static WRITES: [(u64, usize); 8] = [
    (0, 5),
    (1, 0),
    (2, 1),
    (3, 2),
    (4, 3),
    (5, 4),
    (6, 5),
    (7, 5),
];

/// How many rows hold, up to the first that doesn't.
fn count_held(alloc: Global, rows: &[(u64, usize)]) -> usize {
    let mut held = 0usize;
    for (n, count) in rows {
        if !is_written_until(alloc, *n, *count) {
            return held;
        }
        held = held.saturating_add(1);
    }
    held
}

/// Whether nothing is written with the first growth refused.
fn fails_without_memory(alloc: Global) -> bool {
    let ration = Ration::new(alloc, 1);
    let mut sink = SlowSink::new(&ration);
    write_whole(&mut sink, b"abc").is_err() && ration.has_refused()
}

/// Whether the bytes are written.
fn is_written(alloc: Global, bytes: &[u8]) -> bool {
    let mut sink = FailingSink::new(MemorySink::new(alloc), 0);
    write_whole(&mut sink, bytes).is_ok() && sink.within().bytes() == bytes
}

/// Whether the bytes are read whole and one by one, and written.
fn pass(alloc: Global, bytes: &[u8]) -> bool {
    let mut source = FailingSource::new(MemorySource::new(bytes), 0);
    matches!(is_read(alloc, &mut source, bytes), Ok(true))
        && matches!(is_read(alloc, &mut SlowSource::new(bytes), bytes), Ok(true))
        && is_written(alloc, bytes)
}

/// Whether more than 2^16 bytes pass.
fn many_pass(alloc: Global) -> bool {
    match vec![in alloc; b'x'; 70000] {
        Ok(bytes) => pass(alloc, &bytes),
        Err(_) => false,
    }
}

#[test]
fn reads_and_writes_or_fails(rt: HostRuntime) {
    compare(
        &rt,
        "reads",
        (count_of_reads(rt.alloc()), StreamFault::Read.number()),
        (9, 1),
    );
    compare(&rt, "WRITES", count_held(rt.alloc(), &WRITES), 8);
    compare(&rt, "no memory", fails_without_memory(rt.alloc()), true);
    compare(&rt, "many bytes", many_pass(rt.alloc()), true);
}
