//! Certificates read and written, to sinks that fail too.
use crate::comparing::compare;
use crate::octal_code_tests::is_written_as;
use certificate::{Cert, TextFault, WriteFault, read, write};
use devices::{FailingSink, SlowSink};
use std::alloc::{Allocator, Global};
use streams::MemorySink;

const OF_0_1: &[u8] =
    b"mqc 1\ncode 0.1\norder 2\nstart 2\nperiod 1\nphi 1 0\nportion 1\nwords 0:1\n\
row 0 1\nrow 1 0\napart 0\nend\n";

const OF_0_3: &[u8] =
    b"mqc 1\ncode 0.3\norder 2\nstart 1\nperiod 2\nphi 1 0\nportion 1\nwords 0:1\n\
row 0 1\nrow 1 0\napart 0\nend\n";

const OF_0_33: &[u8] = b"mqc 1\ncode 0.33\norder 6\nstart 1\nperiod 3\nphi 1 2 0\nportion 1 4\n\
words 0:1 0:2 1:2 2:2 3:2\n\
row 0 1 2 3 4 5\nrow 1 0 3 2 5 4\nrow 2 3 4 5 2 3\nrow 3 2 5 4 3 2\nrow 4 5 2 3 4 5\n\
row 5 4 3 2 5 4\n\
apart 0 1 1 0 4 0 0 4 0 2 0 1 0 1 0\nend\n";

const OF_0_75: &[u8] =
    b"mqc 1\ncode 0.75\norder 8\nstart 8\nperiod 2\nphi 1 2 1 2 3 2 3 2 4\nportion 1 7\n\
words 0:1 0:2 0:5 0:9 1:2 1:5 1:9\n\
row 0 1 2 3 4 5 6 7\nrow 1 0 5 6 7 2 3 4\nrow 2 5 7 5 5 4 2 2\nrow 3 6 5 7 7 2 4 4\n\
row 4 7 5 7 7 2 4 4\nrow 5 2 4 2 2 7 5 5\nrow 6 3 2 4 4 5 7 7\nrow 7 4 2 4 4 5 7 7\n\
apart 0 1 1 3 1 1 0 0 0 0 0 0 4 2 1 2 2 0 1 3 3 0 1 1 0 5 0 0\nend\n";

/// A text for `0.75` that is right on all heaps up to 8, and no further.
const REFUTED: &[u8] = b"mqc 1\ncode 0.75\norder 8\nstart 4\nperiod 2\nphi 1 2 1 2 3\nportion 1 6\n\
words 0:1 0:2 0:5 1:2 1:5 2:2 4:2\n\
row 0 1 2 3 4 5 6 7\nrow 1 0 4 5 2 3 7 6\nrow 2 4 6 4 7 2 2 4\nrow 3 5 4 6 2 7 7 6\n\
row 4 2 7 2 6 4 4 2\nrow 5 3 2 7 4 6 6 7\nrow 6 7 2 7 4 6 6 7\nrow 7 6 4 6 2 7 7 6\n\
apart 0 1 1 1 1 0 3 0 0 0 0 5 0 2 2 2 0 1 3 3 0 1 4 0 1 0 1 0\nend\n";

/// A text for `0.3` with an element that no heap reaches.
const UNREACHED: &[u8] =
    b"mqc 1\ncode 0.3\norder 4\nstart 1\nperiod 2\nphi 1 0\nportion 1\nwords 0:1 0:1 2:1\n\
row 0 1 2 3\nrow 1 0 3 2\nrow 2 3 0 1\nrow 3 2 1 0\napart 0 0 0 0 0 0\nend\n";

/// The quotient of `0.b`.
const OF_0_B: &[u8] =
    b"mqc 2\ncode 0.b\norder 2\nstart 1\nperiod 2\nphi 1 0\nportion 1\nwords 0:1\n\
row 0 1\nrow 1 0\napart 0\nend\n";

/// The quotient of `0.3` for the heaps up to 2.
const UP_TO_2: &[u8] =
    b"mqc 2\ncode 0.3\norder 2\nstart 3\nperiod 0\nphi 1 0\nportion 1\nwords 0:1\n\
row 0 1\nrow 1 0\napart 0\nend\n";

/// The quotient of `0.75` for the heaps up to 8.
const UP_TO_8: &[u8] = b"mqc 2\ncode 0.75\norder 8\nstart 9\nperiod 0\nphi 1 2 1 2 3 2 3 2\n\
portion 1 6\nwords 0:1 0:2 0:5 1:2 1:5 2:2 4:2\n\
row 0 1 2 3 4 5 6 7\nrow 1 0 4 5 2 3 7 6\nrow 2 4 6 4 7 2 2 4\nrow 3 5 4 6 2 7 7 6\n\
row 4 2 7 2 6 4 4 2\nrow 5 3 2 7 4 6 6 7\nrow 6 7 2 7 4 6 6 7\nrow 7 6 4 6 2 7 7 6\n\
apart 0 1 1 1 1 0 3 0 0 0 0 5 0 2 2 2 0 1 3 3 0 1 4 0 1 0 1 0\nend\n";

/// Texts that are written as they are read, and the last heap of which each speaks, or 0 where it
/// speaks of all.
static OWN: [(&[u8], u64); 9] = [
    (OF_0_1, 0),
    (OF_0_3, 0),
    (OF_0_33, 0),
    (OF_0_75, 0),
    (REFUTED, 0),
    (UNREACHED, 0),
    (OF_0_B, 0),
    (UP_TO_2, 2),
    (UP_TO_8, 8),
];

/// Whether a certificate is read of the bytes that speaks of the heaps up to `heaps`, and written
/// as the same bytes.
pub fn comes_back(alloc: Global, bytes: &[u8], heaps: u64) -> bool {
    match read(alloc, bytes) {
        Ok(cert) => {
            let mut sink = MemorySink::new(alloc);
            cert.heaps() == heaps && write(&cert, &mut sink).is_ok() && sink.bytes() == bytes
        }
        Err(_) => false,
    }
}

/// How many texts are written as they are read, up to the first that isn't.
fn count_back(alloc: Global, texts: &[(&[u8], u64)]) -> usize {
    let mut count = 0usize;
    for (bytes, heaps) in texts {
        if !comes_back(alloc, bytes, *heaps) {
            return count;
        }
        count = count.saturating_add(1);
    }
    count
}

/// Whether a certificate is read of the bytes, or why none is.
pub fn fault_of<A: Allocator + Copy>(alloc: A, bytes: &[u8]) -> Result<bool, TextFault> {
    match read(alloc, bytes) {
        Ok(_) => Ok(true),
        Err(fault) => Err(fault),
    }
}

/// The length of the shortest beginning of the text that isn't refused as no certificate.
fn first_not_refused(alloc: Global, text: &[u8]) -> usize {
    for end in 0..text.len() {
        if !matches!(fault_of(alloc, &text[..end]), Err(TextFault::Text)) {
            return end;
        }
    }
    text.len()
}

/// Whether the certificate of 0.75 is read, or the number of the fault.
pub fn is_read<A: Allocator + Copy>(alloc: A) -> Result<bool, u8> {
    match fault_of(alloc, OF_0_75) {
        Ok(is_read) => Ok(is_read),
        Err(fault) => Err(fault.number()),
    }
}

/// Whether an order with nothing behind it is refused as no certificate, or the number of another
/// fault.
pub fn is_refused<A: Allocator + Copy>(alloc: A) -> Result<bool, u8> {
    match fault_of(alloc, b"mqc 1\ncode 0.3\norder 256\nstart 1\nperiod 1024\n") {
        Ok(_) => Ok(false),
        Err(TextFault::Text) => Ok(true),
        Err(fault) => Err(fault.number()),
    }
}

/// Which lines hold what those of the certificate of `0.33` hold.
fn lines_held(alloc: Global, cert: &Cert) -> [bool; 8] {
    let words = cert.words();
    let rows = cert.rows();
    let apart = cert.apart();
    let last = match words.last() {
        Some(key) => (key.element, key.heap),
        None => (0, 0),
    };
    [
        matches!(is_written_as(alloc, cert.code(), b"0.33"), Ok(true)),
        (cert.order(), cert.start(), cert.period()) == (6, 1, 3),
        cert.phi().entries() == [1u16, 2, 0].as_slice(),
        cert.portion() == [1u16, 4].as_slice(),
        (words.len(), rows.len(), apart.len()) == (5, 36, 15),
        last == (3, 2),
        rows.starts_with(&[0u16, 1, 2, 3, 4, 5, 1, 0, 3, 2, 5, 4]),
        apart.starts_with(&[0u16, 1, 1, 0, 4]),
    ]
}

/// Which lines the certificate of `0.33` lends as it holds them.
fn lines_lent(alloc: Global) -> [bool; 8] {
    match read(alloc, OF_0_33) {
        Ok(cert) => lines_held(alloc, &Cert::from_fields(cert.into_fields())),
        Err(_) => [false; 8],
    }
}

/// Whether a sink that fails at this write has the bytes before it of the text of `0.3`.
fn is_written_until(alloc: Global, cert: &Cert, until: u64) -> bool {
    let mut sink = FailingSink::new(SlowSink::new(alloc), until);
    let fails = matches!(write(cert, &mut sink), Err(WriteFault::Write));
    let bytes = sink.within().bytes();
    OF_0_3.starts_with(bytes)
        && fails == (until < 97)
        && bytes.len() as u64 == until.min(97).saturating_sub(1)
}

/// The first write whose failure leaves something else, up to 99.
fn first_wrong_write(alloc: Global) -> u64 {
    let Ok(cert) = read(alloc, OF_0_3) else {
        return 0;
    };
    for until in 1..99u64 {
        if !is_written_until(alloc, &cert, until) {
            return until;
        }
    }
    99
}

#[test]
fn texts_and_certificates(rt: HostRuntime) {
    compare(&rt, "OWN", count_back(rt.alloc(), &OWN), 9);
    compare(
        &rt,
        "beginnings",
        first_not_refused(rt.alloc(), OF_0_75),
        OF_0_75.len(),
    );
    compare(&rt, "lines", lines_lent(rt.alloc()), [true; 8]);
    compare(&rt, "writes", first_wrong_write(rt.alloc()), 99);
}
