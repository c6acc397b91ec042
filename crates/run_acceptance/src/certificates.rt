//! Certificates that several modules put into folders.
use certificate::{Cert, write};
use std::alloc::Global;
use streams::MemorySink;

/// The quotient of 0.1, of order 2.
pub const OF_0_1: &str =
    "mqc 1\ncode 0.1\norder 2\nstart 2\nperiod 1\nphi 1 0\nportion 1\nwords 0:1\nrow 0 1\nrow 1 0\n\
apart 0\nend\n";

/// The quotient of 0.3, of order 2.
pub const OF_0_3: &str =
    "mqc 1\ncode 0.3\norder 2\nstart 1\nperiod 2\nphi 1 0\nportion 1\nwords 0:1\nrow 0 1\nrow 1 0\n\
apart 0\nend\n";

/// The quotient of 0.33, of order 6.
pub const OF_0_33: &str = "mqc 1\ncode 0.33\norder 6\nstart 1\nperiod 3\nphi 1 2 0\nportion 1 4\n\
words 0:1 0:2 1:2 2:2 3:2\nrow 0 1 2 3 4 5\nrow 1 0 3 2 5 4\nrow 2 3 4 5 2 3\nrow 3 2 5 4 3 2\n\
row 4 5 2 3 4 5\nrow 5 4 3 2 5 4\napart 0 1 1 0 4 0 0 4 0 2 0 1 0 1 0\nend\n";

/// The quotient of 0.75, of order 8.
pub const OF_0_75: &str =
    "mqc 1\ncode 0.75\norder 8\nstart 8\nperiod 2\nphi 1 2 1 2 3 2 3 2 4\nportion 1 7\n\
words 0:1 0:2 0:5 0:9 1:2 1:5 1:9\nrow 0 1 2 3 4 5 6 7\nrow 1 0 5 6 7 2 3 4\nrow 2 5 7 5 5 4 2 2\n\
row 3 6 5 7 7 2 4 4\nrow 4 7 5 7 7 2 4 4\nrow 5 2 4 2 2 7 5 5\nrow 6 3 2 4 4 5 7 7\n\
row 7 4 2 4 4 5 7 7\napart 0 1 1 3 1 1 0 0 0 0 0 0 4 2 1 2 2 0 1 3 3 0 1 1 0 5 0 0\nend\n";

/// A certificate for 0.75 that is right up to heap 8.
pub const RIGHT_UP_TO_8: &str =
    "mqc 1\ncode 0.75\norder 8\nstart 4\nperiod 2\nphi 1 2 1 2 3\nportion 1 6\n\
words 0:1 0:2 0:5 1:2 1:5 2:2 4:2\nrow 0 1 2 3 4 5 6 7\nrow 1 0 4 5 2 3 7 6\nrow 2 4 6 4 7 2 2 4\n\
row 3 5 4 6 2 7 7 6\nrow 4 2 7 2 6 4 4 2\nrow 5 3 2 7 4 6 6 7\nrow 6 7 2 7 4 6 6 7\n\
row 7 6 4 6 2 7 7 6\napart 0 1 1 1 1 0 3 0 0 0 0 5 0 2 2 2 0 1 3 3 0 1 4 0 1 0 1 0\nend\n";

/// The quotient of 0.75 for the heaps up to 8.
pub const PART_OF_0_75: &str =
    "mqc 2\ncode 0.75\norder 8\nstart 9\nperiod 0\nphi 1 2 1 2 3 2 3 2\nportion 1 6\n\
words 0:1 0:2 0:5 1:2 1:5 2:2 4:2\nrow 0 1 2 3 4 5 6 7\nrow 1 0 4 5 2 3 7 6\nrow 2 4 6 4 7 2 2 4\n\
row 3 5 4 6 2 7 7 6\nrow 4 2 7 2 6 4 4 2\nrow 5 3 2 7 4 6 6 7\nrow 6 7 2 7 4 6 6 7\n\
row 7 6 4 6 2 7 7 6\napart 0 1 1 1 1 0 3 0 0 0 0 5 0 2 2 2 0 1 3 3 0 1 4 0 1 0 1 0\nend\n";

/// Whether the certificate is spelled so.
pub fn is_spelled(alloc: Global, cert: &Cert, text: &str) -> bool {
    let mut sink = MemorySink::new(alloc);
    write(cert, &mut sink).is_ok() && sink.bytes() == text.as_bytes()
}
