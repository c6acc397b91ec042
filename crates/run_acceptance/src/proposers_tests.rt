//! What each proposer finds alone, and where memory may be wanting.
use crate::certificates::{OF_0_1, OF_0_3, OF_0_33, OF_0_75, is_spelled};
use crate::rows::{Row, count_held};
use allocation::Memory;
use octal_code::Code;
use quotient_finder::{GaveUp, Limits, Proposer, Refiner, Sampler, find};
use std::alloc::Global;

/// The quotient of 0.03, of order 2.
const OF_0_03: &str =
    "mqc 1\ncode 0.03\norder 2\nstart 1\nperiod 4\nphi 0 1 1 0\nportion 1\nwords 0:2\nrow 0 1\n\
row 1 0\napart 0\nend\n";

/// The quotient of 0.147, of order 10.
const OF_0_147: &str =
    "mqc 1\ncode 0.147\norder 10\nstart 10\nperiod 8\nphi 1 0 1 2 2 2 3 3 1 4 4 2 2 2 3 3 4\n\
portion 1 7\nwords 0:1 0:4 0:7 0:10 1:4 1:7 1:10 2:7 5:7\nrow 0 1 2 3 4 5 6 7 8 9\n\
row 1 0 5 6 7 2 3 4 9 8\nrow 2 5 7 8 5 4 9 2 3 6\nrow 3 6 8 7 6 9 4 3 2 5\n\
row 4 7 5 6 7 2 3 4 9 8\nrow 5 2 4 9 2 7 8 5 6 3\nrow 6 3 9 4 3 8 7 6 5 2\n\
row 7 4 2 3 4 5 6 7 8 9\nrow 8 9 3 2 9 6 5 8 7 4\nrow 9 8 6 5 8 3 2 9 4 7\n\
apart 0 1 1 4 1 1 0 1 1 0 0 0 0 0 4 0 0 2 1 2 2 0 2 2 1 3 3 0 3 3 1 1 0 1 1 5 0 5 5 0 6 6 0 0 8\n\
end\n";

const LIMITS: Limits = Limits {
    rounds: 64,
    members: 100000,
};

/// Adds the sampler.
fn put_sampler(
    alloc: Global,
    proposers: &mut Vec<Box<dyn Proposer>>,
    heaps: usize,
) -> Result<(), Memory> {
    proposers.push(Box::new(alloc, Sampler::new(alloc, heaps, 64))?)?;
    Ok(())
}

/// Adds the refiner.
fn put_refiner(
    alloc: Global,
    proposers: &mut Vec<Box<dyn Proposer>>,
    heaps: usize,
) -> Result<(), Memory> {
    proposers.push(Box::new(alloc, Refiner::new(alloc, heaps, 64))?)?;
    Ok(())
}

/// Whether the proposers find the certificate of this text for a code.
fn find_text(
    alloc: Global,
    code: &Code,
    proposers: &mut Vec<Box<dyn Proposer>>,
    text: &str,
) -> bool {
    match find(alloc, code, 0, proposers, LIMITS) {
        Ok(certified) => is_spelled(alloc, certified.cert(), text),
        Err(_) => false,
    }
}

/// Whether the sampler alone finds the certificate of this text for a code.
fn samples(alloc: Global, code: &Code, heaps: usize, text: &str) -> bool {
    let mut proposers: Vec<Box<dyn Proposer>> = Vec::new(alloc);
    put_sampler(alloc, &mut proposers, heaps).is_ok()
        && find_text(alloc, code, &mut proposers, text)
}

/// A code, how many heaps are looked at, and the certificate.
struct Sampled(&'static str, usize, &'static str);

impl Row for Sampled {
    fn holds(&self, alloc: Global) -> bool {
        let Sampled(digits, heaps, text) = *self;
        match Code::read(digits.as_bytes()) {
            Ok(code) => samples(alloc, &code, heaps, text),
            Err(_) => false,
        }
    }
}

static ROWS: [Sampled; 5] = [
    Sampled("0.1", 24, OF_0_1),
    Sampled("0.3", 24, OF_0_3),
    Sampled("0.33", 6, OF_0_33),
    Sampled("0.33", 24, OF_0_33),
    Sampled("0.75", 24, OF_0_75),
];

#[test]
fn samples_small_games(rt: HostRuntime) {
    assert!(rt; count_held(rt.alloc(), &ROWS) == 5);
}

/// Whether the refiner alone finds the certificate of this text for a code.
fn refines(alloc: Global, code: &Code, heaps: usize, text: &str) -> bool {
    let mut proposers: Vec<Box<dyn Proposer>> = Vec::new(alloc);
    put_refiner(alloc, &mut proposers, heaps).is_ok()
        && find_text(alloc, code, &mut proposers, text)
}

/// A code, how many heaps are looked at, and the certificate that the refiner finds alone.
struct Refined(&'static str, usize, &'static str);

impl Row for Refined {
    fn holds(&self, alloc: Global) -> bool {
        let Refined(digits, heaps, text) = *self;
        match Code::read(digits.as_bytes()) {
            Ok(code) => refines(alloc, &code, heaps, text),
            Err(_) => false,
        }
    }
}

static REFINED: [Refined; 8] = [
    Refined("0.1", 24, OF_0_1),
    Refined("0.3", 24, OF_0_3),
    Refined("0.33", 6, OF_0_33),
    Refined("0.33", 24, OF_0_33),
    // of so few heaps another period is tried first
    Refined("0.03", 9, OF_0_03),
    Refined("0.03", 24, OF_0_03),
    Refined("0.147", 48, OF_0_147),
    Refined("0.75", 24, OF_0_75),
];

#[test]
fn refines_small_games(rt: HostRuntime) {
    assert!(rt; count_held(rt.alloc(), &REFINED) == 8);
}

/// Whether a search for the quotient of 0.33 comes to one of its order and its portion, or to want
/// of memory. It takes no memory but for the search.
fn finds_or_wants(alloc: Global, proposers: &mut Vec<Box<dyn Proposer>>) -> bool {
    let Ok(code) = Code::read(b"0.33") else {
        return false;
    };
    match find(alloc, &code, 0, proposers, LIMITS) {
        Ok(found) => found.cert().order() == 6 && found.cert().portion() == [1, 4].as_slice(),
        Err(why) => why == GaveUp::Memory,
    }
}

/// The same for the sampler alone, of the heaps up to 6.
fn samples_or_wants(alloc: Global) -> bool {
    let mut proposers: Vec<Box<dyn Proposer>> = Vec::new(alloc);
    put_sampler(alloc, &mut proposers, 6).is_err() || finds_or_wants(alloc, &mut proposers)
}

/// The same for the refiner.
fn refines_or_wants(alloc: Global) -> bool {
    let mut proposers: Vec<Box<dyn Proposer>> = Vec::new(alloc);
    put_refiner(alloc, &mut proposers, 6).is_err() || finds_or_wants(alloc, &mut proposers)
}

/// `scripts/hostile` runs this with each growth refused in turn.
#[test]
fn samples_or_wants_memory(rt: HostRuntime) {
    assert!(rt; samples_or_wants(rt.alloc()));
}

/// And this.
#[test]
fn refines_or_wants_memory(rt: HostRuntime) {
    assert!(rt; refines_or_wants(rt.alloc()));
}
