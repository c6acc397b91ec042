//! The theory of misère quotients of octal and hexadecimal games: its definitions, and its laws,
//! each the contract of a function that does nothing.
//!
//! Nothing runs here. A law is a function so that the check proves its statement; other crates cite
//! the definitions in their contracts and the lemmas in their proofs.
//!
//! | Folder | What stands there |
//! |---|---|
//! | `specs/Games` | codes, what a move leaves of a heap, positions, moves, outcomes |
//! | `specs/Quotients` | claims, monoids, values, the misère quotient, the local rule |
//! | `specs/Parts` | games of some heaps, and when their quotient is infinite |
//! | `specs/Labels` | claims over labels of any monoid, the rule of what is said of positions |
//! | `specs/Pairs` | transition pairs, covers, closed lists, the bound on heaps |
//! | `specs/Kinds` | whole games and their parts: which heaps count, and which show all pairs |
//! | `specs/Numbering` | least periods, least keys |
//! | `specs/Certificates` | the numbers of a certificate, their ranges, what is canonical, accepted |
//! | `specs/Faults` | each fault of a certificate |
//! | `specs/Verdicts` | which answers are true of a certificate |
//! | `specs/Plays` | reachable positions, first winning moves, plays that answer by them |
//! | `src/` | the laws, by the same topics |
//! | `proofs/` | the lemmas, a file for each idea, and beside them a folder for each law |
#![tactic(auto)]

pub mod certificates;
pub mod games;
pub mod labels;
pub mod pairs;
pub mod plays;
pub mod quotients;

/// The largest order of a certificate: how many elements a monoid has at most.
pub const LARGEST_ORDER: u16 = 4096;

/// The largest order of a certificate in the first format and of a presentation's table.
pub const LARGEST_FIRST_ORDER: u16 = 256;

/// The largest order of a certificate in the second format.
pub const LARGEST_SECOND_ORDER: u16 = 512;

/// How many entries of its pretending function a certificate has at most: heap sizes from 1 on.
pub const MOST_ENTRIES: u16 = 4096;

/// How many entries a certificate in the first or the second format has at most.
pub const MOST_SECOND_ENTRIES: u16 = 1024;

/// The largest last heap of a partial certificate.
pub const LARGEST_PART: u16 = 1024;
