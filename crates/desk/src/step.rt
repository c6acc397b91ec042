//! A step of a script.

use allocation::SmallAllocator;
use positions::Position;
use std::alloc::Global;

/// The largest number of a client in a script.
pub const LARGEST_CLIENT: u8 = 16;

/// The largest number of a client's job in a script.
pub const LARGEST_JOB: u8 = 4;

/// A step of a client at the desk.
#[derive(Drop)]
pub enum Step<'a, A: SmallAllocator = Global> {
    /// Opens a job on the bytes of the file, under the limit.
    Open {
        client: u8,
        file: &'a str,
        limit: u32,
    },
    /// Works a job by at most so many units.
    Work {
        client: u8,
        job: u8,
        units: u64,
    },
    /// Gives a job up.
    Drop {
        client: u8,
        job: u8,
    },
    /// Asks for the outcome of the position, of a job that ended with yes.
    Ask {
        client: u8,
        job: u8,
        position: Position<A>,
    },
    /// Asks for the answer in the position, of a job that ended with yes.
    Play {
        client: u8,
        job: u8,
        position: Position<A>,
    },
}
