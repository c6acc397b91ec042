//! A script that is read, or memory that is wanting.
use allocation::SmallAllocator;
use desk::{ScriptFault, read_script};

/// Whether a script is read as six steps, or 9 for want of memory.
pub fn has_six_steps<A: SmallAllocator + Copy>(alloc: A) -> Result<bool, u8> {
    let script =
        b"drop 1 1\nask 1 1 1 2 3 4 5 6 7 8 9 10\nplay 1 1 1 2 3\ndrop 1 1\ndrop 1 1\ndrop 1 1\n";
    match read_script(alloc, script) {
        Ok(steps) => Ok(steps.len() == 6),
        Err(ScriptFault::Memory) => Err(9),
        Err(_) => Err(0),
    }
}
