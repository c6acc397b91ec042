//! The checks that jobs share: one for each bytes and limit.
ghost use Rattle.std.specs.Prelude.{◌≡◌, ◌≢◌, ◌<◌, ◌↔◌, ℕ, None, length, IsTrue};
ghost use Rattle.std.specs.Prelude.{IfOk, OnOk, OnErr, IfSome, IfNone};
ghost use Rattle.desk.specs.Desks.{IsWith, IsCoreFor, IsCoreOf, HasNoCore, GrowsAtNeed, core_at};

use allocation::{Memory, SmallAllocator};
use checker::Job;
use std::mem;

/// The core of these bytes and this limit, a new one where there is none. A new one takes a place
/// that has none, where there is such a place, and else a new place, which may take memory.
pub(crate) fn core_for<A: SmallAllocator + Copy>(
    cores: &mut Vec<Option<Job<A>>, A>,
    alloc: A,
    bytes: Vec<u8, A>,
    limit: u32,
) -> Result<usize, Memory>
    ensures ok { IfOk result (λ k. IsCoreFor cores.old.items bytes.items limit k cores.new.items) }
    ensures grows { OnOk result (GrowsAtNeed cores.old.items cores.new.items) }
    ensures err { OnErr result ((cores.new.items ≡ cores.old.items)
        × HasNoCore cores.old.items bytes.items limit) }
{
    if let Some(core) = find(cores, &bytes, limit) {
        return Ok(core);
    }
    if let Some(core) = vacancy(cores) {
        put(cores, core, Some(Job::open(alloc, bytes, limit)));
        return Ok(core);
    }
    let core = cores.len();
    cores.push(Some(Job::open(alloc, bytes, limit)))?;
    Ok(core)
}

/// Puts a core at a place, or none. What stood there is given up.
pub(crate) fn put<A: SmallAllocator>(
    cores: &mut Vec<Option<Job<A>>, A>,
    place: usize,
    core: Option<Job<A>>,
)
    requires { place < length cores.old.items }
    ensures placed { IsWith cores.old.items place core cores.new.items }
    ensures length { length cores.new.items ≡ length cores.old.items }
{
    drop(mem::replace(&mut cores[place], core));
}

/// The place of the core of these bytes and this limit.
fn find<A: SmallAllocator>(
    cores: &Vec<Option<Job<A>>, A>,
    bytes: &[u8],
    limit: u32,
) -> Option<usize>
    ensures some { IfSome result (λ k. IsCoreOf cores.now.items bytes.now limit k) }
    ensures none { IfNone result (HasNoCore cores.now.items bytes.now limit) }
{
    for i in 0..cores.len() {
        if let Some(core) = &cores[i] {
            if is_of(core, bytes, limit) {
                return Some(i);
            }
        }
    }
    None
}

/// Whether the core is that of these bytes and this limit.
fn is_of<A: SmallAllocator>(core: &Job<A>, bytes: &[u8], limit: u32) -> bool
    ensures { IsTrue result ↔ ((core.now.bytes ≡ bytes.now) × (core.now.limit ≡ limit)) }
{
    core.limit() == limit && core.bytes() == bytes
}

/// A place without a core, if there is one.
fn vacancy<A: SmallAllocator>(cores: &Vec<Option<Job<A>>, A>) -> Option<usize>
    ensures some { IfSome result (λ k. (k < length cores.now.items)
        × (core_at cores.now.items k ≡ None)) }
    ensures none { IfNone result ((k : ℕ) → k < length cores.now.items
        → core_at cores.now.items k ≢ None) }
{
    for i in 0..cores.len() {
        if cores[i].is_none() {
            return Some(i);
        }
    }
    None
}
