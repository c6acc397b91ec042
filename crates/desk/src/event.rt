//! What a client asks of a desk.
use allocation::SmallAllocator;
use positions::Position;
use std::alloc::Global;

/// What a client asks of a desk. Jobs are named by their numbers, counted from
/// 1.
#[derive(Drop)]
pub enum Event<A: SmallAllocator = Global> {
    /// Opens a job: the check of these bytes under this limit.
    Open(Vec<u8, A>, u32),
    /// Works a job by so many units.
    Work(u8, u64),
    /// Gives a job up; its number is free again.
    Drop(u8),
    /// Asks a job that has ended with yes for the outcome of a position.
    Ask(u8, Position<A>),
    /// Asks it what to play in a position.
    Play(u8, Position<A>),
}
