//! Moves.
ghost use Rattle.std.specs.Prelude.{◌≡◌, ◌+◌, ◌-◌, ◌<◌, ◌↔◌, Contains, IfOk, length};
ghost use Rattle.misere_theory.specs.Games.{HeapMove};
ghost use Rattle.heap_options.specs.Exact.{heaps_of};
ghost use Rattle.positions.specs.Moves.{move_fault_number};
ghost use Rattle.heap_options.specs.Options.{options_of};

use crate::position::{INLINE, Position, place_of};
use allocation::{Memory, SmallAllocator};
use heap_options::{Left, is_option};
use octal_code::Code;

/// A heap's size, and what a move leaves of such a heap.
#[derive(Clone, Copy, Debug, PartialEq, Eq)]
pub struct Move {
    pub heap: u64,
    pub left: Left,
}

/// Why a move can't be made.
#[derive(Clone, Copy, Debug, PartialEq, Eq)]
pub enum MoveFault {
    /// The position has no heap of this size.
    NoSuchHeap,
    /// The heap is there, but this isn't an option of it.
    NotAllowed,
    /// A growth was refused.
    Memory,
}

impl MoveFault {
    /// The number under which the fault is printed.
    pub fn number(self) -> u8
        ensures { result ≡ move_fault_number self }
    {
        match self {
            MoveFault::NoSuchHeap => 1,
            MoveFault::NotAllowed => 2,
            MoveFault::Memory => 9,
        }
    }
}

impl From<Memory> for MoveFault {
    ghost use Rattle.positions.specs.declared.moves.MoveFault.{MoveFault};

    ghost from_gives = { λ _ fault. fault ≡ MoveFault.Memory };

    fn from(_: Memory) -> MoveFault {
        MoveFault::Memory
    }
}

/// The position after a move. The heap is looked up, and the option is tested by itself, however
/// many the heap has. Up to `INLINE` heaps after the move take no memory.
pub fn apply<A: SmallAllocator + Copy>(
    alloc: A,
    code: &Code,
    position: &Position<A>,
    step: Move,
) -> Result<Position<A>, MoveFault>
    ensures ok { IfOk result (HeapMove code.now position.now step.heap (heaps_of step.left)) }
    ensures no_such_heap { (result ≡ Err MoveFault.NoSuchHeap) ↔ ¬ Contains position.now step.heap }
    ensures memory { result ≡ Err MoveFault.Memory
        → INLINE < length (heaps_of step.left) + (length position.now - 1) }
    ensures not_allowed { (result ≡ Err MoveFault.NotAllowed)
        ↔ (Contains position.now step.heap × ¬ Contains (options_of code.now step.heap) step.left) }
{
    let Ok(at) = place_of(position.heaps(), step.heap) else {
        return Err(MoveFault::NoSuchHeap);
    };
    if !is_option(code, step.heap, step.left) {
        return Err(MoveFault::NotAllowed);
    }
    let mut next = Position::new(alloc);
    next.set_moved(position, at, step.left)?;
    Ok(next)
}
