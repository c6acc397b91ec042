//! What a move leaves of a heap.
ghost use Rattle.std.specs.Prelude.{◌≡◌};
ghost use Rattle.heap_options.specs.Exact.{heaps_of};

use std::marker::Model;

/// What a move leaves of a heap, the parts rising.
#[derive(Clone, Copy, Debug, PartialEq, Eq)]
pub enum Left {
    Nothing,
    One(u64),
    Two(u64, u64),
    Three(u64, u64, u64),
}

impl Left {
    /// The heaps that are left.
    pub fn heaps(self) -> LeftHeaps
        ensures { result ≡ heaps_of self }
    {
        match self {
            Left::Nothing => LeftHeaps {
                sizes: [0, 0, 0],
                count: 0,
            },
            Left::One(a) => LeftHeaps {
                sizes: [a, 0, 0],
                count: 1,
            },
            Left::Two(a, b) => LeftHeaps {
                sizes: [a, b, 0],
                count: 2,
            },
            Left::Three(a, b, c) => LeftHeaps {
                sizes: [a, b, c],
                count: 3,
            },
        }
    }
}

/// The sizes of the heaps that a move leaves, seen as their list.
#[derive(Drop)]
pub struct LeftHeaps {
    sizes: [u64; 3],
    count: usize,
}

impl Model for LeftHeaps {
    ghost use Rattle.std.specs.Prelude.{◌≡◌, ◌≤◌, ℕ, List, length, take};

    ghost Value = { List ℕ };

    ghost view = { λ h. take h.count h.sizes };

    ghost invariant = { λ h. (h.count ≤ 3) × (length h.sizes ≡ 3) };
}

impl LeftHeaps {
    /// The sizes, in the order in which `Left` has them.
    pub fn as_slice(&self) -> &[u64]
        ensures { result.now ≡ self.now }
    {
        &self.sizes[..self.count]
    }
}
