//! How much of a heap a move leaves.
ghost use Rattle.std.specs.Prelude.{◌≡◌, ◌^◌};
ghost use Rattle.octal_code.specs.Bits.{bit_of, place_of};

/// How much may stay of a heap from which a move takes: each bit of a digit allows one of these.
#[derive(Clone, Copy, Debug, PartialEq, Eq)]
pub enum Leaving {
    /// Nothing: the move takes the whole heap.
    NoHeap,
    /// What isn't taken stays as one heap.
    OneHeap,
    /// What isn't taken stays, split into two heaps.
    TwoHeaps,
    /// What isn't taken stays, split into three heaps.
    ThreeHeaps,
}

impl Leaving {
    /// The bit of a digit that allows it.
    pub(crate) fn bit(self) -> u8
        ensures value { result ≡ bit_of self }
        ensures place { result ≡ 2 ^ place_of self }
    {
        match self {
            Leaving::NoHeap => 1,
            Leaving::OneHeap => 2,
            Leaving::TwoHeaps => 4,
            Leaving::ThreeHeaps => 8,
        }
    }
}
