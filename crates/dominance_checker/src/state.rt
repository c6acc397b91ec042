//! States of positions in memory.
ghost use Rattle.std.specs.Prelude.{◌≡◌, IsTrue};
ghost use Rattle.dominance.specs.Tested.{size_of};

/// How many losses of weight a state tells apart: those from 0 on below this.
pub(crate) const LOSSES: usize = 8;

/// What is known of a position: its parity; 0 where it has no weight, 1 where the weight is odd, else 2;
/// whether it has a move; and of some moves how much weight they lose, those that keep the parity and
/// those that change it.
#[derive(Clone, Copy, Debug, PartialEq, Eq)]
pub struct State {
    pub odd: bool,
    pub size: u64,
    pub alive: bool,
    pub keeps: [bool; 8],
    pub flips: [bool; 8],
}

/// 0 for 0, 1 for odd numbers, and 2 for the others.
pub(crate) fn size_of(weight: u64) -> u64
    ensures { result ≡ size_of weight }
{
    if weight == 0 { 0 } else { 2 - weight % 2 }
}
