//! Whether a whole game is normal play beyond some heap.
ghost use Rattle.std.specs.Prelude.{MatchResult};
ghost use Rattle.nim_tails.specs.Tails.{IsTail, IsTailFault};

use crate::elements::is_normal;
use crate::fault::TailFault;
use crate::kernel::{identity, last_outside, outside};
use crate::lengths::is_long_enough;
use answers::Certified;
use std::alloc::Global;

/// What is seen of a game that is normal play beyond some heap.
#[derive(Clone, Copy, Debug, PartialEq, Eq)]
pub struct Tail {
    /// The last heap whose element is outside the kernel, and 0 if there is none: each position of the
    /// whole game with a heap above it has the same outcome in misère play as in normal play.
    pub above: u64,
    /// How many elements are outside the kernel.
    pub outside: u16,
}

/// Whether an accepted partial certificate shows that its whole game is normal play but for positions of
/// some small heaps: each position with a heap above `Tail::above`, of any number of heaps of any size,
/// and each of the certificate's heaps whose value is in the kernel, has the same outcome in misère play
/// as in normal play. So it is P exactly if its nim sum is 0. This is the project's own, after the normal
/// kernels of Plambeck and Siegel.
pub fn tail_of(alloc: Global, certified: &Certified) -> Result<Tail, TailFault>
    ensures { MatchResult result (IsTail certified.now) (IsTailFault certified.now) }
{
    let most = certified.cert().heaps();
    if most == 0 {
        return Err(TailFault::Full);
    }
    let one = identity(certified)?;
    let above = last_outside(certified, one);
    if !is_long_enough(certified.cert().code(), most, above) {
        return Err(TailFault::Length(above));
    }
    is_normal(alloc, certified, one)?;
    let outside = outside(certified, one);
    Ok(Tail { above, outside })
}
