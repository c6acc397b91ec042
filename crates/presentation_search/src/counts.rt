//! Downs and ups of two heaps that run against each other.
use running_pairs::{Fold, rest, share};

/// Downs and ups.
#[derive(Clone, Copy, PartialEq, Eq)]
pub struct Counts {
    pub down: u32,
    pub up: u32,
}

impl Counts {
    /// No down and no up.
    pub const NONE: Counts = Counts { down: 0, up: 0 };

    /// How far downs and ups are apart.
    pub fn apart(self) -> u32 {
        self.down.abs_diff(self.up)
    }
}

/// A number of a fold, which is small.
pub fn small(number: usize) -> u32 {
    number.min(u32::MAX as usize) as u32
}

/// What is left when steps are taken from both counts.
#[inline]
pub fn reduced(fold: Fold, counts: Counts) -> Counts {
    let (down, up) = (counts.down as usize, counts.up as usize);
    if down < fold.down || up < fold.up {
        return counts;
    }
    let room = down
        .saturating_sub(fold.down)
        .min(up.saturating_sub(fold.up));
    let taken = small(room.saturating_sub(rest(room, fold.step)));
    Counts {
        down: counts.down.saturating_sub(taken),
        up: counts.up.saturating_sub(taken),
    }
}

/// The sum of counts, when steps are taken from both.
#[inline]
pub fn added(fold: Fold, one: Counts, other: Counts) -> Counts {
    reduced(
        fold,
        Counts {
            down: one.down.saturating_add(other.down),
            up: one.up.saturating_add(other.up),
        },
    )
}

/// The number of the place of counts.
#[inline]
pub fn place(fold: Fold, counts: Counts) -> usize {
    fold.number(fold.place(counts.down as usize, counts.up as usize))
}

/// How many different sums there are with the same difference, of counts from which steps were taken.
fn depth(fold: Fold) -> u32 {
    small(fold.down.max(fold.up).saturating_add(fold.step).max(1))
}

/// How many counts lie in a window, from which steps were taken.
pub fn window_size(fold: Fold, window: u32) -> usize {
    let wide = (window as usize).saturating_mul(2).saturating_add(1);
    wide.saturating_mul(depth(fold) as usize)
}

/// The number of counts in a window, from which steps were taken.
pub fn window_place(fold: Fold, window: u32, counts: Counts) -> usize {
    let most = fold.down.max(fold.up);
    let down = counts
        .down
        .saturating_add(small(most.saturating_sub(fold.down)));
    let up = counts
        .up
        .saturating_add(small(most.saturating_sub(fold.up)));
    let difference = window.saturating_add(counts.up).saturating_sub(counts.down);
    let low = down.min(up).min(depth(fold).saturating_sub(1));
    (difference as usize)
        .wrapping_mul(depth(fold) as usize)
        .wrapping_add(low as usize)
}

/// From how many copies of a heap on its counts come again, and after how many.
pub fn index(fold: Fold, counts: Counts) -> u32 {
    let mut least = 0u32;
    if counts.down > 0 {
        least = small(share(fold.down, counts.down as usize)).saturating_add(1);
    }
    if counts.up > 0 {
        least = least.max(small(share(fold.up, counts.up as usize)).saturating_add(1));
    }
    least
}
