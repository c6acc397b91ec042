//! Folds of two counts to places.
use crate::numbers::{rest, share};

/// A fold of two counts.
#[derive(Clone, Copy)]
pub struct Fold {
    /// From which counts on both are lowered together, and in which steps.
    pub down: usize,
    pub up: usize,
    pub step: usize,
    /// The largest counts of a place.
    pub down_top: usize,
    pub up_top: usize,
    /// By what a count above its top is lowered.
    pub modulus: usize,
}

/// A place of a fold.
#[derive(Clone, Copy)]
pub struct Place {
    pub down: usize,
    pub up: usize,
}

/// A count, lowered by the modulus until it isn't above the top.
fn lowered(count: usize, top: usize, modulus: usize) -> usize {
    if count <= top {
        return count;
    }
    let least = top.saturating_add(1).saturating_sub(modulus);
    least.saturating_add(rest(count.saturating_sub(least), modulus))
}

impl Fold {
    /// The fold that tells no counts apart.
    pub fn flat() -> Fold {
        Fold {
            down: 0,
            up: 0,
            step: 1,
            down_top: 0,
            up_top: 0,
            modulus: 1,
        }
    }

    /// A fold with a step that is its modulus too, and one more round of it in each strip.
    pub fn cornered(corner: usize, step: usize) -> Fold {
        let top = corner.saturating_add(step.saturating_mul(2));
        Fold {
            down: corner,
            up: corner,
            step,
            down_top: top,
            up_top: top,
            modulus: step,
        }
    }

    /// The fold with a step twice as long and the same modulus, from this corner on.
    pub(crate) fn stretched(self, corner: usize) -> Fold {
        let step = self.step.saturating_mul(2);
        let top = corner.saturating_add(step).saturating_add(self.modulus);
        Fold {
            down: corner,
            up: corner,
            step,
            down_top: top,
            up_top: top,
            modulus: self.modulus,
        }
    }

    /// The place of counts.
    pub fn place(self, down: usize, up: usize) -> Place {
        let rounds = share(down.saturating_sub(self.down), self.step).min(share(
            up.saturating_sub(self.up),
            self.step,
        ));
        let both = rounds.saturating_mul(self.step);
        Place {
            down: lowered(down.saturating_sub(both), self.down_top, self.modulus),
            up: lowered(up.saturating_sub(both), self.up_top, self.modulus),
        }
    }

    /// How many rows of places are whole: those in which the first count is below the corner.
    fn whole_rows(self) -> usize {
        self.down
            .saturating_add(self.step)
            .min(self.down_top.saturating_add(1))
    }

    /// How many places the other rows have.
    fn strip(self) -> usize {
        self.up
            .saturating_add(self.step)
            .min(self.up_top.saturating_add(1))
    }

    /// The number of a place.
    pub fn number(self, place: Place) -> usize {
        let row = self.up_top.saturating_add(1);
        let rows = self.whole_rows();
        if place.down < rows {
            return place.down.saturating_mul(row).saturating_add(place.up);
        }
        let beyond = place.down.saturating_sub(rows);
        rows.saturating_mul(row)
            .saturating_add(beyond.saturating_mul(self.strip()))
            .saturating_add(place.up)
    }

    /// How many places there are.
    pub fn places(self) -> usize {
        let rows = self.whole_rows();
        let beyond = self.down_top.saturating_add(1).saturating_sub(rows);
        rows.saturating_mul(self.up_top.saturating_add(1))
            .saturating_add(beyond.saturating_mul(self.strip()))
    }

    /// Whether counts are a place.
    pub fn is_place(self, down: usize, up: usize) -> bool {
        let place = self.place(down, up);
        place.down == down && place.up == up
    }
}
