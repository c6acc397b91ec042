//! Which classes are in the portion beside which labels, in lanes of 64 labels: a guess of what tells two classes apart.
//! Nothing is promised of it.
use crate::separating::mark;
use crate::tables::ClassTables;
use allocation::Memory;
use std::alloc::{Allocator, Global};

/// For each class a row of lanes, with a bit for each label.
#[derive(Drop)]
pub(crate) struct ClassMarks<A: Allocator = Global> {
    width: usize,
    lanes: Vec<u64, A>,
}

/// So many lanes without a bit.
fn empty_lanes<A: Allocator>(alloc: A, count: usize) -> Result<Vec<u64, A>, Memory> {
    let mut lanes = Vec::new(alloc);
    for _ in 0..count {
        lanes.push(0)?;
    }
    Ok(lanes)
}

impl<A: Allocator + Copy> ClassMarks<A> {
    /// The marks of all classes.
    pub(crate) fn of(alloc: A, v: &ClassTables<A>) -> Result<ClassMarks<A>, Memory> {
        let width = v.tables.labels / 64 + 1;
        let lanes = empty_lanes(alloc, v.tables.classes.saturating_mul(width))?;
        let mut marks = ClassMarks { width, lanes };
        for w in 0..v.tables.labels {
            marks.mark_beside(v, w);
        }
        Ok(marks)
    }
}

impl<A: Allocator> ClassMarks<A> {
    /// Marks the classes that are in the portion beside label `w`.
    fn mark_beside(&mut self, v: &ClassTables<A>, w: usize) {
        for x in 0..v.tables.classes {
            if mark(&v.tables, &v.bits, w, x) == Some(true) {
                let k = x.saturating_mul(self.width).saturating_add(w / 64);
                if k < self.lanes.len() {
                    self.lanes[k] |= 1 << (w % 64);
                }
            }
        }
    }

    /// The lanes of class `x`.
    pub(crate) fn row(&self, x: usize) -> &[u64] {
        let from = x.saturating_mul(self.width);
        match self.lanes.get(from..from.saturating_add(self.width)) {
            Some(row) => row,
            None => &[],
        }
    }

    /// A label that tells the classes apart, if there is one.
    pub(crate) fn telling(&self, x: usize, y: usize) -> Option<usize> {
        let (one, other) = (self.row(x), self.row(y));
        for k in 0..one.len().min(other.len()) {
            let apart = one[k] ^ other[k];
            if apart != 0 {
                return Some(
                    k.saturating_mul(64)
                        .saturating_add(apart.trailing_zeros() as usize),
                );
            }
        }
        None
    }
}
