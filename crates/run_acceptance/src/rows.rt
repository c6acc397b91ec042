//! Rows of tables, and how many of them hold.
use std::alloc::Global;

/// A row of a table.
pub trait Row {
    /// Whether what the row says is so.
    fn holds(&self, alloc: Global) -> bool;
}

/// How many rows hold, up to the first that does not.
pub fn count_held<R: Row>(alloc: Global, rows: &[R]) -> usize {
    let mut count = 0usize;
    for row in rows {
        if !row.holds(alloc) {
            return count;
        }
        count = count.saturating_add(1);
    }
    count
}
