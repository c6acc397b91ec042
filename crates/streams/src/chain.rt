//! Entries in their order.
use std::snapshot::Snapshot;

/// Nothing, or an entry and those before it.
#[derive(Drop)]
pub(crate) enum Chain<T> {
    Empty,
    Noted(Snapshot<T>, Snapshot<Chain<T>>),
}
