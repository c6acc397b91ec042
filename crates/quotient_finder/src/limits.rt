//! How far a search goes.

/// How often the proposers are asked, and how many members each check may keep.
#[derive(Clone, Copy, Debug, PartialEq, Eq)]
pub struct Limits {
    /// How many rounds there are at most. In a round each proposer is asked once.
    pub rounds: u32,
    /// How many members the closure of each check may ever keep.
    pub members: u32,
}
