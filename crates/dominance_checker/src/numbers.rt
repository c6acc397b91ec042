//! How far a claim is tested.

/// From which heap on ranks are large; up to which heap all is tested, less a period; the last digit of the
/// code; how much weight a heap before the start has at most; and up to which weight others are tried.
#[derive(Clone, Copy, Debug, PartialEq, Eq)]
pub struct Numbers {
    pub large: u64,
    pub last: u64,
    pub digits: u64,
    pub few: u64,
    pub most: u64,
}
