//! The outcome of a position.

/// Who wins under misère play, where the player who makes the last move loses.
#[derive(Clone, Copy, Debug, PartialEq, Eq)]
pub enum Outcome {
    /// The previous player, who has just moved.
    P,
    /// The next player, whose turn it is.
    N,
}
