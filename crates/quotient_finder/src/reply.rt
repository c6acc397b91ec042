//! What comes of asking.

use checker::Certified;

/// What came of asking proposers.
#[derive(Drop)]
pub enum ProposerReply {
    /// A certificate of the code and kind.
    Found(Certified),
    /// A draft, but no certificate of the code and kind.
    Drafted,
    /// No draft.
    Nothing,
}
