//! Accepted texts of whole games and presentations.
use presented_checker::PresentedQuotient;
use whole_checker::WholeGame;

/// A text that a check has accepted. The misère quotient of its heaps is infinite; of a presentation it may be finite.
#[derive(Drop)]
pub enum AcceptedText {
    /// A text of a whole game, of heaps of every size.
    Whole(WholeGame),
    /// A presentation by generators and relations, of some heaps or of a whole game.
    Presented(PresentedQuotient),
}
