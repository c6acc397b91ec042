//! What a presentation says of positions.
ghost use Rattle.std.specs.Prelude.{◌↔◌, All, IsTrue};
ghost use Rattle.std.specs.List.Sorted.{IsNonDecreasing};
ghost use Rattle.positions.specs.Outcomes.{HasOutcome};
ghost use Rattle.player.specs.Answers.{IsTriedAnswer};
ghost use Rattle.presented_tables.specs.Tested.{HasWord};
ghost use Rattle.label_players.specs.Forms.{IsFormOf};
ghost use Rattle.label_players.specs.Plays.{SpeaksOf};

use crate::forms::form_of;
use crate::labelling::ByForms;
use crate::wide::WideWord;
use allocation::SmallAllocator;
use player::{Answer, answer_by, outcome_by};
use positions::{Outcome, Position};
use presented_checker::PresentedQuotient;
use presented_tables::Presented;
use std::alloc::Allocator;

/// Whether each of these heaps has a word.
fn have_words<A: Allocator>(said: &Presented<A>, heaps: &[u64]) -> bool
    ensures { IsTrue result ↔ All (HasWord said.now) heaps.now }
{
    heaps.iter().all(|heap| said.has_word(*heap))
}

/// Whether the presentation speaks of each of these heaps, which stand in any order. It takes no memory.
pub fn speaks_of<A: Allocator>(quotient: &PresentedQuotient<A>, heaps: &[u64]) -> bool
    ensures { IsTrue result ↔ SpeaksOf quotient.now heaps.now }
{
    have_words(quotient.said(), heaps)
}

/// Whether the presentation speaks of each heap of the position. It takes no memory.
pub fn presented_fits<A: Allocator, B: SmallAllocator>(
    quotient: &PresentedQuotient<A>,
    position: &Position<B>,
) -> bool
    ensures { IsTrue result ↔ SpeaksOf quotient.now position.now }
{
    speaks_of(quotient, position.heaps())
}

/// The element of the quotient that is the position's: the normal form of the product of its heaps' words. It takes no
/// memory. Asks that the presentation speaks of the position, as [`presented_fits`] tells.
pub fn presented_form<A: Allocator, B: SmallAllocator>(
    quotient: &PresentedQuotient<A>,
    position: &Position<B>,
) -> WideWord
    requires fits { SpeaksOf quotient.now position.now }
    ensures { IsFormOf quotient.now.said position.now result }
{
    form_of(quotient, position.heaps())
}

/// Who wins from the position of these heaps, in any order, under misère play. It takes no memory. Asks that the
/// presentation speaks of the heaps, as [`speaks_of`] tells.
pub fn presented_outcome_at<A: Allocator>(quotient: &PresentedQuotient<A>, heaps: &[u64]) -> Outcome
    requires fits { SpeaksOf quotient.now heaps.now }
    ensures { HasOutcome quotient.now.said.code heaps.now result }
{
    outcome_by(&ByForms { quotient }, heaps)
}

/// Who wins from the position under misère play. It takes no memory. Asks that the presentation speaks of the position,
/// as [`presented_fits`] tells.
pub fn presented_outcome<A: Allocator, B: SmallAllocator>(
    quotient: &PresentedQuotient<A>,
    position: &Position<B>,
) -> Outcome
    requires fits { SpeaksOf quotient.now position.now }
    ensures { HasOutcome quotient.now.said.code position.now result }
{
    presented_outcome_at(quotient, position.heaps())
}

/// The answer in the position of these heaps, which stand rising: as [`presented_answer`], of heaps in any memory.
pub fn presented_answer_at<A: Allocator>(quotient: &PresentedQuotient<A>, heaps: &[u64]) -> Answer
    requires fits { SpeaksOf quotient.now heaps.now }
    requires rising { IsNonDecreasing heaps.now }
    ensures { IsTriedAnswer quotient.now.said.code (λ _. quotient.now.said.heaps) heaps.now result }
{
    answer_by(&ByForms { quotient }, heaps)
}

/// What to do in the position: nothing if no move exists or none wins, and else a move that wins: the first one of those
/// whose parts but the largest are heaps of the list, in the order in which the player of a finite quotient has them. If
/// any move wins, one of these does. It takes no memory. Asks that the presentation speaks of the position, as
/// [`presented_fits`] tells.
pub fn presented_answer<A: Allocator, B: SmallAllocator>(
    quotient: &PresentedQuotient<A>,
    position: &Position<B>,
) -> Answer
    requires fits { SpeaksOf quotient.now position.now }
    ensures { IsTriedAnswer quotient.now.said.code (λ _. quotient.now.said.heaps) position.now result }
{
    presented_answer_at(quotient, position.heaps())
}
