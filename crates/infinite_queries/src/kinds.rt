//! What is asked of an accepted text, of whichever kind it is.
ghost use Rattle.std.specs.Prelude.{◌≡◌, ◌↔◌, All, IsTrue};
ghost use Rattle.std.specs.List.Sorted.{IsNonDecreasing};
ghost use Rattle.opened.specs.Texts.{code_of, kind_of, last_of, number_or_none, order_of};
ghost use Rattle.positions.specs.Outcomes.{HasOutcome};
ghost use Rattle.positions.specs.Positions.{IsSize};
ghost use Rattle.infinite_queries.specs.Asked.{IsAnswerIn, SpeaksOf};

use label_players::{
    presented_answer_at, presented_outcome_at, speaks_of, whole_answer_at, whole_outcome_at,
};
use opened::AcceptedText;
use player::Answer;
use positions::Outcome;
use presented_checker::PresentedQuotient;

/// Whether the text speaks of each of these heaps, which stand in any order.
pub(crate) fn speaks(shown: &AcceptedText, heaps: &[u64]) -> bool
    requires { All IsSize heaps.now }
    ensures { IsTrue result ↔ SpeaksOf shown.now heaps.now }
{
    match shown {
        AcceptedText::Whole(_) => true,
        AcceptedText::Presented(quotient) => speaks_of(quotient, heaps),
    }
}

/// Who wins from the position of these heaps under misère play. It takes no memory.
pub(crate) fn winner(shown: &AcceptedText, heaps: &[u64]) -> Outcome
    requires { SpeaksOf shown.now heaps.now }
    ensures { HasOutcome (code_of shown.now) heaps.now result }
{
    match shown {
        AcceptedText::Whole(game) => whole_outcome_at(game, heaps),
        AcceptedText::Presented(quotient) => presented_outcome_at(quotient, heaps),
    }
}

/// The answer in the position of these heaps, which stand rising. It takes no memory.
pub(crate) fn rising_answer(shown: &AcceptedText, heaps: &[u64]) -> Answer
    requires speaks { SpeaksOf shown.now heaps.now }
    requires rising { IsNonDecreasing heaps.now }
    ensures { IsAnswerIn shown.now heaps.now result }
{
    match shown {
        AcceptedText::Whole(game) => whole_answer_at(game, heaps),
        AcceptedText::Presented(quotient) => presented_answer_at(quotient, heaps),
    }
}

/// 0 for none, and else the number.
fn number_of(order: Option<usize>) -> u64
    ensures { result ≡ number_or_none order }
{
    match order {
        Some(order) => order as u64,
        None => 0,
    }
}

/// 0 if the presentation is of the whole game, and else how far its heaps go.
fn last_of(quotient: &PresentedQuotient) -> u64
    ensures { result ≡ last_of quotient.now.said }
{
    if quotient.period() == 0 {
        quotient.heaps() as u64
    } else {
        0
    }
}

/// 0 if the text is of the whole game, and else how far its heaps go.
pub(crate) fn kind_of(shown: &AcceptedText) -> u64
    ensures { result ≡ kind_of shown.now }
{
    match shown {
        AcceptedText::Whole(_) => 0,
        AcceptedText::Presented(quotient) => last_of(quotient),
    }
}

/// 0 if the quotient is infinite, and else how many elements it has.
pub(crate) fn order_of(shown: &AcceptedText) -> u64
    ensures { result ≡ order_of shown.now }
{
    let AcceptedText::Presented(quotient) = shown else {
        return 0;
    };
    number_of(quotient.order())
}
