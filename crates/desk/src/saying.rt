//! What a certified quotient says of a position, where it speaks of it.
ghost use Rattle.std.specs.Prelude.{Some};
ghost use Rattle.answers.specs.ByteVerdicts.ByteVerdict.{Yes};
ghost use Rattle.desk.specs.Deeds.{meant};
ghost use Rattle.desk.specs.Machine.{Jobs, AnswerReplies, OutcomeReplies};

use crate::deed::Deed;
use crate::reply::StepFault;
use allocation::SmallAllocator;
use checker::Certified;
use player::{answer, fits, outcome};
use positions::Position;

/// The outcome of the position, where the certificate speaks of it.
pub(crate) fn outcome_deed<A: SmallAllocator>(
    certified: &Certified<A>,
    position: &Position<A>,
) -> Deed
    ensures { (jobs : Jobs) → OutcomeReplies (Some (Yes certified.now)) position.now (meant jobs result) }
{
    if fits(certified, position) {
        Deed::Outcome(outcome(certified, position))
    } else {
        Deed::Refused(StepFault::Beyond)
    }
}

/// What to play in the position, where the certificate speaks of it.
pub(crate) fn answer_deed<A: SmallAllocator>(
    certified: &Certified<A>,
    position: &Position<A>,
) -> Deed
    ensures { (jobs : Jobs) → AnswerReplies (Some (Yes certified.now)) position.now (meant jobs result) }
{
    if !fits(certified, position) {
        return Deed::Refused(StepFault::Beyond);
    }
    Deed::Answer(answer(certified, position))
}
