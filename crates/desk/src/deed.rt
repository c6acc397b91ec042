//! What was done in a step.
use crate::reply::StepFault;
use player::{Answer, Outcome};

/// What was done in a step, before the reply is lent.
#[derive(Clone, Copy)]
pub(crate) enum Deed {
    Opened(u8),
    /// The job of the number is shown as it stands.
    Shown(u8),
    Dropped,
    Outcome(Outcome),
    Answer(Answer),
    Refused(StepFault),
}
