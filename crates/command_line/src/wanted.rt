//! What the words of a command line ask for.
use requests::Plan;

/// A text that is explained by itself.
#[derive(Clone, Copy)]
pub enum ExplainedWord<'a> {
    /// Why it is no code.
    Code(&'a str),
    /// Why it is no position.
    Position(&'a str),
}

/// What the words ask for.
#[derive(Drop)]
pub enum Asked<'a> {
    /// What is planned.
    Plan(Plan<'a>),
    /// An explanation of a word, for which nothing is read.
    Word(ExplainedWord<'a>),
}
