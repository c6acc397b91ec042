//! What is told in numbers.
ghost use Rattle.std.specs.Prelude.{◌≡◌};
ghost use Rattle.player.specs.declared.answering.Answer.TheVariants.{Wins};
ghost use Rattle.player.specs.Numbers.{outcome_number, first_of, second_of, third_of, without_move, IsAnswerOf};

use crate::Answer;
use positions::{Left, Move, Outcome};

/// Yes, and what was asked for is told.
pub const DONE: u32 = 0;

/// The rule of the code's game fails at a position.
pub const OUTCOME: u32 = 7;

/// A growth was refused.
pub const MEMORY: u32 = 9;

/// A heap isn't of 1 to 10^18.
pub const NOT_A_HEAP: u32 = 10;

/// The ends don't cut the heaps into as many positions as there is room for.
pub const NOT_ENDS: u32 = 11;

/// There is no room for what would be told.
pub const NO_ROOM: u32 = 14;

/// A number that is asked for is out of its range.
pub const NOT_IN_RANGE: u32 = 15;

/// Nothing is opened.
pub const NOT_OPEN: u32 = 17;

/// The certificate doesn't speak of all the heaps.
pub const BEYOND: u32 = 23;

/// What to do in a position.
#[repr(C)]
#[derive(Clone, Copy)]
pub struct MisereAnswer {
    /// 0 where no move exists, 1 where each move loses, and 2 where a move wins.
    pub kind: u64,
    /// The heap that the move takes, else 0.
    pub heap: u64,
    /// The heaps that it leaves, rising, and 0 for each that it doesn't.
    pub first: u64,
    pub second: u64,
    pub third: u64,
}

/// The number of an outcome.
pub fn number(outcome: Outcome) -> u32
    ensures { result ≡ outcome_number outcome }
{
    match outcome {
        Outcome::P => 0,
        Outcome::N => 1,
    }
}

/// An answer in numbers.
pub fn told(answer: Answer) -> MisereAnswer
    ensures { IsAnswerOf answer result }
{
    match answer {
        Answer::Ended => without_move(0),
        Answer::Lost => without_move(1),
        Answer::Wins(made) => with_move(made),
    }
}

/// An answer that names no move.
fn without_move(kind: u64) -> MisereAnswer
    ensures { result ≡ without_move kind }
{
    MisereAnswer {
        kind,
        heap: 0,
        first: 0,
        second: 0,
        third: 0,
    }
}

/// The first number for what is left of a heap.
fn first_part(left: Left) -> u64
    ensures { result ≡ first_of left }
{
    match left {
        Left::Nothing => 0,
        Left::One(a) | Left::Two(a, _) | Left::Three(a, _, _) => a,
    }
}

/// The second number for what is left of a heap.
fn second_part(left: Left) -> u64
    ensures { result ≡ second_of left }
{
    match left {
        Left::Nothing | Left::One(_) => 0,
        Left::Two(_, b) | Left::Three(_, b, _) => b,
    }
}

/// The third number for what is left of a heap.
fn third_part(left: Left) -> u64
    ensures { result ≡ third_of left }
{
    match left {
        Left::Nothing | Left::One(_) | Left::Two(_, _) => 0,
        Left::Three(_, _, c) => c,
    }
}

/// The answer that names a move.
fn with_move(made: Move) -> MisereAnswer
    ensures { IsAnswerOf (Wins made) result }
{
    MisereAnswer {
        kind: 2,
        heap: made.heap,
        first: first_part(made.left),
        second: second_part(made.left),
        third: third_part(made.left),
    }
}
