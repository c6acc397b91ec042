//! Why bytes are refused.
ghost use Rattle.std.specs.Prelude.{◌≡◌};
ghost use Rattle.answers.specs.InfiniteRefusals.{refusal_number, refusal_name};

use allocation::SmallAllocator;
use octal_code::Code;
use positions::Position;
use std::alloc::Global;

/// Why bytes are not accepted. `Text`, `Law`, `Outcome`, `Part` and `Finite` are answered only if they are true of the
/// bytes. Numbers up to 9 are those of finite certificates' refusals.
#[derive(Drop)]
pub enum InfiniteRefusal<A: SmallAllocator = Global> {
    /// The bytes spell no such text.
    Text,
    /// The relations don't reduce each word to one normal form.
    Law,
    /// The rule of misère outcomes fails at the position of the code's game.
    Outcome(Code, Position<A>),
    /// Larger than the check takes.
    Limit,
    /// A growth was refused.
    Memory,
    /// Some option of this heap has a heap of which the text doesn't speak.
    Part(u64),
    /// The rule wasn't seen to hold, and no position was found at which it fails.
    Undecided,
    /// What is said is right, and the quotient is finite where an infinite one is asked for.
    Finite,
}

impl<A: SmallAllocator> InfiniteRefusal<A> {
    /// The number under which the refusal is printed. It takes no memory.
    pub fn number(&self) -> u8
        ensures { result ≡ refusal_number self.now }
    {
        match self {
            InfiniteRefusal::Text => 1,
            InfiniteRefusal::Law => 2,
            InfiniteRefusal::Outcome(_, _) => 7,
            InfiniteRefusal::Limit => 8,
            InfiniteRefusal::Memory => 9,
            InfiniteRefusal::Part(_) => 31,
            InfiniteRefusal::Undecided => 33,
            InfiniteRefusal::Finite => 34,
        }
    }

    /// The name under which it is printed. It takes no memory.
    pub fn name(&self) -> &'static str
        ensures { result.now ≡ refusal_name self.now }
    {
        match self {
            InfiniteRefusal::Text => "Text",
            InfiniteRefusal::Law => "Law",
            InfiniteRefusal::Outcome(_, _) => "Outcome",
            InfiniteRefusal::Limit => "Limit",
            InfiniteRefusal::Memory => "Memory",
            InfiniteRefusal::Part(_) => "Part",
            InfiniteRefusal::Undecided => "Undecided",
            InfiniteRefusal::Finite => "Finite",
        }
    }
}
