//! Why bytes are not accepted.
ghost use Rattle.std.specs.Prelude.{◌≡◌};
ghost use Rattle.answers.specs.Refusals.{refusal_number, refusal_name, IsFailure};

use allocation::SmallAllocator;
use octal_code::Code;
use positions::Position;
use std::alloc::Global;

/// Why bytes are not accepted. Each but the last is answered only where it is true of the bytes.
#[derive(Drop)]
pub enum Refusal<A: SmallAllocator = Global> {
    /// The bytes spell no certificate.
    Text,
    /// The table isn't a commutative monoid with identity 0.
    Law,
    /// A key has no smaller element, or another product than its element.
    Word,
    /// The keys don't rise, or a product has a smaller key.
    Order,
    /// A smaller period serves, or the period serves from an earlier start.
    Period,
    /// A separating element isn't the least one.
    Apart,
    /// The local rule of the code's game fails at the position.
    Outcome(Code, Position<A>),
    /// Positions have more different transition pairs than the limit.
    Limit,
    /// A growth was refused.
    Memory,
}

impl<A: SmallAllocator> Refusal<A> {
    /// The number under which the refusal is printed: 1 to 9. It takes no memory.
    pub fn number(&self) -> u8
        ensures { result ≡ refusal_number self.now }
    {
        match self {
            Refusal::Text => 1,
            Refusal::Law => 2,
            Refusal::Word => 3,
            Refusal::Order => 4,
            Refusal::Period => 5,
            Refusal::Apart => 6,
            Refusal::Outcome(_, _) => 7,
            Refusal::Limit => 8,
            Refusal::Memory => 9,
        }
    }

    /// The name under which it is printed. It takes no memory.
    pub fn name(&self) -> &'static str
        ensures { result.now ≡ refusal_name self.now }
    {
        match self {
            Refusal::Text => "Text",
            Refusal::Law => "Law",
            Refusal::Word => "Word",
            Refusal::Order => "Order",
            Refusal::Period => "Period",
            Refusal::Apart => "Apart",
            Refusal::Outcome(_, _) => "Outcome",
            Refusal::Limit => "Limit",
            Refusal::Memory => "Memory",
        }
    }

    /// The certificate's code and the position at which the rule fails, for `Outcome` alone. It
    /// takes no memory.
    pub fn failed(&self) -> Option<(&Code, &Position<A>)>
        ensures { IsFailure self.now result }
    {
        match self {
            Refusal::Outcome(code, position) => Some((code, position)),
            _ => None,
        }
    }
}
