//! Where drafts come from.
ghost use Rattle.std.specs.Prelude.{◌≡◌, ◌∷◌};
ghost use Rattle.answers.specs.ByteVerdicts.{refused};
ghost use Rattle.quotient_finder.specs.Histories.{Events};
ghost use Rattle.quotient_finder.specs.Histories.Event.{Told};
ghost use Rattle.quotient_finder.specs.Turns.{given};

use allocation::Memory;
use checker::Refusal;
use octal_code::Code;

/// Drafts certificates. Nothing is asked of a draft: it may be any bytes.
pub trait Proposer: Drop {
    /// All that was said between searches and this proposer, the latest first.
    ghost history: { Self → Events };

    /// A draft of a certificate of the code, if there is one.
    fn propose(&mut self, code: &Code) -> Result<Option<Vec<u8>>, Memory>
        ensures { history self.new ≡ given (λ draft. draft.items) result ∷ history self.old };

    /// Takes note of the refusal of its last draft, which is never `Memory`.
    fn learn(&mut self, refusal: &Refusal) -> Result<(), Memory>
        ensures { history self.new ≡ Told (refused refusal.now) ∷ history self.old };
}

/// A call goes to the proposer in the box.
impl Proposer for Box<dyn Proposer> {
    ghost history = { λ b. (Proposer-box b).history b.value };

    fn propose(&mut self, code: &Code) -> Result<Option<Vec<u8>>, Memory> {
        (**self).propose(code)
    }

    fn learn(&mut self, refusal: &Refusal) -> Result<(), Memory> {
        (**self).learn(refusal)
    }
}
