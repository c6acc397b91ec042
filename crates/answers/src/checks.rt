//! What checks bytes.
ghost use Rattle.std.specs.Prelude.{◌≡◌, ◌⊎◌, ℕ, List};
ghost use Rattle.answers.specs.ByteVerdicts.{ByteVerdict, answer_of, IsTrueOf};
ghost use Rattle.answers.specs.ByteVerdicts.ByteVerdict.{Memory};

use crate::certified::Certified;
use crate::refusal::Refusal;
use allocation::SmallAllocator;

/// What checks bytes: whatever it answers is true of them, and is always the same, unless memory
/// was refused.
pub trait Checks<A: SmallAllocator> {
    /// The answer to the bytes under the limit.
    ghost due: { Self → List ℕ → ℕ → ByteVerdict };

    /// Whether the bytes are an accepted certificate.
    fn check(&self, alloc: A, bytes: &[u8], limit: u32) -> Result<Certified<A>, Refusal<A>>
        ensures true_of { IsTrueOf bytes.now limit (answer_of result) }
        ensures decided { (answer_of result ≡ due self.now bytes.now limit)
            ⊎ (answer_of result ≡ Memory) };
}
