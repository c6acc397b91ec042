//! A check from its beginning to its end.
ghost use Rattle.std.specs.Prelude.{◌≡◌, ◌⊎◌};
ghost use Rattle.answers.specs.ByteVerdicts.{answer_of, IsTrueOf};
ghost use Rattle.answers.specs.ByteVerdicts.ByteVerdict.{Memory};
ghost use Rattle.check_machine.specs.Turns.{verdict};

use crate::stage::Stage;
use allocation::SmallAllocator;
use answers::{Certified, Checks, Refusal, true_answers};
use check_machine::{checks_end, verdicts_are_true};

/// Whether the bytes are an accepted certificate. The answer is the verdict of the bytes and the
/// limit, which is always the same, unless memory was refused.
pub fn check<A: SmallAllocator + Copy>(
    alloc: A,
    bytes: &[u8],
    limit: u32,
) -> Result<Certified<A>, Refusal<A>>
    ensures true_of { IsTrueOf bytes.now limit (answer_of result) }
    ensures decided { (answer_of result ≡ verdict bytes.now limit) ⊎ (answer_of result ≡ Memory) }
{
    checks_end();
    verdicts_are_true();
    true_answers();
    let mut left = u64::MAX;
    let mut stage = Stage::Reading;
    stage.advance(alloc, bytes, limit, &mut left);
    stage.answer()
}

/// This check, for whatever takes one.
pub struct Checker;

impl<A: SmallAllocator + Copy> Checks<A> for Checker {
    ghost due = { λ _. verdict };

    fn check(&self, alloc: A, bytes: &[u8], limit: u32) -> Result<Certified<A>, Refusal<A>> {
        check(alloc, bytes, limit)
    }
}
