//! What is read of a certificate is enough.
ghost use Rattle.std.specs.Prelude.{◌≡◌, ◌+◌, ◌≤◌, ℕ, List, length, take};
ghost use Rattle.misere_theory.specs.Certificates.{Certificate};
ghost use Rattle.certificate_text.specs.Spelling.{Spells};
ghost use Rattle.check_machine.specs.Turns.{verdict};
ghost use Rattle.verdict_texts.specs.declared.stream.TheConstants.{MOST_BYTES};

use checker::verdicts_are_true;

/// No certificate has more than [`MOST_BYTES`](verdict_texts::MOST_BYTES) bytes. So one byte more
/// decides as all that stand behind it: the front of a file or of a stream has the verdict of the
/// whole.
pub fn fronts_decide()
    ensures short { (bytes : List ℕ) (c : Certificate) → Spells bytes c
        → length bytes ≤ MOST_BYTES }
    ensures same { (bytes : List ℕ) (limit : ℕ)
        → verdict (take (MOST_BYTES + 1) bytes) limit ≡ verdict bytes limit }
{
    verdicts_are_true();
}
