//! What a refusal with a position says of a claim.
ghost use Rattle.std.specs.Prelude.{ℕ, List};
ghost use Rattle.misere_theory.specs.Games.{IsHeap};
ghost use Rattle.misere_theory.specs.Labels.{PredictsOutcomes, says_by};
ghost use Rattle.dominance.specs.Triples.{claim_by};
ghost use Rattle.dominance_text.specs.Said.{DominanceSaid};
ghost use Rattle.dominance_text.specs.Labels.{label_of};
ghost use Rattle.whole_checker.specs.Solved.{BreaksAt};

use misere_theory::games::outcomes_are_determined;
use misere_theory::labels::obeyed_rules_predict;

/// A claim that is refused with a position doesn't tell the outcome of each position.
pub fn broken_rules_show_wrong_claims()
    ensures { (c : DominanceSaid) (code X : List ℕ) → BreaksAt c code X
        → PredictsOutcomes IsHeap c.code (says_by (claim_by (label_of c))) → ⊥ }
{
    obeyed_rules_predict();
    outcomes_are_determined();
}
