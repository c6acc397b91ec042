//! Laws of turns.
ghost use Rattle.std.specs.Prelude.{◌≡◌, ◌≢◌, ◌+◌, ◌-◌, ◌*◌, ◌^◌, ◌<◌, ◌≤◌, ℕ, List, false};
ghost use Rattle.certificate_text.specs.Spelling.{Spells};
ghost use Rattle.misere_theory.specs.Certificates.{Certificate, InRanges};
ghost use Rattle.answers.specs.ByteVerdicts.{IsTrueOf};
ghost use Rattle.answers.specs.ByteVerdicts.ByteVerdict.{Yes, Memory};
ghost use Rattle.check_machine.specs.Turns.{Phase, turn, turns, is_ended, stage_of, cost, verdict, Works, Reaches, HasSpent};
ghost use Rattle.check_machine.specs.Turns.Phase.{Reading, Ended};
ghost use Rattle.check_machine.specs.Bounds.{most_turns, AreWithinBound};
ghost use Rattle.check_machine.specs.Measures.{measure};
ghost use Rattle.check_machine.specs.Sound.{IsSound};

use answers::true_answers;

/// Each turn keeps what its stage holds sound, and lowers what the check takes at most. So from its
/// start a check comes to its end after at most as many turns as the bound, which are those that it
/// costs, and there stands what it answers. A yes has taken one for each triple of the table, each
/// key and each product at least.
pub fn checks_end()
    ensures falls { (bytes : List ℕ) (limit : ℕ) (p : Phase) → IsSound limit p → is_ended p ≡ false
        → IsSound limit (turn bytes limit p)
        × (measure bytes limit (turn bytes limit p) < measure bytes limit p) }
    ensures within { (bytes : List ℕ) (limit n : ℕ) (p : Phase) → Reaches bytes limit n p
        → AreWithinBound bytes limit (n + measure bytes limit p) }
    ensures least { (bytes : List ℕ) (limit : ℕ) (c : Certificate) → verdict bytes limit ≡ Yes c
        → c.order * c.order * c.order + c.order * (c.start + c.period) ≤ cost bytes limit }
    ensures some { (bytes : List ℕ) (limit : ℕ) → 0 < cost bytes limit }
    ensures most { (bytes : List ℕ) (limit : ℕ) → AreWithinBound bytes limit (cost bytes limit) }
    ensures small { (limit : ℕ) (c : Certificate) → limit < 2 ^ 32 → InRanges c
        → most_turns limit c < 2 ^ 52 }
    ensures few { (bytes : List ℕ) (limit : ℕ) → limit < 2 ^ 32 → cost bytes limit < 2 ^ 52 }
    ensures ends { (bytes : List ℕ) (limit : ℕ) → turns bytes limit (cost bytes limit) Reading
        ≡ Ended (verdict bytes limit) }
    ensures spent { (bytes : List ℕ) (limit n : ℕ) (p : Phase) → Reaches bytes limit n p
        → HasSpent bytes limit n p }
    ensures before { (bytes : List ℕ) (limit n : ℕ) (p : Phase) → Reaches bytes limit n p
        → n ≤ cost bytes limit }
{
    certificate_text::reading_is_spelling();
    transition_algebra::heap_jobs_end();
    pair_closure::closures_cost();
}

/// The verdict of any bytes under any limit is true of them, and never that memory was refused.
/// Where it is a yes, its numbers are those of the certificate that the bytes spell.
pub fn verdicts_are_true()
    ensures { (bytes : List ℕ) (limit : ℕ) → IsTrueOf bytes limit (verdict bytes limit)
        × (verdict bytes limit ≢ Memory)
        × ((c d : Certificate) → verdict bytes limit ≡ Yes c → Spells bytes d → c ≡ d) }
{
    checks_end();
    true_answers();
    certificate_text::reading_is_spelling();
    certificate_text::spellings_are_unique();
    certificate::claims_agree();
    monoid_table::tables_cost();
    monoid_table::turns_are_paid();
    transition_algebra::heap_pairs_are_one_list();
    pair_closure::closures_show_pairs();
    pair_closure::closures_go_on();
    misere_theory::certificates::tested_certificates_are_accepted();
}

/// However the units were cut, a check comes to what its turns come to; and it costs a turn at
/// least.
pub fn turns_decide()
    ensures on { (bytes : List ℕ) (limit n : ℕ) (p q : Phase) (before after : ℕ)
        → Reaches bytes limit n p → stage_of p < 9
        → Works bytes limit p before after q → Reaches bytes limit (n + (before - after)) q }
    ensures some { (bytes : List ℕ) (limit : ℕ) → 0 < cost bytes limit }
{}
