//! Laws of answers: what follows for one that holds, the one accepted text of a code and a kind, and
//! the positions that keys spell.
ghost use Rattle.std.specs.Prelude.{◌≡◌, ◌<◌, ◌≤◌, ℕ, List};
ghost use Rattle.misere_theory.specs.Games.{IsPosition};
ghost use Rattle.misere_theory.specs.Quotients.{Monoid, value};
ghost use Rattle.misere_theory.specs.Certificates.{Certificate, kind_of, IsHeapOf, Accepted, Canonical, InRanges, claim_of, times_of};
ghost use Rattle.certificate_text.specs.Spelling.{Spells};
ghost use Rattle.answers.specs.ByteVerdicts.{ByteVerdict, Holds, IsTrueOf};
ghost use Rattle.answers.specs.Spelled.{AreSpelled, GoDown};

/// An answer that holds of bytes is true of them.
pub fn true_answers()
    ensures { (bytes : List ℕ) (limit : ℕ) (answer : ByteVerdict) → Holds bytes limit answer
        → IsTrueOf bytes limit answer }
{
    certificate_text::spellings_are_unique();
    one_text_for_a_code();
}

/// A code has one accepted text of each kind at most: a full one, and for each last heap a partial
/// one.
pub fn one_text_for_a_code()
    ensures one { (a b : List ℕ) (c d : Certificate) → Spells a c → Spells b d → Accepted c
        → Accepted d → c.code ≡ d.code → kind_of c ≡ kind_of d → a ≡ b }
    ensures full { (a b : List ℕ) (c d : Certificate) → Spells a c → Spells b d → Accepted c
        → Accepted d → c.code ≡ d.code → 1 ≤ c.period → 1 ≤ d.period → a ≡ b }
{
    misere_theory::certificates::accepted_certificates_are_unique();
    certificate_text::spellings_are_unique();
}

/// The keys of a canonical certificate go down to smaller elements, and the heaps that those of an
/// element spell are a position whose value is that element.
pub fn spelled_sizes_are_positions()
    ensures down { (c : Certificate) → InRanges c → Canonical c → GoDown c.words }
    ensures valued { (c : Certificate) (e : ℕ) (sizes : List ℕ) → InRanges c
        → Monoid c.order (times_of c) → Canonical c → e < c.order → AreSpelled c e sizes
        → IsPosition (IsHeapOf c) sizes × (value (claim_of c) sizes ≡ e) }
{}
