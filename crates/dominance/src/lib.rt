//! Games in which one heap may rule all others, whole ones with heaps of every size: what has to be tested of
//! a claim about them, and their misère quotient. Definitions, and laws, each the contract of a function that
//! does nothing.
//!
//! | Folder | What stands there |
//! |---|---|
//! | `specs/Triples` | the monoid U of parities, weights and leads, and its P-portion |
//! | `specs/Tested` | what is tested of a claim that gives each heap a triple |
//! | `specs/Quotient` | when the triples of positions are the whole misère quotient |
//! | `specs/Finite` | claims whose triples repeat with a period, and of which heaps the tests are enough |
//! | `src/` | the laws |
//! | `proofs/` | the lemmas, and beside them a folder for each law |
//!
//! `specs/Words` has the monoid U by generators and relations: the presentation of the misère quotient of 0.26 and of
//! other whole games.
#![tactic(auto)]

ghost use Rattle.std.specs.Prelude.{◌≡◌, ◌<◌, ◌↔◌, ◌++◌, ℕ, Bool, true, List};
ghost use Rattle.misere_theory.specs.Games.{IsHeap, IsPosition, IsP, Indistinguishable};
ghost use Rattle.misere_theory.specs.Quotients.{Claim, Represents};
ghost use Rattle.misere_theory.specs.Labels.{RepresentsBy};
ghost use Rattle.misere_theory.specs.Parts.{IsInfinite};
ghost use Rattle.dominance.specs.Triples.{Triple, nothing, times, is_p, IsElement, claim_by, triple_of, IsRuled};
ghost use Rattle.dominance.specs.Tested.{State, AreTested};
ghost use Rattle.dominance.specs.Quotient.{ArePredicting, HasRulers, HasAllRulers};
ghost use Rattle.dominance.specs.Finite.{Extent, is_listed, AreTestedBelow, HasSmallWins};

mod triple_words;

pub use triple_words::triples_are_presented;

/// The elements of U are a commutative monoid; the triple of a sum of positions is the product of theirs, and
/// its lead isn't 0 exactly where one heap rules the others.
pub fn triples_are_a_monoid()
    ensures closed { (u v : Triple) → IsElement u → IsElement v → IsElement (times u v) }
    ensures identity { (u : Triple) → times nothing u ≡ u }
    ensures commutes { (u v : Triple) → times u v ≡ times v u }
    ensures associates { (u v w : Triple) → times (times u v) w ≡ times u (times v w) }
    ensures sums { (label : ℕ → Triple) (X Y : List ℕ)
        → triple_of label (X ++ Y) ≡ times (triple_of label X) (triple_of label Y) }
    ensures rulers { (label : ℕ → Triple) (X : List ℕ)
        → (0 < (triple_of label X).lead) ↔ IsRuled label X }
{}

/// What is tested of triples, of each heap by itself, makes the P-portion right of each position of the whole
/// game: of any number of heaps of any size.
pub fn tested_triples_predict()
    ensures { (code : List ℕ) (listed : List ℕ → Bool) (label : ℕ → Triple)
        (kinds kept : List State)
        → AreTested code listed label kinds kept
        → (X : List ℕ) → IsPosition IsHeap X
        → IsP code X ↔ (is_p (triple_of label X) ≡ true) }
{}

/// What is tested of finitely many heaps, beside finitely many triples each, is enough, if the triples repeat
/// with a period up to an even rise: so they predict the outcome of each position of the whole game. If a move
/// wins, one wins that leaves at most one heap from start on. Of octal and hexadecimal codes.
pub fn finitely_many_tests_are_enough()
    ensures tests { (code : List ℕ) (label : ℕ → Triple) (kinds kept : List State) (e : Extent)
        → AreTestedBelow code label kinds kept e
        → AreTested code (is_listed e.start) label kinds kept }
    ensures predict { (code : List ℕ) (label : ℕ → Triple) (kinds kept : List State) (e : Extent)
        → AreTestedBelow code label kinds kept e
        → ArePredicting code label }
    ensures wins { (code : List ℕ) (label : ℕ → Triple) (kinds kept : List State) (e : Extent)
        → AreTestedBelow code label kinds kept e
        → HasSmallWins code e.start }
{}

/// Where the triples are right of each position, and heaps tell all triples apart, the triples are the misère
/// quotient: positions are indistinguishable exactly if their triples are equal. It is infinite, and no finite
/// claim represents the game. Where heaps make all elements of U, these represent it.
pub fn triples_are_the_quotient()
    ensures indistinguishable { (code : List ℕ) (label : ℕ → Triple)
        → ArePredicting code label
        → HasRulers label
        → (X Y : List ℕ) → IsPosition IsHeap X → IsPosition IsHeap Y
        → Indistinguishable IsHeap code X Y ↔ (triple_of label X ≡ triple_of label Y) }
    ensures infinite { (code : List ℕ) (label : ℕ → Triple)
        → ArePredicting code label
        → HasRulers label
        → IsInfinite IsHeap code }
    ensures no_claim { (code : List ℕ) (label : ℕ → Triple)
        → ArePredicting code label
        → HasRulers label
        → (d : Claim) → Represents IsHeap code d → ⊥ }
    ensures represents { (code : List ℕ) (label : ℕ → Triple)
        → ArePredicting code label
        → HasAllRulers label
        → RepresentsBy IsElement IsHeap code (claim_by label) }
{}
