//! The monoid U of triples by generators and relations: the presentation of the misère quotient of 0.26 and of
//! other whole games. Definitions, and a law. Nothing here runs.
ghost use Rattle.std.specs.Prelude.{◌≡◌, ◌↔◌, List};
ghost use Rattle.dominance.specs.Triples.{Triple, IsElement};
ghost use Rattle.dominance.specs.Words.{Letter, value, IsSame};

/// The generators a, b, h_0, h_1, .. with the relations aa = 1, h_i h_j = h_i b^(j+2) for j up to i, and
/// h_i b^(i+1) = b^(2i+3) are U, as a commutative monoid: words have the same triple exactly if the relations
/// make them the same; each word's triple is an element, and each element is the triple of some word.
pub fn triples_are_presented()
    ensures same { (v w : List Letter) → IsSame v w ↔ (value v ≡ value w) }
    ensures elements { (w : List Letter) → IsElement (value w) }
    ensures reached { (u : Triple) → IsElement u → (w : List Letter) × (value w ≡ u) }
{}
