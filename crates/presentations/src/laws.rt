//! What least congruences and the classes of a box are.
ghost use Rattle.std.specs.Prelude.{◌≡◌, ◌↔◌, ◌<◌, ℕ, List, Contains, length, slice_index};
ghost use Rattle.presentations.specs.declared.axes.Axis.{Axis};
ghost use Rattle.presentations.specs.declared.read.Relation.{Relation};
ghost use Rattle.presentations.specs.Congruences.{IsCongruence, Related};
ghost use Rattle.presentations.specs.Boxes.{place_of};
ghost use Rattle.presentations.specs.Merging.{pairs_in, AreClasses};
ghost use Rattle.presentations.specs.Numberings.{IsNumbering, AreRows};
ghost use Rattle.monoid_table.specs.Grids.{IsTable};

/// A type that stands for a relation between vectors, which proofs alone see.
pub trait VectorRelation {
    ghost relates: { List ℕ → List ℕ → Type 0 };
}

/// What relations give is a congruence that holds them, and every congruence that holds them has
/// it, decidable or not: it is the intersection of all of them.
pub fn related_is_least<R: VectorRelation>()
    ensures congruence { (n : ℕ) (pairs : List (List ℕ × List ℕ))
        → IsCongruence n (Related n pairs) }
    ensures holds { (n : ℕ) (pairs : List (List ℕ × List ℕ)) (r : List ℕ × List ℕ)
        → Contains pairs r → Related n pairs r.0 r.1 }
    ensures least { (n : ℕ) (pairs : List (List ℕ × List ℕ))
        → IsCongruence n R.relates
        → ((r : List ℕ × List ℕ) → Contains pairs r → R.relates r.0 r.1)
        → (u v : List ℕ) → Related n pairs u v → R.relates u v }
{}

/// Vectors are in one class exactly where the least congruence relates them.
pub fn classes_are_exact()
    ensures { (axes : List Axis) (relations : List Relation) (classes : List ℕ)
        → AreClasses axes relations classes
        → (u v : List ℕ) → length u ≡ length axes → length v ≡ length axes
        → (slice_index classes (place_of axes u) ≡ slice_index classes (place_of axes v))
        ↔ Related (length axes) (pairs_in axes relations) u v }
{}

/// Numbered classes with their rows are a monoid.
pub fn rows_are_a_table()
    ensures { (axes : List Axis) (relations : List Relation)
        (classes firsts keys products rows : List ℕ)
        → AreClasses axes relations classes
        → IsNumbering axes classes firsts keys products
        → AreRows (length axes) (length firsts) keys products rows
        → IsTable (length firsts) rows }
{}
