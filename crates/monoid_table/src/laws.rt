//! What holds of jobs and of products, for callers' proofs.
ghost use Rattle.std.specs.Prelude.{◌≡◌, ◌+◌, ◌-◌, ◌<◌, ◌≤◌, ◌↔◌, ℕ, min, true, false};
ghost use Rattle.misere_theory.specs.Quotients.{Monoid, LawFails};
ghost use Rattle.monoid_table.specs.Grids.{Grid, IsShaped, IsTable, entry};
ghost use Rattle.monoid_table.specs.Light.{StaysBelow, AssociatesAt, IsGenerator, HoldsAtPairs, GeneratorsAssociate};
ghost use Rattle.monoid_table.specs.Turns.{JobState, triples, triple_holds, is_over, turn, turns, fresh, passing, table_cost};

/// Turns do not depend on how they are cut, and each that is not after the end spends one unit.
pub fn turns_add_up()
    ensures cut { (m n : ℕ) (s : JobState) → turns (m + n) s ≡ turns n (turns m s) }
    ensures rows { (n : ℕ) (s : JobState) → (turns n s).grid ≡ s.grid }
    ensures ended { (n : ℕ) (s : JobState) → is_over s ≡ true → turns n s ≡ s }
    ensures spends { (n : ℕ) (s : JobState) → is_over (turns n s) ≡ false
        → (turns n s).spent ≡ s.spent + n }
    ensures at_most { (n : ℕ) (s : JobState) → (turns n s).spent ≤ s.spent + n }
{}

/// A turn that is taken is one unit, and where fewer units than were given are spent the job has
/// ended.
pub fn turns_are_paid()
    ensures next { (n : ℕ) (s : JobState) → turns (n + 1) s ≡ turn (turns n s) }
    ensures taken { (n : ℕ) (s : JobState) → turns ((turns n s).spent - s.spent) s ≡ turns n s }
    ensures not_over { (n k : ℕ) (s : JobState) → s.spent + k < (turns n s).spent
        → is_over (turns k s) ≡ false }
    ensures left { (n : ℕ) (s : JobState) → (turns n s).spent < s.spent + n
        → is_over (turns n s) ≡ true }
{}

/// What it takes to look at a table: a unit for each triple up to the first at which a law fails,
/// or up to the last.
pub fn tables_cost()
    ensures spent { (n : ℕ) (g : Grid) → (turns n (fresh g)).spent ≡ min n (table_cost g) }
    ensures some { (g : Grid) → IsShaped g.order g.entries → 0 < table_cost g }
    ensures over { (n : ℕ) (g : Grid) → (is_over (turns n (fresh g)) ≡ true) ↔ (table_cost g ≤ n) }
    ensures refused { (n : ℕ) (g : Grid) → ((turns n (fresh g)).refused ≡ true)
        ↔ (passing g < min n (triples g.order)) }
    ensures first { (i : ℕ) (g : Grid) → i < passing g → triple_holds g.order g.entries i ≡ true }
    ensures fails { (g : Grid) → passing g < triples g.order
        → triple_holds g.order g.entries (passing g) ≡ false }
    ensures table { (g : Grid) → IsShaped g.order g.entries → (passing g ≡ triples g.order)
        ↔ IsTable g.order g.entries }
    ensures no_table { (g : Grid) → IsShaped g.order g.entries → passing g < triples g.order
        → LawFails g.order (entry g.order g.entries) }
{}

/// The elements y with (xy)z = x(yz) for all x and z are closed under the product, so that it's
/// enough to look at generators: elements that aren't the product of two smaller ones. Light's
/// associativity test; Clifford and Preston, The Algebraic Theory of Semigroups, volume I, section
/// 1.2.
pub fn generators_are_enough()
    ensures closed { (order : ℕ) (times : ℕ → ℕ → ℕ)
        → StaysBelow order times
        → (v w : ℕ) → v < order → w < order
        → AssociatesAt order times v
        → AssociatesAt order times w
        → AssociatesAt order times (times v w) }
    ensures all { (order : ℕ) (times : ℕ → ℕ → ℕ)
        → StaysBelow order times
        → ((y : ℕ) → y < order → IsGenerator times y → AssociatesAt order times y)
        → (y : ℕ) → y < order → AssociatesAt order times y }
    ensures monoid { (order : ℕ) (times : ℕ → ℕ → ℕ)
        → 0 < order
        → StaysBelow order times
        → HoldsAtPairs order times
        → GeneratorsAssociate order times
        → Monoid order times }
{}
