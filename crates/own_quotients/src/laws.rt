//! Reading from left to right is spelling.
ghost use Rattle.std.specs.Prelude.{◌≡◌, ℕ, List, [], Some};
ghost use Rattle.own_quotients.specs.Tables.{Own, IsOwn};
ghost use Rattle.own_quotients.specs.Texts.{SpellsTable};
ghost use Rattle.own_quotients.specs.Reading.{own_at};

/// What is read from left to right to the end is spelled so, and what is spelled so is read.
pub fn reading_tables_is_spelling()
    ensures own { (b : List ℕ) (o : Own) (rest : List ℕ) → own_at b ≡ Some (o, rest) → IsOwn o }
    ensures takes { (b : List ℕ) (o : Own) → own_at b ≡ Some (o, []) → SpellsTable b o }
    ensures again { (b : List ℕ) (o : Own) → SpellsTable b o → own_at b ≡ Some (o, []) }
{}
