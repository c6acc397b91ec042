//! Laws of answers.
ghost use Rattle.std.specs.Prelude.{◌≡◌, ℕ, List};
ghost use Rattle.misere_theory.specs.Certificates.{Certificate};
ghost use Rattle.misere_theory.specs.Games.{Move};
ghost use Rattle.misere_theory.specs.Plays.{IsHanded};
ghost use Rattle.player.specs.Answers.{IsRightAnswer, SpeaksOf};
ghost use Rattle.player.specs.declared.answering.Answer.{Answer};

/// A position has one right answer.
pub fn right_answers_are_one()
    ensures { (code X : List ℕ) (a b : Answer) → IsRightAnswer code X a → IsRightAnswer code X b
        → a ≡ b }
{}

/// A play never leaves the positions of which a certificate speaks: each move from one leads to one,
/// and so each position that is handed over in a play from one is one.
pub fn plays_stay_inside()
    ensures moves { (c : Certificate) (X Y : List ℕ) → SpeaksOf c X → Move c.code X Y → SpeaksOf c Y }
    ensures handed { (c : Certificate) (X Z : List ℕ) → SpeaksOf c X → IsHanded c.code X Z
        → SpeaksOf c Z }
{}
