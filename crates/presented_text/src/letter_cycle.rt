//! A letter's cycle, in memory.
use std::marker::Model;

/// From which exponent of a letter on the portion repeats along it, and after how many.
#[derive(Clone, Copy)]
pub struct LetterCycle {
    pub start: u16,
    pub period: u16,
}

impl Model for LetterCycle {
    ghost use Rattle.std.specs.Prelude.{ℕ};

    ghost Value = { ℕ × ℕ };

    ghost view = { λ c. (c.start, c.period) };

    ghost inverse = { λ c. record { start = c.0; period = c.1 } };
}
