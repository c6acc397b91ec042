//! Words, and relations that are used from left to right.
use presentations::LETTERS;
use std::marker::Model;

/// A word: the exponents of a to z.
pub type Exponents = [u16; LETTERS];

/// A relation, used from its left word to its right one.
#[derive(Clone, Copy)]
pub struct Rule {
    pub left: Exponents,
    pub right: Exponents,
}

impl Model for Rule {
    ghost use Rattle.std.specs.Prelude.{ℕ, List};

    ghost Value = { List ℕ × List ℕ };

    ghost view = { λ r. (r.left, r.right) };

    ghost inverse = { λ r. record { left = r.0; right = r.1 } };
}
