//! Whether no other letters occur than those that are named.
ghost use Rattle.std.specs.Prelude.{IsTrue, All};
ghost use Rattle.normal_forms.specs.Forms.{IsIn, AreIn};

use normal_forms::{Exponents, Rule};
use presentations::LETTERS;

/// Whether the word has no letter but the first ones.
fn is_within(letters: usize, word: &Exponents) -> bool
    ensures { IsTrue result → IsIn letters word.now }
{
    for i in 0..LETTERS {
        if letters <= i && word[i] != 0 {
            return false;
        }
    }
    true
}

/// Whether both words of the relation are such.
fn is_rule_within(letters: usize, rule: &Rule) -> bool
    ensures { IsTrue result → IsIn letters rule.now.0 × IsIn letters rule.now.1 }
{
    is_within(letters, &rule.left) && is_within(letters, &rule.right)
}

/// Whether all words of relations are.
pub(crate) fn are_rules_within(letters: usize, rules: &[Rule]) -> bool
    ensures { IsTrue result → AreIn letters rules.now }
{
    rules.iter().all(|rule| is_rule_within(letters, rule))
}

/// Whether all words are.
pub(crate) fn are_words_within(letters: usize, words: &[Exponents]) -> bool
    ensures { IsTrue result → All (IsIn letters) words.now }
{
    words.iter().all(|word| is_within(letters, word))
}
