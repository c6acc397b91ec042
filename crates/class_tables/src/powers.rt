//! Letters each power of which is standard.
ghost use Rattle.std.specs.Prelude.{IsTrue, All};
ghost use Rattle.class_tables.specs.Powers.{HasOther};

use normal_forms::Rule;
use presentations::LETTERS;

/// Whether the left word has some letter besides letter `i`.
fn is_free_of(rule: &Rule, i: usize) -> bool
    ensures { IsTrue result → HasOther i rule.now.0 }
{
    for j in 0..LETTERS {
        if j != i && rule.left[j] > 0 {
            return true;
        }
    }
    false
}

/// Whether no left word is seen to be a power of letter `i`: then each power of it is standard.
pub fn is_unbounded(rules: &[Rule], i: usize) -> bool
    ensures { IsTrue result → All (λ r. HasOther i r.0) rules.now }
{
    for k in 0..rules.len() {
        if !is_free_of(&rules[k], i) {
            return false;
        }
    }
    true
}
