//! The weights of words.
ghost use Rattle.std.specs.Prelude.{◌≡◌, IfSome, slice_index};
ghost use Rattle.presented_claims.specs.Led.{weight_of};

use normal_forms::Exponents;
use presentations::LETTERS;

/// The weight of letter `i`, none if it has none.
fn weight_at(weights: &[u32], i: usize) -> u32
    ensures { result ≡ slice_index weights.now i }
{
    if i < weights.len() { weights[i] } else { 0 }
}

/// The sum of the word's letters, each as often as it has a weight, if there is room.
pub(crate) fn weight(weights: &[u32], word: &Exponents) -> Option<u64>
    ensures { IfSome result (λ v. v ≡ weight_of weights.now word.now) }
{
    let mut sum: u64 = 0;
    for i in 0..LETTERS {
        let more = (weight_at(weights, i) as u64).checked_mul(word[i] as u64)?;
        sum = sum.checked_add(more)?;
    }
    Some(sum)
}
