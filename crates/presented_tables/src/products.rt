//! Products of words.
ghost use Rattle.std.specs.Prelude.{◌≡◌, IfSome};
ghost use Rattle.presentations.specs.declared.TheConstants.{LETTERS};
ghost use Rattle.presentations.specs.Vectors.{plus};

use normal_forms::Exponents;
use presentations::LETTERS;

/// The product of two words, if there is room.
pub fn product(v: &Exponents, w: &Exponents) -> Option<Exponents>
    ensures { IfSome result (λ p. p ≡ plus v.now w.now) }
{
    let mut sum = *v;
    for i in 0..LETTERS {
        sum[i] = v[i].checked_add(w[i])?;
    }
    Some(sum)
}
