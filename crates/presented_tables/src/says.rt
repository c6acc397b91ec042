//! What a presentation says of positions.
ghost use Rattle.std.specs.Prelude.{◌≡◌, IfSome};
ghost use Rattle.presentations.specs.declared.TheConstants.{LETTERS};
ghost use Rattle.normal_forms.specs.Forms.{word_of};
ghost use Rattle.presented_claims.specs.Claims.{heap_word};
ghost use Rattle.presented_tables.specs.Saying.{AreSaidBy, in_any_order};

use crate::portion::in_portion;
use crate::presentation::Presented;
use crate::products::product;
use normal_forms::Exponents;
use outcome_rule::SaysOutcomes;
use presentations::LETTERS;
use std::alloc::Allocator;

/// The product of the heaps' words, if all have one and there is room.
fn word_of_heaps<A: Allocator>(p: &Presented<A>, heaps: &[u64]) -> Option<Exponents>
    ensures { IfSome result (λ w. w ≡ word_of LETTERS (heap_word p.now) heaps.now) }
{
    let Some((heap, others)) = heaps.split_first() else {
        return Some([0; LETTERS]);
    };
    product(&p.word(*heap)?, &word_of_heaps(p, others)?)
}

/// A position is said to be P if the normal form of its heaps' words, multiplied, is in the portion.
impl<A: Allocator> SaysOutcomes for Presented<A> {
    ghost are_said = { AreSaidBy };

    fn is_said_p(&self, heaps: &[u64]) -> Option<bool> {
        let word = word_of_heaps(self, heaps)?;
        let form = self.basis.normal_form(&word)?;
        Some(in_portion(self, &form))
    }

    ghost in_any_order = { in_any_order };
}
