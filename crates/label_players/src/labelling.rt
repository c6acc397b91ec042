//! Normal forms are labels.
use crate::forms::{form_of, times};
use crate::portion::in_portion;
use crate::wide::WideWord;
use player::Labelling;
use positions::{Options, options_up_to};
use presented_checker::PresentedQuotient;
use std::alloc::Allocator;

/// Gives positions their normal forms.
#[derive(Drop)]
pub(crate) struct ByForms<'a, A: Allocator> {
    pub(crate) quotient: &'a PresentedQuotient<A>,
}

/// Of the splits and the triples of a heap only those are tried whose parts but the largest are heaps of the list.
impl<A: Allocator> Labelling for ByForms<'_, A> {
    type Label = WideWord;

    ghost use Rattle.presented_tables.specs.Tested.{HasWord};
    ghost use Rattle.label_players.specs.Forms.{IsFormIfShort};

    ghost code = { λ s. s.quotient.now.said.code };

    ghost heap = { λ s. HasWord s.quotient.now.said };

    ghost labels = { λ s. IsFormIfShort s.quotient.now.said };

    ghost most = { λ s _. s.quotient.now.said.heaps };

    fn label(&self, heaps: &[u64]) -> WideWord {
        form_of(self.quotient, heaps)
    }

    fn times(&self, x: WideWord, y: WideWord) -> WideWord {
        times(self.quotient.said(), &x, &y)
    }

    fn is_p(&self, x: WideWord) -> bool {
        in_portion(self.quotient.said(), &x)
    }

    fn tried(&self, n: u64) -> Options {
        options_up_to(self.quotient.code(), n, self.quotient.heaps() as u64)
    }

    fn are_enough(&self) {
        let _ = self.quotient.said();
    }
}
