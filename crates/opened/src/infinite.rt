//! One owner of an accepted text of an infinite quotient.
ghost use Rattle.std.specs.Prelude.{◌≡◌, IfOk};

use crate::text::AcceptedText;
use allocation::Memory;
use std::alloc::Global;
use std::marker::Model;
use std::sync::Arc;

/// One owner of an accepted text. The last that is dropped frees it.
#[derive(Drop)]
pub struct InfiniteQuotient {
    shown: Arc<AcceptedText>,
}

impl Model for InfiniteQuotient {
    ghost use Rattle.opened.specs.declared.text.AcceptedText.{AcceptedText};

    ghost Value = { AcceptedText };

    ghost view = { λ q. q.shown.value };
}

impl InfiniteQuotient {
    /// The first owner of a text.
    pub fn new(alloc: Global, shown: AcceptedText) -> Result<InfiniteQuotient, Memory>
        ensures { IfOk result (λ q. q ≡ shown) }
    {
        let shown = Arc::new(alloc, shown)?;
        Ok(InfiniteQuotient { shown })
    }

    /// The text.
    pub fn shown(&self) -> &AcceptedText
        ensures { result.now ≡ self.now }
    {
        &self.shown
    }

    /// One more owner of the same text.
    pub fn shared(&self) -> Result<InfiniteQuotient, Memory>
        ensures { IfOk result (λ q. q ≡ self.now) }
    {
        let shown = Arc::try_clone(&self.shown)?;
        Ok(InfiniteQuotient { shown })
    }
}
