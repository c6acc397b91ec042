//! The description of a quotient that was opened.
ghost use Rattle.std.specs.Prelude.{◌≡◌, IfOk, IfErr};
ghost use Rattle.solve_library.specs.Asked.{IsOpenedText, IsOpenedUntold};

use crate::causes::Untold;
use crate::describing::text_by;
use crate::handing::Told;
use opened::Opened;
use std::alloc::Global;

/// The text that is asked for of what is opened.
pub(crate) fn opened_text(
    alloc: Global,
    opened: &mut Opened,
    output: u32,
    form: u32,
) -> Result<Told, Untold>
    ensures told { IfOk result (λ it. (it.status ≡ 0)
        × IsOpenedText opened.old.handle.value output form it.text.items) }
    ensures why { IfErr result (IsOpenedUntold opened.old.handle.value output form) }
    ensures same { opened.new.handle.value ≡ opened.old.handle.value }
{
    let Some(quotient) = opened.take(alloc) else {
        return Err(Untold::NotOpen);
    };
    let text = text_by(alloc, quotient.certified(), output, form);
    opened.put(alloc, quotient);
    text
}
