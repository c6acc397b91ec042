//! The structure of a quotient, and its multiplication table for GAP.
ghost use Rattle.std.specs.Prelude.{◌≡◌, IfOk, None, option_map};
ghost use Rattle.description_commands.specs.Described.{TellsStructureBy, TellsTable};

use crate::describing::{alone, bound_line, refuse};
use crate::searches::Texts;
use allocation::Memory;
use answers::Certified;
use command_results::{Noted, Said};
use descriptions::{Undescribed, table_text};
use std::alloc::Global;

/// The idempotents of the quotient, with what belongs to each.
pub fn structured<T: Texts>(by: &T, alloc: Global, certified: &Certified) -> Result<Noted, Memory>
    ensures { IfOk result
        (λ n. TellsStructureBy T.has_met certified.now n.said.text.items n.said.succeeds
        × (option_map (λ t. t.now) n.note ≡ None)) }
{
    match by.structure(alloc, certified) {
        Ok(text) => Ok(alone(Said::done(text))),
        Err(Undescribed::Bound(met)) => refuse(alloc, bound_line(met.bound())),
        Err(Undescribed::Memory) => Err(Memory),
    }
}

/// The multiplication table of the quotient for GAP.
pub fn tabled(alloc: Global, certified: &Certified) -> Result<Noted, Memory>
    ensures { IfOk result (λ n. TellsTable certified.now n.said.text.items n.said.succeeds
        × (option_map (λ t. t.now) n.note ≡ None)) }
{
    let text = table_text(alloc, certified)?;
    Ok(alone(Said::done(text)))
}
