//! The table of a presentation, or why there is none.
ghost use Rattle.std.specs.Prelude.{◌≡◌, ◌⊎◌, List, IfOk, IfErr, Err, false};
ghost use Rattle.misere_theory.specs.declared.TheConstants.{LARGEST_FIRST_ORDER};
ghost use Rattle.presentations.specs.declared.TheConstants.{LARGEST_BOX};
ghost use Rattle.presentations.specs.declared.read.Relation.{Relation};
ghost use Rattle.presentations.specs.Powers.{IsAboveLimit, IsUnbounded};
ghost use Rattle.presentations.specs.Tables.{HasMoreElements};
ghost use Rattle.presentations.specs.Text.{SpellsPresentation};
ghost use Rattle.command_results.specs.Stops.{IsMemory};
ghost use Rattle.description_commands.specs.Presented.{Presents, PresentsMonoid};

use crate::lines::monoid_text;
use command_results::{Said, Stop};
use presentations::{LARGEST_BOX, Named, PresFault, Presentation, table_of};
use std::alloc::Global;

/// The line that says why there is no table.
fn refuse(alloc: Global, line: &str) -> Result<Said, Stop<'static>>
    ensures no { IfOk result (λ s. (s.text.items ≡ line.now) × (s.succeeds ≡ false)) }
    ensures stops { IfErr result IsMemory }
{
    let text = line.as_bytes().to_vec(alloc)?;
    Ok(Said::no(text))
}

/// The table of the relations that the text spells.
fn monoid_of(alloc: Global, text: &str) -> Result<Named, PresFault>
    ensures table { IfOk result (λ n. PresentsMonoid text.now n.table n.generators.items) }
    ensures text { (result ≡ Err PresFault.Text) → (q : List Relation)
        → SpellsPresentation text.now q → ⊥ }
    ensures unbounded { (result ≡ Err PresFault.Unbounded) → (relations : List Relation)
        × SpellsPresentation text.now relations × IsUnbounded relations }
    ensures limit { (result ≡ Err PresFault.Limit) → (relations : List Relation)
        × SpellsPresentation text.now relations × (IsUnbounded relations → ⊥)
        × (IsAboveLimit relations LARGEST_BOX
        ⊎ HasMoreElements relations LARGEST_FIRST_ORDER) }
{
    let presentation = Presentation::read(alloc, text.as_bytes())?;
    table_of(alloc, &presentation, LARGEST_BOX)
}

/// The monoid that the text presents, or why there is none.
pub fn present(alloc: Global, text: &str) -> Result<Said, Stop<'static>>
    ensures presents { IfOk result (λ s. Presents text.now s.text.items s.succeeds) }
    ensures stops { IfErr result IsMemory }
{
    match monoid_of(alloc, text) {
        Ok(named) => Ok(Said::done(monoid_text(alloc, &named)?)),
        Err(PresFault::Text) => refuse(alloc, "refused 1 Text\n"),
        Err(PresFault::Unbounded) => refuse(alloc, "refused 2 Unbounded\n"),
        Err(PresFault::Limit) => refuse(alloc, "refused 3 Limit\n"),
        Err(PresFault::Memory) => Err(Stop::Memory),
    }
}
