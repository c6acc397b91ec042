//! The lines of a monoid.
ghost use Rattle.std.specs.Prelude.{◌≡◌, ◌<◌, IfOk};
ghost use Rattle.std.specs.String.{string_bytes};
ghost use Rattle.description_commands.specs.Presented.{element_word, generator_word, generators_line, monoid_lines, row_line};

use monoid_table::Table;
use presentations::{Named, NamedElement};
use std::alloc::{AllocError, Global};

/// A letter and its element.
fn generator_text(alloc: Global, generator: NamedElement) -> Result<String, AllocError>
    ensures { IfOk result (λ t. string_bytes t ≡ generator_word generator) }
{
    let (letter, element) = (generator.letter as char, generator.element);
    let text = format!(in alloc; " {letter}={element}")?;
    Ok(text)
}

/// The line of the generators.
fn generators_text(alloc: Global, generators: &[NamedElement]) -> Result<String, AllocError>
    ensures { IfOk result (λ t. string_bytes t ≡ generators_line generators.now) }
{
    let mut text = format!(in alloc; "generators")?;
    for generator in generators {
        let word = generator_text(alloc, *generator)?;
        text.push_str(word.as_str())?;
    }
    text.push_str("\n")?;
    Ok(text)
}

/// An element of a row.
fn element_text(alloc: Global, element: u16) -> Result<String, AllocError>
    ensures { IfOk result (λ t. string_bytes t ≡ element_word element) }
{
    let text = format!(in alloc; " {element}")?;
    Ok(text)
}

/// The line of a row.
fn row_text(alloc: Global, table: &Table, x: u16) -> Result<String, AllocError>
    requires { x < table.now.order }
    ensures { IfOk result (λ t. string_bytes t ≡ row_line table.now x) }
{
    let mut text = format!(in alloc; "row")?;
    for y in 0..table.order() {
        let word = element_text(alloc, table.times(x, y))?;
        text.push_str(word.as_str())?;
    }
    text.push_str("\n")?;
    Ok(text)
}

/// The order, the elements of the generators, and the rows.
pub(crate) fn monoid_text(alloc: Global, named: &Named) -> Result<String, AllocError>
    ensures { IfOk result
        (λ t. string_bytes t ≡ monoid_lines named.now.table named.now.generators.items) }
{
    let order = named.table.order();
    let generators = generators_text(alloc, &named.generators)?;
    let line = generators.as_str();
    let mut text = format!(in alloc; "order {order}\n{line}")?;
    for x in 0..order {
        let row = row_text(alloc, &named.table, x)?;
        text.push_str(row.as_str())?;
    }
    Ok(text)
}
