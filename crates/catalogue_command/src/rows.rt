//! The rows of a table.
ghost use Rattle.std.specs.Prelude.{◌≡◌, IfOk, string_bytes};
ghost use Rattle.catalogue_command.specs.Tables.{AreTexts, IsRow, IsTableLines, full_numbers, full_row, last_fields, part_numbers, part_row, row};

use crate::counting::heap_elements;
use allocation::Memory;
use certificate::Cert;
use checker::Certified;
use descriptions::tame_index;
use std::alloc::Global;

/// The numbers of an entry for a whole game.
fn full_numbers(alloc: Global, cert: &Cert) -> Result<String, Memory>
    ensures { IfOk result (λ t. string_bytes t ≡ full_numbers cert.now) }
{
    let (order, portion) = (cert.order(), cert.portion().len());
    let (start, period) = (cert.start(), cert.period());
    let text = format!(in alloc; "{order}\t{portion}\t{start}\t{period}")?;
    Ok(text)
}

/// The row of an entry for a whole game.
fn full_row(alloc: Global, cert: &Cert, last: &str) -> Result<String, Memory>
    ensures { IfOk result (λ t. string_bytes t ≡ full_row cert.now last.now) }
{
    let code = cert.code().text(alloc)?;
    let numbers = full_numbers(alloc, cert)?;
    let text = format!(in alloc; "{code}\tfull\t\t{numbers}\t{last}\n")?;
    Ok(text)
}

/// The numbers of an entry for a part of one.
fn part_numbers(alloc: Global, cert: &Cert) -> Result<String, Memory>
    ensures { IfOk result (λ t. string_bytes t ≡ part_numbers cert.now) }
{
    let (heaps, order, portion) = (cert.heaps(), cert.order(), cert.portion().len());
    let text = format!(in alloc; "{heaps}\t{order}\t{portion}")?;
    Ok(text)
}

/// The row of an entry for a part of one.
fn part_row(alloc: Global, cert: &Cert, last: &str) -> Result<String, Memory>
    ensures { IfOk result (λ t. string_bytes t ≡ part_row cert.now last.now) }
{
    let code = cert.code().text(alloc)?;
    let numbers = part_numbers(alloc, cert)?;
    let text = format!(in alloc; "{code}\tpart\t{numbers}\t\t\t{last}\n")?;
    Ok(text)
}

/// The row of an entry with these last fields.
fn row_with(alloc: Global, cert: &Cert, last: &str) -> Result<String, Memory>
    ensures { IfOk result (λ t. string_bytes t ≡ row cert.now last.now) }
{
    if cert.heaps() == 0 {
        full_row(alloc, cert, last)
    } else {
        part_row(alloc, cert, last)
    }
}

/// The last fields: which of Nim's quotients it is, if one, and how many elements heaps have.
fn last_fields(alloc: Global, tame: Option<u16>, count: usize) -> Result<String, Memory>
    ensures { IfOk result (λ t. string_bytes t ≡ last_fields tame count) }
{
    let text = match tame {
        Some(n) => format!(in alloc; "{n}\t{count}")?,
        None => format!(in alloc; "\t{count}")?,
    };
    Ok(text)
}

/// The row of an entry.
fn row(alloc: Global, certified: &Certified) -> Result<String, Memory>
    ensures { IfOk result (λ t. IsRow certified.now (string_bytes t)) }
{
    let tame = tame_index(alloc, certified)?;
    let count = heap_elements(certified);
    let last = last_fields(alloc, tame, count)?;
    row_with(alloc, certified.cert(), last.as_str())
}

/// The rows of all entries.
fn rows(alloc: Global, entries: &[Certified]) -> Result<String, Memory>
    ensures { IfOk result (λ t. AreTexts IsRow entries.now (string_bytes t)) }
{
    let mut text = String::new(alloc);
    for certified in entries {
        let line = row(alloc, certified)?;
        text.push_str(line.as_str())?;
    }
    Ok(text)
}

/// The head of a table and the rows of all entries.
pub(crate) fn rows_text(alloc: Global, entries: &[Certified]) -> Result<String, Memory>
    ensures { IfOk result (λ t. IsTableLines entries.now (string_bytes t)) }
{
    let rows = rows(alloc, entries)?;
    let head = "code\tkind\theaps\torder\tportion\tstart\tperiod\ttame\theap_elements";
    let text = format!(in alloc; "{head}\n{rows}")?;
    Ok(text)
}
