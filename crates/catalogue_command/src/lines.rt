//! The lines of a catalogue.
ghost use Rattle.std.specs.Prelude.{◌≡◌, ◌++◌, IfOk, codes, decimal, string_bytes};
ghost use Rattle.std.specs.List.{flat_map};
ghost use Rattle.verdict_texts.specs.Lines.{no_line};
ghost use Rattle.catalogue_command.specs.Lines.{IsFaultLine, added_line, entry_line, fault_line, full_line, migrated_line, partial_line, refused_entry, salvage_lines};

use allocation::Memory;
use catalogue::{Catalogue, LoadFault};
use certificate::Cert;
use checker::Certified;
use octal_code::Code;
use std::alloc::Global;

/// The line of an entry for a whole game.
fn full_line(alloc: Global, cert: &Cert) -> Result<String, Memory>
    ensures { IfOk result (λ t. string_bytes t ≡ full_line cert.now) }
{
    let code = cert.code().text(alloc)?;
    let (order, start, period) = (cert.order(), cert.start(), cert.period());
    let text = format!(in alloc; "{code} order {order} start {start} period {period}\n")?;
    Ok(text)
}

/// The line of an entry for a part of one.
fn partial_line(alloc: Global, cert: &Cert) -> Result<String, Memory>
    ensures { IfOk result (λ t. string_bytes t ≡ partial_line cert.now) }
{
    let code = cert.code().text(alloc)?;
    let (order, last) = (cert.order(), cert.heaps());
    let text = format!(in alloc; "{code} order {order} heaps {last}\n")?;
    Ok(text)
}

/// The line of an entry.
fn entry_line(alloc: Global, cert: &Cert) -> Result<String, Memory>
    ensures { IfOk result (λ t. string_bytes t ≡ entry_line cert.now) }
{
    if cert.heaps() == 0 {
        full_line(alloc, cert)
    } else {
        partial_line(alloc, cert)
    }
}

/// The lines of all entries.
pub(crate) fn entry_lines(alloc: Global, entries: &[Certified]) -> Result<String, Memory>
    ensures { IfOk result (λ t. string_bytes t ≡ flat_map entry_line entries.now) }
{
    let mut text = String::new(alloc);
    for certified in entries {
        let line = entry_line(alloc, certified.cert())?;
        text.push_str(line.as_str())?;
    }
    Ok(text)
}

/// The number and the name of a refusal.
fn no_line(alloc: Global, number: u8, name: &str) -> Result<String, Memory>
    ensures { IfOk result (λ t. string_bytes t ≡ no_line number name.now) }
{
    let text = format!(in alloc; "no {number} {name}\n")?;
    Ok(text)
}

/// The line of an entry refused under this number and name.
fn numbered_line(alloc: Global, place: usize, number: u8, name: &str) -> Result<String, Memory>
    ensures { IfOk result (λ t. string_bytes t ≡ refused_entry place number name.now) }
{
    let no = no_line(alloc, number, name)?;
    let text = format!(in alloc; "refused 3 Entry {place} {no}")?;
    Ok(text)
}

/// This line.
pub(crate) fn line(alloc: Global, text: &str) -> Result<String, Memory>
    ensures { IfOk result (λ t. string_bytes t ≡ text.now) }
{
    let line = String::from_str(alloc, text)?;
    Ok(line)
}

/// The line of a fault of which only the place of the entry is told.
fn placed_line(alloc: Global, fault: &str, place: usize) -> Result<String, Memory>
    ensures { IfOk result (λ t. string_bytes t ≡ codes "refused " ++ fault.now ++ codes " "
        ++ decimal place ++ codes "\n") }
{
    let text = format!(in alloc; "refused {fault} {place}\n")?;
    Ok(text)
}

/// The line of a fault. Want of memory has none, and is handed on.
pub(crate) fn fault_line(alloc: Global, fault: &LoadFault) -> Result<String, Memory>
    ensures { IfOk result (λ t. IsFaultLine fault.now (string_bytes t)) }
{
    match fault {
        LoadFault::Json => line(alloc, "refused 1 Json\n"),
        LoadFault::Shape => line(alloc, "refused 2 Shape\n"),
        LoadFault::Entry(place, refusal) => numbered_line(
            alloc,
            *place,
            refusal.number(),
            refusal.name(),
        ),
        LoadFault::Code(place) => placed_line(alloc, "4 Code", *place),
        LoadFault::Twice(place) => placed_line(alloc, "5 Twice", *place),
        LoadFault::Heaps(place) => placed_line(alloc, "6 Heaps", *place),
        LoadFault::Memory => Err(Memory),
    }
}

/// The line of the fault that ends an action.
pub(crate) fn last_line(alloc: Global, fault: LoadFault) -> Result<String, Memory>
    ensures { IfOk result (λ t. IsFaultLine fault (string_bytes t)) }
{
    fault_line(alloc, &fault)
}

/// The lines of all faults.
fn fault_lines(alloc: Global, faults: &[LoadFault]) -> Result<String, Memory>
    ensures { IfOk result (λ t. string_bytes t ≡ flat_map fault_line faults.now) }
{
    let mut text = String::new(alloc);
    for fault in faults {
        let line = fault_line(alloc, fault)?;
        text.push_str(line.as_str())?;
    }
    Ok(text)
}

/// The lines of a salvage: its faults, and how many entries are kept.
pub(crate) fn salvage_lines(
    alloc: Global,
    catalogue: &Catalogue,
    faults: &[LoadFault],
) -> Result<String, Memory>
    ensures { IfOk result (λ t. string_bytes t ≡ salvage_lines catalogue.now faults.now) }
{
    let faults = fault_lines(alloc, faults)?;
    let kept = catalogue.entries().len();
    let text = format!(in alloc; "{faults}kept {kept}\n")?;
    Ok(text)
}

/// The line of an entry that was added.
pub(crate) fn added_line(alloc: Global, code: &Code) -> Result<String, Memory>
    ensures { IfOk result (λ t. string_bytes t ≡ added_line code.now) }
{
    let code = code.text(alloc)?;
    let text = format!(in alloc; "added {code}\n")?;
    Ok(text)
}

/// The line of a migration: how many entries were written anew.
pub(crate) fn migrated_line(alloc: Global, catalogue: &Catalogue) -> Result<String, Memory>
    ensures { IfOk result (λ t. string_bytes t ≡ migrated_line catalogue.now) }
{
    let count = catalogue.entries().len();
    let text = format!(in alloc; "migrated {count}\n")?;
    Ok(text)
}
