//! The lines of what isn't certified.
ghost use Rattle.std.specs.Prelude.{◌≡◌, IfOk};
ghost use Rattle.std.specs.String.{string_bytes};
ghost use Rattle.solve_command.specs.Certifies.{IsFaultText, text_line};

use allocation::Memory;
use checker::Refusal;
use own_quotients::CertifyFault;
use std::alloc::Global;
use verdict_texts::verdict_text;

/// The line of bytes that are no table.
pub(crate) fn no_table(alloc: Global, line: u64) -> Result<String, Memory>
    ensures { IfOk result (λ t. string_bytes t ≡ text_line line) }
{
    let text = format!(in alloc; "no 1 Text line {line}\n")?;
    Ok(text)
}

/// The line of two elements that have two products.
fn not_commuting(alloc: Global, x: u16, y: u16) -> Result<String, Memory>
    ensures { IfOk result (λ t. IsFaultText (CertifyFault.NotCommuting x y) (string_bytes t)) }
{
    let text = format!(in alloc; "no 2 Commutes {x} {y}\n")?;
    Ok(text)
}

/// The line of three elements that don't associate.
fn not_associating(alloc: Global, x: u16, y: u16, z: u16) -> Result<String, Memory>
    ensures { IfOk result (λ t. IsFaultText (CertifyFault.NotAssociating x y z) (string_bytes t)) }
{
    let text = format!(in alloc; "no 2 Associates {x} {y} {z}\n")?;
    Ok(text)
}

/// The line of an element that no position has.
fn unreached(alloc: Global, x: u16) -> Result<String, Memory>
    ensures { IfOk result (λ t. IsFaultText (CertifyFault.Unreached x) (string_bytes t)) }
{
    let text = format!(in alloc; "no 3 Unreached {x}\n")?;
    Ok(text)
}

/// The line of two elements that nothing takes apart.
fn alike(alloc: Global, x: u16, y: u16) -> Result<String, Memory>
    ensures { IfOk result (λ t. IsFaultText (CertifyFault.Alike x y) (string_bytes t)) }
{
    let text = format!(in alloc; "no 6 Apart {x} {y}\n")?;
    Ok(text)
}

/// The text of the check's refusal.
fn refused(alloc: Global, refusal: &Refusal) -> Result<String, Memory>
    ensures { IfOk result (λ t. IsFaultText (CertifyFault.Refused refusal.now) (string_bytes t)) }
{
    verdict_text(alloc, Err(refusal))
}

/// A line that is always the same.
fn line(alloc: Global, text: &str) -> Result<String, Memory>
    ensures { IfOk result (λ t. string_bytes t ≡ text.now) }
{
    let text = format!(in alloc; "{text}")?;
    Ok(text)
}

/// The text of a fault. Want of memory has none, and is handed on.
pub(crate) fn fault_text(alloc: Global, fault: &CertifyFault) -> Result<String, Memory>
    ensures { IfOk result (λ t. IsFaultText fault.now (string_bytes t)) }
{
    match fault {
        CertifyFault::NoIdentity => line(alloc, "no 2 Identity\n"),
        CertifyFault::NotCommuting(x, y) => not_commuting(alloc, *x, *y),
        CertifyFault::Unreached(x) => unreached(alloc, *x),
        CertifyFault::NotAssociating(x, y, z) => not_associating(alloc, *x, *y, *z),
        CertifyFault::Alike(x, y) => alike(alloc, *x, *y),
        CertifyFault::Refused(refusal) => refused(alloc, refusal),
        CertifyFault::NoDraft => line(alloc, "gave up 3 Draft\n"),
        CertifyFault::Memory => Err(Memory),
    }
}
