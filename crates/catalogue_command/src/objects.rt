//! The objects of a table in JSON.
ghost use Rattle.std.specs.Prelude.{◌≡◌, IfOk, string_bytes};
ghost use Rattle.catalogue_command.specs.Tables.{AreTexts, IsTableArray, IsNextObject, IsObject, full_object, last_members, object, object_front, object_period, object_sizes, part_object};

use crate::counting::heap_elements;
use allocation::Memory;
use certificate::Cert;
use checker::Certified;
use descriptions::tame_index;
use std::alloc::Global;

/// The code and the kind of an entry, with which its object begins.
fn object_front(alloc: Global, cert: &Cert, kind: &str) -> Result<String, Memory>
    ensures { IfOk result (λ t. string_bytes t ≡ object_front kind.now cert.now) }
{
    let code = cert.code().text(alloc)?;
    let text = format!(in alloc; "{{\"code\":\"{code}\",\"kind\":\"{kind}\"")?;
    Ok(text)
}

/// How many elements the quotient of an entry and its portion have.
fn object_sizes(alloc: Global, cert: &Cert) -> Result<String, Memory>
    ensures { IfOk result (λ t. string_bytes t ≡ object_sizes cert.now) }
{
    let (order, portion) = (cert.order(), cert.portion().len());
    let text = format!(in alloc; ",\"order\":{order},\"portion\":{portion}")?;
    Ok(text)
}

/// The start and the period of an entry for a whole game.
fn object_period(alloc: Global, cert: &Cert) -> Result<String, Memory>
    ensures { IfOk result (λ t. string_bytes t ≡ object_period cert.now) }
{
    let (start, period) = (cert.start(), cert.period());
    let text = format!(in alloc; ",\"start\":{start},\"period\":{period}")?;
    Ok(text)
}

/// The object of an entry for a whole game.
fn full_object(alloc: Global, cert: &Cert, last: &str) -> Result<String, Memory>
    ensures { IfOk result (λ t. string_bytes t ≡ full_object cert.now last.now) }
{
    let front = object_front(alloc, cert, "full")?;
    let sizes = object_sizes(alloc, cert)?;
    let period = object_period(alloc, cert)?;
    let text = format!(in alloc; "{front}{sizes}{period}{last}")?;
    Ok(text)
}

/// The object of an entry for a part of one.
fn part_object(alloc: Global, cert: &Cert, last: &str) -> Result<String, Memory>
    ensures { IfOk result (λ t. string_bytes t ≡ part_object cert.now last.now) }
{
    let front = object_front(alloc, cert, "part")?;
    let sizes = object_sizes(alloc, cert)?;
    let heaps = cert.heaps();
    let text = format!(in alloc; "{front},\"heaps\":{heaps}{sizes}{last}")?;
    Ok(text)
}

/// The object of an entry with these last members.
fn object_with(alloc: Global, cert: &Cert, last: &str) -> Result<String, Memory>
    ensures { IfOk result (λ t. string_bytes t ≡ object cert.now last.now) }
{
    if cert.heaps() == 0 {
        full_object(alloc, cert, last)
    } else {
        part_object(alloc, cert, last)
    }
}

/// The last members: which of Nim's quotients it is, if one, and how many elements heaps have.
fn last_members(alloc: Global, tame: Option<u16>, count: usize) -> Result<String, Memory>
    ensures { IfOk result (λ t. string_bytes t ≡ last_members tame count) }
{
    let text = match tame {
        Some(n) => format!(in alloc; ",\"tame\":{n},\"heap_elements\":{count}}}")?,
        None => format!(in alloc; ",\"tame\":null,\"heap_elements\":{count}}}")?,
    };
    Ok(text)
}

/// The object of an entry.
fn object(alloc: Global, certified: &Certified) -> Result<String, Memory>
    ensures { IfOk result (λ t. IsObject certified.now (string_bytes t)) }
{
    let tame = tame_index(alloc, certified)?;
    let count = heap_elements(certified);
    let last = last_members(alloc, tame, count)?;
    object_with(alloc, certified.cert(), last.as_str())
}

/// The object of an entry behind another.
fn next_object(alloc: Global, certified: &Certified) -> Result<String, Memory>
    ensures { IfOk result (λ t. IsNextObject certified.now (string_bytes t)) }
{
    let object = object(alloc, certified)?;
    let text = format!(in alloc; ",\n{object}")?;
    Ok(text)
}

/// The objects of entries behind another.
fn next_objects(alloc: Global, entries: &[Certified]) -> Result<String, Memory>
    ensures { IfOk result (λ t. AreTexts IsNextObject entries.now (string_bytes t)) }
{
    let mut text = String::new(alloc);
    for certified in entries {
        let line = next_object(alloc, certified)?;
        text.push_str(line.as_str())?;
    }
    Ok(text)
}

/// An array of the objects of all entries.
pub(crate) fn array_text(alloc: Global, entries: &[Certified]) -> Result<String, Memory>
    ensures { IfOk result (λ t. IsTableArray entries.now (string_bytes t)) }
{
    match entries {
        [] => Ok(String::from_str(alloc, "[]\n")?),
        [first, rest @ ..] => {
            let first = object(alloc, first)?;
            let rest = next_objects(alloc, rest)?;
            let text = format!(in alloc; "[{first}{rest}]\n")?;
            Ok(text)
        }
    }
}
