//! Lines of numbers, and the line of the portion, whose numbers rise.
ghost use Rattle.std.specs.Prelude.{◌≤◌, ◌<◌, IfOk};
ghost use Rattle.certificate_lines.specs.Given.{Gives};
ghost use Rattle.certificate_text.specs.Reading.{with_front, number_at, words_at, line_at, field_at, rows_at, rising_at, portion_at};

use crate::fault::TextFault;
use crate::reader::Reader;
use crate::stop::Wanted;
use std::alloc::Allocator;

/// Numbers below the limit, each behind a space, put behind those that were found before.
fn numbers<A: Allocator>(
    reader: &mut Reader<'_>,
    found: &mut Vec<u16, A>,
    count: usize,
    limit: u16,
) -> Result<(), TextFault>
    requires { 0 < limit }
    ensures { Gives (λ _. (found.new.items, reader.new)) result
        (with_front found.old.items (words_at (number_at limit) count reader.old)) }
{
    for _ in 0..count {
        reader.space()?;
        let x = reader.number(limit)?;
        found.push(x)?;
    }
    Ok(())
}

/// A line of numbers below the limit, put behind those that were found before.
fn line_behind<A: Allocator>(
    reader: &mut Reader<'_>,
    found: &mut Vec<u16, A>,
    name: &'static [u8],
    count: usize,
    limit: u16,
) -> Result<(), TextFault>
    requires { 0 < limit }
    ensures { Gives (λ _. (found.new.items, reader.new)) result
        (with_front found.old.items (line_at name.now (number_at limit) count reader.old)) }
{
    reader.fixed(name)?;
    numbers(reader, found, count, limit)?;
    reader.fixed(b"\n")?;
    Ok(())
}

/// A line of numbers below the limit.
pub fn line<A: Allocator>(
    alloc: A,
    reader: &mut Reader<'_>,
    name: &'static [u8],
    count: usize,
    limit: u16,
) -> Result<Vec<u16, A>, TextFault>
    requires { 0 < limit }
    ensures { Gives (λ x. (x.items, reader.new)) result
        (line_at name.now (number_at limit) count reader.old) }
{
    let mut found = Vec::new(alloc);
    line_behind(reader, &mut found, name, count, limit)?;
    Ok(found)
}

/// So many rows, one behind the other.
pub fn rows<A: Allocator>(
    alloc: A,
    reader: &mut Reader<'_>,
    order: u16,
    count: usize,
) -> Result<Vec<u16, A>, TextFault>
    requires { 0 < order }
    ensures { Gives (λ x. (x.items, reader.new)) result (rows_at order count reader.old) }
{
    let mut found = Vec::new(alloc);
    for _ in 0..count {
        line_behind(reader, &mut found, b"row", order as usize, order)?;
    }
    Ok(found)
}

/// A line of one number, from `least` up to below the limit. One out of this range is refused before
/// the line's end is taken, so a reader that gives up is still in that line.
#[tactic(auto, unfolding(certificate_text::specs::Reading::field_at))]
pub fn field(
    reader: &mut Reader<'_>,
    name: &'static [u8],
    least: u16,
    limit: u16,
) -> Result<u16, TextFault>
    requires { 0 < limit }
    ensures read { Gives (λ x. (x, reader.new)) result (field_at name.now least limit reader.old) }
    ensures range { IfOk result (λ x. (least ≤ x) × (x < limit)) }
{
    reader.fixed(name)?;
    reader.fixed(b" ")?;
    let left = reader.left();
    let x = reader.number(limit)?;
    if x < least {
        reader.wants(left, Wanted::Number { least, limit });
        return Err(TextFault::Text);
    }
    reader.fixed(b"\n")?;
    Ok(x)
}

/// Rising numbers below the limit, for as long as spaces stand.
fn rising<A: Allocator>(
    alloc: A,
    reader: &mut Reader<'_>,
    limit: u16,
) -> Result<Vec<u16, A>, TextFault>
    requires { 0 < limit }
    ensures { Gives (λ x. (x.items, reader.new)) result (rising_at limit limit 0 reader.old) }
{
    let mut found = Vec::new(alloc);
    let mut least = 0;
    for _ in 0..limit {
        if !reader.takes(b" ") {
            return Ok(found);
        }
        let left = reader.left();
        let x = reader.number(limit)?;
        if x < least {
            reader.wants(left, Wanted::Greater { limit });
            return Err(TextFault::Text);
        }
        found.push(x)?;
        least = x + 1;
    }
    Ok(found)
}

/// The elements of the portion, one at least.
#[tactic(auto, unfolding(certificate_text::specs::Reading::portion_at))]
pub fn portion<A: Allocator>(
    alloc: A,
    reader: &mut Reader<'_>,
    order: u16,
) -> Result<Vec<u16, A>, TextFault>
    requires { 0 < order }
    ensures { Gives (λ x. (x.items, reader.new)) result (portion_at order reader.old) }
{
    reader.fixed(b"portion")?;
    let left = reader.left();
    let found = rising(alloc, reader, order)?;
    reader.fixed(b"\n")?;
    if found.is_empty() {
        reader.wants(left, Wanted::More);
        return Err(TextFault::Text);
    }
    Ok(found)
}
